// sharing_bench BANK STORE COUNT: asks COUNT times whether task 1 of a store is separate, and prints
// how often the answer was yes.
#![tactic(auto)]

use bank::{Bank, LentBank, Unit};
use rules::Fault;
use sharing::separate;
use std::{env, io};
use store::{SMALLEST_BANK, Store};
use two_chips::TwoChipBank;

mod names;
mod setups;

use names::BankKind;
use setups::Setup;

fn main(rt: HostRuntime) -> io::Result<()> {
    let mut args = env::args(&rt)?;
    let _ = args.next();
    let (Some(bank), Some(setup), Some(count)) = (args.next(), args.next(), args.next()) else {
        return usage(&rt);
    };
    let (Ok(bank), Ok(setup), Ok(count)) = (
        bank.parse::<BankKind>(),
        setup.parse::<Setup>(),
        count.parse::<u32>(),
    ) else {
        return usage(&rt);
    };
    match bank {
        BankKind::Plain => run::<u8>(&rt, setup, count),
        BankKind::Coded => run::<u16>(&rt, setup, count),
        BankKind::TwoChip => run_on_chips(&rt, setup, count),
    }
}

// Asks of a store over a bank of these units.
fn run<U: Unit>(rt: &HostRuntime, setup: Setup, count: u32) -> io::Result<()> {
    let mut memory = vec![in rt.alloc(); U::encode(0); SMALLEST_BANK]?;
    print(rt, ask(LentBank::new(memory.as_mut_slice()), setup, count))
}

// The same over a bank on two chips.
fn run_on_chips(rt: &HostRuntime, setup: Setup, count: u32) -> io::Result<()> {
    let mut first = vec![in rt.alloc(); 0u8; SMALLEST_BANK / 2]?;
    let mut second = vec![in rt.alloc(); 0u8; SMALLEST_BANK / 2]?;
    let bank = TwoChipBank::new(first.as_mut_slice(), second.as_mut_slice());
    print(rt, ask(bank, setup, count))
}

// How often the answer is yes.
fn ask<B: Bank + Drop>(bank: B, setup: Setup, count: u32) -> Result<u32, Fault> {
    let mut store = Store::new(bank);
    setup.load(&mut store)?;
    let mut yes = 0u32;
    for _ in 0..count {
        if separate(&store, 1)? {
            yes = yes.wrapping_add(1);
        }
    }
    Ok(yes)
}

fn usage(rt: &HostRuntime) -> io::Result<()> {
    println!(rt;
        "sharing_bench BANK STORE COUNT: plain, coded or two_chips; bare mission chain controls parts"
    )
}

fn print(rt: &HostRuntime, yes: Result<u32, Fault>) -> io::Result<()> {
    match yes {
        Ok(yes) => println!(rt; "{yes}"),
        Err(fault) => println!(rt; "refused with fault {}", fault.reason.number()),
    }
}
