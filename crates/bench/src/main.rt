// bench BANK WORK COUNT: makes COUNT rounds of one kind of work on a store and prints a checksum of
// what they answered.
#![tactic(auto)]

use bank::{LentBank, Unit};
use rules::Fault;
use std::{env, io};
use store::SMALLEST_BANK;
use two_chips::TwoChipBank;

mod names;
mod rounds;

use names::{BankKind, Work};
use rounds::{Numbers, sum};

fn main(rt: HostRuntime) -> io::Result<()> {
    let mut args = env::args(&rt)?;
    let rest = args.len().min(100) as u32;
    let _ = args.next();
    let (Some(bank), Some(work), Some(count)) = (args.next(), args.next(), args.next()) else {
        return usage(&rt);
    };
    let (Ok(bank), Ok(work), Ok(count)) = (
        bank.parse::<BankKind>(),
        work.parse::<Work>(),
        count.parse::<u32>(),
    ) else {
        return usage(&rt);
    };
    let numbers = Numbers {
        task: rest.saturating_sub(3),
        zero: rest.saturating_sub(4),
    };
    match bank {
        BankKind::Plain => run::<u8>(&rt, work, count, numbers),
        BankKind::Coded => run::<u16>(&rt, work, count, numbers),
        BankKind::TwoChip => run_on_chips(&rt, work, count, numbers),
    }
}

// Makes the rounds over a bank of these units, all of which mean 0, and prints their checksum.
fn run<U: Unit>(rt: &HostRuntime, work: Work, count: u32, numbers: Numbers) -> io::Result<()> {
    let mut memory = vec![in rt.alloc(); U::encode(0); SMALLEST_BANK]?;
    print(
        rt,
        sum(LentBank::new(memory.as_mut_slice()), work, count, numbers),
    )
}

// The same over a bank on two chips.
fn run_on_chips(rt: &HostRuntime, work: Work, count: u32, numbers: Numbers) -> io::Result<()> {
    let mut first = vec![in rt.alloc(); 0u8; SMALLEST_BANK / 2]?;
    let mut second = vec![in rt.alloc(); 0u8; SMALLEST_BANK / 2]?;
    print(
        rt,
        sum(
            TwoChipBank::new(first.as_mut_slice(), second.as_mut_slice()),
            work,
            count,
            numbers,
        ),
    )
}

fn usage(rt: &HostRuntime) -> io::Result<()> {
    println!(rt;
        "bench BANK WORK COUNT: plain, coded or two_chips; copy copy_env null restrict amplify read1 read64 read1024 write1 write64 write1024 see look call_return call_create_return call_typed_return call_refine_return fault"
    )
}

fn print(rt: &HostRuntime, sum: Result<u64, Fault>) -> io::Result<()> {
    match sum {
        Ok(sum) => println!(rt; "{sum}"),
        Err(fault) => println!(rt; "refused with fault {}", fault.reason.number()),
    }
}
