// Lives of stores: random calls on a plain and on a coded bank that hold the same random bytes.
// Prints how many calls were made, how many were refused and why, and how many the two banks
// answered differently.
#![tactic(auto)]

mod draw;
mod tally;

use bank::{CodedBank, PlainBank};
use draw::{BYTES, Dice, SLOTS, TASKS};
use rules::{Call, Load};
use runs::Request;
use std::io;
use store::SMALLEST_BANK;
use tally::Tally;

const LIVES: u32 = 40;

// How many random calls come before the seal, and how many after it.
const BEFORE: u32 = 160;

const AFTER: u32 = 832;

const CALLS: u32 = TASKS + BEFORE + 1 + AFTER;

// The tasks, whose first contexts then stand first in their tables, load calls, the seal,
// operators.
fn draw_requests<'a>(
    rt: &HostRuntime,
    dice: &mut Dice,
    bytes: &'a [u8; BYTES],
) -> io::Result<Vec<Request<'a>>> {
    let mut requests = Vec::new(rt.alloc());
    for number in 1..=TASKS {
        requests.push(bare(Load::Task {
            number,
            slots: SLOTS,
        }))?;
    }
    for _ in 0..BEFORE {
        requests.push(draw::load(dice, bytes))?;
    }
    requests.push(bare(Load::Seal))?;
    for _ in 0..AFTER {
        requests.push(draw::request(dice, bytes))?;
    }
    Ok(requests)
}

// A load call with no bytes beside it.
fn bare(load: Load) -> Request<'static> {
    Request {
        call: Call::Load(load),
        bytes: b"",
    }
}

// The same calls on both banks.
fn live(rt: &HostRuntime, dice: &mut Dice, tally: &mut Tally) -> io::Result<()> {
    let content = [7; BYTES];
    let requests = draw_requests(rt, dice, &content)?;
    let mut bytes = vec![in rt.alloc(); 0u8; SMALLEST_BANK]?;
    let mut words = vec![in rt.alloc(); 0u16; SMALLEST_BANK]?;
    for (byte, word) in bytes.iter_mut().zip(words.iter_mut()) {
        *byte = dice.byte();
        *word = hamming::encode(*byte);
    }
    let mut plain = soundness::new_store(PlainBank::new(bytes.as_mut_slice()));
    let mut coded = soundness::new_store(CodedBank::new(words.as_mut_slice()));
    let on_plain = soundness::run(rt.alloc(), &mut plain, &requests)?;
    let on_coded = soundness::run(rt.alloc(), &mut coded, &requests)?;
    for (left, right) in on_plain.iter().zip(on_coded.iter()) {
        tally.count(left, right);
    }
    Ok(())
}

fn main(rt: HostRuntime) -> io::Result<()> {
    let mut dice = Dice::new();
    let mut tally = Tally::new();
    for _ in 0..LIVES {
        live(&rt, &mut dice, &mut tally)?;
    }
    println!(rt;
        "2 x {} calls: {LIVES} lives of {CALLS} calls each, on a plain bank and on a coded one",
        LIVES * CALLS
    )?;
    tally.print(&rt)
}
