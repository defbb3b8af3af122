// Questions of a store, each answered with plain values.
use crate::calls::{made, make};
use bank::{Bank, PlainBank};
use rules::{Call, Fault};
use sharing::{Reach, Side, separate};
use std::alloc::Global;
use std::test::Fail;
use store::{SMALLEST_BANK, Store};

// Whether a task is separate, or nothing where the question is refused.
pub(crate) fn is_separate<B: Bank>(store: &Store<B>, task: u32) -> Option<bool> {
    separate(store, task).ok()
}

// The answers of tasks 1 and 2.
pub(crate) fn first_two<B: Bank>(store: &Store<B>) -> (Option<bool>, Option<bool>) {
    (is_separate(store, 1), is_separate(store, 2))
}

// Both answer so.
pub(crate) fn both(answer: bool) -> (Option<bool>, Option<bool>) {
    (Some(answer), Some(answer))
}

// What is told of an entry: its rights, whether it is reached and whether it can be altered.
pub(crate) fn told<B: Bank>(
    store: &Store<B>,
    side: Side,
    table: u32,
    index: u32,
) -> (Option<u8>, bool, bool) {
    let reach = Reach::of(store, side);
    (
        reach.rights(table, index).map(|rights| rights.sum()),
        reach.reaches(table, index),
        reach.alters(table, index),
    )
}

// What tasks 1 and 2 answer after some calls and then others, in a new store over a bank.
pub(crate) fn answered<B: Bank + Drop>(
    bank: B,
    calls: &[Call],
    then: &[Call],
) -> Result<(Option<bool>, Option<bool>), Fault> {
    let mut store = made(bank, calls)?;
    make(&mut store, then)?;
    Ok(first_two(&store))
}

// The same over a plain bank.
pub(crate) fn answers(
    alloc: Global,
    calls: &[Call],
    then: &[Call],
) -> Result<(Option<bool>, Option<bool>), Fail> {
    let mut memory = vec![in alloc; 0xaau8; SMALLEST_BANK]?;
    let found = answered(PlainBank::new(memory.as_mut_slice()), calls, then)?;
    Ok(found)
}

// What is told of an entry after such calls.
pub(crate) fn told_after(
    alloc: Global,
    calls: &[Call],
    then: &[Call],
    side: Side,
    spot: (u32, u32),
) -> Result<(Option<u8>, bool, bool), Fail> {
    let mut memory = vec![in alloc; 0xaau8; SMALLEST_BANK]?;
    let mut store = made(PlainBank::new(memory.as_mut_slice()), calls)?;
    make(&mut store, then)?;
    Ok(told(&store, side, spot.0, spot.1))
}
