// The object store over a bank: its load calls, then its operators, each of which may also be made
// by `Store::perform`.
//
//     let mut memory = [0u8; SMALLEST_BANK];
//     let mut store = Store::new(PlainBank::new(&mut memory));
//     // Two tasks with four slots each, and an object of eight data bytes: task 1 may read and
//     // write it, task 2 read it.
//     store.task(1, 4)?;
//     store.task(2, 4)?;
//     let record = store.place(0, 8, 0, 0)?;
//     store.grant(1, 0, 0, 0, record, 3)?;
//     store.grant(2, 0, 0, 0, record, 1)?;
//     store.seal()?;
//     store.write(1, slot(0), 2, &[7, 8])?;
//     let mut buffer = [0u8; 4];
//     store.read(2, slot(0), 0, &mut buffer)?;
//
// The buffer then holds 0, 0, 7, 8; a write by task 2 would be refused with `MissingRight`.
#![tactic(auto)]

mod extent;
mod load;
mod making;
mod operands;
mod operators;
mod perform;
mod store;

pub use store::{SMALLEST_BANK, Store};
