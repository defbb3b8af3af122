// A science task that fills its table, while the attitude task creates in the middle of a slew.
use crate::replay::Replay;
use bank::PlainBank;
use rules::{Fault, slot};
use std::io;
use store::Store;

const ATTITUDE: u32 = 1;

const SCIENCE: u32 = 3;

pub(crate) fn steps(replay: &mut Replay) -> io::Result<()> {
    replay.step("load: both tasks", load)?;
    replay.step(
        "the attitude task begins a slew",
        |store| store.call(ATTITUDE, slot(0), 4),
    )?;
    let made = (0..100)
        .take_while(|_| create_science(&mut replay.store).is_ok())
        .count();
    println!(replay.rt; "  the science task creates {made} objects")?;
    replay.step("the science task creates one more", create_science)?;
    replay.step("the attitude task creates an object of 48 bytes", |store| {
        store.create(ATTITUDE, slot(1), 48, 2)
    })?;
    replay.step("the attitude task writes into it", |store| {
        store.write(ATTITUDE, slot(1), 44, &[1, 2, 3, 4])
    })?;
    replay.show_bytes(
        ATTITUDE,
        slot(1),
        40,
        &mut [0; 8],
        "the attitude task reads the end of it",
        "the attitude task cannot read it",
    )?;
    replay.step("the attitude task ends the slew", |store| {
        store.return_result(ATTITUDE, slot(2))
    })
}

fn load(store: &mut Store<PlainBank>) -> Result<(), Fault> {
    store.task(ATTITUDE, 8)?;
    store.task(SCIENCE, 8)?;
    store.seal()
}

// The science task creates an object of 30 bytes, always in the same slot.
fn create_science(store: &mut Store<PlainBank>) -> Result<(), Fault> {
    store.create(SCIENCE, slot(1), 30, 0)
}
