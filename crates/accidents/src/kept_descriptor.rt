// A payload that keeps a descriptor after its object has ended, while the place goes to a filter
// state.
use crate::replay::Replay;
use bank::PlainBank;
use rules::{Fault, slot, slot_of};
use std::io;
use store::Store;

const TASK: u32 = 1;

pub(crate) fn steps(replay: &mut Replay) -> io::Result<()> {
    replay.step(
        "load: an object with one slot, to keep things in, in slot 2",
        load,
    )?;
    keep(replay)?;
    replay.step("the filter creates an object for its gains", |store| {
        store.create(TASK, slot(4), 16, 0)
    })?;
    replay.step("the filter creates an object for its state", |store| {
        store.create(TASK, slot(3), 4, 0)
    })?;
    show_place(replay, "the state is", slot(3))?;
    replay.step("the filter writes its state", |store| {
        store.write(TASK, slot(3), 0, &[3, 1, 4, 1])
    })?;
    replay.step(
        "the payload routine is called again",
        |store| store.call(TASK, slot(2), 4),
    )?;
    replay.step(
        "it writes through the slot where the descriptor was",
        |store| store.write(TASK, slot(2), 0, &[0; 4]),
    )?;
    replay.step(
        "it opens the object for keeping",
        |store| store.copy(TASK, slot(0), slot(1)),
    )?;
    replay.step("it writes through what was kept there", |store| {
        store.write(TASK, slot_of(1, 0), 0, &[0; 4])
    })?;
    replay.step("it returns", |store| store.return_result(TASK, slot(3)))?;
    replay.show_bytes(
        TASK,
        slot(3),
        0,
        &mut [0; 4],
        "the filter reads its state",
        "the filter cannot read its state",
    )
}

fn load(store: &mut Store<PlainBank>) -> Result<(), Fault> {
    store.task(TASK, 8)?;
    let keeper = store.place(0, 0, 1, 0)?;
    store.grant(TASK, 0, 2, 0, keeper, 3)?;
    store.seal()
}

// The routine runs once: it makes its scratch object, tries to keep a descriptor of it in two ways,
// and returns.
fn keep(replay: &mut Replay) -> io::Result<()> {
    replay.step(
        "the payload routine is called, with the object for keeping",
        |store| store.call(TASK, slot(2), 4),
    )?;
    replay.step(
        "it creates a scratch object",
        |store| store.create(TASK, slot(2), 4, 0),
    )?;
    show_place(replay, "the scratch object is", slot(2))?;
    replay.step(
        "it opens the object for keeping",
        |store| store.copy(TASK, slot(0), slot(1)),
    )?;
    replay.step(
        "it copies the descriptor into it",
        |store| store.copy(TASK, slot(2), slot_of(1, 0)),
    )?;
    replay.step("it returns the descriptor as its result", |store| {
        store.return_result(TASK, slot(2))
    })?;
    replay.step(
        "it returns nothing",
        |store| store.return_result(TASK, slot(3)),
    )
}

fn show_place(replay: &Replay, what: &str, selector: u16) -> io::Result<()> {
    match replay.store.see(TASK, selector) {
        Ok(Some((table, index, _))) => {
            println!(replay.rt; "  {what} entry {index} of table {table}")
        }
        Ok(None) => println!(replay.rt; "  {what} not there"),
        Err(_) => println!(replay.rt; "  {what} not to be seen"),
    }
}
