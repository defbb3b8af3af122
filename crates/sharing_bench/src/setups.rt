// Stores that are asked whether task 1 is separate.
use bank::Bank;
use rules::{Fault, slot, slot_of};
use store::Store;

const TASKS: u32 = 8;

const TABLES: u32 = 9;

const ENTRIES: u32 = 64;

// The types of the users begin here.
const KIND: u32 = 16;

// How a store is loaded. The answer is yes in all, so that no part of the search is left out.
#[derive(Clone, Copy, Debug, PartialEq, Eq)]
pub(crate) enum Setup {
    // Two tasks with four empty slots each.
    Bare,
    // Eight tasks with twenty entries each.
    Mission,
    // Full tables: two tasks, and objects of which each names the next.
    Chain,
    // The same of one type, and behind the last five controls, each of which adds another right.
    Controls,
    // Full tables: eight tasks with 63 refinements each, which show 512 slots that are in use.
    Parts,
}

impl Setup {
    pub(crate) fn load<B: Bank>(self, store: &mut Store<B>) -> Result<(), Fault> {
        match self {
            Setup::Bare => load_bare(store),
            Setup::Mission => load_mission(store),
            Setup::Chain => load_chain(store),
            Setup::Controls => load_controls(store),
            Setup::Parts => load_parts(store),
        }
    }
}

fn load_bare<B: Bank>(store: &mut Store<B>) -> Result<(), Fault> {
    store.task(1, 4)?;
    store.task(2, 4)?;
    store.seal()
}

fn load_chain<B: Bank>(store: &mut Store<B>) -> Result<(), Fault> {
    fill(store, 0)?;
    store.seal()
}

fn load_controls<B: Bank>(store: &mut Store<B>) -> Result<(), Fault> {
    let hub = store.place(0, 0, 5, KIND)?;
    for (at, right) in [(0, 1), (1, 4), (2, 8), (3, 16), (4, 32)] {
        let control = store.control(0, KIND, right)?;
        store.grant(0, hub, at, 0, control, 8)?;
    }
    let (table, index) = fill(store, KIND)?;
    store.grant(table, index, 0, 0, hub, 1)?;
    store.seal()
}

// Loads two tasks, and fills the tables with objects of a type that have one slot. Both tasks can
// read the first, and each object names the next; which is the last, it answers.
fn fill<B: Bank>(store: &mut Store<B>, kind: u32) -> Result<(u32, u32), Fault> {
    store.task(1, 4)?;
    store.task(2, 4)?;
    let first = store.place(0, 0, 1, kind)?;
    store.grant(1, 0, 0, 0, first, 1)?;
    store.grant(2, 0, 0, 0, first, 1)?;
    let (mut table, mut index) = (0, first);
    for next_table in 0..TABLES {
        for _ in 0..ENTRIES {
            if let Ok(next) = store.place(next_table, 0, 1, kind) {
                store.grant(table, index, 0, next_table, next, 1)?;
                (table, index) = (next_table, next);
            }
        }
    }
    Ok((table, index))
}

fn load_parts<B: Bank>(store: &mut Store<B>) -> Result<(), Fault> {
    let whole = store.place(0, 0, 512, 0)?;
    for _ in 1..ENTRIES {
        store.place(0, 0, 0, 0)?;
    }
    for at in 0..512 {
        store.grant(0, whole, at, 0, at % ENTRIES, 1)?;
    }
    for task in 1..=TASKS {
        store.task(task, 64)?;
        store.grant(task, 0, 0, 0, whole, 1)?;
    }
    store.seal()?;
    for task in 1..=TASKS {
        for at in 1..64 {
            store.refine(task, slot(0), slot(at), 0, 0, 0, 512)?;
        }
    }
    Ok(())
}

// Two sets of parameters stand in table 0, which all may read. In the table of each task stand its
// two contexts, a folder of eight slots with seven records in it, a chain of three messages, two
// objects of a type with its control, a table of its own that the next task may read too, and three
// parts of records.
fn load_mission<B: Bank>(store: &mut Store<B>) -> Result<(), Fault> {
    let parameters = store.place(0, 64, 1, 0)?;
    let more = store.place(0, 256, 0, 0)?;
    store.grant(0, parameters, 0, 0, more, 1)?;
    for task in 1..=TASKS {
        store.task(task, 16)?;
    }
    for task in 1..=TASKS {
        let folder = store.place(task, 0, 8, 0)?;
        for at in 0..7 {
            let record = store.place(task, 24, 1, 0)?;
            store.grant(task, folder, at, task, record, 3)?;
            store.grant(task, record, 0, 0, parameters, 1)?;
        }
        let first = store.place(task, 48, 1, 0)?;
        let second = store.place(task, 48, 1, 0)?;
        let third = store.place(task, 48, 1, 0)?;
        store.grant(task, first, 0, task, second, 3)?;
        store.grant(task, second, 0, task, third, 3)?;
        let kind = KIND + task;
        let control = store.control(task, kind, 3)?;
        for at in 6..8 {
            let sealed = store.place(task, 32, 0, kind)?;
            store.grant(task, 0, at, task, sealed, 0)?;
        }
        let shared = store.place(task, 128, 2, 0)?;
        store.grant(task, 0, 1, task, folder, 3)?;
        store.grant(task, 0, 2, 0, parameters, 1)?;
        store.grant(task, 0, 4, task, first, 3)?;
        store.grant(task, 0, 5, task, control, 12)?;
        store.grant(task, 0, 8, task, shared, 1)?;
        store.grant(1 + task % TASKS, 0, 9, task, shared, 1)?;
    }
    store.seal()?;
    for task in 1..=TASKS {
        for at in 0..3 {
            store.refine(task, slot_of(1, at), slot(10 + at), 0, 8, 0, 1)?;
        }
        store.call(task, slot(1), 16)?;
    }
    Ok(())
}
