// Stores in which one entry leads to the next, over many steps.
use crate::asking::{both, first_two, is_separate, told};
use crate::calls::{SEAL, control, grant, made, make, place, task};
use bank::{Bank, PlainBank};
use rules::Fault;
use sharing::{Reach, Side};
use std::test::Fail;
use store::{SMALLEST_BANK, Store};

const TABLES: u32 = 9;

const ENTRIES: u32 = 64;

// Fills table 0 with objects of one slot. Each but the first is named by the one before it with
// read, and the last with some rights.
fn load_upwards<B: Bank>(store: &mut Store<B>, last: u32) -> Result<(), Fault> {
    make(store, &[task(1, 8), task(2, 8), place(0, 0, 1, 0)])?;
    for index in 1..ENTRIES {
        let rights = if index == 63 { last } else { 1 };
        let calls = [place(0, 0, 1, 0), grant(0, index - 1, 0, 0, index, rights)];
        make(store, &calls)?;
    }
    Ok(())
}

#[test]
fn the_last_of_a_table_is_found_through_all_others(rt: HostRuntime) -> Result<(), Fail> {
    for (last, answer) in [(1, true), (3, false)] {
        let mut memory = vec![in rt.alloc(); 0u8; SMALLEST_BANK]?;
        let mut store = made(PlainBank::new(memory.as_mut_slice()), &[])?;
        load_upwards(&mut store, last)?;
        let calls = [grant(1, 0, 4, 0, 0, 1), grant(2, 0, 4, 0, 63, 1), SEAL];
        make(&mut store, &calls)?;
        assert_eq!(rt; first_two(&store), both(answer));
        // the chain the other way is no way
        let before = told(&store, Side::Only(2), 0, 62);
        assert_eq!(rt; before, (None, false, false));
    }
    Ok(())
}

// The same, but each is named by the one after it, and the first with some rights.
fn load_downwards<B: Bank>(store: &mut Store<B>, last: u32) -> Result<(), Fault> {
    make(store, &[task(1, 8), task(2, 8), place(0, 0, 1, 0)])?;
    for index in 1..ENTRIES {
        let rights = if index == 1 { last } else { 1 };
        let calls = [place(0, 0, 1, 0), grant(0, index, 0, 0, index - 1, rights)];
        make(store, &calls)?;
    }
    Ok(())
}

#[test]
fn a_chain_from_the_last_to_the_first(rt: HostRuntime) -> Result<(), Fail> {
    for (last, answer) in [(1, true), (3, false)] {
        let mut memory = vec![in rt.alloc(); 0u8; SMALLEST_BANK]?;
        let mut store = made(PlainBank::new(memory.as_mut_slice()), &[])?;
        load_downwards(&mut store, last)?;
        let calls = [grant(1, 0, 4, 0, 63, 1), grant(2, 0, 4, 0, 63, 1), SEAL];
        make(&mut store, &calls)?;
        assert_eq!(rt; first_two(&store), both(answer));
    }
    Ok(())
}

// Fills all tables with objects that have one slot. The first is named by slot 0 of the first
// context of task 1, each other one by the object before it, all with read; and the last names the
// first, with some rights.
fn load_chain<B: Bank>(store: &mut Store<B>, last: u32) -> Result<(), Fault> {
    let (mut table, mut index) = (1, 0);
    for next_table in 0..TABLES {
        for _ in 0..ENTRIES {
            if let Ok(next) = store.place(next_table, 0, 1, 0) {
                store.grant(table, index, 0, next_table, next, 1)?;
                (table, index) = (next_table, next);
            }
        }
    }
    store.grant(table, index, 0, 0, 0, last)
}

// Whether a task reaches every entry of a store, and can alter the first of tables 0 and 1 alone.
fn reaches_all<B: Bank>(store: &Store<B>, task: u32) -> bool {
    let own = Reach::of(store, Side::Only(task));
    for table in 0..TABLES {
        for index in 0..ENTRIES {
            let alters = matches!((table, index), (0, 0) | (1, 0));
            if !own.reaches(table, index) || own.alters(table, index) != alters {
                return false;
            }
        }
    }
    true
}

// The context of the only task and 575 objects.
#[test]
fn a_chain_through_nine_full_tables(rt: HostRuntime) -> Result<(), Fail> {
    let mut memory = vec![in rt.alloc(); 0u8; SMALLEST_BANK]?;
    let mut store = made(PlainBank::new(memory.as_mut_slice()), &[task(1, 4)])?;
    load_chain(&mut store, 34)?;
    make(&mut store, &[SEAL])?;
    assert_eq!(rt; is_separate(&store, 1), Some(true));
    // the step from the last to the first adds to what was found before
    let first = told(&store, Side::Only(1), 0, 0);
    assert_eq!(rt; first, (Some(35), true, true));
    assert!(rt; reaches_all(&store, 1));
    Ok(())
}

// The contexts of two tasks and 574 objects, of which both have the first: the step from the last
// to the first decides.
#[test]
fn the_last_step_decides(rt: HostRuntime) -> Result<(), Fail> {
    for (last, answer) in [(1, true), (2, false)] {
        let mut memory = vec![in rt.alloc(); 0u8; SMALLEST_BANK]?;
        let calls = [task(1, 4), task(8, 4)];
        let mut store = made(PlainBank::new(memory.as_mut_slice()), &calls)?;
        load_chain(&mut store, last)?;
        make(&mut store, &[grant(8, 0, 0, 0, 0, 0), SEAL])?;
        assert_eq!(rt; is_separate(&store, 1), Some(answer));
        assert_eq!(rt; is_separate(&store, 8), Some(answer));
    }
    Ok(())
}

// Two objects that can be read once a control has added that right, of which each then shows a
// control of the other's type or of its own.
#[test]
fn controls_are_found_one_by_the_other(rt: HostRuntime) -> Result<(), Fail> {
    for (last, joined, answer) in [(2, 3, false), (4, 5, true)] {
        let mut memory = vec![in rt.alloc(); 0u8; SMALLEST_BANK]?;
        let calls = [
            task(1, 8),
            task(2, 8),
            place(0, 0, 1, 16), // 0: the first
            control(0, 16, 1), // 1: reads the first
            place(0, 0, 1, 17), // 2: the second
            control(0, 17, 1), // 3: reads the second
            control(0, 17, last), // 4: writes the second
            grant(0, 0, 0, 0, 3, 8),
            grant(0, 2, 0, 0, 4, 8),
            grant(1, 0, 3, 0, 2, 0),
            grant(1, 0, 4, 0, 0, 0),
            grant(1, 0, 5, 0, 1, 8),
            grant(2, 0, 4, 0, 2, 0),
            SEAL,
        ];
        let store = made(PlainBank::new(memory.as_mut_slice()), &calls)?;
        assert_eq!(rt; first_two(&store), both(answer), "{last}");
        for (side, index, rights) in [
            (Side::Only(1), 0, Some(1)),
            (Side::Only(1), 2, Some(joined)),
            (Side::Only(1), 4, Some(8)),
            (Side::Only(2), 2, Some(0)),
            (Side::Only(2), 4, None),
        ] {
            let (found, _, _) = told(&store, side, 0, index);
            assert_eq!(rt; found, rights, "{side:?} {index}");
        }
    }
    Ok(())
}

// A control comes to be usable only by a second descriptor of it.
#[test]
fn a_control_found_again_with_more_rights(rt: HostRuntime) -> Result<(), Fail> {
    let mut memory = vec![in rt.alloc(); 0u8; SMALLEST_BANK]?;
    let calls = [
        task(1, 8),
        task(2, 8),
        place(0, 0, 2, 0), // 0: the folder
        control(0, 16, 2), // 1: the control
        place(0, 0, 0, 16), // 2: the object
        grant(0, 0, 1, 0, 1, 8),
        grant(1, 0, 2, 0, 1, 55),
        grant(1, 0, 3, 0, 2, 1),
        grant(1, 0, 4, 0, 0, 1),
        grant(2, 0, 4, 0, 2, 1),
        SEAL,
    ];
    let store = made(PlainBank::new(memory.as_mut_slice()), &calls)?;
    assert_eq!(rt; is_separate(&store, 1), Some(false));
    let of_control = told(&store, Side::Only(1), 0, 1);
    let of_object = told(&store, Side::Only(1), 0, 2);
    assert_eq!(rt; of_control, (Some(63), true, false));
    assert_eq!(rt; of_object, (Some(3), true, true));
    Ok(())
}
