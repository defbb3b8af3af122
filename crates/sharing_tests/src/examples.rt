// Small stores, and what is answered of their tasks. Entries of a table count from 0, and the first
// context of a task is entry 0 of its table.
use crate::asking::{answered, answers, both, first_two, is_separate, told, told_after};
use crate::calls::{
    SEAL, call, control, copy, create, grant, made, make, null, place, refine, return_result, task,
    typed,
};
use bank::{CodedBank, PlainBank};
use rules::{Call, slot};
use sharing::Side;
use std::test::Fail;
use store::SMALLEST_BANK;

// Both tasks have in slot 4 a descriptor of one object of eight bytes.
fn record(first: u32, second: u32) -> [Call; 5] {
    [
        task(1, 8),
        task(2, 8),
        place(0, 8, 0, 0),
        grant(1, 0, 4, 0, 0, first),
        grant(2, 0, 4, 0, 0, second),
    ]
}

#[test]
fn a_record_may_be_read_by_both_and_written_by_none(rt: HostRuntime) -> Result<(), Fail> {
    for (first, second, answer) in [
        (1, 1, true),
        (0, 0, true),
        (61, 61, true),
        (1, 3, false),
        (3, 1, false),
        (0, 2, false),
        (2, 2, false),
        (63, 63, false),
    ] {
        let calls = record(first, second);
        let plain = answers(rt.alloc(), &calls, &[SEAL])?;
        assert_eq!(rt; plain, both(answer), "{first} {second}");
        let mut words = vec![in rt.alloc(); 0xaau16; SMALLEST_BANK]?;
        let coded = answered(CodedBank::new(words.as_mut_slice()), &calls, &[SEAL])?;
        assert_eq!(rt; coded, both(answer), "{first} {second}");
    }
    Ok(())
}

#[test]
fn all_that_is_told_of_a_record(rt: HostRuntime) -> Result<(), Fail> {
    let calls = record(5, 34);
    let then = [grant(1, 0, 5, 0, 0, 16), SEAL];
    for (table, index, own, theirs) in [
        // two descriptors of it, and their rights together
        (0, 0, (Some(21), true, false), (Some(34), true, true)),
        // a context is reached and can be altered, and nobody has a descriptor of it
        (1, 0, (None, true, true), (None, false, false)),
        (2, 0, (None, false, false), (None, true, true)),
        // what is not there
        (0, 1, (None, false, false), (None, false, false)),
        (0, 64, (None, false, false), (None, false, false)),
        (1, 63, (None, false, false), (None, false, false)),
        (8, 63, (None, false, false), (None, false, false)),
        (9, 0, (None, false, false), (None, false, false)),
        (0, 128, (None, false, false), (None, false, false)),
        (67_108_864, 0, (None, false, false), (None, false, false)),
        (
            4_294_967_295,
            4_294_967_295,
            (None, false, false),
            (None, false, false),
        ),
    ] {
        let by_own = told_after(rt.alloc(), &calls, &then, Side::Only(1), (table, index))?;
        let by_theirs = told_after(rt.alloc(), &calls, &then, Side::Others(1), (table, index))?;
        assert_eq!(rt; (by_own, by_theirs), (own, theirs), "{table} {index}");
    }
    Ok(())
}

#[test]
fn what_only_one_reaches_may_be_written(rt: HostRuntime) -> Result<(), Fail> {
    let calls = [
        task(1, 8),
        task(2, 8),
        place(0, 8, 0, 0), // 0: of the first
        place(2, 8, 0, 0), // 1 of table 2: of the first too
        place(0, 8, 0, 0), // 1: of the second
        place(0, 8, 2, 0), // 2: of nobody
        grant(0, 2, 0, 0, 0, 63),
        grant(0, 2, 1, 0, 1, 63),
        grant(1, 0, 4, 0, 0, 63),
        grant(1, 0, 5, 2, 1, 63),
        grant(2, 0, 4, 0, 1, 63),
        SEAL,
    ];
    let found = answers(rt.alloc(), &calls, &[])?;
    assert_eq!(rt; found, both(true));
    Ok(())
}

#[test]
fn a_task_alone_is_separate(rt: HostRuntime) -> Result<(), Fail> {
    let mut memory = vec![in rt.alloc(); 0u8; SMALLEST_BANK]?;
    let calls = [
        task(7, 8),
        place(0, 8, 2, 0),
        grant(7, 0, 4, 0, 0, 63),
        grant(0, 0, 0, 0, 0, 63),
        SEAL,
    ];
    let mut store = made(PlainBank::new(memory.as_mut_slice()), &calls)?;
    assert_eq!(rt; is_separate(&store, 7), Some(true));
    make(
        &mut store,
        &[create(7, slot(5), 8, 0), copy(7, slot(5), slot(6))],
    )?;
    assert_eq!(rt; is_separate(&store, 7), Some(true));
    let made_by_it = told(&store, Side::Others(1), 7, 1);
    assert_eq!(rt; made_by_it, (Some(63), true, true));
    Ok(())
}

// Both tasks have a folder of one slot, with these rights. It names a record, with these rights,
// which the first task has too, with others.
fn folder(first: u32, second: u32, inside: u32, beside: u32) -> [Call; 9] {
    [
        task(1, 8),
        task(2, 8),
        place(0, 8, 0, 0), // 0: the record
        place(0, 0, 1, 0), // 1: the folder
        grant(0, 1, 0, 0, 0, inside),
        grant(1, 0, 4, 0, 1, first),
        grant(2, 0, 4, 0, 1, second),
        grant(1, 0, 5, 0, 0, beside),
        SEAL,
    ]
}

#[test]
fn what_a_shared_folder_names_is_reached(rt: HostRuntime) -> Result<(), Fail> {
    for (first, second, inside, beside, answer) in [
        (1, 1, 1, 1, true),
        // the record can be written by way of the folder, or by the descriptor beside it
        (1, 1, 2, 0, false),
        (0, 1, 2, 0, false),
        (1, 1, 0, 2, false),
        (1, 1, 1, 3, false),
        // without the right to read, a folder shows no slots
        (1, 0, 2, 0, true),
        (0, 60, 2, 2, true),
        (0, 0, 63, 63, true),
        // the folder itself can be altered
        (1, 3, 1, 1, false),
        (2, 0, 1, 1, false),
    ] {
        let calls = folder(first, second, inside, beside);
        let found = answers(rt.alloc(), &calls, &[])?;
        assert_eq!(rt; found, both(answer), "{first} {second} {inside} {beside}");
    }
    Ok(())
}

#[test]
fn a_folder_without_read_shows_nothing(rt: HostRuntime) -> Result<(), Fail> {
    let calls = folder(1, 62, 7, 0);
    for (side, index, answer) in [
        (Side::Only(1), 0, (Some(7), true, true)),
        (Side::Only(2), 0, (None, false, false)),
        (Side::Only(2), 1, (Some(62), true, true)),
    ] {
        let found = told_after(rt.alloc(), &calls, &[], side, (0, index))?;
        assert_eq!(rt; found, answer, "{side:?} {index}");
    }
    Ok(())
}

#[test]
fn a_control_adds_the_right_to_write(rt: HostRuntime) -> Result<(), Fail> {
    for (kind, adds, rights, answer) in [
        (20, 2, 8, false),
        (20, 63, 63, false),
        // it adds another right, or is of another type, or may not be used
        (20, 61, 63, true),
        (20, 0, 63, true),
        (21, 2, 63, true),
        (20, 2, 55, true),
        (20, 2, 0, true),
    ] {
        let mut memory = vec![in rt.alloc(); 0u16; SMALLEST_BANK]?;
        // both may read an object of type 20, and the first has a control
        let calls = [
            task(1, 8),
            task(2, 8),
            place(0, 8, 0, 20),
            control(0, kind, adds),
            grant(1, 0, 4, 0, 0, 1),
            grant(2, 0, 4, 0, 0, 1),
            grant(1, 0, 5, 0, 1, rights),
            SEAL,
        ];
        let found = answered(CodedBank::new(memory.as_mut_slice()), &calls, &[])?;
        assert_eq!(rt; found, both(answer), "{kind} {adds} {rights}");
    }
    Ok(())
}

#[test]
fn others_act_together(rt: HostRuntime) -> Result<(), Fail> {
    let mut memory = vec![in rt.alloc(); 0u8; SMALLEST_BANK]?;
    let calls = [
        task(1, 8),
        task(2, 8),
        task(3, 8),
        task(4, 8),
        place(0, 8, 0, 255),
        control(3, 255, 2), // 1 of table 3
        grant(1, 0, 4, 0, 0, 1),
        grant(2, 0, 4, 3, 1, 8),
        grant(3, 0, 4, 0, 0, 1),
        SEAL,
    ];
    let store = made(PlainBank::new(memory.as_mut_slice()), &calls)?;
    for (task, answer) in [
        // tasks 2 and 3 together can write the object, task 1 reads it
        (1, false),
        // all that task 2 has is the control, which cannot be altered
        (2, true),
        (3, false),
        (4, true),
    ] {
        assert_eq!(rt; is_separate(&store, task), Some(answer), "{task}");
    }
    for (side, table, index, answer) in [
        (Side::Only(2), 0, 0, (None, false, false)),
        (Side::Only(3), 0, 0, (Some(1), true, false)),
        (Side::Others(1), 0, 0, (Some(3), true, true)),
        (Side::Others(1), 3, 1, (Some(8), true, false)),
    ] {
        let found = told(&store, side, table, index);
        assert_eq!(rt; found, answer, "{side:?} {table} {index}");
    }
    Ok(())
}

#[test]
fn a_control_with_write_is_no_object(rt: HostRuntime) -> Result<(), Fail> {
    let calls = [
        task(1, 8),
        task(2, 8),
        control(0, 20, 63),
        grant(1, 0, 4, 0, 0, 63),
        grant(2, 0, 4, 0, 0, 63),
        SEAL,
    ];
    let before = answers(rt.alloc(), &calls, &[])?;
    assert_eq!(rt; before, both(true));
    // but what each makes by it is its own
    let then = [
        typed(1, slot(4), slot(5), 8, 0),
        typed(2, slot(4), slot(5), 8, 0),
    ];
    let after = answers(rt.alloc(), &calls, &then)?;
    assert_eq!(rt; after, both(true));
    Ok(())
}

#[test]
fn a_yes_stays_and_every_open_context_counts(rt: HostRuntime) -> Result<(), Fail> {
    let calls = record(33, 33);
    let before = answers(rt.alloc(), &calls, &[SEAL])?;
    assert_eq!(rt; before, both(true));
    let called = [
        SEAL,
        call(1, slot(4), 8),
        create(1, slot(4), 8, 1),
        copy(1, slot(4), slot(5)),
    ];
    let inside = answers(rt.alloc(), &calls, &called)?;
    assert_eq!(rt; inside, both(true));
    for (index, answer) in [
        (0, (None, true, true)),
        (1, (None, true, true)),
        (2, (Some(63), true, true)),
    ] {
        let found = told_after(rt.alloc(), &calls, &called, Side::Only(1), (1, index))?;
        assert_eq!(rt; found, answer, "{index}");
    }
    let returned = [
        SEAL,
        call(1, slot(4), 8),
        create(1, slot(4), 8, 1),
        copy(1, slot(4), slot(5)),
        call(2, slot(4), 4),
        return_result(1, slot(0)),
    ];
    let after = answers(rt.alloc(), &calls, &returned)?;
    assert_eq!(rt; after, both(true));
    for (index, answer) in [(0, (None, true, true)), (1, (None, false, false))] {
        let found = told_after(rt.alloc(), &calls, &returned, Side::Only(1), (1, index))?;
        assert_eq!(rt; found, answer, "{index}");
    }
    Ok(())
}

#[test]
fn a_descriptor_in_a_lower_context_counts(rt: HostRuntime) -> Result<(), Fail> {
    let mut memory = vec![in rt.alloc(); 0u8; SMALLEST_BANK]?;
    let mut store = made(PlainBank::new(memory.as_mut_slice()), &record(3, 1))?;
    // the first call passes nothing on
    make(
        &mut store,
        &[SEAL, call(1, slot(5), 4), call(1, slot(1), 4)],
    )?;
    assert_eq!(rt; store.level(1), 3);
    assert_eq!(rt; first_two(&store), both(false));
    let of_record = told(&store, Side::Only(1), 0, 0);
    assert_eq!(rt; of_record, (Some(3), true, true));
    Ok(())
}

// Both tasks are given an object of eight bytes and two slots, refine it and keep their refinements
// alone: the first its bytes 0 to 3 and slot 0, the second its bytes 4 to 7 and slot 1.
fn parts(first: u32, second: u32) -> [Call; 14] {
    [
        task(1, 8),
        task(2, 8),
        place(0, 8, 2, 0), // 0: the whole
        place(0, 4, 0, 0), // 1: left
        place(0, 4, 0, 0), // 2: right
        grant(0, 0, 0, 0, 1, 3),
        grant(0, 0, 1, 0, 2, 3),
        grant(1, 0, 4, 0, 0, first),
        grant(2, 0, 4, 0, 0, second),
        SEAL,
        refine(1, 0, 4, 0, 1),
        refine(2, 4, 4, 1, 1),
        null(1, slot(4)),
        null(2, slot(4)),
    ]
}

#[test]
fn an_object_beneath_parts_counts_whole(rt: HostRuntime) -> Result<(), Fail> {
    for (first, second, answer) in [
        (33, 33, true),
        (33, 35, false),
        (35, 33, false),
        (34, 32, false),
        (32, 32, true),
    ] {
        let found = answers(rt.alloc(), &parts(first, second), &[])?;
        assert_eq!(rt; found, both(answer), "{first} {second}");
    }
    Ok(())
}

#[test]
fn a_part_shows_its_own_slots(rt: HostRuntime) -> Result<(), Fail> {
    let calls = parts(33, 35);
    for (side, table, index, answer) in [
        // the object beneath, of which there is no descriptor any more
        (Side::Only(1), 0, 0, (None, true, false)),
        (Side::Others(1), 0, 0, (None, true, true)),
        // what the slots of the two parts name
        (Side::Only(1), 0, 1, (Some(3), true, true)),
        (Side::Only(1), 0, 2, (None, false, false)),
        (Side::Others(1), 0, 1, (None, false, false)),
        (Side::Others(1), 0, 2, (Some(3), true, true)),
        // the parts, which are no objects
        (Side::Only(1), 1, 1, (Some(33), true, false)),
        (Side::Others(1), 2, 1, (Some(35), true, false)),
    ] {
        let found = told_after(rt.alloc(), &calls, &[], side, (table, index))?;
        assert_eq!(rt; found, answer, "{side:?} {table} {index}");
    }
    Ok(())
}

#[test]
fn a_part_of_a_typed_object_is_generic(rt: HostRuntime) -> Result<(), Fail> {
    let calls = [
        task(1, 8),
        task(2, 8),
        place(0, 8, 0, 20),
        control(0, 20, 2),
        grant(1, 0, 4, 0, 0, 33),
        grant(1, 0, 6, 0, 1, 40),
        grant(2, 0, 4, 0, 0, 1),
        SEAL,
    ];
    let before = answers(rt.alloc(), &calls, &[])?;
    assert_eq!(rt; before, both(false));
    let part = refine(1, 0, 8, 0, 0);
    let refined = answers(rt.alloc(), &calls, &[part])?;
    assert_eq!(rt; refined, both(false));
    // with the part alone, the control adds nothing
    let alone = answers(rt.alloc(), &calls, &[part, null(1, slot(4))])?;
    assert_eq!(rt; alone, both(true));
    Ok(())
}
