// The faults with which the question is refused.
use crate::asking::is_separate;
use crate::calls::{SEAL, made, task};
use bank::{Bank, PlainBank};
use rules::{Fault, slot};
use sharing::separate;
use std::test::Fail;
use store::{SMALLEST_BANK, Store};

// The parts of a fault but its layer.
fn parts_of<T: Drop>(answer: Result<T, Fault>) -> Option<(u8, u32, u8, u16)> {
    answer.err().map(|fault| (
        fault.reason.number(),
        fault.task,
        fault.place,
        fault.selector,
    ))
}

// Of a task, the fault of the question and that of an operator.
fn faults<B: Bank>(
    store: &Store<B>,
    task: u32,
) -> (Option<(u8, u32, u8, u16)>, Option<(u8, u32, u8, u16)>) {
    (
        parts_of(separate(store, task)),
        parts_of(store.see(task, slot(0))),
    )
}

#[test]
fn a_small_bank_is_told_first(rt: HostRuntime) -> Result<(), Fail> {
    let mut memory = vec![in rt.alloc(); 0u8; SMALLEST_BANK - 1]?;
    let store = made(PlainBank::new(memory.as_mut_slice()), &[])?;
    for task in [0, 1, 8, 9, 4_294_967_295] {
        let fault = Some((1, task, 0, 0));
        assert_eq!(rt; faults(&store, task), (fault, fault));
    }
    Ok(())
}

#[test]
fn then_that_loading_has_not_ended(rt: HostRuntime) -> Result<(), Fail> {
    let mut memory = vec![in rt.alloc(); 0u8; SMALLEST_BANK]?;
    let store = made(PlainBank::new(memory.as_mut_slice()), &[task(1, 4)])?;
    for task in [0, 1, 2, 9, 4_294_967_295] {
        let fault = Some((2, task, 0, 0));
        assert_eq!(rt; faults(&store, task), (fault, fault));
    }
    Ok(())
}

#[test]
fn then_that_the_task_is_not_loaded(rt: HostRuntime) -> Result<(), Fail> {
    let mut memory = vec![in rt.alloc(); 0u8; SMALLEST_BANK]?;
    let calls = [task(1, 4), task(8, 4), SEAL];
    let store = made(PlainBank::new(memory.as_mut_slice()), &calls)?;
    for task in [0, 2, 7, 9, 10, 65_537, 4_294_967_295] {
        let fault = Some((3, task, 0, 0));
        assert_eq!(rt; faults(&store, task), (fault, fault));
    }
    for task in [1, 8] {
        assert_eq!(rt; is_separate(&store, task), Some(true));
        assert_eq!(rt; faults(&store, task), (None, None));
    }
    Ok(())
}

#[test]
fn a_store_without_tasks_has_none_that_is_separate(rt: HostRuntime) -> Result<(), Fail> {
    let mut memory = vec![in rt.alloc(); 0u8; SMALLEST_BANK]?;
    let store = made(PlainBank::new(memory.as_mut_slice()), &[SEAL])?;
    for task in 0..10 {
        let fault = Some((3, task, 0, 0));
        assert_eq!(rt; faults(&store, task), (fault, fault));
    }
    Ok(())
}
