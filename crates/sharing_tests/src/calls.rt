// Calls by short names, and lists of calls that are made one by one.
use bank::Bank;
use rules::{Call, Fault, Load, Operator, slot};
use store::Store;

pub(crate) const SEAL: Call = Call::Load(Load::Seal);

pub(crate) fn task(number: u32, slots: u32) -> Call {
    Call::Load(Load::Task { number, slots })
}

pub(crate) fn place(table: u32, size: u32, slots: u32, kind: u32) -> Call {
    Call::Load(Load::Place {
        table,
        size,
        slots,
        kind,
    })
}

pub(crate) fn control(table: u32, kind: u32, rights: u32) -> Call {
    Call::Load(Load::Control {
        table,
        kind,
        rights,
    })
}

// A slot of an entry comes to name another, the table first.
pub(crate) fn grant(
    table: u32,
    index: u32,
    slot: u32,
    named_table: u32,
    named_index: u32,
    rights: u32,
) -> Call {
    Call::Load(Load::Grant {
        table,
        index,
        slot,
        named_table,
        named_index,
        rights,
    })
}

pub(crate) fn copy(task: u32, source: u16, destination: u16) -> Call {
    Call::Operator {
        task,
        operator: Operator::Copy {
            source,
            destination,
        },
    }
}

pub(crate) fn null(task: u32, destination: u16) -> Call {
    Call::Operator {
        task,
        operator: Operator::Null { destination },
    }
}

pub(crate) fn create(task: u32, destination: u16, size: u32, slots: u32) -> Call {
    Call::Operator {
        task,
        operator: Operator::Create {
            destination,
            size,
            slots,
        },
    }
}

pub(crate) fn typed(task: u32, control: u16, destination: u16, size: u32, slots: u32) -> Call {
    Call::Operator {
        task,
        operator: Operator::Typed {
            control,
            destination,
            size,
            slots,
        },
    }
}

// Puts in slot 5 a refinement of what slot 4 names: some of its bytes and some of its slots.
pub(crate) fn refine(task: u32, byte: u32, bytes: u32, first: u32, slots: u32) -> Call {
    Call::Operator {
        task,
        operator: Operator::Refine {
            source: slot(4),
            destination: slot(5),
            byte,
            bytes,
            slot: first,
            slots,
        },
    }
}

pub(crate) fn call(task: u32, argument: u16, slots: u32) -> Call {
    Call::Operator {
        task,
        operator: Operator::Call { argument, slots },
    }
}

pub(crate) fn return_result(task: u32, res: u16) -> Call {
    Call::Operator {
        task,
        operator: Operator::Return { res },
    }
}

// Makes the calls in order, up to the first that is refused.
pub(crate) fn make<B: Bank>(store: &mut Store<B>, calls: &[Call]) -> Result<(), Fault> {
    for call in calls.iter() {
        store.perform(*call, &mut [])?;
    }
    Ok(())
}

// A new store of which the calls are made.
pub(crate) fn made<B: Bank + Drop>(bank: B, calls: &[Call]) -> Result<Store<B>, Fault> {
    let mut store = Store::new(bank);
    make(&mut store, calls)?;
    Ok(store)
}
