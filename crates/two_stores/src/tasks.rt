// What the tasks do. Of each one's context, slot 0 takes arguments and results, 1 to 3 are
// environments, 4 has the task's own object, 5 the record of the magnetometer, and 6 and 7 are
// free.
use rules::{Call, Operator, slot, slot_of};
use runs::Request;
use std::alloc::{AllocError, Global};

pub(crate) const ATTITUDE: u32 = 1;

pub(crate) const PAYLOAD: u32 = 2;

// Slots of a context.
const FIRST: u16 = 0;

const SECOND: u16 = 1;

const OWN: u16 = 4;

const RECORD: u16 = 5;

const SCRATCH: u16 = 6;

const FREE: u16 = 7;

const BLANK: &[u8] = b"\0\0\0\0\0\0";

const ROUNDS: u32 = 80;

// What the attitude task does next.
#[derive(Clone, Copy)]
pub(crate) struct Step {
    pub(crate) what: &'static str,
    pub(crate) request: Request<'static>,
}

// It estimates the attitude from the record, with a filter that it calls.
pub(crate) fn attitude() -> [Step; 15] {
    [
        read("reads the record", slot(RECORD), 0),
        write(
            "writes its estimate",
            slot(OWN),
            0,
            b"\x0a\x14\x1e\x28\x32\x3c",
        ),
        read("reads behind the record", slot(RECORD), 3),
        create("creates a scratch object", slot(SCRATCH), 100, 2),
        bare(
            "sees its descriptor",
            Operator::See {
                source: slot(SCRATCH),
            },
        ),
        bare("calls its filter with it", call(slot(SCRATCH))),
        bare(
            "looks at the argument",
            Operator::Look {
                source: slot(FIRST),
            },
        ),
        write("writes into it", slot(FIRST), 90, b"\x01\x02\x03"),
        create("creates a large object", slot(SCRATCH), 1500, 0),
        create("creates another one", slot(FREE), 1500, 0),
        bare("returns nothing", Operator::Return { res: slot(FREE) }),
        read("reads what was written", slot(SCRATCH), 89),
        create("creates it after the return", slot(FREE), 1500, 0),
        read("reads its estimate", slot(OWN), 0),
        read("reads the record again", slot(RECORD), 0),
    ]
}

// The payload takes a frame.
pub(crate) fn quiet_payload() -> [Request<'static>; 3] {
    [
        by_payload(
            Operator::Read {
                source: slot(RECORD),
                offset: 0,
            },
            BLANK,
        ),
        by_payload(
            Operator::Write {
                source: slot(OWN),
                offset: 0,
            },
            b"frame",
        ),
        by_payload(Operator::Look { source: slot(OWN) }, b""),
    ]
}

// The payload does what it may not, again and again.
pub(crate) fn hostile_payload(heap: Global) -> Result<Vec<Request<'static>>, AllocError> {
    let mut requests = Vec::new(heap);
    for _ in 0..ROUNDS {
        requests.extend_from_slice(&round())?;
    }
    Ok(requests)
}

// Wrong lengths, a descriptor that is to outlive its object, a full table, and faults.
fn round() -> [Request<'static>; 12] {
    [
        by_payload(
            Operator::Write {
                source: slot(OWN),
                offset: 0,
            },
            b"a frame that is longer than its object",
        ),
        by_payload(
            Operator::Write {
                source: slot(RECORD),
                offset: 0,
            },
            BLANK,
        ),
        by_payload(call(slot(OWN)), b""),
        by_payload(object(slot(SCRATCH), 9, 0), b""),
        // It makes the frame an environment, and would keep the new descriptor in the frame's first
        // slot.
        by_payload(copy(slot(FIRST), slot(SECOND)), b""),
        by_payload(copy(slot(SCRATCH), slot_of(1, 0)), b""),
        by_payload(Operator::Return { res: slot(SCRATCH) }, b""),
        by_payload(Operator::Return { res: slot(FREE) }, b""),
        by_payload(object(slot(FREE), 60, 0), b""),
        by_payload(
            Operator::Null {
                destination: slot(FREE),
            },
            b"",
        ),
        // Slot 3 is null.
        by_payload(
            Operator::Read {
                source: slot_of(3, 0),
                offset: 70000,
            },
            b"\0\0\0\0",
        ),
        by_payload(
            Operator::Refine {
                source: slot(RECORD),
                destination: slot(FREE),
                byte: 0,
                bytes: 7,
                slot: 0,
                slots: 0,
            },
            b"",
        ),
    ]
}

fn read(what: &'static str, source: u16, offset: u32) -> Step {
    by_attitude(what, Operator::Read { source, offset }, BLANK)
}

fn write(what: &'static str, source: u16, offset: u32, bytes: &'static [u8]) -> Step {
    by_attitude(what, Operator::Write { source, offset }, bytes)
}

fn create(what: &'static str, destination: u16, size: u32, slots: u32) -> Step {
    bare(what, object(destination, size, slots))
}

// A step with no bytes beside its operator.
fn bare(what: &'static str, operator: Operator) -> Step {
    by_attitude(what, operator, b"")
}

fn by_attitude(what: &'static str, operator: Operator, bytes: &'static [u8]) -> Step {
    let request = request(ATTITUDE, operator, bytes);
    Step { what, request }
}

fn by_payload(operator: Operator, bytes: &'static [u8]) -> Request<'static> {
    request(PAYLOAD, operator, bytes)
}

fn request(task: u32, operator: Operator, bytes: &'static [u8]) -> Request<'static> {
    Request {
        call: Call::Operator { task, operator },
        bytes,
    }
}

fn call(argument: u16) -> Operator {
    Operator::Call { argument, slots: 8 }
}

fn copy(source: u16, destination: u16) -> Operator {
    Operator::Copy {
        source,
        destination,
    }
}

fn object(destination: u16, size: u32, slots: u32) -> Operator {
    Operator::Create {
        destination,
        size,
        slots,
    }
}
