// The mission: an attitude task and a camera share the record of a magnetometer. Of each one's
// context, slot 0 takes arguments and results, 1 to 3 are environments, 4 has the task's own
// object, 5 the record, and 6 and 7 are free.
use rules::{Call, Load, Operator, slot};
use runs::Request;
use std::alloc::{AllocError, Global};

const ATTITUDE: u32 = 1;

const CAMERA: u32 = 2;

const READ: u32 = 1;

const READ_AND_WRITE: u32 = 3;

// Slots of a context.
const FIRST: u16 = 0;

const OWN: u16 = 4;

const RECORD: u16 = 5;

const SCRATCH: u16 = 6;

const FREE: u16 = 7;

// Table 0 has a counter and then the record, both without slots. Its block begins at address 0, so
// the record begins behind the bytes of the counter.
const COUNTER_BYTES: u32 = 3;

const RECORD_BYTES: u32 = 6;

pub(crate) const RECORD_BEGIN: usize = COUNTER_BYTES as usize;

pub(crate) const RECORD_END: usize = RECORD_BEGIN + RECORD_BYTES as usize;

// What a buffer holds before a read.
const BLANK: &[u8] = b"\0\0\0\0\0\0";

// What the attitude task makes of the record.
const ESTIMATE: &[u8] = b"\x0a\x14\x1e\x28\x32\x3c";

const FRAME: &[u8] = b"a frame of a star field, line by line, as the camera sends it to the store";

// A call of the mission, and what it does.
#[derive(Clone, Copy)]
pub(crate) struct Step {
    pub(crate) what: &'static str,
    pub(crate) request: Request<'static>,
}

impl Step {
    fn new(what: &'static str, call: Call, bytes: &'static [u8]) -> Step {
        let request = Request { call, bytes };
        Step { what, request }
    }

    // Who makes the call.
    pub(crate) fn caller(&self) -> &'static str {
        match self.request.call {
            Call::Load(_) => "loader",
            Call::Operator { task: ATTITUDE, .. } => "attitude",
            Call::Operator { task: CAMERA, .. } => "camera",
            Call::Operator { .. } => "another",
        }
    }
}

// The whole mission.
pub(crate) fn steps(heap: Global) -> Result<Vec<Step>, AllocError> {
    let mut steps = Vec::new(heap);
    steps.extend_from_slice(&loading())?;
    steps.extend_from_slice(&flight())?;
    Ok(steps)
}

// The calls of steps.
pub(crate) fn requests(heap: Global, steps: &[Step]) -> Result<Vec<Request<'static>>, AllocError> {
    steps.iter().map(|step| step.request).collect(heap)
}

// Entry 0 of table 0 is the counter and entry 1 the record. Entry 0 of table 1 and of table 2 is
// the context of the task, entry 1 its own object.
fn loading() -> [Step; 13] {
    [
        load("places a counter", place(0, COUNTER_BYTES), b""),
        load("fills it", fill(0), b"\x01\x02\x03"),
        load("places the record", place(0, RECORD_BYTES), b""),
        load("fills it", fill(1), b"\xbc\x48\x20\xf4\x3d\x63"),
        load("loads the attitude task", task(ATTITUDE), b""),
        load("places its estimate", place(ATTITUDE, 9), b""),
        load("grants it the estimate", grant_own(ATTITUDE), b""),
        load("grants it the record", grant_record(ATTITUDE), b""),
        load("loads the camera", task(CAMERA), b""),
        load("places its frame", place(CAMERA, 101), b""),
        load("grants it the frame", grant_own(CAMERA), b""),
        load("grants it the record", grant_record(CAMERA), b""),
        load("seals the store", Load::Seal, b""),
    ]
}

// The attitude task estimates from the record, with a filter that it calls. The camera takes a
// frame, and does three things that it may not.
fn flight() -> [Step; 18] {
    [
        attitude("reads the record", read(slot(RECORD), 0), BLANK),
        attitude("writes its estimate", write(slot(OWN), 0), ESTIMATE),
        camera("reads the record", read(slot(RECORD), 0), BLANK),
        camera("writes into the record", write(slot(RECORD), 0), BLANK),
        camera("reads behind the record", read(slot(RECORD), 3), BLANK),
        camera("writes its frame", write(slot(OWN), 1), FRAME),
        camera("writes behind its frame", write(slot(OWN), 60), FRAME),
        attitude("creates a scratch object", create(slot(SCRATCH), 7, 2), b""),
        attitude("calls its filter with it", call(slot(SCRATCH)), b""),
        attitude("looks at the argument", look(slot(FIRST)), b""),
        attitude("writes into it", write(slot(FIRST), 1), ESTIMATE),
        attitude("creates a large object", create(slot(FREE), 1500, 0), b""),
        attitude("creates another one", create(slot(SCRATCH), 1500, 0), b""),
        attitude("returns nothing", give_back(slot(SCRATCH)), b""),
        attitude("reads what was written", read(slot(SCRATCH), 0), BLANK),
        attitude("reads its estimate", read(slot(OWN), 0), BLANK),
        camera("reads its frame", read(slot(OWN), 0), BLANK),
        attitude("reads the record again", read(slot(RECORD), 0), BLANK),
    ]
}

fn load(what: &'static str, load: Load, bytes: &'static [u8]) -> Step {
    Step::new(what, Call::Load(load), bytes)
}

fn attitude(what: &'static str, operator: Operator, bytes: &'static [u8]) -> Step {
    let task = ATTITUDE;
    Step::new(what, Call::Operator { task, operator }, bytes)
}

fn camera(what: &'static str, operator: Operator, bytes: &'static [u8]) -> Step {
    let task = CAMERA;
    Step::new(what, Call::Operator { task, operator }, bytes)
}

fn task(number: u32) -> Load {
    Load::Task { number, slots: 8 }
}

fn place(table: u32, size: u32) -> Load {
    Load::Place {
        table,
        size,
        slots: 0,
        kind: 0,
    }
}

// An object of table 0.
fn fill(index: u32) -> Load {
    Load::Fill {
        table: 0,
        index,
        offset: 0,
    }
}

// To a task its own object.
fn grant_own(task: u32) -> Load {
    grant(task, OWN, task, READ_AND_WRITE)
}

// To a task the record.
fn grant_record(task: u32) -> Load {
    grant(task, RECORD, 0, READ)
}

// Into a slot of a task's context, entry 1 of a table.
fn grant(task: u32, slot: u16, table: u32, rights: u32) -> Load {
    Load::Grant {
        table: task,
        index: 0,
        slot: slot as u32,
        named_table: table,
        named_index: 1,
        rights,
    }
}

fn read(source: u16, offset: u32) -> Operator {
    Operator::Read { source, offset }
}

fn write(source: u16, offset: u32) -> Operator {
    Operator::Write { source, offset }
}

fn create(destination: u16, size: u32, slots: u32) -> Operator {
    Operator::Create {
        destination,
        size,
        slots,
    }
}

fn look(source: u16) -> Operator {
    Operator::Look { source }
}

fn call(argument: u16) -> Operator {
    Operator::Call { argument, slots: 8 }
}

fn give_back(res: u16) -> Operator {
    Operator::Return { res }
}
