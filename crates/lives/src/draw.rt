// Random calls: numbers that look random and are the same in every run, and calls with such
// numbers, mostly small ones, so that many are made and many refused.
ghost use Rattle.std.specs.Prelude.{◌<◌};

use rules::{Call, Load, Operator, slot_of};
use runs::Request;

pub(crate) const TASKS: u32 = 8;

// One table for each task, and one that is common.
const TABLES: u32 = TASKS + 1;

// One number more than there are tables, tasks or levels.
const WILD: u32 = 10;

// The slots of a task's first context.
pub(crate) const SLOTS: u32 = 9;

pub(crate) const BYTES: usize = 16;

const USER_KIND: u32 = 20;

#[derive(Drop)]
pub(crate) struct Dice {
    state: u32,
}

impl Dice {
    pub(crate) fn new() -> Dice {
        Dice { state: 1 }
    }

    // A number below n, or 0 where n is 0.
    pub(crate) fn below(&mut self, n: u32) -> u32
        ensures { 0 < n → result < n }
    {
        self.state = self
            .state
            .wrapping_mul(1_664_525)
            .wrapping_add(1_013_904_223);
        (self.state >> 16) % n.max(1)
    }

    pub(crate) fn byte(&mut self) -> u8 {
        self.below(256) as u8
    }
}

// All rights more often than not, and sometimes a number that stands for none.
fn rights(dice: &mut Dice) -> u32 {
    match dice.below(3) {
        0 => dice.below(65),
        _ => 63,
    }
}

// One of the tasks, and now and then a number that may be none.
fn task(dice: &mut Dice) -> u32 {
    match dice.below(20) {
        0 => dice.below(WILD),
        _ => 1 + dice.below(TASKS),
    }
}

// A slot of a first context, a low one more often, which smaller contexts have too.
fn slot(dice: &mut Dice) -> u32
    ensures { result < SLOTS }
{
    dice.below(SLOTS).min(dice.below(SLOTS))
}

// Slots of the current context more often than those of an environment.
fn selector(dice: &mut Dice) -> u16 {
    let environment = dice.below(15).saturating_sub(11);
    let slot = slot(dice);
    slot_of(environment as u16, slot as u16)
}

// Half of all objects are generic.
fn kind(dice: &mut Dice) -> u32 {
    match dice.below(4) {
        0 => USER_KIND,
        1 => USER_KIND + 1,
        _ => 0,
    }
}

// A call and the bytes beside it, some for the calls that look at them and none for others.
fn with_bytes<'a>(dice: &mut Dice, call: Call, bytes: &'a [u8; BYTES]) -> Request<'a> {
    let length = match call {
        Call::Load(Load::Fill { .. }) => dice.below(BYTES as u32 + 1),
        Call::Operator {
            operator: Operator::Read { .. } | Operator::Write { .. },
            ..
        } => dice.below(BYTES as u32 + 1),
        _ => 0,
    };
    Request {
        call,
        bytes: &bytes[..length as usize],
    }
}

// Grants more often than not, most of them into the first context of a task, which stands first in
// its table.
fn any_load(dice: &mut Dice) -> Load {
    match dice.below(12) {
        0 | 1 => Load::Place {
            table: dice.below(WILD),
            size: 8 + dice.below(40),
            slots: dice.below(8),
            kind: kind(dice),
        },
        2 => Load::Control {
            table: dice.below(WILD),
            kind: USER_KIND + dice.below(2),
            rights: rights(dice),
        },
        3 => Load::Task {
            number: dice.below(WILD),
            slots: 3 + dice.below(8),
        },
        4 => Load::Fill {
            table: dice.below(TABLES),
            index: dice.below(3),
            offset: dice.below(20),
        },
        _ => Load::Grant {
            table: task(dice),
            index: dice.below(4).saturating_sub(2),
            slot: slot(dice),
            named_table: dice.below(TABLES),
            named_index: dice.below(4),
            rights: rights(dice),
        },
    }
}

fn any_operator(dice: &mut Dice) -> Operator {
    let source = selector(dice);
    let destination = selector(dice);
    match dice.below(14) {
        0 => Operator::Copy {
            source,
            destination,
        },
        1 => Operator::Null { destination },
        2 => Operator::Restrict {
            source,
            destination,
            mask: dice.below(65),
        },
        3 | 13 => Operator::Create {
            destination,
            size: dice.below(300),
            slots: dice.below(8),
        },
        4 => Operator::Typed {
            control: source,
            destination,
            size: dice.below(100),
            slots: dice.below(8),
        },
        5 => Operator::Refine {
            source,
            destination,
            byte: dice.below(8),
            bytes: dice.below(16),
            slot: dice.below(2),
            slots: dice.below(4),
        },
        6 => Operator::Read {
            source,
            offset: dice.below(16),
        },
        7 => Operator::Write {
            source,
            offset: dice.below(16),
        },
        8 => Operator::See { source },
        9 => Operator::Look { source },
        10 => Operator::Call {
            argument: source,
            slots: 3 + dice.below(8),
        },
        11 => Operator::Amplify {
            control: selector(dice),
            source,
            destination,
        },
        _ => Operator::Return { res: source },
    }
}

pub(crate) fn load<'a>(dice: &mut Dice, bytes: &'a [u8; BYTES]) -> Request<'a> {
    let load = any_load(dice);
    with_bytes(dice, Call::Load(load), bytes)
}

// An operator, called by one of the tasks or by one that there is not; now and then a load call.
pub(crate) fn request<'a>(dice: &mut Dice, bytes: &'a [u8; BYTES]) -> Request<'a> {
    if dice.below(50) == 0 {
        return load(dice, bytes);
    }
    let task = task(dice);
    let operator = any_operator(dice);
    with_bytes(dice, Call::Operator { task, operator }, bytes)
}
