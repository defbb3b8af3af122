// Numbers that look random and are the same in every run, and calls with such numbers.
ghost use Rattle.std.specs.Prelude.{◌<◌};

use rules::{Load, Operator, slot, slot_of};

// So many tasks, from 1 on.
pub(crate) const TASKS: u32 = 3;

// The slots of a task's first context.
pub(crate) const SLOTS: u32 = 8;

// The two types of objects that are not generic begin here.
const KIND: u32 = 20;

#[derive(Drop)]
pub(crate) struct Dice {
    state: u32,
}

impl Dice {
    pub(crate) fn new(seed: u32) -> Dice {
        Dice { state: seed }
    }

    // A number below n, or 0 where n is 0.
    pub(crate) fn below(&mut self, n: u32) -> u32
        ensures { 0 < n → result < n }
    {
        self.state = self
            .state
            .wrapping_mul(1_664_525)
            .wrapping_add(1_013_904_223);
        (self.state >> 16) % n.max(1)
    }

    // One of the tasks.
    pub(crate) fn task(&mut self) -> u32 {
        1 + self.below(TASKS)
    }

    // Rights for a descriptor, mostly few and without write.
    fn rights(&mut self) -> u32 {
        match self.below(12) {
            0..=4 => 1,
            5 | 6 => 9,
            7 => 33,
            8 => 32,
            _ => self.below(64),
        }
    }

    // A load call for the object that comes next, or for a control.
    pub(crate) fn making(&mut self) -> Load {
        let table = self.below(TASKS + 1);
        match self.below(4) {
            0 => Load::Control {
                table,
                kind: KIND + self.below(2),
                rights: 1 + self.below(3),
            },
            1 => Load::Place {
                table,
                size: 8,
                slots: self.below(3),
                kind: 0,
            },
            _ => Load::Place {
                table,
                size: 8,
                slots: self.below(4),
                kind: KIND + self.below(2),
            },
        }
    }

    // A load call that fills a slot, half of the time one of a context.
    pub(crate) fn grant(&mut self) -> Load {
        let (table, index) = if self.below(2) == 0 {
            (self.task(), 0)
        } else {
            (self.below(TASKS + 1), self.below(6))
        };
        Load::Grant {
            table,
            index,
            slot: self.below(SLOTS).min(self.below(SLOTS)),
            named_table: self.below(TASKS + 1),
            named_index: self.below(6),
            rights: self.rights(),
        }
    }

    // A slot of a context, or now and then of an environment.
    fn selector(&mut self) -> u16 {
        let at = self.below(SLOTS) as u16;
        if self.below(5) == 0 {
            slot_of(1 + self.below(3) as u16, at % 2)
        } else {
            slot(at)
        }
    }

    pub(crate) fn operator(&mut self) -> Operator {
        let source = self.selector();
        let destination = self.selector();
        match self.below(12) {
            0 | 1 => Operator::Copy {
                source,
                destination,
            },
            2 => Operator::Null { destination },
            3 => Operator::Restrict {
                source,
                destination,
                mask: self.below(64),
            },
            4 => Operator::Amplify {
                control: self.selector(),
                source,
                destination,
            },
            5 => Operator::Create {
                destination,
                size: 8,
                slots: self.below(4),
            },
            6 => Operator::Typed {
                control: source,
                destination,
                size: 8,
                slots: self.below(4),
            },
            7 | 8 | 9 => Operator::Refine {
                source,
                destination,
                byte: self.below(4),
                bytes: self.below(4),
                slot: self.below(2),
                slots: self.below(3),
            },
            10 => Operator::Call {
                argument: source,
                slots: SLOTS,
            },
            _ => Operator::Return { res: source },
        }
    }
}
