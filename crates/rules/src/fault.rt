// Faults: why a call was refused, where and for whom.
ghost use Rattle.rules.specs.Faults.{layer_of, letter_of, number_of};
ghost use Rattle.rules.specs.Tests.{refusal, refusal_at};
ghost use Rattle.rules.specs.Texts.{fault_text, reason_text};
ghost use Rattle.std.specs.Prelude.{◌≡◌, Some};

use std::error::Error;
use std::fmt;

/// Why a call was refused, in the order of the fault numbers, from 1 on.
#[derive(Clone, Copy, Debug, PartialEq, Eq)]
pub enum Reason {
    /// 1: the bank has fewer bytes than a store needs.
    SmallBank = 1,
    /// 2: a load call after sealing, or an operator before it.
    WrongPhase,
    /// 3: the task is not loaded, or cannot be loaded.
    NoTask,
    /// 4: a call at the highest level, or a return at the lowest.
    NoLevel,
    /// 5: the slot of the context that a selector takes as its environment is null.
    NullEnvironment,
    /// 6: the descriptor of the environment lacks the right to read a source or to write a
    /// destination.
    EnvironmentRight,
    /// 7: the environment shows no slot of this number.
    NoSlot,
    /// 8: the source slot is null where a descriptor is needed.
    NullSource,
    /// 9: the source's descriptor lacks a right that the operator needs.
    MissingRight,
    /// 10: the type is not what the call demands.
    WrongType,
    /// 11: the destination holds a descriptor without the delete right.
    NotDeletable,
    /// 12: a number is outside its range, or a run reaches past what is there.
    OutOfRange,
    /// 13: what is to be stored could outlive what it names.
    StoringRule,
    /// 14: the table has no room for the entry, or its block none for the bytes.
    NoRoom,
}

/// The layer of a call that a reason belongs to.
#[derive(Clone, Copy, Debug, PartialEq, Eq)]
pub enum Layer {
    /// The call as a whole.
    Call,
    /// What a selector names.
    Selector,
    /// What a slot holds.
    Descriptor,
    /// The object, and the table that it is in.
    Object,
}

/// Why a call was refused, and of which task and operand.
#[derive(Clone, Copy, Debug, PartialEq, Eq)]
pub struct Fault {
    /// Why the call was refused.
    pub reason: Reason,
    /// The task that was named, 0 in load calls other than `task`.
    pub task: u32,
    /// The number of the operand, from 1 on, or 0.
    pub place: u8,
    /// The selector of the operand, or 0.
    pub selector: u16,
}

impl Reason {
    /// The number of the fault, 1 to 14.
    pub fn number(self) -> u8
        ensures { result ≡ number_of self }
    {
        self as u8
    }

    /// The layer that the reason belongs to.
    pub fn layer(self) -> Layer
        ensures { result ≡ layer_of self }
    {
        match self {
            Reason::SmallBank | Reason::WrongPhase | Reason::NoTask | Reason::NoLevel =>
                Layer::Call,
            Reason::NullEnvironment | Reason::EnvironmentRight | Reason::NoSlot => Layer::Selector,
            Reason::NullSource | Reason::MissingRight | Reason::WrongType | Reason::NotDeletable =>
                Layer::Descriptor,
            Reason::OutOfRange | Reason::StoringRule | Reason::NoRoom => Layer::Object,
        }
    }
}

impl Layer {
    /// The letter of the layer, A to D.
    pub fn letter(self) -> char
        ensures { result ≡ letter_of self }
    {
        match self {
            Layer::Call => 'A',
            Layer::Selector => 'B',
            Layer::Descriptor => 'C',
            Layer::Object => 'D',
        }
    }
}

impl Fault {
    /// A fault of no operand: place and selector are 0.
    #[cold]
    pub fn of_call(reason: Reason, task: u32) -> Fault
        ensures { result ≡ refusal reason task }
    {
        Fault {
            reason,
            task,
            place: 0,
            selector: 0,
        }
    }

    /// A fault of the operand at a place, counted from 1 on, with its selector.
    #[cold]
    pub fn of_operand(reason: Reason, task: u32, place: u8, selector: u16) -> Fault
        ensures { result ≡ refusal_at reason task place selector }
    {
        Fault {
            place,
            selector,
            ..Fault::of_call(reason, task)
        }
    }
}

impl fmt::Display for Reason {
    ghost output = { λ reason. Some (reason_text reason) };

    fn fmt<W: fmt::Write>(&self, f: &mut fmt::Formatter<W>) -> fmt::Result {
        f.write_str(match self {
            Reason::SmallBank => "the bank is too small",
            Reason::WrongPhase => "the store is not sealed, or sealed already",
            Reason::NoTask => "the task is not loaded",
            Reason::NoLevel => "there is no such level",
            Reason::NullEnvironment => "the environment is null",
            Reason::EnvironmentRight => "the environment lacks a right",
            Reason::NoSlot => "there is no such slot",
            Reason::NullSource => "the slot is null",
            Reason::MissingRight => "a right is missing",
            Reason::WrongType => "the type is another one",
            Reason::NotDeletable => "what the slot holds may not be deleted",
            Reason::OutOfRange => "a number or a run is out of range",
            Reason::StoringRule => "the slot would outlive the entry it is to name",
            Reason::NoRoom => "the table or its block is full",
        })
    }
}

impl fmt::Display for Fault {
    ghost output = { λ fault. Some (fault_text fault) };

    fn fmt<W: fmt::Write>(&self, f: &mut fmt::Formatter<W>) -> fmt::Result {
        let number = self.reason.number();
        let layer = self.reason.layer().letter();
        let Fault {
            task,
            place,
            selector,
            ..
        } = *self;
        write!(
            f,
            "fault {number} layer {layer} task {task} place {place} selector {selector}"
        )
    }
}

impl Error for Fault {}
