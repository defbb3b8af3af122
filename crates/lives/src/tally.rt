// What became of calls.
use rules::Reason;
use runs::Outcome;
use std::io;

const REASONS: [Reason; 14] = [
    Reason::SmallBank,
    Reason::WrongPhase,
    Reason::NoTask,
    Reason::NoLevel,
    Reason::NullEnvironment,
    Reason::EnvironmentRight,
    Reason::NoSlot,
    Reason::NullSource,
    Reason::MissingRight,
    Reason::WrongType,
    Reason::NotDeletable,
    Reason::OutOfRange,
    Reason::StoringRule,
    Reason::NoRoom,
];

#[derive(Drop)]
pub(crate) struct Tally {
    made: u32,
    refused: [u32; 14],
    different: u32,
}

impl Tally {
    pub(crate) fn new() -> Tally {
        Tally {
            made: 0,
            refused: [0; 14],
            different: 0,
        }
    }

    // One call, by its outcomes on two banks.
    pub(crate) fn count(&mut self, left: &Outcome, right: &Outcome) {
        match left.answer {
            Ok(_) => self.made = self.made.saturating_add(1),
            Err(fault) => self.refuse(fault.reason),
        }
        if left != right {
            self.different = self.different.saturating_add(1);
        }
    }

    fn refuse(&mut self, reason: Reason) {
        for (count, each) in self.refused.iter_mut().zip(REASONS.iter()) {
            if *each == reason {
                *count = count.saturating_add(1);
            }
        }
    }

    pub(crate) fn print(&self, rt: &HostRuntime) -> io::Result<()> {
        println!(rt; "{:6} calls were made", self.made)?;
        for (count, reason) in self.refused.iter().zip(REASONS.iter()) {
            let number = reason.number();
            println!(rt; "{count:6} were refused with fault {number:2}: {reason}")?;
        }
        println!(rt;
            "{:6} were answered differently by the plain and the coded bank",
            self.different
        )
    }
}
