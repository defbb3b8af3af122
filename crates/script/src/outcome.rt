// The outcome of the call of a line, and how it is printed.
ghost use Rattle.rules.specs.Calls.{outcome as outcome_by};
ghost use Rattle.script.specs.Answers.{outcome_line};
ghost use Rattle.script.specs.Requests.{outcome_of};
ghost use Rattle.std.specs.Prelude.{◌≡◌, ◌∷◌, ◌++◌, [], IfOk, string_bytes};

use crate::line::Line;
use bank::Bank;
use rules::{Answer, Fault};
use std::alloc::AllocError;
use std::fmt::Write;
use store::Store;

// What a call answers, or why it was refused, and the byte beside it, as the call leaves it.
#[derive(Clone, Copy, Debug, PartialEq, Eq)]
pub(crate) struct Outcome {
    pub(crate) answer: Result<Answer, Fault>,
    pub(crate) byte: u8,
}

impl Line {
    // Makes the call.
    pub(crate) fn make<B: Bank>(self, store: &mut Store<B>) -> Outcome
        ensures { (outcome_of result, store.new) ≡ outcome_by self.call (self.byte ∷ []) store.old }
    {
        let mut buffer = [self.byte];
        let answer = store.perform(self.call, &mut buffer);
        Outcome {
            answer,
            byte: buffer[0],
        }
    }
}

impl Outcome {
    // Appends the line that it prints.
    pub(crate) fn print(&self, out: &mut String) -> Result<(), AllocError>
        ensures { IfOk result (λ _.
            string_bytes out.new ≡ string_bytes out.old ++ outcome_line (outcome_of self.now)) }
    {
        match self.answer {
            Ok(Answer::Done) => out.push_str("ok\n"),
            Ok(Answer::Index(index)) => writeln!(out, "ok {index}"),
            Ok(Answer::Filled) => {
                let byte = self.byte;
                writeln!(out, "ok {byte}")
            }
            Ok(Answer::Absent) => out.push_str("ok absent\n"),
            Ok(
                Answer::Seen {
                    table,
                    index,
                    rights,
                },
            ) => writeln!(out, "ok {table} {index} {rights}"),
            Ok(
                Answer::Looked {
                    kind,
                    bytes,
                    slots,
                    level,
                },
            ) => writeln!(out, "ok {kind} {bytes} {slots} {level}"),
            Err(fault) => {
                let number = fault.reason.number();
                let layer = fault.reason.layer().letter();
                let place = fault.place;
                writeln!(out, "fault {number} {layer} {place}")
            }
        }
    }
}
