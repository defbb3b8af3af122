// A mission script, made on a store line by line.
ghost use Rattle.std.specs.Prelude.{◌≡◌, IfOk};
ghost use Rattle.mission.specs.Reading.{store_after};
ghost use Rattle.runs.specs.Runs.{run, step};
ghost use Rattle.script.specs.Answers.{requests_of, state_after};
ghost use Rattle.script.specs.Lines.{line_of};
ghost use Rattle.script.specs.Requests.{request_of};
ghost use Rattle.script.specs.Text.{lines_of};

use crate::flaw::{Flaw, flaw_of};
use bank::Bank;
use rules::{Call, Fault, Load};
use script::{HEADER, LONGEST, Line, Lines, parse_line};
use std::alloc::{AllocError, Global};
use std::fmt;
use store::Store;
use tables::{ENTRIES, TABLES};

/// Why a line made no call, or its call was refused.
#[derive(Clone, Copy, Debug, PartialEq, Eq)]
pub enum Why {
    /// The script is longer than a script may be; none of it was made.
    TooLong,
    /// The first line is not the header of scripts; none of the others was made.
    NoHeader,
    /// The line is malformed.
    Malformed(Flaw),
    /// The store refused the call.
    Refused(Fault),
}

impl fmt::Display for Why {
    fn fmt<W: fmt::Write>(&self, f: &mut fmt::Formatter<W>) -> fmt::Result {
        match *self {
            Why::TooLong => write!(f, "the script has more than {LONGEST} bytes"),
            Why::NoHeader => f.write_str("the first line is not `do task a b c d e f`"),
            Why::Malformed(flaw) => write!(f, "{flaw}"),
            Why::Refused(fault) => {
                let reason = fault.reason;
                write!(f, "refused, {reason} ({fault})")
            }
        }
    }
}

/// A line that made nothing.
#[derive(Clone, Copy, Debug, PartialEq, Eq)]
pub struct Refusal {
    /// The number of the line, from 1 on; 0 where the whole script is refused.
    pub line: usize,
    /// Why it made nothing.
    pub why: Why,
}

impl fmt::Display for Refusal {
    fn fmt<W: fmt::Write>(&self, f: &mut fmt::Formatter<W>) -> fmt::Result {
        let line = self.line;
        let why = self.why;
        if line == 0 {
            write!(f, "{why}")
        } else {
            write!(f, "line {line}: {why}")
        }
    }
}

/// An entry that was made, and the line that made it.
#[derive(Clone, Copy, Debug, PartialEq, Eq)]
pub struct Making {
    /// The table of the entry.
    pub table: u32,
    /// Its index there.
    pub index: u32,
    /// The number of the line, from 1 on.
    pub line: usize,
}

/// What came of a script besides the store.
#[derive(Debug, Drop)]
pub struct Notes {
    /// How many lines it has.
    pub lines: usize,
    /// The lines that made nothing, in order.
    pub refusals: Vec<Refusal>,
    /// The entries that were made, in order; some of them may have ended since.
    pub makings: Vec<Making>,
}

impl Notes {
    // The line that made an entry which is there.
    pub(crate) fn line_of(&self, table: u32, index: u32) -> Option<usize> {
        self.makings
            .iter()
            .rev()
            .find(|making| making.table == table && making.index == index)
            .map(|making| making.line)
    }
}

/// Makes the calls of a script on a store, one line after the other. A line that is no call is left
/// out, and a call that the store refuses changes nothing; the others are made all the same.
pub fn read<B: Bank>(heap: Global, store: &mut Store<B>, text: &[u8]) -> Result<Notes, AllocError>
    ensures { IfOk result (λ _. store.new ≡ store_after text.now store.old) }
{
    let mut notes = Notes {
        lines: 1,
        refusals: Vec::new(heap),
        makings: Vec::new(heap),
    };
    if text.len() > LONGEST {
        notes.refuse(Why::TooLong)?;
        return Ok(notes);
    }
    let mut lines = Lines { rest: text };
    if lines.next() != Some(HEADER) {
        notes.refuse(Why::NoHeader)?;
        return Ok(notes);
    }
    notes.take_lines(store, lines)?;
    Ok(notes)
}

impl Notes {
    // Notes that the last line made nothing.
    fn refuse(&mut self, why: Why) -> Result<(), AllocError> {
        self.refusals.push(Refusal {
            line: self.lines,
            why,
        })?;
        Ok(())
    }

    // Makes the calls of the lines to come, one after the other.
    fn take_lines<B: Bank>(
        &mut self,
        store: &mut Store<B>,
        lines: Lines<'_>,
    ) -> Result<(), AllocError>
        ensures { IfOk result (λ _.
            store.new ≡ run (requests_of (lines_of lines.entry.rest.now)) store.old) }
    {
        for text in lines {
            self.lines = self.lines.saturating_add(1);
            self.take(store, text)?;
        }
        Ok(())
    }

    // Makes the call of the last line, if it is one.
    fn take<B: Bank>(&mut self, store: &mut Store<B>, text: &[u8]) -> Result<(), AllocError>
        ensures { store.new ≡ state_after (line_of text.now) store.old }
    {
        match parse_line(text) {
            Some(line) => self.make(store, line),
            None => self.refuse(Why::Malformed(flaw_of(text))),
        }
    }

    // Makes a call, and notes the entry that it made, if it made one.
    fn make<B: Bank>(&mut self, store: &mut Store<B>, line: Line) -> Result<(), AllocError>
        ensures { store.new ≡ step (request_of line) store.old }
    {
        let table = table_of(line.call);
        let index = entries(store, table);
        let mut buffer = [line.byte];
        match store.perform(line.call, &mut buffer) {
            Ok(_) if store.entry(table, index).is_some() => {
                self.makings.push(Making {
                    table,
                    index,
                    line: self.lines,
                })?;
                Ok(())
            }
            Ok(_) => Ok(()),
            Err(fault) => self.refuse(Why::Refused(fault)),
        }
    }
}

// The table in which a call makes an entry, if it makes one.
fn table_of(call: Call) -> u32 {
    match call {
        Call::Load(Load::Place { table, .. } | Load::Control { table, .. }) => table,
        Call::Load(Load::Task { number, .. }) => number,
        Call::Load(_) => TABLES as u32,
        Call::Operator { task, .. } => task,
    }
}

// How many entries a table has.
pub(crate) fn entries<B: Bank>(store: &Store<B>, table: u32) -> u32 {
    for index in 0..ENTRIES as u32 {
        if store.entry(table, index).is_none() {
            return index;
        }
    }
    ENTRIES as u32
}
