// What is wrong with a line of a script that is no call.
ghost use Rattle.std.specs.Prelude.{◌<◌, IfSome};

use script::{cut, number};
use std::fmt;

const SPACE: u8 = b' ';

// A word and seven numbers.
const FIELDS: usize = 8;

/// What is wrong with a line that is no call. Fields are counted from 1 on: the word is the first.
#[derive(Clone, Copy, Debug, PartialEq, Eq)]
pub enum Flaw {
    /// Nothing stands in it.
    Empty,
    /// It has another number of fields than eight.
    Fields(usize),
    /// A field is no number of one to five digits up to 65,535.
    Number(usize),
    /// Its word names no call.
    Word,
    /// The byte that it writes is above 255.
    Byte,
}

impl fmt::Display for Flaw {
    fn fmt<W: fmt::Write>(&self, f: &mut fmt::Formatter<W>) -> fmt::Result {
        match *self {
            Flaw::Empty => f.write_str("the line is empty"),
            Flaw::Fields(1) => f.write_str("the line has 1 field, not 8"),
            Flaw::Fields(count) => write!(f, "the line has {count} fields, not 8"),
            Flaw::Number(field) => write!(
                f,
                "field {field} is no number of one to five digits up to 65535"
            ),
            Flaw::Word => f.write_str("no call has this word"),
            Flaw::Byte => f.write_str("the byte is above 255"),
        }
    }
}

// What is wrong with a line that is no call.
pub(crate) fn flaw_of(text: &[u8]) -> Flaw {
    if text.is_empty() {
        return Flaw::Empty;
    }
    let count = fields(text);
    if count != FIELDS {
        return Flaw::Fields(count);
    }
    let (word, numbers) = cut(text, SPACE);
    match no_number(numbers.unwrap_or(&[])) {
        Some(place) => Flaw::Number(place + 2),
        None if word == b"fill".as_slice() || word == b"write".as_slice() => Flaw::Byte,
        None => Flaw::Word,
    }
}

// How many fields a line has: one more than spaces.
fn fields(text: &[u8]) -> usize {
    text.iter()
        .filter(|b| **b == SPACE)
        .count()
        .saturating_add(1)
}

// The place of the first field that is no number, from 0 on.
fn no_number(text: &[u8]) -> Option<usize>
    ensures { IfSome result (λ place. place < 8) }
{
    let mut rest = text;
    for place in 0..FIELDS {
        let (field, others) = cut(rest, SPACE);
        if number(field).is_none() {
            return Some(place);
        }
        rest = others?;
    }
    None
}
