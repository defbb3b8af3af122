// A line of a script, read into a call.
ghost use Rattle.script.specs.Lines.{byte_beside, call_of, last_number, line_of, load_of, number_then};
ghost use Rattle.script.specs.Lines.{numbers_of, operator_of};
ghost use Rattle.script.specs.Requests.{request_of};
ghost use Rattle.std.specs.Option.{option_map};
ghost use Rattle.std.specs.Prelude.{◌≡◌};

use crate::text::{cut, number};
use rules::{Call, Load, Operator};

const SPACE: u8 = b' ';

/// A line that is a call.
#[derive(Clone, Copy, Debug, PartialEq, Eq)]
pub struct Line {
    /// The call.
    pub call: Call,
    /// The byte beside it, which is 0 where the call takes none.
    pub byte: u8,
}

// The numbers of a line, by the names of the format's header.
#[derive(Clone, Copy, Debug, PartialEq, Eq)]
struct Numbers {
    task: u16,
    a: u16,
    b: u16,
    c: u16,
    d: u16,
    e: u16,
    f: u16,
}

// A number, and what stands behind the space after it.
fn number_then(text: &[u8]) -> Option<(u16, &[u8])>
    ensures { option_map (λ p. (p.0, p.1.now)) result ≡ number_then text.now }
{
    let (field, rest) = cut(text, SPACE);
    let value = number(field)?;
    let rest = rest?;
    Some((value, rest))
}

// The last number of a line, behind which there is nothing.
fn last_number(text: &[u8]) -> Option<u16>
    ensures { result ≡ last_number text.now }
{
    let (field, rest) = cut(text, SPACE);
    match rest {
        Some(_) => None,
        None => number(field),
    }
}

// The seven numbers behind the word.
fn parse_numbers(text: &[u8]) -> Option<Numbers>
    ensures { result ≡ numbers_of text.now }
{
    let (task, text) = number_then(text)?;
    let (a, text) = number_then(text)?;
    let (b, text) = number_then(text)?;
    let (c, text) = number_then(text)?;
    let (d, text) = number_then(text)?;
    let (e, text) = number_then(text)?;
    let f = last_number(text)?;
    Some(Numbers {
        task,
        a,
        b,
        c,
        d,
        e,
        f,
    })
}

// The load call that a word and the numbers of a line make.
fn load(word: &[u8], n: Numbers) -> Option<Load>
    ensures { result ≡ load_of word.now n }
{
    let task = u32::from(n.task);
    let a = u32::from(n.a);
    let b = u32::from(n.b);
    let c = u32::from(n.c);
    let d = u32::from(n.d);
    let e = u32::from(n.e);
    let f = u32::from(n.f);
    Some(if word == b"place".as_slice() {
        Load::Place {
            table: a,
            size: b,
            slots: c,
            kind: d,
        }
    } else if word == b"control".as_slice() {
        Load::Control {
            table: a,
            kind: b,
            rights: c,
        }
    } else if word == b"task".as_slice() {
        Load::Task {
            number: task,
            slots: a,
        }
    } else if word == b"grant".as_slice() {
        Load::Grant {
            table: a,
            index: b,
            slot: c,
            named_table: d,
            named_index: e,
            rights: f,
        }
    } else if word == b"fill".as_slice() {
        Load::Fill {
            table: a,
            index: b,
            offset: c,
        }
    } else if word == b"seal".as_slice() {
        Load::Seal
    } else {
        return None;
    })
}

// The operator that they make.
fn operator(word: &[u8], n: Numbers) -> Option<Operator>
    ensures { result ≡ operator_of word.now n }
{
    let b = u32::from(n.b);
    let c = u32::from(n.c);
    let d = u32::from(n.d);
    let e = u32::from(n.e);
    let f = u32::from(n.f);
    Some(if word == b"copy".as_slice() {
        Operator::Copy {
            source: n.a,
            destination: n.b,
        }
    } else if word == b"null".as_slice() {
        Operator::Null { destination: n.a }
    } else if word == b"restrict".as_slice() {
        Operator::Restrict {
            source: n.a,
            destination: n.b,
            mask: c,
        }
    } else if word == b"amplify".as_slice() {
        Operator::Amplify {
            control: n.a,
            source: n.b,
            destination: n.c,
        }
    } else if word == b"create".as_slice() {
        Operator::Create {
            destination: n.a,
            size: b,
            slots: c,
        }
    } else if word == b"typed".as_slice() {
        Operator::Typed {
            control: n.a,
            destination: n.b,
            size: c,
            slots: d,
        }
    } else if word == b"refine".as_slice() {
        Operator::Refine {
            source: n.a,
            destination: n.b,
            byte: c,
            bytes: d,
            slot: e,
            slots: f,
        }
    } else if word == b"read".as_slice() {
        Operator::Read {
            source: n.a,
            offset: b,
        }
    } else if word == b"write".as_slice() {
        Operator::Write {
            source: n.a,
            offset: b,
        }
    } else if word == b"see".as_slice() {
        Operator::See { source: n.a }
    } else if word == b"look".as_slice() {
        Operator::Look { source: n.a }
    } else if word == b"call".as_slice() {
        Operator::Call {
            argument: n.a,
            slots: b,
        }
    } else if word == b"return".as_slice() {
        Operator::Return { res: n.a }
    } else {
        return None;
    })
}

// The call that they make.
fn call(word: &[u8], n: Numbers) -> Option<Call>
    ensures { result ≡ call_of word.now n }
{
    if let Some(operator) = operator(word, n) {
        let task = u32::from(n.task);
        return Some(Call::Operator { task, operator });
    }
    Some(Call::Load(load(word, n)?))
}

// The byte beside a call, as a number: `Fill` and `Write` take one, beside any other call it is 0.
fn byte_beside(call: Call, n: Numbers) -> u16
    ensures { result ≡ byte_beside call n }
{
    match call {
        Call::Load(Load::Fill { .. }) => n.d,
        Call::Operator {
            operator: Operator::Write { .. },
            ..
        } => n.c,
        _ => 0,
    }
}

/// The line that a text is, if it is one: a word that names a call, and seven numbers.
#[tactic(auto, unfolding(crate::specs::Lines::line_of))]
pub fn parse_line(text: &[u8]) -> Option<Line>
    ensures { option_map request_of result ≡ line_of text.now }
{
    let (word, rest) = cut(text, SPACE);
    let numbers = parse_numbers(rest?)?;
    let call = call(word, numbers)?;
    let byte = u8::try_from(byte_beside(call, numbers)).ok()?;
    Some(Line { call, byte })
}
