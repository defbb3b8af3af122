// A whole script.
ghost use Rattle.runs.specs.Runs.{run};
ghost use Rattle.script.specs.Answers.{answers, fresh, printed_line, requests_of, script_of, state_after};
ghost use Rattle.script.specs.Lines.{line_of};
ghost use Rattle.script.specs.Sound.{EveryScriptIsSound};
ghost use Rattle.script.specs.Text.{lines_of};
ghost use Rattle.std.specs.Prelude.{◌≡◌, ◌++◌, IfOk, codes, string_bytes};

use crate::line::parse_line;
use crate::text::Lines;
use bank::{Bank, PlainBank};
use std::alloc::{AllocError, Global};
use store::{SMALLEST_BANK, Store};

/// The first line of every script.
pub const HEADER: &[u8] = b"do task a b c d e f";

/// The most bytes that a script may have.
pub const LONGEST: usize = 16384;

fn bad(heap: Global) -> Result<Vec<u8>, AllocError>
    ensures { IfOk result (λ v. v.items ≡ codes "bad\n") }
{
    b"bad\n".to_vec(heap)
}

// Makes the call of a line, if it is one, and appends what the line prints.
fn answer_line<B: Bank>(
    out: &mut String,
    store: &mut Store<B>,
    text: &[u8],
) -> Result<(), AllocError>
    ensures printed { IfOk result (λ _.
        string_bytes out.new ≡ string_bytes out.old ++ printed_line (line_of text.now) store.old) }
    ensures made { store.new ≡ state_after (line_of text.now) store.old }
{
    match parse_line(text) {
        Some(line) => line.make(store).print(out),
        None => out.push_str("bad\n"),
    }
}

// Makes the calls of lines in turn, and answers what the lines print.
fn answer_lines<B: Bank>(
    heap: Global,
    store: &mut Store<B>,
    lines: Lines<'_>,
) -> Result<Vec<u8>, AllocError>
    ensures printed { IfOk result (λ v.
        v.items ≡ answers (lines_of lines.entry.rest.now) store.old) }
    ensures made { IfOk result (λ _.
        store.new ≡ run (requests_of (lines_of lines.entry.rest.now)) store.old) }
{
    let mut out = String::new(heap);
    for text in lines {
        answer_line(&mut out, store, text)?;
    }
    Ok(out.into_bytes())
}

// The same on a new store, over a plain bank of 18,432 zero bytes.
fn answer_on_new_store(heap: Global, lines: Lines<'_>) -> Result<Vec<u8>, AllocError>
    ensures { IfOk result (λ v. v.items ≡ answers (lines_of lines.entry.rest.now) fresh) }
{
    let mut memory = vec![in heap; 0u8; SMALLEST_BANK]?;
    let mut store = Store::new(PlainBank::new(memory.as_mut_slice()));
    answer_lines(heap, &mut store, lines)
}

/// What a script prints.
pub fn answer_script(heap: Global, input: &[u8]) -> Result<Vec<u8>, AllocError>
    ensures printed { IfOk result (λ v. v.items ≡ script_of input.now) }
    ensures every_script_is_sound { EveryScriptIsSound }
{
    if input.len() > LONGEST {
        return bad(heap);
    }
    let mut lines = Lines { rest: input };
    if lines.next() != Some(HEADER) {
        return bad(heap);
    }
    answer_on_new_store(heap, lines)
}
