// What is printed of a run.
use crate::boards::Boards;
use crate::mission::{RECORD_BEGIN, RECORD_END, Step};
use rules::Answer;
use runs::Outcome;
use std::alloc::{AllocError, Global};
use std::fmt::Write;
use std::io;
use store::SMALLEST_BANK;

// Prints for each step its outcome on the first board, and whether the second has the same. Where
// it has not, both follow in full.
pub(crate) fn print_steps(
    rt: &HostRuntime,
    steps: &[Step],
    plain: &[Outcome],
    chips: &[Outcome],
) -> io::Result<()> {
    println!(rt; "1. One mission on two boards, with plain memory and with two chips.\n")?;
    println!(rt;
        "  {:<10}{:<26}{:<45}on two chips",
        "caller", "call", "on plain memory"
    )?;
    let mut same = 0usize;
    for (step, (plain, chips)) in steps.iter().zip(plain.iter().zip(chips.iter())) {
        let on_plain = text(rt.alloc(), plain)?;
        print!(rt; "  {:<10}{:<26}{on_plain:<45}", step.caller(), step.what)?;
        if plain == chips {
            same = same.saturating_add(1);
            println!(rt; "the same")?;
        } else {
            println!(rt; "another one\n    {plain:?}\n    {chips:?}")?;
        }
    }
    let all = steps.len();
    let answer = if same == all { "yes" } else { "no" };
    println!(rt; "\n  Are all outcomes the same? {answer}, {same} of {all}\n")
}

// What a call answers, or why it was refused.
fn text(heap: Global, outcome: &Outcome) -> Result<String, AllocError> {
    let mut text = String::new(heap);
    match outcome.answer {
        Ok(Answer::Done) => write!(text, "done")?,
        Ok(Answer::Filled) => write!(text, "read {:?}", outcome.buffer)?,
        Ok(Answer::Index(index)) => write!(text, "index {index}")?,
        Ok(Answer::Looked { bytes, slots, .. }) => write!(text, "{bytes} bytes, {slots} slots")?,
        Ok(other) => write!(text, "{other:?}")?,
        Err(fault) => write!(text, "fault {}, {}", fault.reason.number(), fault.reason)?,
    }
    Ok(text)
}

// What stands in one column of the picture.
#[derive(Clone, Copy)]
enum Cell {
    Number(usize),
    Line,
    Nothing,
}

// Prints the bytes of the record on the first board, and below each one its place on the second.
pub(crate) fn print_record(rt: &HostRuntime, boards: &Boards) -> io::Result<()> {
    println!(rt; "2. The bytes of the magnetometer record on both boards.\n")?;
    print_row(rt, "plain memory", "address", |a| Cell::Number(a))?;
    print_row(rt, "", "byte", |a| byte(&boards.plain, a))?;
    print_row(rt, "", "", |_| Cell::Line)?;
    print_row(rt, "first chip", "place", |a| even(a, Cell::Number(a / 2)))?;
    print_row(rt, "", "byte", |a| even(a, byte(&boards.first, a / 2)))?;
    print_row(rt, "", "", |a| odd(a, Cell::Line))?;
    print_row(rt, "second chip", "place", |a| odd(a, Cell::Number(a / 2)))?;
    print_row(rt, "", "byte", |a| odd(a, byte(&boards.second, a / 2)))?;
    println!(rt; "")
}

// Prints a row of the picture, with a cell for each address of the record.
fn print_row<F: Fn(usize) -> Cell>(
    rt: &HostRuntime,
    memory: &str,
    what: &str,
    cell: F,
) -> io::Result<()>
    requires { F.IsAlwaysCallable cell }
{
    let mut row = format!(in rt.alloc(); "  {memory:<14}{what:<9}")?;
    for address in RECORD_BEGIN..RECORD_END {
        match cell(address) {
            Cell::Number(number) => write!(row, "{number:>5}")?,
            Cell::Line => row.push_str("    |")?,
            Cell::Nothing => row.push_str("     ")?,
        }
    }
    println!(rt; "{}", row.trim_end())
}

// The byte at a place of a memory.
fn byte(memory: &[u8], place: usize) -> Cell {
    match memory.get(place) {
        Some(byte) => Cell::Number(*byte as usize),
        None => Cell::Nothing,
    }
}

// A cell below an even address; below an odd one a line goes on to the second chip.
fn even(address: usize, cell: Cell) -> Cell {
    if address % 2 == 0 { cell } else { Cell::Line }
}

// A cell below an odd address; below an even one nothing is left to show.
fn odd(address: usize, cell: Cell) -> Cell {
    if address % 2 == 0 {
        Cell::Nothing
    } else {
        cell
    }
}

// Prints whether both boards hold the same bytes.
pub(crate) fn print_memory(rt: &HostRuntime, boards: &Boards) -> io::Result<()> {
    let differences = boards.differences(rt.alloc())?;
    println!(rt; "3. The whole memory of both boards, {SMALLEST_BANK} bytes.\n")?;
    print!(rt; "  Do the two chips together hold what the plain memory holds? ")?;
    match differences.first() {
        None => println!(rt; "yes"),
        Some(first) => {
            let count = differences.len();
            println!(rt; "no, {count} bytes differ, the first at address {first}")
        }
    }
}
