// The report of a mission as text.
use crate::reading::{Notes, entries};
use crate::tasks::{Obstacle, Standing};
use crate::words::{push_chain, push_making, step_to};
use bank::Bank;
use rules::Right;
use std::alloc::{AllocError, Global};
use std::fmt::Write;
use store::Store;
use tables::{BLOCK, ENTRIES, TABLES};

// How long a bar is that is full.
const BAR: u32 = 20;

/// The report of a store that a script made: what was refused, which tasks are separate, what
/// stands in the way of the others and how it is reached, what pairs of tasks share, and how full
/// the tables are.
pub fn report<B: Bank>(
    heap: Global,
    store: &Store<B>,
    notes: &Notes,
    standings: &[Standing],
) -> Result<String, AllocError> {
    let mut out = String::new(heap);
    push_lines(&mut out, notes)?;
    push_tasks(&mut out, store, standings)?;
    if store.is_sealed() {
        for standing in standings {
            if !standing.obstacles.is_empty() {
                push_obstacles(heap, &mut out, store, notes, standings, standing)?;
            }
        }
        push_pairs(&mut out, standings)?;
    }
    push_tables(&mut out, store)?;
    Ok(out)
}

// How many lines the script has, and which of them made nothing.
fn push_lines(out: &mut String, notes: &Notes) -> Result<(), AllocError> {
    let lines = notes.lines;
    let refused = notes.refusals.len();
    write!(out, "Lines read: {lines}\nRefused: {refused}\n")?;
    for refusal in notes.refusals.iter() {
        write!(out, "  {refusal}\n")?;
    }
    Ok(())
}

// Which tasks are separate.
fn push_tasks<B: Bank>(
    out: &mut String,
    store: &Store<B>,
    standings: &[Standing],
) -> Result<(), AllocError> {
    out.push_str("\nWhich tasks are separate\n\n")?;
    if !store.is_sealed() {
        return out.push_str("  The store is not sealed, so that no task can be asked about.\n");
    }
    if standings.is_empty() {
        out.push_str("  No task is loaded.\n")?;
    }
    for standing in standings {
        let task = standing.task;
        let count = standing.obstacles.len();
        match standing.separate {
            Ok(true) => write!(out, "  task {task}  yes\n")?,
            Ok(false) if count == 1 => write!(
                out,
                "  task {task}  no, 1 object stands in the way\n"
            )?,
            Ok(false) => write!(out, "  task {task}  no, {count} objects stand in the way\n")?,
            Err(fault) => {
                let reason = fault.reason;
                write!(out, "  task {task}  no answer, {reason}\n")?;
            }
        }
    }
    Ok(())
}

// What stands in the way of a task.
fn push_obstacles<B: Bank>(
    heap: Global,
    out: &mut String,
    store: &Store<B>,
    notes: &Notes,
    standings: &[Standing],
    standing: &Standing,
) -> Result<(), AllocError> {
    let task = standing.task;
    write!(out, "\nWhat stands in the way of task {task}\n")?;
    for obstacle in standing.obstacles.iter() {
        let Obstacle { table, index, .. } = *obstacle;
        write!(out, "\n  {table}.{index}  ")?;
        push_making(out, store, notes, table, index)?;
        out.push_str("\n")?;
        push_access(heap, out, store, standing, obstacle)?;
        push_others(heap, out, store, standings, standing, obstacle)?;
    }
    Ok(())
}

// How one task by itself reaches or alters an object.
fn push_access<B: Bank>(
    heap: Global,
    out: &mut String,
    store: &Store<B>,
    standing: &Standing,
    obstacle: &Obstacle,
) -> Result<(), AllocError> {
    let Obstacle { table, index, .. } = *obstacle;
    let task = standing.task;
    let right = if standing.own.alters(table, index) {
        write!(out, "    task {task} can alter it\n")?;
        Some(Right::Write)
    } else if standing.own.reaches(table, index) {
        write!(out, "    task {task} reaches it\n")?;
        None
    } else {
        return Ok(());
    };
    match step_to(store, &standing.own_steps, table, index, right) {
        Some(step) => push_chain(heap, out, store, &standing.own_steps, step, "      "),
        None => Ok(()),
    }
}

// How the other tasks do, each by itself, and then together if none does so by itself.
fn push_others<B: Bank>(
    heap: Global,
    out: &mut String,
    store: &Store<B>,
    standings: &[Standing],
    standing: &Standing,
    obstacle: &Obstacle,
) -> Result<(), AllocError> {
    let Obstacle {
        table,
        index,
        others,
        ..
    } = *obstacle;
    let mut any_reaches = false;
    let mut any_alters = false;
    for other in standings {
        if other.task != standing.task {
            push_access(heap, out, store, other, obstacle)?;
            any_reaches = any_reaches || other.own.reaches(table, index);
            any_alters = any_alters || other.own.alters(table, index);
        }
    }
    let right = if others && !any_alters {
        out.push_str("    other tasks together can alter it\n")?;
        Some(Right::Write)
    } else if !any_reaches {
        out.push_str("    other tasks together reach it\n")?;
        None
    } else {
        return Ok(());
    };
    match step_to(store, &standing.other_steps, table, index, right) {
        Some(step) => push_chain(heap, out, store, &standing.other_steps, step, "      "),
        None => Ok(()),
    }
}

// What pairs of tasks share.
fn push_pairs(out: &mut String, standings: &[Standing]) -> Result<(), AllocError> {
    if standings.len() < 2 {
        return Ok(());
    }
    out.push_str("\nWhat pairs of tasks share\n\n")?;
    for (place, one) in standings.iter().enumerate() {
        for two in standings.iter().skip(place + 1) {
            push_pair(out, one, two)?;
        }
    }
    Ok(())
}

// What two tasks share.
fn push_pair(out: &mut String, one: &Standing, two: &Standing) -> Result<(), AllocError> {
    let first = one.task;
    let second = two.task;
    write!(out, "  tasks {first} and {second}  ")?;
    let mut any = false;
    for table in 0..TABLES as u32 {
        for index in 0..ENTRIES as u32 {
            if one.own.reaches(table, index) && two.own.reaches(table, index) {
                if any {
                    out.push_str(", ")?;
                }
                any = true;
                write!(out, "{table}.{index} (")?;
                push_altering(out, one, two, table, index)?;
                out.push_str(")")?;
            }
        }
    }
    out.push_str(if any { "\n" } else { "nothing\n" })
}

// Which of two tasks can alter an entry.
fn push_altering(
    out: &mut String,
    one: &Standing,
    two: &Standing,
    table: u32,
    index: u32,
) -> Result<(), AllocError> {
    let first = one.task;
    let second = two.task;
    match (one.own.alters(table, index), two.own.alters(table, index)) {
        (true, true) => out.push_str("both can alter it"),
        (true, false) => write!(out, "task {first} can alter it"),
        (false, true) => write!(out, "task {second} can alter it"),
        (false, false) => out.push_str("neither can alter it"),
    }
}

// How full each table is.
fn push_tables<B: Bank>(out: &mut String, store: &Store<B>) -> Result<(), AllocError> {
    out.push_str("\nHow full the tables are\n\n")?;
    out.push_str("  table  entries                           bytes of its block\n")?;
    for table in 0..TABLES as u32 {
        let count = entries(store, table);
        let bytes = taken(store, table);
        write!(out, "  {table}      ")?;
        push_bar(out, count, ENTRIES as u32)?;
        write!(out, " {count:>2} of 64   ")?;
        push_bar(out, bytes, BLOCK)?;
        write!(out, " {bytes:>4} of 2048\n")?;
    }
    Ok(())
}

// How many bytes of its block the entries of a table take.
pub(crate) fn taken<B: Bank>(store: &Store<B>, table: u32) -> u32 {
    let mut sum = 0u32;
    for index in 0..ENTRIES as u32 {
        if let Some(entry) = store.entry(table, index) {
            sum = sum.saturating_add(entry.takes());
        }
    }
    sum
}

// A bar: so many of so many. Something is never drawn as nothing.
fn push_bar(out: &mut String, part: u32, whole: u32) -> Result<(), AllocError> {
    out.push_str("[")?;
    for at in 0..BAR {
        let filled = at as u64 * (whole as u64) < part as u64 * BAR as u64;
        out.push_str(if filled { "#" } else { "." })?;
    }
    out.push_str("]")
}
