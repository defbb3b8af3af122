// A mission drawn as a graph, in the language of the Graphviz tools.
use crate::chain::held;
use crate::prose::taken;
use crate::reading::{Notes, entries};
use crate::tasks::Standing;
use crate::words::{push_kind, push_rights};
use bank::Bank;
use rules::{Entry, Kind, Storage};
use std::alloc::{AllocError, Global};
use std::fmt::Write;
use store::Store;
use tables::{ENTRIES, TABLES};

/// The store that a script made as a graph: tasks, entries table by table, and descriptors as
/// edges, with their slot and their rights. What stands in the way of a task is filled and has
/// eight corners.
pub fn graph<B: Bank>(
    heap: Global,
    store: &Store<B>,
    notes: &Notes,
    standings: &[Standing],
) -> Result<String, AllocError> {
    let mut out = String::new(heap);
    out.push_str("digraph mission {\n")?;
    out.push_str("  rankdir=LR;\n")?;
    out.push_str("  node [fontname=\"Helvetica\", fontsize=11, shape=box];\n")?;
    out.push_str("  edge [fontname=\"Helvetica\", fontsize=9];\n")?;
    for standing in standings {
        push_task(&mut out, standing)?;
    }
    for table in 0..TABLES as u32 {
        if entries(store, table) > 0 {
            push_table(&mut out, store, notes, standings, table)?;
        }
    }
    for standing in standings {
        push_contexts(&mut out, store, standing.task)?;
    }
    for table in 0..TABLES as u32 {
        for index in 0..ENTRIES as u32 {
            push_edges(&mut out, store, table, index)?;
        }
    }
    out.push_str("}\n")?;
    Ok(out)
}

// A task, filled if it is not separate.
fn push_task(out: &mut String, standing: &Standing) -> Result<(), AllocError> {
    let task = standing.task;
    let (text, color) = match standing.separate {
        Ok(true) => ("separate", "#cfe8cf"),
        Ok(false) => ("not separate", "#f6c7b6"),
        Err(_) => ("no answer", "#eeeeee"),
    };
    write!(
        out,
        "  task{task} [label=\"task {task}\\n{text}\", shape=ellipse, style=filled, fillcolor=\"{color}\"];\n"
    )
}

// The entries of a table.
fn push_table<B: Bank>(
    out: &mut String,
    store: &Store<B>,
    notes: &Notes,
    standings: &[Standing],
    table: u32,
) -> Result<(), AllocError> {
    let count = entries(store, table);
    let bytes = taken(store, table);
    write!(out, "  subgraph cluster_{table} {{\n")?;
    write!(
        out,
        "    label=\"table {table}: {count} of 64 entries, {bytes} of 2048 bytes\";\n"
    )?;
    write!(
        out,
        "    fontname=\"Helvetica\"; fontsize=11; color=\"#999999\";\n"
    )?;
    for index in 0..count {
        push_node(out, store, notes, standings, table, index)?;
    }
    out.push_str("  }\n")
}

// An entry.
fn push_node<B: Bank>(
    out: &mut String,
    store: &Store<B>,
    notes: &Notes,
    standings: &[Standing],
    table: u32,
    index: u32,
) -> Result<(), AllocError> {
    let Some(entry) = store.entry(table, index) else {
        return Ok(());
    };
    write!(out, "    e{table}_{index} [label=\"{table}.{index}\\n")?;
    push_kind(out, table, entry)?;
    if let Some(line) = notes.line_of(table, index) {
        write!(out, "\\nline {line}")?;
    }
    out.push_str("\"")?;
    out.push_str(if is_obstacle(standings, table, index) {
        ", shape=octagon, style=filled, fillcolor=\"#e8735a\""
    } else {
        shape(entry)
    })?;
    out.push_str("];\n")
}

// How an entry is drawn that stands in no way.
fn shape(entry: Entry) -> &'static str {
    match entry {
        Entry::Object(object) if object.kind == Kind::CONTEXT => ", style=rounded",
        Entry::Object(_) => "",
        Entry::Control(_) => ", shape=diamond",
        Entry::Refined(_) => ", style=dashed",
    }
}

// Whether an object stands in the way of a task.
fn is_obstacle(standings: &[Standing], table: u32, index: u32) -> bool {
    standings.iter().any(|standing| {
        standing.obstacles.iter().any(|obstacle| obstacle.table == table && obstacle.index == index)
    })
}

// The open contexts of a task.
fn push_contexts<B: Bank>(out: &mut String, store: &Store<B>, task: u32) -> Result<(), AllocError> {
    for number in 0..store.level(task) as usize {
        if let Some(context) = store.context(task, number) {
            let index = context.get();
            write!(out, "  task{task} -> e{task}_{index} [style=bold];\n")?;
        }
    }
    Ok(())
}

// What leads on from an entry: the descriptors in its slots, or the object beneath it.
fn push_edges<B: Bank>(
    out: &mut String,
    store: &Store<B>,
    table: u32,
    index: u32,
) -> Result<(), AllocError> {
    match store.entry(table, index) {
        Some(Entry::Object(object)) => push_slots(out, store, table, index, object),
        Some(Entry::Refined(part)) => {
            let (to, at) = (part.table, part.index);
            write!(
                out,
                "  e{table}_{index} -> e{to}_{at} [style=dashed, label=\"part of\"];\n"
            )
        }
        _ => Ok(()),
    }
}

// The descriptors in the slots of an object.
fn push_slots<B: Bank>(
    out: &mut String,
    store: &Store<B>,
    table: u32,
    index: u32,
    object: Storage,
) -> Result<(), AllocError> {
    let by = store.shown(table, index);
    for slot in 0..object.slots {
        if let Some(named) = held(store, by, slot) {
            let (to, at) = (named.table.get(), named.index.get());
            write!(
                out,
                "  e{table}_{index} -> e{to}_{at} [label=\"slot {slot}: "
            )?;
            push_rights(out, named.rights)?;
            out.push_str("\"];\n")?;
        }
    }
    Ok(())
}
