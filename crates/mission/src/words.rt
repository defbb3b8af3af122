// Entries, rights and chains in words.
use crate::chain::{Link, Step};
use crate::reading::Notes;
use bank::Bank;
use rules::{Descriptor, Entry, Kind, Right, Rights, Storage};
use std::alloc::{AllocError, Global};
use std::fmt::Write;
use store::Store;

// The rights with their names.
const NAMES: [(Right, &str); 6] = [
    (Right::Read, "read"),
    (Right::Write, "write"),
    (Right::Type1, "type right 1"),
    (Right::Type2, "type right 2"),
    (Right::Type3, "type right 3"),
    (Right::Delete, "delete"),
];

// The names of rights, or that there are all of them, or none.
pub(crate) fn push_rights(out: &mut String, rights: Rights) -> Result<(), AllocError> {
    if rights == Rights::ALL {
        return out.push_str("all rights");
    }
    let mut any = false;
    for (right, name) in NAMES {
        if rights.contains(right) {
            if any {
                out.push_str(", ")?;
            }
            out.push_str(name)?;
            any = true;
        }
    }
    if !any {
        out.push_str("no rights")?;
    }
    Ok(())
}

// What an entry is, without the line that made it.
pub(crate) fn push_kind(out: &mut String, table: u32, entry: Entry) -> Result<(), AllocError> {
    match entry {
        Entry::Object(object) => push_object(out, table, object),
        Entry::Control(control) => {
            let kind = control.kind.number();
            write!(out, "control of type {kind} that adds ")?;
            push_rights(out, Rights::low(control.rights as u32))
        }
        Entry::Refined(part) => write!(
            out,
            "refinement of {}.{}, {} bytes from {} on and {} slots from {} on",
            part.table, part.index, part.bytes, part.byte, part.slots, part.slot
        ),
    }
}

// What a storage object is.
fn push_object(out: &mut String, table: u32, object: Storage) -> Result<(), AllocError> {
    let Storage {
        bytes,
        slots,
        kind,
        level,
        ..
    } = object;
    if kind == Kind::CONTEXT {
        return write!(
            out,
            "context of task {table} with {slots} slots, level {level}"
        );
    }
    write!(out, "object of {bytes} bytes and {slots} slots")?;
    if kind != Kind::GENERIC {
        let number = kind.number();
        write!(out, ", type {number}")?;
    }
    Ok(())
}

// How an entry was made: what it is, by whom, and in which line.
pub(crate) fn push_making<B: Bank>(
    out: &mut String,
    store: &Store<B>,
    notes: &Notes,
    table: u32,
    index: u32,
) -> Result<(), AllocError> {
    let Some(entry) = store.entry(table, index) else {
        return Ok(());
    };
    push_kind(out, table, entry)?;
    if entry.level() == 0 {
        out.push_str(", placed")?;
    } else {
        write!(out, ", made by task {table}")?;
    }
    match notes.line_of(table, index) {
        Some(line) => write!(out, " in line {line}"),
        None => Ok(()),
    }
}

// The step by which an entry is reached: the first that names it, or a refinement of it, with the
// right that is asked for.
pub(crate) fn step_to<B: Bank>(
    store: &Store<B>,
    steps: &[Step],
    table: u32,
    index: u32,
    right: Option<Right>,
) -> Option<usize> {
    steps.iter().position(|step| {
        let named = step.descriptor;
        let allows = match right {
            Some(right) => named.rights.contains(right),
            None => true,
        };
        allows && leads_to(store, step, table, index)
    })
}

// Whether a step names an entry, or a refinement of it.
fn leads_to<B: Bank>(store: &Store<B>, step: &Step, table: u32, index: u32) -> bool {
    let (to, at) = (step.descriptor.table.get(), step.descriptor.index.get());
    if to == table && at == index {
        return true;
    }
    match store.entry(to, at) {
        Some(Entry::Refined(part)) => part.table as u32 == table && part.index as u32 == index,
        _ => false,
    }
}

// The chain that ends with a step, a line for each of its parts: first its own way, then how the
// type controls on it are obtained.
pub(crate) fn push_chain<B: Bank>(
    heap: Global,
    out: &mut String,
    store: &Store<B>,
    steps: &[Step],
    number: usize,
    indent: &str,
) -> Result<(), AllocError> {
    let mut ends = vec![in heap; number]?;
    for at in 0..steps.len() {
        let Some(end) = ends.get(at).copied() else {
            break;
        };
        let way = way_to(heap, steps, end)?;
        out.push_str(indent)?;
        push_way(out, store, steps, &way)?;
        out.push_str("\n")?;
        for step in way.iter() {
            if let Link::Amplified { control, .. } = step.link {
                if !ends.contains(&control) {
                    ends.push(control)?;
                }
            }
        }
    }
    Ok(())
}

// The steps that lead to a step, one on the other, the last one first. Type controls that come in
// from the side are left out.
fn way_to(heap: Global, steps: &[Step], number: usize) -> Result<Vec<Step>, AllocError> {
    let mut way = Vec::new(heap);
    let mut at = number;
    for _ in 0..steps.len() {
        let Some(step) = steps.get(at).copied() else {
            break;
        };
        let link = step.link;
        way.push(step)?;
        at = match link {
            Link::Context { .. } => break,
            Link::Shown { by, .. } => by,
            Link::Amplified { source, .. } => source,
        };
    }
    Ok(way)
}

// A way in words.
fn push_way<B: Bank>(
    out: &mut String,
    store: &Store<B>,
    steps: &[Step],
    way: &[Step],
) -> Result<(), AllocError> {
    for step in way.iter().rev() {
        push_step(out, store, steps, *step)?;
    }
    if let Some(last) = way.first() {
        let named = last.descriptor;
        if let Some(Entry::Refined(part)) = store.entry(named.table.get(), named.index.get()) {
            write!(out, " -> beneath it {}.{}", part.table, part.index)?;
        }
    }
    Ok(())
}

// A step in words: where its descriptor comes from, and what it is.
fn push_step<B: Bank>(
    out: &mut String,
    store: &Store<B>,
    steps: &[Step],
    step: Step,
) -> Result<(), AllocError> {
    let Step { link, descriptor } = step;
    let rights = descriptor.rights;
    match link {
        Link::Context {
            task,
            context,
            slot,
        } => {
            write!(out, "task {task}: slot {slot} of its context")?;
            if store.level(task) > 1 {
                if let Some(entry) = store.entry(task, context) {
                    let level = entry.level();
                    write!(out, " of level {level}")?;
                }
            }
        }
        Link::Shown { by, slot } => {
            write!(out, " -> slot {slot}")?;
            if let Some(before) = steps.get(by) {
                out.push_str(" of ")?;
                push_name(out, before.descriptor)?;
            }
        }
        Link::Amplified { control, .. } => {
            if let Some(by) = steps.get(control) {
                out.push_str(" -> by control ")?;
                push_name(out, by.descriptor)?;
            }
        }
    }
    out.push_str(" -> ")?;
    push_name(out, descriptor)?;
    out.push_str(" (")?;
    push_rights(out, rights)?;
    out.push_str(")")
}

// The entry that a descriptor names.
fn push_name(out: &mut String, descriptor: Descriptor) -> Result<(), AllocError> {
    let table = descriptor.table.get();
    let index = descriptor.index.get();
    write!(out, "{table}.{index}")
}
