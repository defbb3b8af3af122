// The two stores: how they are loaded, and what they make of requests.
use crate::tasks::{ATTITUDE, PAYLOAD};
use bank::{Bank, CodedBank, PlainBank};
use rules::{Call, Load};
use runs::{Outcome, Request};
use sharing::{Watched, watch};
use std::io;
use store::{SMALLEST_BANK, Store};

const READ: u32 = 1;

const READ_AND_WRITE: u32 = 3;

// The outcomes of requests in a new store over a plain bank.
pub(crate) fn on_plain(
    rt: &HostRuntime,
    payload_may_write: bool,
    requests: &[Request<'_>],
) -> io::Result<Vec<Outcome>> {
    let mut bytes = vec![in rt.alloc(); 0u8; SMALLEST_BANK]?;
    let mut store = loaded(rt, PlainBank::new(bytes.as_mut_slice()), payload_may_write)?;
    Ok(isolation::run(rt.alloc(), &mut store, requests)?)
}

// The same over a coded bank.
pub(crate) fn on_coded(
    rt: &HostRuntime,
    payload_may_write: bool,
    requests: &[Request<'_>],
) -> io::Result<Vec<Outcome>> {
    let mut words = vec![in rt.alloc(); 0u16; SMALLEST_BANK]?;
    let mut store = loaded(rt, CodedBank::new(words.as_mut_slice()), payload_may_write)?;
    Ok(isolation::run(rt.alloc(), &mut store, requests)?)
}

// Whether the attitude task is separate in each of two new stores, and whether it sees a difference
// between them.
pub(crate) fn watched(
    rt: &HostRuntime,
    payload_may_write: bool,
    quiet: &[Request<'_>],
    hostile: &[Request<'_>],
) -> io::Result<Watched> {
    let mut bytes = vec![in rt.alloc(); 0u8; SMALLEST_BANK]?;
    let mut words = vec![in rt.alloc(); 0u16; SMALLEST_BANK]?;
    let mut plain = loaded(rt, PlainBank::new(bytes.as_mut_slice()), payload_may_write)?;
    let mut coded = loaded(rt, CodedBank::new(words.as_mut_slice()), payload_may_write)?;
    Ok(watch(rt.alloc(), ATTITUDE, &mut plain, quiet, &mut coded, hostile)?)
}

// A loaded and sealed store.
fn loaded<B: Bank + Drop>(
    rt: &HostRuntime,
    bank: B,
    payload_may_write: bool,
) -> io::Result<Store<B>> {
    let mut store = soundness::new_store(bank);
    soundness::run(rt.alloc(), &mut store, &loading(payload_may_write))?;
    Ok(store)
}

// Task 1 keeps the attitude, task 2 is the payload. Entry 0 of table 0 is the record of the
// magnetometer, entry 0 of table 1 and of table 2 the context of the task, entry 1 its own object.
fn loading(payload_may_write: bool) -> [Request<'static>; 11] {
    let rights = if payload_may_write {
        READ_AND_WRITE
    } else {
        READ
    };
    [
        task(ATTITUDE),
        task(PAYLOAD),
        place(0, 6, 0),
        Request {
            call: Call::Load(Load::Fill {
                table: 0,
                index: 0,
                offset: 0,
            }),
            bytes: b"\x48\xbc\xf4\x20\x63\x3d",
        },
        place(ATTITUDE, 8, 0),
        place(PAYLOAD, 32, 2),
        grant(ATTITUDE, 4, ATTITUDE, 1, READ_AND_WRITE),
        grant(ATTITUDE, 5, 0, 0, READ),
        grant(PAYLOAD, 4, PAYLOAD, 1, READ_AND_WRITE),
        grant(PAYLOAD, 5, 0, 0, rights),
        bare(Load::Seal),
    ]
}

fn task(number: u32) -> Request<'static> {
    bare(Load::Task { number, slots: 8 })
}

fn place(table: u32, size: u32, slots: u32) -> Request<'static> {
    bare(Load::Place {
        table,
        size,
        slots,
        kind: 0,
    })
}

// Into a slot of a task's context.
fn grant(task: u32, slot: u32, table: u32, index: u32, rights: u32) -> Request<'static> {
    bare(Load::Grant {
        table: task,
        index: 0,
        slot,
        named_table: table,
        named_index: index,
        rights,
    })
}

// A load call with no bytes beside it.
fn bare(load: Load) -> Request<'static> {
    Request {
        call: Call::Load(load),
        bytes: b"",
    }
}
