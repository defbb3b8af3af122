// A camera with a wrong length next to a magnetometer record.
use crate::replay::Replay;
use bank::PlainBank;
use magnetometer::Record;
use rules::{Fault, slot};
use std::io;
use store::Store;

const ATTITUDE: u32 = 1;

const CAMERA: u32 = 2;

pub(crate) fn steps(replay: &mut Replay) -> io::Result<()> {
    replay.step("load: a frame of 64 bytes, then the record of 6", load)?;
    let record = Record {
        x: 18620,
        y: -3040,
        z: 25405,
    };
    replay.step("attitude task writes the record", |store| {
        store.write(ATTITUDE, slot(0), 0, &<[u8; 6]>::from(record))
    })?;
    replay.step("camera clears 64 bytes of its frame", |store| {
        store.write(CAMERA, slot(0), 0, &[0; 64])
    })?;
    replay.step("camera clears 70 bytes of its frame", |store| {
        store.write(CAMERA, slot(0), 0, &[0; 70])
    })?;
    replay.step("camera clears 6 bytes behind its frame", |store| {
        store.write(CAMERA, slot(0), 64, &[0; 6])
    })?;
    show_record(replay)
}

// The frame and the record lie next to each other in the common table. Each task has its own in
// slot 0.
fn load(store: &mut Store<PlainBank>) -> Result<(), Fault> {
    store.task(ATTITUDE, 4)?;
    store.task(CAMERA, 4)?;
    let frame = store.place(0, 64, 0, 0)?;
    let record = store.place(0, 6, 0, 0)?;
    store.grant(CAMERA, 0, 0, 0, frame, 3)?;
    store.grant(ATTITUDE, 0, 0, 0, record, 3)?;
    store.seal()
}

fn show_record(replay: &Replay) -> io::Result<()> {
    let mut bytes = [0; 6];
    match replay.store.read(ATTITUDE, slot(0), 0, &mut bytes) {
        Ok(()) => {
            let record = Record::from(bytes);
            let length = record.length();
            let Record { x, y, z } = record;
            println!(replay.rt;
                "  attitude task reads the record: {x} {y} {z} nT, length {length} nT"
            )
        }
        Err(_) => println!(replay.rt; "  attitude task cannot read the record"),
    }
}
