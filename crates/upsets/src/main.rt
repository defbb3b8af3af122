// A magnetometer record in coded and in plain memory: each bit of that memory is flipped in turn,
// and the record read back.
#![tactic(auto)]

ghost use Rattle.std.specs.Prelude.{◌≡◌, ◌<◌};
ghost use Rattle.magnetometer.specs.Records.{record_bytes};
ghost use Rattle.magnetometer.specs.Upsets.{flipped};

use magnetometer::{Record, Tally, flip_in_byte, flip_in_word};
use std::io;

const UNITS: usize = 6;

fn main(rt: HostRuntime) -> io::Result<()> {
    let record = Record {
        x: 18620,
        y: -3040,
        z: 25405,
    };
    stored(&rt, record)?;
    let [mut coded, mut plain] = [Tally::new(record.length()); 2];
    upsets(&rt, record, &mut coded, &mut plain)?;
    for (kind, tally) in [("coded", coded), ("plain", plain)] {
        summary(&rt, kind, tally)?;
    }
    Ok(())
}

// What is stored where.
fn stored(rt: &HostRuntime, record: Record) -> io::Result<()> {
    println!(rt;
        "Magnetometer record: x = {} nT, y = {} nT, z = {} nT.\nLength of the field vector: {} nT.\n",
        record.x,
        record.y,
        record.z,
        record.length()
    )?;
    println!(rt;
        "It is stored in six bytes, the low byte of each reading first:\n\n  address   plain memory   coded memory"
    )?;
    for (address, byte) in <[u8; UNITS]>::from(record).iter().enumerate() {
        let word = hamming::encode(*byte);
        println!(rt; "  {address:7}   byte 0x{byte:02x}      word 0x{word:03x}")?;
    }
    Ok(())
}

// Flips each bit of each unit, prints what is read then, and keeps the tallies.
fn upsets(
    rt: &HostRuntime,
    record: Record,
    coded: &mut Tally,
    plain: &mut Tally,
) -> io::Result<()> {
    println!(rt;
        "\nOne bit is flipped at a time, and the record is read back (= what was stored, * something else):\n"
    )?;
    println!(rt;
        "  flipped        read from coded memory           read from plain memory\n  address  bit          x      y      z  length          x      y      z  length"
    )?;
    for address in 0..UNITS {
        for bit in 0..u16::BITS {
            print!(rt; "  {address:7}  {bit:3}")?;
            show(rt, record, from_words(record, address, bit), coded)?;
            if bit < u8::BITS {
                show(rt, record, from_bytes(record, address, bit), plain)?;
            } else {
                print!(rt; "     no such bit")?;
            }
            println!(rt; "")?;
        }
    }
    Ok(())
}

// The record as it is read from coded memory after one bit of one word has flipped: proved to be
// the one that was stored.
fn from_words(record: Record, word: usize, bit: u32) -> Record
    requires word { word < UNITS }
    requires bit { bit < 16 }
    ensures { result ≡ «record» }
{
    let mut words = [0u16; UNITS];
    record.store(&mut words, 0);
    flip_in_word(&mut words, word, bit);
    let read = Record::read_coded(&mut words, 0);
    let survives = read == record;
    prove!(survives);
    read
}

// The record as it is read from plain memory after one bit of one byte has flipped: that bit of it
// has flipped and no other.
fn from_bytes(record: Record, byte: usize, bit: u32) -> Record
    requires byte { byte < UNITS }
    requires bit { bit < 8 }
    ensures { record_bytes result ≡ flipped (record_bytes «record») byte bit }
{
    let mut bytes = [0u8; UNITS];
    record.store(&mut bytes, 0);
    flip_in_byte(&mut bytes, byte, bit);
    Record::read_plain(&mut bytes, 0)
}

// Prints what was read, with a mark if it is not what was stored.
fn show(rt: &HostRuntime, stored: Record, read: Record, tally: &mut Tally) -> io::Result<()> {
    let changed = read != stored;
    let length = read.length();
    tally.note(changed, length);
    let mark = if changed { "*" } else { "=" };
    print!(rt; "   {mark} {read:6}  {length:6}")
}

fn summary(rt: &HostRuntime, kind: &str, tally: Tally) -> io::Result<()> {
    println!(rt;
        "\nIn {kind} memory {} of {} upsets changed the record.\nThe length of the field vector was read as {} to {} nT.",
        tally.changes, tally.upsets, tally.least, tally.most
    )
}
