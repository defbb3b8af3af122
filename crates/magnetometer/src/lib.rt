//! A magnetometer record in memory, and what is read of it after a bit of that memory has flipped.
#![tactic(auto)]

ghost use Rattle.std.specs.Prelude.{◌≡◌, ◌+◌, ◌*◌, ◌<◌, ◌≤◌, Some, length, map, min, unsigned_abs};
ghost use Rattle.bank.specs.Runs.{read_run, write_run};
ghost use Rattle.bank.specs.Units.{used};
ghost use Rattle.hamming.specs.Code.{decoded};
ghost use Rattle.magnetometer.specs.Records.{length_squared, record_bytes, record_text};
ghost use Rattle.magnetometer.specs.Upsets.{ShowsTheFlip, SurvivesAnyFlip, flipped};
ghost use Rattle.std.specs.Int.{w16};
ghost use Rattle.std.proofs.Common.{to_z};

mod tally;

use bank::{Bank, LentBank, Unit};
use std::fmt::{self, Display, Write};
pub use tally::Tally;

/// A reading of the magnetic field.
#[derive(Clone, Copy, Debug, PartialEq, Eq)]
pub struct Record {
    /// The component along x, in nanotesla.
    pub x: i16,
    /// The component along y, in nanotesla.
    pub y: i16,
    /// The component along z, in nanotesla.
    pub z: i16,
}

/// x, y and z, each as wide as the format asks.
impl fmt::Display for Record {
    ghost output = { λ v. Some (record_text v) };

    fn fmt<W: fmt::Write>(&self, f: &mut fmt::Formatter<W>) -> fmt::Result {
        self.x.fmt(f)?;
        f.write_str(" ")?;
        self.y.fmt(f)?;
        f.write_str(" ")?;
        self.z.fmt(f)
    }
}

/// The six bytes of a record: x, y and z, each with its low byte first.
impl From<Record> for [u8; 6] {
    ghost from_gives = { λ v bytes. bytes ≡ record_bytes v };

    fn from(record: Record) -> [u8; 6] {
        let [a, b] = record.x.to_le_bytes();
        let [c, d] = record.y.to_le_bytes();
        let [e, f] = record.z.to_le_bytes();
        [a, b, c, d, e, f]
    }
}

/// The record that six bytes make: x, y and z, each with its low byte first.
impl From<[u8; 6]> for Record {
    ghost from_gives = { λ bytes v. record_bytes v ≡ bytes };

    fn from(bytes: [u8; 6]) -> Record {
        let [a, b, c, d, e, f] = bytes;
        Record {
            x: reading(a, b),
            y: reading(c, d),
            z: reading(e, f),
        }
    }
}

impl Record {
    /// The length of the field vector in nanotesla, rounded down.
    pub fn length(self) -> u32
        ensures low { result * result ≤ length_squared self }
        ensures high { length_squared self < (result + 1) * (result + 1) }
    {
        (square(self.x) + square(self.y) + square(self.z)).isqrt()
    }

    /// Stores the record in a bank over this memory, one unit for each of its six bytes from an
    /// address on: in words their code words, in bytes the bytes themselves.
    pub fn store<U: Unit>(self, memory: &mut [U], address: u32)
        requires { address + 6 ≤ min (length memory.old) 65536 }
        ensures { memory.new ≡ write_run memory.old address (U.units_of (record_bytes self)) }
    {
        write(memory, address, &<[u8; 6]>::from(self));
    }

    /// The record that a coded bank over this memory reads from an address on: the one that was
    /// stored there, also if any one bit of any one word has flipped since.
    #[tactic(auto, using(crate::proofs::Survives::read_each))]
    pub fn read_coded(words: &mut [u16], address: u32) -> Record
        requires { address + 6 ≤ min (length words.old) 65536 }
        ensures value { record_bytes result ≡ read_run (map decoded words.old) address 6 }
        ensures survives { SurvivesAnyFlip words.old address result }
        ensures kept { words.new ≡ words.old }
    {
        read(words, address)
    }

    /// The record that a plain bank over this memory reads from an address on: the one that was
    /// stored there. If one bit has flipped since, that bit of it has flipped and no other.
    #[tactic(auto, using(crate::proofs::Survives::read_used))]
    pub fn read_plain(bytes: &mut [u8], address: u32) -> Record
        requires { address + 6 ≤ min (length bytes.old) 65536 }
        ensures value { record_bytes result ≡ read_run bytes.old address 6 }
        ensures shows { ShowsTheFlip bytes.old address result }
        ensures kept { bytes.new ≡ bytes.old }
    {
        read(bytes, address)
    }
}

/// Flips one bit of one word of memory, as radiation does.
pub fn flip_in_word(words: &mut [u16], word: usize, bit: u32)
    requires word { word < length words.old }
    requires bit { bit < 16 }
    ensures { words.new ≡ flipped words.old word bit }
{
    words[word] ^= 1 << bit;
}

/// Flips one bit of one byte of memory, as radiation does.
pub fn flip_in_byte(bytes: &mut [u8], byte: usize, bit: u32)
    requires byte { byte < length bytes.old }
    requires bit { bit < 8 }
    ensures { bytes.new ≡ flipped bytes.old byte bit }
{
    bytes[byte] ^= 1 << bit;
}

fn write<U: Unit>(memory: &mut [U], address: u32, bytes: &[u8])
    requires { address + length bytes.now ≤ 65536 }
    ensures { memory.new ≡ write_run memory.old address (U.units_of bytes.now) }
{
    LentBank::new(memory).write_run(address, bytes);
}

fn read<U: Unit>(memory: &mut [U], address: u32) -> Record
    ensures value { record_bytes result ≡ read_run (U.bytes_of (used memory.old)) address 6 }
    ensures kept { memory.new ≡ memory.old }
{
    let mut bytes = [0; 6];
    LentBank::new(memory).read_run(address, &mut bytes);
    Record::from(bytes)
}

fn reading(low: u8, high: u8) -> i16
    ensures { result ≡ to_z w16 (low + high * 256) }
{
    i16::from_le_bytes([low, high])
}

fn square(n: i16) -> u32
    ensures value { result ≡ unsigned_abs n * unsigned_abs n }
    ensures bound { result ≤ 1073741824 }
{
    let size = n.unsigned_abs() as u32;
    size * size
}
