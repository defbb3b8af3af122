//! Memory banks: bytes at addresses from 0 on, as many as the bank's size, which never changes.
//!
//! ```text
//! let mut memory = [0u16; 18432];
//! let mut bank = CodedBank::new(&mut memory);
//! bank.write_word(2048, 7); // read back although a bit of each 16-bit word flips
//! ```
#![tactic(auto)]

ghost use Rattle.std.specs.Prelude.{◌≡◌, ℕ, List, length, replicate, slice_index, slice_set};
ghost use Rattle.bank.specs.Runs.{read_run, write_run};
ghost use Rattle.bank.specs.Words.{word_at, word_bytes};

mod coded;
mod lent;
mod plain;
mod units;

pub use coded::CodedBank;
pub use lent::{LentBank, Unit};
pub use plain::PlainBank;

/// Bytes at addresses below a size. At and beyond the size every byte reads as 0, and a write does
/// nothing.
///
/// A new bank says which list of bytes it means (`bytes`), and owes `size`, `read` and `write` with
/// proofs of their clauses, which speak of that list. Runs and words come with the trait, byte by
/// byte; a bank that can do them faster has its own, under the same clauses.
pub trait Bank {
    // The bytes that the bank means; their number is its size.
    ghost bytes: { Self → List ℕ };

    /// The size of the bank in bytes.
    fn size(&self) -> u32
        ensures { result ≡ length (bytes self.now) };

    /// The byte at an address, or 0 at and beyond the size.
    fn read(&self, address: u32) -> u8
        ensures { result ≡ slice_index (bytes self.now) address };

    /// Replaces the byte at an address, or does nothing at and beyond the size.
    fn write(&mut self, address: u32, byte: u8)
        ensures { bytes self.new ≡ slice_set (bytes self.old) address byte };

    /// Fills the buffer with the bytes from an address on, each 0 at and beyond the size.
    fn read_run(&self, address: u32, out: &mut [u8])
        ensures { out.new ≡ read_run (bytes self.now) address (length out.old) }
    {
        let (_, inside) = units::clip(self.size() as usize, address, out.len());
        let (known, past) = out.split_at_mut(inside);
        for (i, byte) in known.iter_mut().enumerate() {
            *byte = self.read(address + i as u32);
        }
        past.fill(0);
    }

    /// Replaces the bytes from an address on, as far as they lie inside the bank.
    fn write_run(&mut self, address: u32, source: &[u8])
        ensures { bytes self.new ≡ write_run (bytes self.old) address source.now }
    {
        let (_, inside) = units::clip(self.size() as usize, address, source.len());
        for (i, byte) in source[..inside].iter().enumerate() {
            self.write(address + i as u32, *byte);
        }
    }

    /// Writes as many zeros from an address on, as far as they lie inside the bank.
    fn clear_run(&mut self, address: u32, count: u32)
        ensures { bytes self.new ≡ write_run (bytes self.old) address (replicate count 0) }
    {
        for at in address..self.size().min(address.saturating_add(count)) {
            self.write(at, 0);
        }
    }

    /// The word of the four bytes from an address on, the low byte first; each is 0 at and beyond
    /// the size.
    #[tactic(auto, unfolding(crate::specs::Words::word_at, crate::specs::Runs::read_run))]
    fn read_word(&self, address: u32) -> u32
        ensures { result ≡ word_at (bytes self.now) address }
    {
        let mut four = [0u8; 4];
        self.read_run(address, &mut four);
        u32::from_le_bytes(four)
    }

    /// Replaces the four bytes from an address on with those of a word, the low byte first, as far
    /// as they lie inside the bank.
    #[tactic(auto, unfolding(crate::specs::Words::word_bytes))]
    fn write_word(&mut self, address: u32, word: u32)
        ensures { bytes self.new ≡ write_run (bytes self.old) address (word_bytes word) }
    {
        self.write_run(address, &word.to_le_bytes());
    }
}
