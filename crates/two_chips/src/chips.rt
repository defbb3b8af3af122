// A bank over two chips of memory.
ghost use Rattle.bank.specs.Runs.{write_run};
ghost use Rattle.bank.specs.Words.{word_at, word_bytes};
ghost use Rattle.std.specs.Prelude.{◌≡◌, ◌+◌, ◌-◌, ◌*◌, min, replicate, slice_set};
ghost use Rattle.two_chips.specs.Chips.{Rewrites, bytes_of, chips_of, put, put_run, size as size_of};

use crate::pairs;
use bank::Bank;
use std::fmt;

// As many bytes of a chip as a bank uses at most.
const MOST: usize = 32768;

/// A bank over memory in two chips. The byte of an even address is in the first and that of an odd
/// one in the second, each at half its address, rounded down.
#[derive(Drop)]
pub struct TwoChipBank<'a> {
    first: &'a mut [u8],
    second: &'a mut [u8],
}

/// Names the size in place of the memory.
impl fmt::Debug for TwoChipBank<'_> {
    fn fmt<W: fmt::Write>(&self, f: &mut fmt::Formatter<W>) -> fmt::Result {
        f.debug_struct("TwoChipBank")
            .field("size", &self.size())
            .finish()
    }
}

impl<'a> TwoChipBank<'a> {
    /// A bank over two chips. Its size is twice the length of the shorter, at most 65,536; what a
    /// chip has beyond half the size is left alone. It begins with what they hold.
    pub fn new(first: &'a mut [u8], second: &'a mut [u8]) -> Self
        ensures value { chips_of result ≡ record { first = first.old; second = second.old } }
        ensures first_lent { result.first.ghost_name ≡ first.entry.ghost_name }
        ensures second_lent { result.second.ghost_name ≡ second.entry.ghost_name }
    {
        TwoChipBank { first, second }
    }

    // The size.
    #[inline(always)]
    fn len(&self) -> usize
        ensures { result ≡ size_of (chips_of self.now) }
    {
        2 * self.first.len().min(self.second.len()).min(MOST)
    }

    // Where a run begins inside the bank, at its address or at the end, and where it ends.
    #[inline(always)]
    fn bounds(&self, address: u32, wanted: usize) -> (usize, usize)
        ensures from { result.0 ≡ min address (size_of (chips_of self.now)) }
        ensures to { result.1
            ≡ result.0 + min wanted (size_of (chips_of self.now) - result.0) }
    {
        let size = self.len();
        let from = (address as usize).min(size);
        (from, from + wanted.min(size - from))
    }

    // The word of the four bytes from an address on, where not all of them lie inside.
    #[cold]
    #[inline(never)]
    #[tactic(auto, unfolding(bank::specs::Words::word_at, bank::specs::Runs::read_run))]
    fn word_at_the_end(&self, address: u32) -> u32
        ensures { result ≡ word_at (bytes_of (chips_of self.now)) address }
    {
        let mut four = [0u8; 4];
        self.read_run(address, &mut four);
        u32::from_le_bytes(four)
    }
}

// The word of four bytes, made by sums: the compiler keeps it in a register.
#[inline(always)]
fn word(lowest: u8, low: u8, high: u8, highest: u8) -> u32
    ensures { result ≡ lowest + low * 256 + high * 65536 + highest * 16777216 }
{
    lowest as u32 + low as u32 * 256 + high as u32 * 65536 + highest as u32 * 16777216
}

impl Bank for TwoChipBank<'_> {
    ghost bytes = { λ s. bytes_of (chips_of s) };

    #[inline(always)]
    fn size(&self) -> u32 {
        self.len() as u32
    }

    #[inline(always)]
    fn read(&self, address: u32) -> u8 {
        let at = address as usize;
        if at >= self.len() {
            0
        } else if at % 2 == 0 {
            self.first[at / 2]
        } else {
            self.second[at / 2]
        }
    }

    fn write(&mut self, address: u32, byte: u8)
        ensures means { bytes_of (chips_of self.new)
            ≡ slice_set (bytes_of (chips_of self.old)) address byte }
        ensures memory { Rewrites self.old self.new (put (chips_of self.old) address byte) }
    {
        let at = address as usize;
        if at < self.len() {
            if at % 2 == 0 {
                self.first[at / 2] = byte;
            } else {
                self.second[at / 2] = byte;
            }
        }
    }

    fn read_run(&self, address: u32, out: &mut [u8]) {
        // One byte is read, and in `write_run` one is written, without going by turns.
        if out.len() == 1 {
            out[0] = self.read(address);
            return;
        }
        let (from, to) = self.bounds(address, out.len());
        let (known, past) = out.split_at_mut(to - from);
        let first = &self.first[from.div_ceil(2)..to.div_ceil(2)];
        let second = &self.second[from / 2..to / 2];
        if from % 2 == 0 {
            pairs::interleave(first, second, known);
        } else {
            pairs::interleave(second, first, known);
        }
        past.fill(0);
    }

    fn write_run(&mut self, address: u32, source: &[u8])
        ensures means { bytes_of (chips_of self.new)
            ≡ write_run (bytes_of (chips_of self.old)) address source.now }
        ensures memory { Rewrites self.old self.new
            (put_run (chips_of self.old) address source.now) }
    {
        if source.len() == 1 {
            self.write(address, source[0]);
            return;
        }
        let (from, to) = self.bounds(address, source.len());
        let first = &mut self.first[from.div_ceil(2)..to.div_ceil(2)];
        let second = &mut self.second[from / 2..to / 2];
        let source = &source[..to - from];
        if from % 2 == 0 {
            pairs::deinterleave(source, first, second);
        } else {
            pairs::deinterleave(source, second, first);
        }
    }

    fn clear_run(&mut self, address: u32, count: u32)
        ensures means { bytes_of (chips_of self.new)
            ≡ write_run (bytes_of (chips_of self.old)) address (replicate count 0) }
        ensures memory { Rewrites self.old self.new
            (put_run (chips_of self.old) address (replicate count 0)) }
    {
        let (from, to) = self.bounds(address, count as usize);
        self.first[from.div_ceil(2)..to.div_ceil(2)].fill(0);
        self.second[from / 2..to / 2].fill(0);
    }

    #[inline(always)]
    fn read_word(&self, address: u32) -> u32 {
        let at = address as usize;
        if at + 4 > self.len() {
            return self.word_at_the_end(address);
        }
        let (i, j) = (at.div_ceil(2), at / 2);
        if at % 2 == 0 {
            word(
                self.first[i],
                self.second[j],
                self.first[i + 1],
                self.second[j + 1],
            )
        } else {
            word(
                self.second[j],
                self.first[i],
                self.second[j + 1],
                self.first[i + 1],
            )
        }
    }

    #[inline(always)]
    fn write_word(&mut self, address: u32, word: u32)
        ensures means { bytes_of (chips_of self.new)
            ≡ write_run (bytes_of (chips_of self.old)) address (word_bytes word) }
        ensures memory { Rewrites self.old self.new
            (put_run (chips_of self.old) address (word_bytes word)) }
    {
        let at = address as usize;
        if at + 4 > self.len() {
            self.write_run(address, &word.to_le_bytes());
            return;
        }
        let (i, j) = (at.div_ceil(2), at / 2);
        let lowest = (word % 256) as u8;
        let low = (word / 256 % 256) as u8;
        let high = (word / 65536 % 256) as u8;
        let highest = (word / 16777216 % 256) as u8;
        if at % 2 == 0 {
            self.first[i] = lowest;
            self.second[j] = low;
            self.first[i + 1] = high;
            self.second[j + 1] = highest;
        } else {
            self.second[j] = lowest;
            self.first[i] = low;
            self.second[j + 1] = high;
            self.first[i + 1] = highest;
        }
    }
}
