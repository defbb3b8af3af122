// A bank over lent memory: one byte in each of its first 65,536 units.
ghost use Rattle.bank.specs.Runs.{read_run, write_run};
ghost use Rattle.bank.specs.Units.{Rewrites, used};
ghost use Rattle.bank.specs.Words.{word_bytes};
ghost use Rattle.std.specs.Prelude.{◌≡◌, ℕ, ◌<◌, List, length, map, replicate, slice_set};

use crate::{Bank, units};
use std::fmt;

/// A unit of memory that holds one byte: a `u8` the byte itself, a `u16` its code word.
///
/// A new unit says what byte it means and what unit a byte becomes, and owes that a byte comes back
/// from its unit. Runs come with the trait, unit by unit.
pub trait Unit: Copy {
    // The byte that a unit means, and the unit that a byte becomes.
    ghost byte_of: { Self → ℕ };

    ghost unit_of: { ℕ → Self };

    // Of a list of units its bytes, and of a list of bytes its units.
    ghost bytes_of: { List Self → List ℕ };

    ghost units_of: { List ℕ → List Self };

    /// The byte that the unit means.
    fn decode(self) -> u8
        ensures { result ≡ byte_of self };

    /// The unit that a byte becomes.
    fn encode(byte: u8) -> Self
        ensures { result ≡ unit_of byte };

    /// Fills a buffer with the bytes of as many units.
    fn decode_run(units: &[Self], out: &mut [u8])
        requires { length units.now ≡ length out.old }
        ensures { out.new ≡ bytes_of units.now }
    {
        for (i, unit) in units.iter().enumerate() {
            out[i] = unit.decode();
        }
    }

    /// Fills units with as many bytes.
    fn encode_run(units: &mut [Self], source: &[u8])
        requires { length units.old ≡ length source.now }
        ensures { units.new ≡ units_of source.now }
    {
        // By fours, which the compiler does not do by itself.
        let fours = source.len() / 4;
        for k in 0..fours {
            units[4 * k] = Self::encode(source[4 * k]);
            units[4 * k + 1] = Self::encode(source[4 * k + 1]);
            units[4 * k + 2] = Self::encode(source[4 * k + 2]);
            units[4 * k + 3] = Self::encode(source[4 * k + 3]);
        }
        for i in 4 * fours..source.len() {
            units[i] = Self::encode(source[i]);
        }
    }

    // A byte comes back from its unit, and lists go unit by unit.
    ghost back: { (b : ℕ) → b < 256 → byte_of (unit_of b) ≡ b };

    ghost bytes_each: { (us : List Self) → bytes_of us ≡ map byte_of us };

    // A copy of a unit is the unit.
    ghost infallible: { (u : Self) → Self.is_infallible u };

    ghost clones: { (u v : Self) → Self.is_clone u v → v ≡ u };

    ghost units_each: { (bs : List ℕ) → units_of bs ≡ map unit_of bs };
}

/// A bank over lent memory, one byte in each unit: a `PlainBank` over bytes, a `CodedBank` over
/// 16-bit words.
#[derive(Drop)]
pub struct LentBank<'a, U: Unit> {
    memory: &'a mut [U],
}

/// Names the size in place of the memory.
impl<U: Unit> fmt::Debug for LentBank<'_, U> {
    fn fmt<W: fmt::Write>(&self, f: &mut fmt::Formatter<W>) -> fmt::Result {
        f.debug_struct("LentBank")
            .field("size", &self.size())
            .finish()
    }
}

impl<'a, U: Unit> LentBank<'a, U> {
    /// A bank over the first 65,536 units of the memory, or all if they are fewer. Its bytes are
    /// those that the units mean.
    pub fn new(memory: &'a mut [U]) -> Self
        ensures value { result.memory.now ≡ memory.old }
        ensures lent { result.memory.ghost_name ≡ memory.entry.ghost_name }
    {
        LentBank { memory }
    }

    // The four bytes from an address on.
    #[inline(always)]
    fn four(&self, address: u32) -> [u8; 4]
        ensures { result ≡ read_run (U.bytes_of (used self.now.memory.now)) address 4 }
    {
        let units = units::used(self.memory);
        let at = address as usize;
        if at + 4 > units.len() {
            return self.four_at_the_end(address);
        }
        let mut four = [0u8; 4];
        U::decode_run(&units[at..at + 4], &mut four);
        four
    }

    // The same where not all of them lie inside.
    #[cold]
    #[inline(never)]
    fn four_at_the_end(&self, address: u32) -> [u8; 4]
        ensures { result ≡ read_run (U.bytes_of (used self.now.memory.now)) address 4 }
    {
        let mut four = [0u8; 4];
        self.read_run(address, &mut four);
        four
    }
}

// Fills four units with the bytes of a word, taken by division: the compiler makes one store of
// them.
#[inline(always)]
fn encode_word<U: Unit>(units: &mut [U], word: u32)
    requires { length units.old ≡ 4 }
    ensures { units.new ≡ U.units_of (word_bytes word) }
{
    units[0] = U::encode((word % 256) as u8);
    units[1] = U::encode((word / 256 % 256) as u8);
    units[2] = U::encode((word / 65536 % 256) as u8);
    units[3] = U::encode((word / 16777216 % 256) as u8);
}

impl<U: Unit> Bank for LentBank<'_, U> {
    ghost bytes = { λ s. U.bytes_of (used s.memory.now) };

    #[inline(always)]
    fn size(&self) -> u32 {
        units::count(self.memory.len()) as u32
    }

    #[inline(always)]
    fn read(&self, address: u32) -> u8 {
        units::used(self.memory)
            .get(address as usize)
            .map_or(0, |unit| unit.decode())
    }

    fn write(&mut self, address: u32, byte: u8)
        ensures means { U.bytes_of (used self.new.memory.now)
            ≡ slice_set (U.bytes_of (used self.old.memory.now)) address byte }
        ensures memory { Rewrites self.old.memory self.new.memory
            (slice_set (used self.old.memory.now) address (U.unit_of byte)) }
    {
        let at = address as usize;
        if at < units::count(self.memory.len()) {
            self.memory[at] = U::encode(byte);
        }
    }

    fn read_run(&self, address: u32, out: &mut [u8]) {
        let units = units::used(self.memory);
        let at = address as usize;
        // One byte is read without a slice, and a run that lies inside without cutting it.
        if out.len() == 1 {
            out[0] = self.read(address);
        } else if out.len() <= units.len() && at <= units.len() - out.len() {
            U::decode_run(&units[at..at + out.len()], out);
        } else {
            let (from, inside) = units::clip(units.len(), address, out.len());
            let (known, past) = out.split_at_mut(inside);
            U::decode_run(&units[from..from + inside], known);
            past.fill(0);
        }
    }

    fn write_run(&mut self, address: u32, source: &[u8])
        ensures means { U.bytes_of (used self.new.memory.now)
            ≡ write_run (U.bytes_of (used self.old.memory.now)) address source.now }
        ensures memory { Rewrites self.old.memory self.new.memory
            (write_run (used self.old.memory.now) address (U.units_of source.now)) }
    {
        let (from, inside) = units::clip(units::count(self.memory.len()), address, source.len());
        U::encode_run(&mut self.memory[from..from + inside], &source[..inside]);
    }

    fn clear_run(&mut self, address: u32, count: u32)
        ensures means { U.bytes_of (used self.new.memory.now)
            ≡ write_run (U.bytes_of (used self.old.memory.now)) address (replicate count 0) }
        ensures memory { Rewrites self.old.memory self.new.memory
            (write_run (used self.old.memory.now) address (replicate count (U.unit_of 0))) }
    {
        let (from, inside) = units::clip(units::count(self.memory.len()), address, count as usize);
        self.memory[from..from + inside].fill(U::encode(0));
    }

    #[inline(always)]
    #[tactic(auto, unfolding(crate::specs::Words::word_at, crate::specs::Runs::read_run))]
    fn read_word(&self, address: u32) -> u32 {
        u32::from_le_bytes(self.four(address))
    }

    #[inline(always)]
    #[tactic(auto, unfolding(crate::specs::Words::word_bytes))]
    fn write_word(&mut self, address: u32, word: u32)
        ensures means { U.bytes_of (used self.new.memory.now)
            ≡ write_run (U.bytes_of (used self.old.memory.now)) address (word_bytes word) }
        ensures memory { Rewrites self.old.memory self.new.memory
            (write_run (used self.old.memory.now) address (U.units_of (word_bytes word))) }
    {
        let at = address as usize;
        if at + 4 <= units::count(self.memory.len()) {
            encode_word(&mut self.memory[at..at + 4], word);
        } else {
            self.write_run(address, &word.to_le_bytes());
        }
    }
}
