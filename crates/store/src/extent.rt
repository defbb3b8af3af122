// How large objects, contexts and parts are.
ghost use Rattle.std.specs.Prelude.{◌≡◌, ◌+◌, ◌*◌, ◌≤◌, ◌&&◌, if◌then◌else◌, Some, None, nat_le};
ghost use Rattle.rules.specs.Tests.{fits};

use rules::{Below, Shown};
use std::marker::Model;
use tables::BLOCK;

// One more than the most data bytes that an object has, and than the most slots.
const BYTES: usize = BLOCK as usize + 1;

const SLOTS: usize = BLOCK as usize / 4 + 1;

// The data bytes and the slots of an object.
#[derive(Clone, Copy)]
pub(crate) struct Extent {
    pub(crate) bytes: Below<BYTES>,
    pub(crate) slots: Below<SLOTS>,
}

impl Extent {
    #[inline(always)]
    pub(crate) fn new(bytes: u32, slots: u32) -> Option<Extent>
        ensures { result
            ≡ (if nat_le bytes 2048 && nat_le slots 512
            then Some (record { bytes = bytes; slots = slots }) else None) }
    {
        Some(Extent {
            bytes: Below::new(bytes)?,
            slots: Below::new(slots)?,
        })
    }

    // The base of an object whose bytes begin here: its slots come first.
    #[inline(always)]
    pub(crate) fn base(&self, start: u32) -> u16
        requires { start ≤ 18432 }
        ensures { result ≡ start + 4 * self.now.slots }
    {
        (start + 4 * self.slots.get()) as u16
    }

    // How many bytes an object takes, with its slots.
    #[inline(always)]
    pub(crate) fn takes(&self) -> u32
        ensures { result ≡ 4 * self.now.slots + self.now.bytes }
    {
        4 * self.slots.get() + self.bytes.get()
    }
}

// How many slots a context has, 4 to 64.
#[derive(Clone, Copy)]
pub(crate) struct ContextSlots {
    number: u32,
}

impl Model for ContextSlots {
    ghost use Rattle.std.specs.Prelude.{ℕ, ◌≤◌};

    ghost Value = { ℕ };

    ghost view = { λ s. s.number };

    ghost invariant = { λ s. (4 ≤ s.number) × (s.number ≤ 64) };

    ghost inverse = { λ n. record { number = n } };
}

impl ContextSlots {
    #[inline(always)]
    pub(crate) fn new(number: u32) -> Option<ContextSlots>
        ensures { result ≡ (if nat_le 4 number && nat_le number 64 then Some number else None) }
    {
        if 4 <= number && number <= 64 {
            Some(ContextSlots { number })
        } else {
            None
        }
    }

    #[inline(always)]
    pub(crate) fn get(self) -> u32
        ensures value { result ≡ self }
        ensures low { 4 ≤ result }
        ensures high { result ≤ 64 }
    {
        self.number
    }

    // A context has no data bytes.
    #[inline(always)]
    pub(crate) fn extent(self) -> Extent
        ensures { result ≡ record { bytes = 0; slots = self } }
    {
        Extent {
            bytes: Below::known(0),
            slots: Below::known(self.get()),
        }
    }
}

// Runs of data bytes and of slots, counted from what a source shows.
#[derive(Clone, Copy)]
pub(crate) struct Runs {
    pub(crate) byte: u32,
    pub(crate) bytes: u32,
    pub(crate) slot: u32,
    pub(crate) slots: u32,
}

impl Runs {
    // Whether both runs lie within what is shown.
    pub(crate) fn lie_within(self, shown: &Shown) -> bool
        ensures { result
            ≡ (fits self.byte self.bytes shown.now.bytes
            && fits self.slot self.slots shown.now.slots) }
    {
        shown.has_bytes(self.byte, self.bytes as usize)
            && shown.has_slots(self.slot, self.slots as usize)
    }
}
