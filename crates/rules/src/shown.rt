// What entries show, and where slots and data bytes lie.
ghost use Rattle.std.specs.Prelude.{◌≡◌, ◌+◌, ◌-◌, ◌*◌, ◌<◌, Some};
ghost use Rattle.rules.specs.State.{byte_at, nothing, part, slot_at, whole};
ghost use Rattle.rules.specs.Tests.{fits};

use crate::entry::{Entry, Refinement, Storage};

/// What an entry shows of a storage object: a run of its data bytes and a run of its slots.
#[derive(Clone, Copy, Debug, PartialEq, Eq)]
pub struct Shown {
    /// The table of the storage object.
    pub owner: u16,
    /// Its index there.
    pub object: u16,
    /// The address of its first data byte.
    pub base: u16,
    /// The first data byte shown.
    pub byte: u16,
    /// How many data bytes are shown.
    pub bytes: u16,
    /// The first slot shown.
    pub slot: u16,
    /// How many slots are shown.
    pub slots: u16,
    /// The level of the storage object.
    pub level: u8,
}

/// A slot: what shows it, and its number there.
#[derive(Clone, Copy, Debug, PartialEq, Eq)]
pub struct Place {
    /// What shows the slot.
    pub by: Shown,
    /// The number of the slot among those shown, from 0 on.
    pub at: u16,
}

impl Shown {
    /// What a type control shows: nothing, so that every test of a slot or a byte refuses it.
    #[inline(always)]
    pub fn nothing() -> Shown
        ensures { result ≡ nothing }
    {
        Shown {
            owner: 0,
            object: 0,
            base: 0,
            byte: 0,
            bytes: 0,
            slot: 0,
            slots: 0,
            level: 0,
        }
    }

    /// What a storage object shows: all of it.
    #[inline(always)]
    pub fn whole(table: u16, index: u16, object: Storage) -> Shown
        ensures { result ≡ whole table index object }
    {
        Shown {
            owner: table,
            object: index,
            base: object.base,
            byte: 0,
            bytes: object.bytes,
            slot: 0,
            slots: object.slots,
            level: object.level,
        }
    }

    /// What a refinement shows of the storage object beneath.
    #[inline(always)]
    pub fn part(refinement: Refinement, object: Storage) -> Shown
        ensures { result ≡ part refinement (Some (Entry.Object object)) }
    {
        Shown {
            owner: refinement.table,
            object: refinement.index,
            base: object.base,
            byte: refinement.byte,
            bytes: refinement.bytes,
            slot: refinement.slot,
            slots: refinement.slots,
            level: object.level, // where something is stored, the object beneath counts
        }
    }

    /// The address at which a slot that is shown begins.
    #[inline(always)]
    pub fn slot_at(&self, slot: u16) -> u32
        ensures { result ≡ slot_at self.now slot }
    {
        let below = 4 * (self.slot as u32 + slot as u32 + 1);
        (self.base as u32).saturating_sub(below)
    }

    /// The address of a data byte that is shown.
    #[inline(always)]
    pub fn byte_at(&self, offset: u32) -> u32
        requires { offset < 65536 }
        ensures { result ≡ byte_at self.now offset }
    {
        self.base as u32 + (self.byte as u32 + offset)
    }

    /// Whether a run of data bytes, of so many from the first on, lies within those that are shown.
    #[inline(always)]
    pub fn has_bytes(&self, first: u32, count: usize) -> bool
        ensures { result ≡ fits first count self.now.bytes }
    {
        run_fits(first, count, self.bytes)
    }

    /// Whether a run of slots, of so many from the first on, lies within those that are shown.
    #[inline(always)]
    pub fn has_slots(&self, first: u32, count: usize) -> bool
        ensures { result ≡ fits first count self.now.slots }
    {
        run_fits(first, count, self.slots)
    }
}

// Whether a run lies within what is there.
#[inline(always)]
fn run_fits(first: u32, count: usize, there: u16) -> bool
    ensures { result ≡ fits first count there }
{
    first <= there as u32 && count <= (there as u32 - first) as usize
}
