// One table: its entries in order of making, and how many bytes of its block are taken.
ghost use Rattle.std.specs.Prelude.{◌≡◌, ◌<◌, ◌≤◌, [], ◌∷◌, ◌++◌, length, if◌then◌else◌, take, Some, None, OnSome};
ghost use Rattle.std.specs.List.{slice_get};
ghost use Rattle.rules.specs.Effects.{grown};
ghost use Rattle.rules.specs.State.{no_table, takes};
ghost use Rattle.rules.specs.Tests.{has_room};

use crate::padded::{Item, PaddedList};
use rules::{Below, Entry, Kind, TypeControl};
use std::marker::Model;

/// How many bytes a table's block has: the block of table t begins at the address BLOCK * t.
pub const BLOCK: u32 = 2048;

/// How many entries a table has at most.
pub const ENTRIES: usize = 64;

// A type control that adds no right.
impl Item for Entry {
    ghost use Rattle.rules.specs.declared.entry.Entry.TheVariants.{Control};

    ghost blank = { Control (record { kind = 0; rights = 0 }) };

    fn blank() -> Entry {
        Entry::Control(TypeControl {
            kind: Kind::GENERIC,
            rights: 0,
        })
    }

    ghost infallible = { λ x. tt };

    ghost clones = { λ x y e. e };
}

/// A table: its live entries in order of making, and how many bytes of its block are taken.
#[derive(Clone, Copy, Debug)]
pub struct Table {
    entries: PaddedList<Entry, ENTRIES>,
    claim: u32,
}

impl Model for Table {
    ghost use Rattle.std.specs.Prelude.{◌≤◌};
    ghost use Rattle.rules.specs.State.{Table as Listed};

    ghost Value = { Listed };

    ghost view = { λ t. record { entries = t.entries; claim = t.claim } };

    ghost inverse = { λ x. record { entries = x.entries; claim = x.claim } };

    ghost invariant = { λ t. t.claim ≤ 2048 };
}

impl Table {
    // A table with no entry.
    pub(crate) fn new() -> Table
        ensures { result ≡ no_table }
    {
        Table {
            entries: PaddedList::new(),
            claim: 0,
        }
    }

    /// The entry of an index, if there is one.
    #[inline(always)]
    pub fn entry(&self, index: u32) -> Option<Entry>
        ensures value { result ≡ slice_get self.now.entries index }
        ensures bound { OnSome result (index < 64) }
    {
        self.entries.get(index as usize)
    }

    /// How many bytes of the block are taken, 0 to 2,048.
    #[inline(always)]
    pub fn claim(&self) -> u32
        ensures value { result ≡ self.now.claim }
        ensures within { result ≤ 2048 }
    {
        self.claim // of the block
    }

    /// Adds an entry and answers its index, if there is room for it: fewer than 64 entries, and as
    /// many bytes of the block left as it takes. Otherwise nothing changes.
    #[inline(always)]
    #[tactic(auto, unfolding(rules::specs::Effects::grown, rules::specs::Tests::has_room))]
    pub fn add(&mut self, entry: Entry) -> Option<Below<ENTRIES>>
        ensures value { result
            ≡ (if has_room self.old (takes entry) then Some (length self.old.entries) else None) }
        ensures after { self.new
            ≡ (if has_room self.old (takes entry) then grown self.old entry else self.old) }
    {
        let bytes = entry.takes();
        if bytes > BLOCK - self.claim {
            return None;
        }
        let index = Below::new(self.entries.len() as u32)?;
        self.entries.push(entry);
        self.claim += bytes;
        Some(index)
    }

    /// Keeps the first entries, so many, and sets how many bytes are taken, at most 2,048.
    #[inline(always)]
    pub fn cut(&mut self, count: usize, claim: u32)
        requires { claim ≤ 2048 }
        ensures { self.new ≡ record { entries = take count self.old.entries; claim = claim } }
    {
        self.entries.truncate(count);
        self.claim = claim;
    }
}
