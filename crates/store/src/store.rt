// A store: its directory, and the bank that holds the bytes of its objects.
ghost use Rattle.std.specs.List.{slice_get};
ghost use Rattle.std.specs.Prelude.{◌≡◌, ◌+◌, ◌-◌, ◌*◌, ◌<◌, ◌≤◌, IfSome, OnSome, Some, length, nat_le, true};
ghost use Rattle.rules.specs.Effects.{overwrite, put};
ghost use Rattle.rules.specs.Operators.{calling as calling_of};
ghost use Rattle.rules.specs.State.{block_start, empty, entry as entry_at, held as held_at, level as level_of, named as named_by, shown as shown_at, stack as stack_at, table as table_at};
ghost use Rattle.rules.specs.Tests.{current as current_of};
ghost use Rattle.store.specs.Callers.{Names, descriptor_of};
ghost use Rattle.store.specs.Orderly.{InTables, IsOrderly, fits_table, is_object};

use crate::operands::Found;
use bank::Bank;
use rules::{Below, Descriptor, Entry, Place, Shown, is_valid};
use std::fmt;
use std::marker::Model;
use tables::{BLOCK, Directory, ENTRIES, TABLES};

/// How many bytes a bank must have for a store to take calls: a block for each table.
pub const SMALLEST_BANK: usize = TABLES * BLOCK as usize;

/// An object store over a bank. Its load calls come before sealing, its operators after it; each is
/// a method, and `perform` makes any of them by its value. A call that is refused changes nothing.
#[derive(Drop)]
pub struct Store<B: Bank> {
    pub(crate) directory: Directory,
    pub(crate) bank: B,
}

// Clauses see the state of the rules.
impl<B: Bank> Model for Store<B> {
    ghost use Rattle.std.specs.Prelude.{[]};
    ghost use Rattle.rules.specs.State.{State};
    ghost use Rattle.store.specs.Orderly.{IsOrderly};
    ghost use Rattle.tables.specs.Live.{state_of};

    ghost Value = { State };

    ghost view = { λ s. state_of s.directory (B.bytes s.bank) };

    ghost invariant = { λ s. IsOrderly (state_of s.directory []) };
}

// The directory, and of the bank its size in bytes.
impl<B: Bank> fmt::Debug for Store<B> {
    fn fmt<W: fmt::Write>(&self, f: &mut fmt::Formatter<W>) -> fmt::Result {
        f.debug_struct("Store")
            .field("directory", &self.directory)
            .field("bank_size", &self.bank.size())
            .finish()
    }
}

impl<B: Bank> Store<B> {
    /// A store with empty tables and no task over the bank as it is. It takes a bank of any size;
    /// over one of fewer than `SMALLEST_BANK` bytes each call is refused.
    pub fn new(bank: B) -> Store<B>
        ensures { result ≡ empty (B.bytes bank) }
    {
        Store {
            directory: Directory::new(),
            bank,
        }
    }

    /// Whether loading has ended: load calls come before, operators after. The clause `order` says
    /// of any store, sealed or not, in which order its tables and stacks stand.
    pub fn is_sealed(&self) -> bool
        ensures value { result ≡ self.now.sealed }
        ensures order { IsOrderly self.now }
    {
        self.directory.sealed // true once loading has ended
    }

    /// The level of a task, which is how many of its contexts are open: 1 to 8, or 0 if no task of
    /// that number is loaded.
    #[tactic(auto, using(std::proofs::lemmas::Option::get_or_from_slice_get, crate::proofs::Orders::at_none), unfolding(rules::specs::State::level, rules::specs::State::stack))]
    pub fn level(&self, task: u32) -> u8
        ensures { result ≡ level_of self.now task }
    {
        self.directory
            .stacks
            .get(task as usize)
            .map_or(0, |stack| stack.level())
    }

    /// Whether the bank has the bytes that a store needs.
    pub fn has_large_bank(&self) -> bool
        ensures { result ≡ nat_le 18432 (length self.now.bytes) }
    {
        self.bank.size() as usize >= SMALLEST_BANK
    }

    // The current context of a task, which is a storage object.
    #[inline(always)]
    #[tactic(auto, using(std::proofs::lemmas::Option::get_or_from_slice_get, crate::proofs::Orders::at_none), unfolding(rules::specs::State::stack))]
    pub(crate) fn current(&self, task: u32) -> Option<Below<ENTRIES>>
        ensures value { result ≡ current_of (stack_at self.now task) }
        ensures bound { OnSome result (task < 9) }
        ensures object { IfSome result (λ c. is_object (entry_at self.now task c) ≡ true) }
    {
        self.directory.stacks.get(task as usize)?.current()
    }

    // The context from which the current one of a task was called, which is a storage object too.
    #[inline(always)]
    #[tactic(auto, unfolding(rules::specs::State::stack))]
    pub(crate) fn calling(&self, task: Below<TABLES>) -> Option<Below<ENTRIES>>
        ensures value { result ≡ calling_of (stack_at self.now task) }
        ensures object { IfSome result (λ c. is_object (entry_at self.now task c) ≡ true) }
    {
        self.directory.stacks[task.index()].calling()
    }

    /// An open context of a task: the index of its entry in the task's table. Number 0 is the
    /// current one, and each further number the one from which that of the number before was called.
    #[tactic(auto, using(std::proofs::lemmas::Option::get_or_from_slice_get, crate::proofs::Orders::at_none), unfolding(rules::specs::State::stack))]
    pub fn context(&self, task: u32, number: usize) -> Option<Below<ENTRIES>>
        ensures value { result ≡ slice_get (stack_at self.now task) number }
        ensures bound { OnSome result (task < 9) }
    {
        self.directory.stacks.get(task as usize)?.get(number)
    }

    /// An entry, by its table and its index there, if it is there.
    #[inline(always)]
    #[tactic(auto, using(std::proofs::lemmas::Option::get_or_from_slice_get, crate::proofs::Orders::at_none), unfolding(rules::specs::State::entry, rules::specs::State::table))]
    pub fn entry(&self, table: u32, index: u32) -> Option<Entry>
        ensures value { result ≡ entry_at self.now table index }
        ensures bound { OnSome result ((table < 9) × (index < 64)) }
        ensures fits { IfSome result (λ e. fits_table table e ≡ true) }
        ensures in_tables { InTables self.now }
    {
        self.directory.tables.get(table as usize)?.entry(index)
    }

    /// What an entry shows; one that is not there shows nothing.
    #[tactic(auto, unfolding(rules::specs::State::shown))]
    pub fn shown(&self, table: u32, index: u32) -> Shown
        ensures value { result ≡ shown_at self.now table index }
        ensures object { (result.owner < 9) × (result.object < 64) }
        ensures runs { (result.byte + result.bytes < 65536) × (result.slot + result.slots < 65536) }
    {
        match self.entry(table, index) {
            Some(entry) => self.shows(table, index, entry),
            None => Shown::nothing(),
        }
    }

    // The same, given the entry, which saves a look-up.
    #[inline(always)]
    #[tactic(auto, unfolding(rules::specs::State::shown))]
    fn shows(&self, table: u32, index: u32, entry: Entry) -> Shown
        requires is { entry_at self.now table index ≡ Some entry }
        requires small { (table < 65536) × (index < 65536) }
        requires fits { fits_table table entry ≡ true }
        ensures value { result ≡ shown_at self.now table index }
        ensures object { table < 9 → index < 64 → (result.owner < 9) × (result.object < 64) }
        ensures runs { (result.byte + result.bytes < 65536) × (result.slot + result.slots < 65536) }
    {
        match entry {
            Entry::Object(o) => Shown::whole(table as u16, index as u16, o),
            Entry::Refined(r) => match self.entry(r.table as u32, r.index as u32) {
                Some(Entry::Object(o)) => Shown::part(r, o),
                _ => Shown::nothing(),
            },
            Entry::Control(_) => Shown::nothing(),
        }
    }

    // What a context of a task shows, which is a storage object.
    #[inline(always)]
    #[tactic(auto, unfolding(rules::specs::State::shown))]
    pub(crate) fn whole(&self, task: Below<TABLES>, context: Below<ENTRIES>) -> Shown
        requires { is_object (entry_at self.now task context) ≡ true }
        ensures value { result ≡ shown_at self.now task context }
        ensures begins { block_start task + 4 * result.slots ≤ result.base }
        ensures ends { result.base - 4 * result.slots - block_start task ≤ 2048 }
    {
        let Some(Entry::Object(object)) = self.entry(task.get(), context.get()) else {
            unreachable!()
        };
        Shown::whole(task.get() as u16, context.get() as u16, object)
    }

    /// The word that a slot holds.
    #[inline(always)]
    #[tactic(auto, unfolding(rules::specs::State::held))]
    pub fn word(&self, place: Place) -> u32
        ensures { result ≡ held_at self.now place }
    {
        self.bank.read_word(place.by.slot_at(place.at))
    }

    // What the word in a slot names.
    #[inline(always)]
    #[tactic(auto, unfolding(rules::specs::State::named))]
    pub(crate) fn held(&self, place: Place) -> Option<Found>
        ensures value { named_by self.now (held_at self.now place) ≡ descriptor_of result }
        ensures entry { IfSome result (λ f. Names self.now f) }
    {
        let word = self.word(place);
        if !is_valid(word) {
            return None;
        }
        let descriptor = Descriptor::from(word);
        let entry = self.entry(descriptor.table.get(), descriptor.index.get())?;
        Some(Found { descriptor, entry })
    }

    // What a descriptor shows.
    #[inline(always)]
    pub(crate) fn shown_of(&self, found: &Found) -> Shown
        requires { Names self.now found.now }
        ensures { result ≡ shown_at self.now found.now.descriptor.table found.now.descriptor.index }
    {
        let named = found.descriptor;
        self.shows(named.table.get(), named.index.get(), found.entry)
    }

    // Where the next bytes of a table's block begin.
    #[inline(always)]
    #[tactic(auto, unfolding(rules::specs::State::table))]
    pub(crate) fn start(&self, table: Below<TABLES>) -> u32
        ensures value { result ≡ block_start table + (table_at self.now table).claim }
        ensures bound { result ≤ 18432 }
    {
        BLOCK * table.get() + self.directory.tables[table.index()].claim()
    }

    // Replaces the bytes from an address on.
    #[tactic(auto, unfolding(rules::specs::Effects::overwrite))]
    pub(crate) fn overwrite(&mut self, address: u32, source: &[u8])
        ensures { self.new ≡ overwrite address source.now self.old }
    {
        self.bank.write_run(address, source);
    }

    // Puts a word into a slot.
    #[inline(always)]
    #[tactic(auto, unfolding(rules::specs::Effects::put, rules::specs::Effects::overwrite))]
    pub(crate) fn put(&mut self, place: Place, word: u32)
        ensures { self.new ≡ put place word self.old }
    {
        self.bank.write_word(place.by.slot_at(place.at), word);
    }
}
