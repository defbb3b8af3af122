// How entries are made, contexts opened and closed, and words stored, once the tests before have
// passed.
ghost use Rattle.std.specs.Prelude.{◌≡◌, ◌+◌, ◌*◌, ◌<◌, true, if◌then◌else◌, Ok, Err, Some, None};
ghost use Rattle.rules.specs.Effects.{add, done, enter, leave, new_object, next_index, overwrite, put, first_slot};
ghost use Rattle.rules.specs.Operators.{makes, stores};
ghost use Rattle.bank.specs.Words.{word_bytes};
ghost use Rattle.rules.specs.State.{encode, level as level_of, shown as shown_at, stack as stack_at, table as table_at, takes};
ghost use Rattle.rules.specs.Tests.{current as current_of, has_room, refusal};
ghost use Rattle.rules.specs.declared.fault.Reason.TheVariants.{NoRoom};
ghost use Rattle.store.specs.Callers.{Names};
ghost use Rattle.store.specs.Orderly.{fits_table};
ghost use Rattle.store.specs.Steps.{if_room, refining};

use crate::extent::{ContextSlots, Extent, Runs};
use crate::operands::{Caller, Found};
use crate::store::Store;
use bank::Bank;
use rules::{Below, Descriptor, Entry, Fault, Kind, Place, Reason, Refinement, Rights, Storage};
use tables::{ENTRIES, TABLES};

impl<B: Bank> Store<B> {
    // Makes a storage object in a table, all its bytes 0, and answers its index.
    #[inline(always)]
    #[tactic(auto, using(std::proofs::lemmas::List::get_or_default), unfolding(rules::specs::Effects::add, rules::specs::Effects::grown, rules::specs::Effects::new_object, rules::specs::Effects::overwrite, rules::specs::Effects::with_table, rules::specs::State::table, rules::specs::Tests::has_room))]
    pub(crate) fn make(
        &mut self,
        table: Below<TABLES>,
        extent: Extent,
        kind: Kind,
        level: u8,
        task: u32,
    ) -> Result<Below<ENTRIES>, Fault>
        ensures value { result
            ≡ if_room self.old table (4 * extent.slots + extent.bytes) (Ok (next_index self.old table))
            (Err (refusal NoRoom task)) }
        ensures after { self.new
            ≡ if_room self.old table (4 * extent.slots + extent.bytes)
            (add table (new_object self.old table extent.bytes extent.slots kind level) self.old)
            self.old }
    {
        let start = self.start(table);
        let object = Storage {
            base: extent.base(start),
            bytes: extent.bytes.get() as u16,
            slots: extent.slots.get() as u16,
            kind,
            level,
        };
        let tables = &mut self.directory.tables;
        let Some(index) = tables[table.index()].add(Entry::Object(object)) else {
            return Err(Fault::of_call(Reason::NoRoom, task));
        };
        self.bank.clear_run(start, extent.takes());
        Ok(index)
    }

    // Adds an entry that takes no bytes to a table and answers its index, if there is room for it.
    #[inline(always)]
    #[tactic(auto, using(std::proofs::lemmas::List::get_or_default), unfolding(rules::specs::Effects::add, rules::specs::Effects::overwrite, rules::specs::Effects::with_table, rules::specs::State::table))]
    pub(crate) fn add(&mut self, table: Below<TABLES>, entry: Entry) -> Option<Below<ENTRIES>>
        requires empty { takes entry ≡ 0 }
        requires fits { fits_table table entry ≡ true }
        ensures value { result ≡ if_room self.old table 0 (Some (next_index self.old table)) None }
        ensures after { self.new ≡ if_room self.old table 0 (add table entry self.old) self.old }
    {
        let tables = &mut self.directory.tables;
        tables[table.index()].add(entry)
    }

    // Makes a context of a task at the next level, opens it and answers its index.
    #[inline(always)]
    #[tactic(auto, using(std::proofs::lemmas::List::get_or_default), unfolding(rules::specs::Effects::enter, rules::specs::Effects::with_stack, rules::specs::State::stack, rules::specs::State::level))]
    pub(crate) fn open(
        &mut self,
        task: Below<TABLES>,
        slots: ContextSlots,
    ) -> Result<Below<ENTRIES>, Fault>
        requires { level_of self.old task < 8 }
        ensures value { result
            ≡ if_room self.old task (4 * slots) (Ok (next_index self.old task))
            (Err (refusal NoRoom task)) }
        ensures after { self.new
            ≡ if_room self.old task (4 * slots) (enter task slots self.old) self.old }
    {
        let level = self.directory.stacks[task.index()].level() + 1;
        let index = self.make(task, slots.extent(), Kind::CONTEXT, level, task.get())?;
        let stacks = &mut self.directory.stacks;
        stacks[task.index()].push(index);
        Ok(index)
    }

    // Opens a context with a word in its slot 0.
    #[inline(always)]
    #[tactic(auto, unfolding(rules::specs::Effects::overwrite))]
    pub(crate) fn open_with(
        &mut self,
        task: Below<TABLES>,
        slots: ContextSlots,
        word: u32,
    ) -> Result<(), Fault>
        requires { level_of self.old task < 8 }
        ensures value { result
            ≡ if_room self.old task (4 * slots) (Ok tt) (Err (refusal NoRoom task)) }
        ensures after { self.new
            ≡ if_room self.old task (4 * slots)
            (overwrite (first_slot self.old task slots) (word_bytes word) (enter task slots self.old))
            self.old }
    {
        let start = self.start(task);
        self.open(task, slots)?;
        self.bank.write_word(start + 4 * slots.get() - 4, word);
        Ok(())
    }

    // Closes the current context of a task.
    #[inline(always)]
    #[tactic(auto, using(std::proofs::lemmas::List::get_or_default), unfolding(rules::specs::Effects::leave, rules::specs::Effects::with_stack, rules::specs::Effects::with_table, rules::specs::State::stack, rules::specs::State::table))]
    pub(crate) fn close(&mut self, caller: &Caller)
        requires opened { current_of (stack_at self.old caller.now.task) ≡ Some caller.now.context }
        requires here { shown_at self.old caller.now.task caller.now.context ≡ caller.now.here }
        ensures { self.new ≡ leave caller.now.task caller.now.context self.old }
    {
        let at = caller.task.index();
        let directory = &mut self.directory;
        directory.tables[at].cut(caller.context.index(), caller.claim_before());
        directory.stacks[at].pop();
    }

    // Stores a descriptor in a slot.
    #[inline(always)]
    #[tactic(auto, unfolding(rules::specs::Operators::stores))]
    pub(crate) fn store(
        &mut self,
        caller: &Caller,
        found: &Found,
        place: Place,
    ) -> Result<(), Fault>
        requires { Names self.old found.now }
        ensures { (result, self.new)
            ≡ done self.old (stores self.old caller.now.task found.now.descriptor place) }
    {
        caller.demand(found.entry.level() <= place.by.level, Reason::StoringRule)?;
        self.put(place, u32::from(found.descriptor));
        Ok(())
    }

    // Makes a storage object of a task at its level, named with all rights in a slot.
    #[inline(always)]
    #[tactic(auto, unfolding(rules::specs::Operators::makes))]
    pub(crate) fn make_named(
        &mut self,
        caller: &Caller,
        place: Place,
        size: u32,
        slots: u32,
        kind: Kind,
    ) -> Result<(), Fault>
        ensures { (result, self.new)
            ≡ done self.old (makes self.old caller.now.task place size slots kind) }
    {
        let Some(extent) = Extent::new(size, slots) else {
            return Err(caller.refusal(Reason::OutOfRange));
        };
        let level = self.level(caller.task.get());
        caller.demand(level <= place.by.level, Reason::StoringRule)?;
        let index = self.make(caller.task, extent, kind, level, caller.task.get())?;
        self.name(caller.task, index, Rights::ALL, place);
        Ok(())
    }

    // Adds a refinement that shows runs of what a descriptor shows to the table of a task, named in
    // a slot with the descriptor's rights.
    #[tactic(auto, unfolding(crate::specs::Steps::refining))]
    pub(crate) fn refine_named(
        &mut self,
        caller: &Caller,
        source: Descriptor,
        place: Place,
        runs: Runs,
    ) -> Result<(), Fault>
        ensures { (result, self.new)
            ≡ done self.old (refining self.old caller.now.task source place runs) }
    {
        let shown = self.shown(source.table.get(), source.index.get());
        caller.demand(runs.lie_within(&shown), Reason::OutOfRange)?;
        let level = self.level(caller.task.get());
        caller.demand(level <= place.by.level, Reason::StoringRule)?;
        let part = Refinement {
            table: shown.owner,
            index: shown.object,
            byte: shown.byte + runs.byte as u16,
            bytes: runs.bytes as u16,
            slot: shown.slot + runs.slot as u16,
            slots: runs.slots as u16,
            level,
        };
        let Some(index) = self.add(caller.task, Entry::Refined(part)) else {
            return Err(caller.refusal(Reason::NoRoom));
        };
        self.name(caller.task, index, source.rights, place);
        Ok(())
    }

    // Names an entry in a slot.
    #[inline(always)]
    fn name(&mut self, table: Below<TABLES>, index: Below<ENTRIES>, rights: Rights, place: Place)
        ensures { self.new
            ≡ put place (encode (record { table = table; index = index; rights = rights })) self.old }
    {
        let named = Descriptor {
            table: table.widen(),
            index: index.widen(),
            rights,
        };
        self.put(place, u32::from(named));
    }
}
