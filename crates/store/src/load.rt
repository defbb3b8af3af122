// The load calls.
ghost use Rattle.std.specs.Prelude.{◌≡◌};
ghost use Rattle.rules.specs.Effects.{done};
ghost use Rattle.rules.specs.Loading.{control_plan, fill_plan, grant_plan, holds, nameable, place_plan, seal_plan, task_plan};
ghost use Rattle.rules.specs.Tests.{loading};

use crate::extent::{ContextSlots, Extent};
use crate::operands::demand;
use crate::store::Store;
use bank::Bank;
use rules::{Below, Descriptor, Entry, Fault, Kind, Place, Reason, Rights, TypeControl};
use tables::TABLES;

/// Load calls, which come before sealing. Each is refused with `SmallBank` over a bank of fewer
/// than `SMALLEST_BANK` bytes, and with `WrongPhase` after sealing; its faults name task 0, but for
/// those of `task`. A call that is refused changes nothing.
impl<B: Bank> Store<B> {
    // Whether load calls may come.
    #[tactic(auto, unfolding(rules::specs::Tests::loading))]
    fn check_loading(&self, task: u32) -> Result<(), Fault>
        ensures { result ≡ loading self.now task }
    {
        demand(self.has_large_bank(), Reason::SmallBank, task)?;
        demand(!self.is_sealed(), Reason::WrongPhase, task)
    }

    /// Makes a storage object of level 0 in a table, all its bytes 0, and answers its index there:
    /// of `size` data bytes, 0 to 2,048, and `slots` slots, 0 to 512, which take four bytes each.
    /// The table is 0 to 8, the type 0 (generic) or 16 to 255.
    ///
    /// It is refused as each load call is, with `OutOfRange` for a number outside these ranges, and
    /// with `NoRoom` if the table has 64 entries or its block of 2,048 bytes too few left.
    #[tactic(auto, unfolding(rules::specs::Loading::place_plan, rules::specs::Loading::making, rules::specs::Loading::adding, rules::specs::Effects::new_object))]
    pub fn place(&mut self, table: u32, size: u32, slots: u32, kind: u32) -> Result<u32, Fault>
        ensures { (result, self.new) ≡ done self.old (place_plan table size slots kind self.old) }
    {
        self.check_loading(0)?;
        let (Some(table), Some(extent), Some(kind)) = (
            Below::new(table),
            Extent::new(size, slots),
            Kind::of_placed(kind),
        ) else {
            return Err(Fault::of_call(Reason::OutOfRange, 0));
        };
        let index = self.make(table, extent, kind, 0, 0)?;
        Ok(index.get())
    }

    /// Makes a type control in a table, 0 to 8, and answers its index there: of a type, 16 to 255,
    /// and of the rights that it adds, the sum of their numbers, 0 to 63.
    ///
    /// It is refused as each load call is, with `OutOfRange` for a number outside these ranges, and
    /// with `NoRoom` if the table has 64 entries.
    #[tactic(auto, unfolding(rules::specs::Loading::control_plan, rules::specs::Loading::adding))]
    pub fn control(&mut self, table: u32, kind: u32, rights: u32) -> Result<u32, Fault>
        ensures { (result, self.new) ≡ done self.old (control_plan table kind rights self.old) }
    {
        self.check_loading(0)?;
        let (Some(table), Some(kind)) = (Below::new(table), Kind::of_users(kind)) else {
            return Err(Fault::of_call(Reason::OutOfRange, 0));
        };
        let Some(rights) = Rights::new(rights) else {
            return Err(Fault::of_call(Reason::OutOfRange, 0));
        };
        let control = TypeControl {
            kind,
            rights: rights.sum(),
        };
        let Some(index) = self.add(table, Entry::Control(control)) else {
            return Err(Fault::of_call(Reason::NoRoom, 0));
        };
        Ok(index.get())
    }

    /// Makes the first context of a task, 1 to 8, with so many slots, 4 to 64, all of them null,
    /// and answers its index in the task's table.
    ///
    /// It is refused as each load call is, with `NoTask` for a task of another number or one that
    /// is loaded already, with `OutOfRange` for another number of slots, and with `NoRoom` if the
    /// table has no room. The faults name the task.
    #[tactic(auto, unfolding(rules::specs::Loading::task_plan, rules::specs::Loading::starting))]
    pub fn task(&mut self, number: u32, slots: u32) -> Result<u32, Fault>
        ensures { (result, self.new) ≡ done self.old (task_plan number slots self.old) }
    {
        self.check_loading(number)?;
        demand(
            number > 0 && (number as usize) < TABLES && self.level(number) == 0,
            Reason::NoTask,
            number,
        )?;
        let Some(slots) = ContextSlots::new(slots) else {
            return Err(Fault::of_call(Reason::OutOfRange, number));
        };
        let index = self.open(Below::known(number), slots)?;
        Ok(index.get())
    }

    /// Writes data bytes of a storage object, from the one of number `offset` on.
    ///
    /// It is refused as each load call is, with `WrongType` if the entry is no storage object, and
    /// with `OutOfRange` if there is no entry or the bytes do not all lie in the object.
    #[tactic(auto, unfolding(rules::specs::Loading::fill_plan))]
    pub fn fill(&mut self, table: u32, index: u32, offset: u32, source: &[u8]) -> Result<(), Fault>
        ensures { (result, self.new)
            ≡ done self.old (fill_plan table index offset source.now self.old) }
    {
        self.check_loading(0)?;
        let target = self.entry(table, index);
        demand(is_target(target), Reason::WrongType, 0)?;
        let shown = self.shown(table, index);
        demand(
            target.is_some() && shown.has_bytes(offset, source.len()),
            Reason::OutOfRange,
            0,
        )?;
        self.overwrite(shown.byte_at(offset), source);
        Ok(())
    }

    /// Writes a descriptor over a slot of a storage object, whatever the slot held: one of the
    /// entry of index `named_index` in the table `named_table`, with rights as the sum of their
    /// numbers, 0 to 63.
    ///
    /// It is refused as each load call is, with `WrongType` if the first entry is no storage object
    /// or the second is a context, and with `OutOfRange` if one of them is not there, the object
    /// has no such slot, or the rights are above 63.
    #[tactic(auto, unfolding(rules::specs::Loading::grant_plan))]
    pub fn grant(
        &mut self,
        table: u32,
        index: u32,
        slot: u32,
        named_table: u32,
        named_index: u32,
        rights: u32,
    ) -> Result<(), Fault>
        ensures { (result, self.new)
            ≡ done self.old (grant_plan table index slot named_table named_index rights self.old) }
    {
        self.check_loading(0)?;
        let target = self.entry(table, index);
        let named = self.entry(named_table, named_index);
        demand(
            is_target(target) && is_nameable(named),
            Reason::WrongType,
            0,
        )?;
        let by = self.shown(table, index);
        demand(
            named.is_some() && target.is_some() && slot < by.slots as u32,
            Reason::OutOfRange,
            0,
        )?;
        let (Some(table), Some(index), Some(rights)) = (
            Below::new(named_table),
            Below::new(named_index),
            Rights::new(rights),
        ) else {
            return Err(Fault::of_call(Reason::OutOfRange, 0));
        };
        let word = u32::from(Descriptor {
            table,
            index,
            rights,
        });
        self.put(
            Place {
                by,
                at: slot as u16,
            },
            word,
        );
        Ok(())
    }

    /// Ends loading: from now on operators may come, and load calls are refused. It is itself
    /// refused as each load call is.
    #[tactic(auto, unfolding(rules::specs::Loading::seal_plan, rules::specs::Effects::sealing))]
    pub fn seal(&mut self) -> Result<(), Fault>
        ensures { (result, self.new) ≡ done self.old (seal_plan self.old) }
    {
        self.check_loading(0)?;
        self.directory.sealed = true;
        Ok(())
    }
}

// Whether a call that wants a storage object may go on to look for it.
fn is_target(entry: Option<Entry>) -> bool
    ensures { result ≡ holds entry }
{
    matches!(entry, Some(Entry::Object(_)) | None)
}

// Whether a descriptor may name the entry: contexts are named by none.
fn is_nameable(entry: Option<Entry>) -> bool
    ensures { result ≡ nameable entry }
{
    match entry {
        Some(named) => named.kind() != Kind::CONTEXT,
        None => true,
    }
}
