// The operators. Each makes all its tests before it changes anything, and reads like its
// definition, test for test, so that read and write repeat four statements. see and look answer
// tuples of plain numbers, as their callers have always been told.
ghost use Rattle.rules.specs.Effects.{done};
ghost use Rattle.rules.specs.Operators.{amplify_plan, call_plan, copy_plan, create_plan, look_plan, null_plan, read_plan, refine_plan, restrict_plan, return_plan, see_plan, typed_plan, write_plan};
ghost use Rattle.store.specs.Answers.{listed, received, seen};
ghost use Rattle.std.specs.Prelude.{◌≡◌, length};

use crate::extent::{ContextSlots, Runs};
use crate::operands::Found;
use crate::store::Store;
use bank::Bank;
use rules::{Descriptor, Fault, Kind, Place, Reason, Right, Rights};
use tables::LEVELS;

/// Operators, which a loaded task, 1 to 8, calls after sealing. Each is refused with `SmallBank`
/// over a bank of fewer than `SMALLEST_BANK` bytes, with `WrongPhase` before sealing and with
/// `NoTask` if no such task is loaded. A call that is refused changes nothing. Operands are
/// selectors (`rules::slot`, `rules::slot_of`), and a fault of an operand has its place, counted
/// from 1.
///
/// The faults of a source that may be null: `NullEnvironment` or `EnvironmentRight` where the slot
/// of the environment is null or its descriptor lacks the right `Read`, and `NoSlot` where the
/// environment shows no such slot. Those of a source: also `NullSource`. Those of a source with a
/// right: also `MissingRight`. Those of a control: also `WrongType`. Those of a destination: as of
/// a source that may be null, with the right `Write`, and `NotDeletable` where the slot holds a
/// descriptor without the right `Delete`.
impl<B: Bank> Store<B> {
    /// Stores the source's descriptor in the destination.
    ///
    /// It is refused as each operator is, with the faults of a source (operand 1) and of a
    /// destination (operand 2), and with `StoringRule` if the entry named is of a higher level than
    /// the object of the destination.
    #[tactic(auto, unfolding(rules::specs::Operators::copy_plan))]
    pub fn copy(&mut self, task: u32, source: u16, destination: u16) -> Result<(), Fault>
        ensures { (result, self.new) ≡ done self.old (copy_plan task source destination self.old) }
    {
        let caller = self.caller(task)?;
        let found = self.source(&caller.operand(1, source))?;
        let place = self.destination(&caller.operand(2, destination))?;
        self.store(&caller, &found, place)
    }

    /// Makes the destination null.
    ///
    /// It is refused as each operator is, and with the faults of a destination (operand 1).
    #[tactic(auto, unfolding(rules::specs::Operators::null_plan))]
    pub fn null(&mut self, task: u32, destination: u16) -> Result<(), Fault>
        ensures { (result, self.new) ≡ done self.old (null_plan task destination self.old) }
    {
        let caller = self.caller(task)?;
        let place = self.destination(&caller.operand(1, destination))?;
        self.put(place, 0);
        Ok(())
    }

    /// Stores the source's descriptor in the destination, with the rights that it has in common
    /// with a mask, the sum of their numbers, 0 to 63.
    ///
    /// It is refused as `copy` is, and with `OutOfRange` for a mask above 63.
    #[tactic(auto, unfolding(rules::specs::Operators::restrict_plan))]
    pub fn restrict(
        &mut self,
        task: u32,
        source: u16,
        destination: u16,
        mask: u32,
    ) -> Result<(), Fault>
        ensures { (result, self.new)
            ≡ done self.old (restrict_plan task source destination mask self.old) }
    {
        let caller = self.caller(task)?;
        let found = self.source(&caller.operand(1, source))?;
        let place = self.destination(&caller.operand(2, destination))?;
        let Some(mask) = Rights::new(mask) else {
            return Err(caller.refusal(Reason::OutOfRange));
        };
        let restricted = Found {
            descriptor: Descriptor {
                rights: found.descriptor.rights & mask,
                ..found.descriptor
            },
            entry: found.entry,
        };
        self.store(&caller, &restricted, place)
    }

    /// Stores the source's descriptor in the destination, with the rights that it has and those
    /// that a type control adds.
    ///
    /// It is refused as each operator is, with the faults of a control with the right `Type2`
    /// (operand 1), of a source (operand 2), which is of the `WrongType` unless it is of the
    /// controlled type, and of a destination (operand 3), and with `StoringRule` as `copy` is.
    #[tactic(auto, unfolding(rules::specs::Operators::amplify_plan))]
    pub fn amplify(
        &mut self,
        task: u32,
        control: u16,
        source: u16,
        destination: u16,
    ) -> Result<(), Fault>
        ensures { (result, self.new)
            ≡ done self.old (amplify_plan task control source destination self.old) }
    {
        let caller = self.caller(task)?;
        let control = self.type_control(Right::Type2, &caller.operand(1, control))?;
        let operand = caller.operand(2, source);
        let found = self.source(&operand)?;
        operand.demand(found.entry.kind() == control.kind, Reason::WrongType)?;
        let place = self.destination(&caller.operand(3, destination))?;
        // The six lowest bits are all that the control adds: a store has no control with more.
        let added = Rights::low(control.rights as u32);
        let amplified = Found {
            descriptor: Descriptor {
                rights: found.descriptor.rights | added,
                ..found.descriptor
            },
            entry: found.entry,
        };
        self.store(&caller, &amplified, place)
    }

    /// Makes a generic storage object of the task's level in the task's table, all its bytes 0, and
    /// names it with all rights in the destination: of `size` data bytes, 0 to 2,048, and `slots`
    /// slots, 0 to 512.
    ///
    /// It is refused as each operator is, with the faults of a destination (operand 1), with
    /// `OutOfRange` for a number outside these ranges, with `StoringRule` if the destination's
    /// object is of a lower level than the task, and with `NoRoom` if the table has 64 entries or
    /// its block too few bytes left.
    #[tactic(auto, unfolding(rules::specs::Operators::create_plan))]
    pub fn create(
        &mut self,
        task: u32,
        destination: u16,
        size: u32,
        slots: u32,
    ) -> Result<(), Fault>
        ensures { (result, self.new)
            ≡ done self.old (create_plan task destination size slots self.old) }
    {
        let caller = self.caller(task)?;
        let place = self.destination(&caller.operand(1, destination))?;
        self.make_named(&caller, place, size, slots, Kind::GENERIC)
    }

    /// Makes a storage object of the controlled type, and otherwise as `create` does.
    ///
    /// It is refused as `create` is, the destination being operand 2, and with the faults of a
    /// control with the right `Type1` (operand 1).
    #[tactic(auto, unfolding(rules::specs::Operators::typed_plan))]
    pub fn typed(
        &mut self,
        task: u32,
        control: u16,
        destination: u16,
        size: u32,
        slots: u32,
    ) -> Result<(), Fault>
        ensures { (result, self.new)
            ≡ done self.old (typed_plan task control destination size slots self.old) }
    {
        let caller = self.caller(task)?;
        let control = self.type_control(Right::Type1, &caller.operand(1, control))?;
        let place = self.destination(&caller.operand(2, destination))?;
        self.make_named(&caller, place, size, slots, control.kind)
    }

    /// Fills the whole buffer with data bytes of what the source shows, from the one of number
    /// `offset` on.
    ///
    /// It is refused as each operator is, with the faults of a source with the right `Read`
    /// (operand 1), and with `OutOfRange` if not all these bytes are shown. The buffer is then as
    /// it was.
    #[tactic(auto, unfolding(rules::specs::Operators::read_plan))]
    pub fn read(&self, task: u32, source: u16, offset: u32, buffer: &mut [u8]) -> Result<(), Fault>
        ensures { ((result, buffer.new), self.now)
            ≡ received buffer.old
            (done self.now (read_plan task source offset (length buffer.old) self.now)) }
    {
        let caller = self.caller(task)?;
        let found = self.source_with(Right::Read, &caller.operand(1, source))?;
        let shown = self.shown_of(&found);
        caller.demand(shown.has_bytes(offset, buffer.len()), Reason::OutOfRange)?;
        self.bank.read_run(shown.byte_at(offset), buffer);
        Ok(())
    }

    /// Writes data bytes of what the source shows, from the one of number `offset` on.
    ///
    /// It is refused as each operator is, with the faults of a source with the right `Write`
    /// (operand 1), and with `OutOfRange` if not all these bytes are shown.
    #[tactic(auto, unfolding(rules::specs::Operators::write_plan))]
    pub fn write(
        &mut self,
        task: u32,
        source: u16,
        offset: u32,
        content: &[u8],
    ) -> Result<(), Fault>
        ensures { (result, self.new)
            ≡ done self.old (write_plan task source offset content.now self.old) }
    {
        let caller = self.caller(task)?;
        let found = self.source_with(Right::Write, &caller.operand(1, source))?;
        let shown = self.shown_of(&found);
        caller.demand(shown.has_bytes(offset, content.len()), Reason::OutOfRange)?;
        self.overwrite(shown.byte_at(offset), content);
        Ok(())
    }

    /// The table, the index and the rights (the sum of their numbers) of the source's descriptor,
    /// or `None` for a null slot.
    ///
    /// It is refused as each operator is, and with the faults of a source that may be null (operand
    /// 1).
    #[tactic(auto, unfolding(rules::specs::Operators::see_plan))]
    pub fn see(&self, task: u32, source: u16) -> Result<Option<(u16, u16, u8)>, Fault>
        ensures { (result, self.now) ≡ seen (done self.now (see_plan task source self.now)) }
    {
        let caller = self.caller(task)?;
        let Some(found) = self.source_or_null(&caller.operand(1, source))? else {
            return Ok(None);
        };
        let named = found.descriptor;
        Ok(Some((
            named.table.get() as u16,
            named.index.get() as u16,
            named.rights.sum(),
        )))
    }

    /// The type, the number of data bytes, the number of slots and the level of what the source
    /// names. Of a type control that is type 2 and no bytes or slots.
    ///
    /// It is refused as each operator is, and with the faults of a source (operand 1).
    #[tactic(auto, unfolding(rules::specs::Operators::look_plan))]
    pub fn look(&self, task: u32, source: u16) -> Result<(u8, u16, u16, u8), Fault>
        ensures { (result, self.now) ≡ listed (done self.now (look_plan task source self.now)) }
    {
        let caller = self.caller(task)?;
        let found = self.source(&caller.operand(1, source))?;
        let shown = self.shown_of(&found);
        Ok((
            found.entry.kind().number(),
            shown.bytes,
            shown.slots,
            found.entry.level(),
        ))
    }

    /// Makes a refinement in the task's table, which shows runs of what the source shows, of
    /// `byte_count` data bytes from `byte` on and `slot_count` slots from `slot` on, and names it
    /// in the destination with the source's rights. Its level is the task's.
    ///
    /// It is refused as each operator is, with the faults of a source (operand 1), which is of the
    /// `WrongType` if it is a type control, and of a destination (operand 2), with `OutOfRange` if
    /// not all of the runs is shown, with `StoringRule` if the destination's object is of a lower
    /// level than the task, and with `NoRoom` if the table has 64 entries.
    #[tactic(auto, unfolding(rules::specs::Operators::refine_plan, crate::specs::Steps::refining))]
    pub fn refine(
        &mut self,
        task: u32,
        source: u16,
        destination: u16,
        byte: u32,
        byte_count: u32,
        slot: u32,
        slot_count: u32,
    ) -> Result<(), Fault>
        ensures { (result, self.new)
            ≡ done self.old (refine_plan task source destination byte byte_count slot slot_count self.old) }
    {
        let caller = self.caller(task)?;
        let operand = caller.operand(1, source);
        let found = self.source(&operand)?;
        operand.demand(found.entry.has_parts(), Reason::WrongType)?;
        let place = self.destination(&caller.operand(2, destination))?;
        let runs = Runs {
            byte,
            bytes: byte_count,
            slot,
            slots: slot_count,
        };
        self.refine_named(&caller, found.descriptor, place, runs)
    }

    /// Opens a context at the task's next level, with so many slots, 4 to 64: slot 0 holds the
    /// argument's descriptor, possibly null, and the others are null.
    ///
    /// It is refused as each operator is, with `NoLevel` at level 8, with the faults of a source
    /// that may be null (operand 1), with `OutOfRange` for another number of slots, with
    /// `StoringRule` if the argument is of a higher level than the new one, and with `NoRoom` if
    /// the table has 64 entries or its block too few bytes left.
    #[tactic(auto, unfolding(rules::specs::Operators::call_plan))]
    pub fn call(&mut self, task: u32, argument: u16, slots: u32) -> Result<(), Fault>
        ensures { (result, self.new) ≡ done self.old (call_plan task argument slots self.old) }
    {
        let caller = self.caller(task)?;
        let level = self.level(task);
        caller.demand((level as usize) < LEVELS, Reason::NoLevel)?;
        let passed = self.source_or_null(&caller.operand(1, argument))?;
        let Some(slots) = ContextSlots::new(slots) else {
            return Err(caller.refusal(Reason::OutOfRange));
        };
        caller.demand(Found::level(&passed) <= level + 1, Reason::StoringRule)?;
        self.open_with(caller.task, slots, Found::word(&passed))
    }

    /// Puts the result's descriptor, possibly null, into slot 0 of the context from which the
    /// current one was called, and ends the current level: the entries made at it are gone, and
    /// their bytes are free again.
    ///
    /// It is refused as each operator is, with `NoLevel` at level 1, with the faults of a source
    /// that may be null (operand 1), with `NotDeletable` (operand 2) if slot 0 holds a descriptor
    /// without the delete right, and with `StoringRule` if the result is of a higher level than the
    /// calling context.
    #[tactic(auto, unfolding(rules::specs::Operators::return_plan))]
    pub fn return_result(&mut self, task: u32, res: u16) -> Result<(), Fault>
        ensures { (result, self.new) ≡ done self.old (return_plan task res self.old) }
    {
        let caller = self.caller(task)?;
        let Some(calling) = self.calling(caller.task) else {
            return Err(caller.refusal(Reason::NoLevel));
        };
        let passed = self.source_or_null(&caller.operand(1, res))?;
        let place = Place {
            by: self.whole(caller.task, calling),
            at: 0,
        };
        let target = caller.operand(2, 0);
        target.demand(
            Found::is_overwritable(&self.held(place)),
            Reason::NotDeletable,
        )?;
        caller.demand(Found::level(&passed) <= place.by.level, Reason::StoringRule)?;
        self.put(place, Found::word(&passed));
        self.close(&caller);
        Ok(())
    }
}
