// Who makes a call, and what its operands name. Each layer hands up the fault of its place by `?`.
ghost use Rattle.rules.specs.Code.{weight};
ghost use Rattle.rules.specs.Operators.{word_of};
ghost use Rattle.rules.specs.State.{has, shown as shown_at, stack as stack_at};
ghost use Rattle.rules.specs.Tests.{check, control, current as current_of, destination, environment, level_by, operator, overwritable, refusal, refusal_at, resolve, source, source_or_null, source_with};
ghost use Rattle.std.specs.Prelude.{◌≡◌, ◌+◌, ◌-◌, ◌*◌, ◌<◌, ◌≤◌, ◌%◌, IfOk, IfErr, IfSome, Ok, Err, Some};
ghost use Rattle.store.specs.Callers.{Names, Stands, at, descriptor_of, entry_of};

use crate::store::Store;
use bank::Bank;
use rules::{Below, Descriptor, Entry, Fault, Place, Reason, Right, Shown, TypeControl};
use tables::{BLOCK, ENTRIES, TABLES};

// A task, with its current context and what that shows.
#[derive(Clone, Copy)]
pub(crate) struct Caller {
    pub(crate) here: Shown,
    pub(crate) task: Below<TABLES>,
    pub(crate) context: Below<ENTRIES>,
    // The context's bytes begin in the block of the task's table, or at its end.
    ghost begins: { 2048 * task + 4 * here.slots ≤ here.base },
    ghost ends: { here.base - 4 * here.slots - 2048 * task ≤ 2048 },
}

// A selector, with the task that gave it, the task's current context and what that shows, and its
// place among the operands. The context's index is there for the clauses, which say by it what is
// shown.
#[derive(Clone, Copy)]
pub(crate) struct Operand {
    pub(crate) here: Shown,
    pub(crate) task: Below<TABLES>,
    pub(crate) context: Below<ENTRIES>,
    pub(crate) place: u8,
    pub(crate) selector: u16,
}

// A descriptor with the entry that it names.
#[derive(Clone, Copy)]
pub(crate) struct Found {
    pub(crate) descriptor: Descriptor,
    pub(crate) entry: Entry,
}

// A test, or the fault of its failing.
#[inline(always)]
pub(crate) fn demand(holds: bool, reason: Reason, task: u32) -> Result<(), Fault>
    ensures { result ≡ check holds (refusal reason task) }
{
    if holds {
        Ok(())
    } else {
        Err(Fault::of_call(reason, task))
    }
}

impl Caller {
    #[inline(always)]
    pub(crate) fn operand(&self, place: u8, selector: u16) -> Operand
        ensures { result ≡ record {
          task = self.now.task;
          context = self.now.context;
          here = self.now.here;
          place = place;
          selector = selector;
        } }
    {
        Operand {
            task: self.task,
            context: self.context,
            here: self.here,
            place,
            selector,
        }
    }

    // How many bytes of the task's block were taken before the context was opened.
    #[inline(always)]
    pub(crate) fn claim_before(&self) -> u32
        ensures value { result
            ≡ self.now.here.base - 4 * self.now.here.slots - 2048 * self.now.task }
        ensures within { result ≤ 2048 }
    {
        self.here.base as u32 - 4 * self.here.slots as u32 - BLOCK * self.task.get()
    }

    // A fault of no operand.
    #[inline(always)]
    pub(crate) fn refusal(&self, reason: Reason) -> Fault
        ensures { result ≡ refusal reason self.now.task }
    {
        Fault::of_call(reason, self.task.get())
    }

    // A test, or the fault of its failing.
    #[inline(always)]
    pub(crate) fn demand(&self, holds: bool, reason: Reason) -> Result<(), Fault>
        ensures { result ≡ check holds (refusal reason self.now.task) }
    {
        demand(holds, reason, self.task.get())
    }
}

impl Operand {
    // A fault of this operand.
    #[inline(always)]
    pub(crate) fn refusal(&self, reason: Reason) -> Fault
        ensures { result ≡ refusal_at reason self.now.task self.now.place self.now.selector }
    {
        Fault::of_operand(reason, self.task.get(), self.place, self.selector)
    }

    // A test, or the fault of its failing at this operand.
    #[inline(always)]
    pub(crate) fn demand(&self, holds: bool, reason: Reason) -> Result<(), Fault>
        ensures { result
            ≡ check holds (refusal_at reason self.now.task self.now.place self.now.selector) }
    {
        if holds {
            Ok(())
        } else {
            Err(self.refusal(reason))
        }
    }
}

impl Found {
    // Whether the descriptor has a right.
    #[inline(always)]
    pub(crate) fn gives(&self, right: Right) -> bool
        ensures { result ≡ has (weight right) self.now.descriptor.rights }
    {
        self.descriptor.rights.contains(right)
    }

    // Whether a slot that holds this may be overwritten: it is null, or the descriptor has the
    // delete right.
    pub(crate) fn is_overwritable(held: &Option<Found>) -> bool
        ensures { result ≡ overwritable (descriptor_of held.now) }
    {
        held.as_ref().is_none_or(|f| f.gives(Right::Delete))
    }

    // The word of a descriptor that may be null.
    pub(crate) fn word(held: &Option<Found>) -> u32
        ensures { result ≡ word_of (descriptor_of held.now) }
    {
        held.as_ref().map_or(0, |f| u32::from(f.descriptor))
    }

    // The level of the entry named, 0 for null.
    #[inline(always)]
    pub(crate) fn level(held: &Option<Found>) -> u8
        ensures { result ≡ level_by (entry_of held.now) }
    {
        match held {
            Some(f) => f.entry.level(),
            None => 0,
        }
    }
}

impl<B: Bank> Store<B> {
    // A task, with its current context and what that shows, if its operators may come.
    #[inline(always)]
    #[tactic(auto, unfolding(rules::specs::Tests::operator))]
    pub(crate) fn caller(&self, task: u32) -> Result<Caller, Fault>
        ensures ok { IfOk result (λ c. (c.task ≡ task) × (operator self.now task ≡ Ok c.context)) }
        ensures opened { IfOk result (λ c. current_of (stack_at self.now task) ≡ Some c.context) }
        ensures here { IfOk result (λ c. shown_at self.now task c.context ≡ c.here) }
        ensures err { IfErr result (λ f. operator self.now task ≡ Err f) }
    {
        demand(self.has_large_bank(), Reason::SmallBank, task)?;
        demand(self.is_sealed(), Reason::WrongPhase, task)?;
        let Some(context) = self.current(task) else {
            return Err(Fault::of_call(Reason::NoTask, task));
        };
        let task = Below::known(task);
        let here = self.whole(task, context);
        Ok(Caller {
            task,
            context,
            here,
        })
    }

    // What the environment of an operand shows, if that is no slot of the current context.
    #[inline(always)]
    #[tactic(auto, unfolding(rules::specs::Tests::environment, rules::specs::State::held))]
    fn environment(&self, right: Right, operand: &Operand) -> Result<Shown, Fault>
        requires stands { Stands self.now operand.now }
        requires elsewhere { 0 < operand.now.selector % 4 }
        ensures { result ≡ at (environment (weight right)) self.now operand.now }
    {
        let environment = Place {
            by: operand.here,
            at: operand.selector % 4,
        };
        let Some(found) = self.held(environment) else {
            return Err(operand.refusal(Reason::NullEnvironment));
        };
        operand.demand(found.gives(right), Reason::EnvironmentRight)?;
        Ok(self.shown_of(&found))
    }

    // The slot that an operand names, where its environment gives a right. What the current context
    // shows is at hand.
    #[inline(always)]
    #[tactic(auto, unfolding(rules::specs::Tests::resolve, rules::specs::Tests::environment))]
    fn resolve(&self, right: Right, operand: &Operand) -> Result<Place, Fault>
        requires { Stands self.now operand.now }
        ensures { result ≡ at (resolve (weight right)) self.now operand.now }
    {
        let by = if operand.selector % 4 == 0 {
            operand.here
        } else {
            self.environment(right, operand)?
        };
        let at = operand.selector / 4;
        operand.demand(at < by.slots, Reason::NoSlot)?;
        Ok(Place { by, at })
    }

    // A source that may be null.
    #[inline(always)]
    #[tactic(auto, unfolding(rules::specs::Tests::source_or_null))]
    pub(crate) fn source_or_null(&self, operand: &Operand) -> Result<Option<Found>, Fault>
        requires { Stands self.now operand.now }
        ensures ok { IfOk result
            (λ x. at source_or_null self.now operand.now ≡ Ok (descriptor_of x)) }
        ensures err { IfErr result (λ e. at source_or_null self.now operand.now ≡ Err e) }
        ensures entry { IfOk result (λ x. IfSome x (λ f. Names self.now f)) }
    {
        Ok(self.held(self.resolve(Right::Read, operand)?))
    }

    // A source that may not.
    #[inline(always)]
    #[tactic(auto, unfolding(rules::specs::Tests::source))]
    pub(crate) fn source(&self, operand: &Operand) -> Result<Found, Fault>
        requires { Stands self.now operand.now }
        ensures ok { IfOk result (λ x. at source self.now operand.now ≡ Ok x.descriptor) }
        ensures err { IfErr result (λ e. at source self.now operand.now ≡ Err e) }
        ensures entry { IfOk result (λ f. Names self.now f) }
    {
        let Some(found) = self.source_or_null(operand)? else {
            return Err(operand.refusal(Reason::NullSource));
        };
        Ok(found)
    }

    // A source whose descriptor has a right.
    #[inline(always)]
    #[tactic(auto, unfolding(rules::specs::Tests::source_with))]
    pub(crate) fn source_with(&self, right: Right, operand: &Operand) -> Result<Found, Fault>
        requires { Stands self.now operand.now }
        ensures ok { IfOk result
            (λ x. at (source_with (weight right)) self.now operand.now ≡ Ok x.descriptor) }
        ensures err { IfErr result
            (λ e. at (source_with (weight right)) self.now operand.now ≡ Err e) }
        ensures entry { IfOk result (λ f. Names self.now f) }
    {
        let found = self.source(operand)?;
        operand.demand(found.gives(right), Reason::MissingRight)?;
        Ok(found)
    }

    // A source that names a type control and has a right.
    #[inline(always)]
    #[tactic(auto, unfolding(rules::specs::Tests::control))]
    pub(crate) fn type_control(&self, right: Right, operand: &Operand) -> Result<TypeControl, Fault>
        requires { Stands self.now operand.now }
        ensures value { result ≡ at (control (weight right)) self.now operand.now }
        ensures rights { IfOk result (λ k. k.rights < 64) }
    {
        let Entry::Control(control) = self.source_with(right, operand)?.entry else {
            return Err(operand.refusal(Reason::WrongType));
        };
        Ok(control)
    }

    // A slot that may be overwritten.
    #[inline(always)]
    #[tactic(auto, unfolding(rules::specs::Tests::destination))]
    pub(crate) fn destination(&self, operand: &Operand) -> Result<Place, Fault>
        requires { Stands self.now operand.now }
        ensures { result ≡ at destination self.now operand.now }
    {
        let place = self.resolve(Right::Write, operand)?;
        operand.demand(
            Found::is_overwritable(&self.held(place)),
            Reason::NotDeletable,
        )?;
        Ok(place)
    }
}
