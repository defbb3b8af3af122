// How a set of tasks comes to the descriptors that it obtains.
ghost use Rattle.std.specs.Prelude.{◌≡◌, ◌∷◌, ◌++◌, [], ◌⊎◌, All, IfOk, IfSome, Some, true};
ghost use Rattle.isolation.specs.Reach.{Obtains};
ghost use Rattle.mission.specs.Chains.{Amplifies, Grows, IsChain, IsHeldBy, RestsOn, named_at};
ghost use Rattle.rules.specs.State.{held as held_at, has, named as named_by, read, stack as stack_at};
ghost use Rattle.sharing.specs.Sides.{side_of};
ghost use Rattle.soundness.specs.Sound.{In};

use bank::Bank;
use rules::{Descriptor, Entry, Place, Right, Rights, Shown, is_valid};
use sharing::Side;
use std::alloc::{AllocError, Global};
use store::Store;
use tables::{ENTRIES, TABLES};

// The most steps that are followed: for each entry a first one, and one for each of six rights.
const MOST: usize = 7 * TABLES * ENTRIES;

/// Where the descriptor of a step comes from. Earlier steps go by their numbers, from 0 on.
#[derive(Clone, Copy, Debug, PartialEq, Eq)]
pub enum Link {
    /// From a slot of an open context of a task, by the index of the context in the task's table.
    Context { task: u32, context: u32, slot: u16 },
    /// From a slot that is shown by what an earlier step obtains with the right to read.
    Shown { by: usize, slot: u16 },
    /// It is the descriptor of an earlier step, with the rights that a type control adds, which
    /// another earlier step obtains with type right 2.
    Amplified { control: usize, source: usize },
}

/// A step of a chain: a descriptor that is obtained, and where it comes from.
#[derive(Clone, Copy, Debug, PartialEq, Eq)]
pub struct Step {
    /// Where the descriptor comes from.
    pub link: Link,
    /// The descriptor.
    pub descriptor: Descriptor,
}

/// How a set of tasks obtains descriptors: steps, each of which rests on earlier ones alone. Short
/// ways come first. A descriptor gets a step if none before it names the entry with all its rights.
pub fn chains<B: Bank>(heap: Global, store: &Store<B>, side: Side) -> Result<Vec<Step>, AllocError>
    ensures chain { IfOk result (λ v. IsChain store.now (side_of side) v.items) }
    ensures obtained { IfOk result (λ v.
        All (λ x. Obtains store.now (side_of side) x.descriptor) v.items) }
{
    let mut steps = Vec::new(heap);
    for task in 0..TABLES as u32 {
        if side.has(task) {
            take_contexts(&mut steps, store, task)?;
        }
    }
    for number in 0..MOST {
        let Some(named) = descriptor_of(&steps, number) else {
            break;
        };
        follow(&mut steps, store, number, named)?;
    }
    Ok(steps)
}

// What the open contexts of a task hold.
fn take_contexts<B: Bank>(
    steps: &mut Vec<Step>,
    store: &Store<B>,
    task: u32,
) -> Result<(), AllocError>
    ensures { Grows (λ _ x. IsHeldBy store.now task x) steps.old.items steps.new.items }
{
    for number in 0..store.level(task) as usize {
        if let Some(context) = store.context(task, number) {
            take_context(steps, store, task, context.get())?;
        }
    }
    Ok(())
}

// What an open context holds.
fn take_context<B: Bank>(
    steps: &mut Vec<Step>,
    store: &Store<B>,
    task: u32,
    context: u32,
) -> Result<(), AllocError>
    requires { In context (stack_at store.now task) }
    ensures { Grows (λ _ x. IsHeldBy store.now task x) steps.old.items steps.new.items }
{
    let by = store.shown(task, context);
    for slot in 0..by.slots {
        if let Some(descriptor) = held(store, by, slot) {
            let link = Link::Context {
                task,
                context,
                slot,
            };
            take(steps, Step { link, descriptor })?;
        }
    }
    Ok(())
}

// What a step leads on to: what is shown to it, and what it makes of the steps up to it, or they of
// it, by type controls.
fn follow<B: Bank>(
    steps: &mut Vec<Step>,
    store: &Store<B>,
    number: usize,
    named: Descriptor,
) -> Result<(), AllocError>
    requires { named_at steps.old.items number ≡ Some named }
    ensures { Grows (RestsOn store.now) steps.old.items steps.new.items }
{
    if named.rights.contains(Right::Read) {
        take_shown(steps, store, number, named)?;
    }
    for other in 0..number {
        amplify(steps, store, other, number)?;
        amplify(steps, store, number, other)?;
    }
    Ok(())
}

// What is shown by the descriptor of a step, which must have the right to read.
fn take_shown<B: Bank>(
    steps: &mut Vec<Step>,
    store: &Store<B>,
    number: usize,
    named: Descriptor,
) -> Result<(), AllocError>
    requires is { named_at steps.old.items number ≡ Some named }
    requires reads { has read named.rights ≡ true }
    ensures { Grows (RestsOn store.now) steps.old.items steps.new.items }
{
    let by = store.shown(named.table.get(), named.index.get());
    for slot in 0..by.slots {
        if let Some(descriptor) = held(store, by, slot) {
            let link = Link::Shown { by: number, slot };
            take(steps, Step { link, descriptor })?;
        }
    }
    Ok(())
}

// What one step makes of another, if it has a type control that adds rights to the other's type.
fn amplify<B: Bank>(
    steps: &mut Vec<Step>,
    store: &Store<B>,
    control: usize,
    source: usize,
) -> Result<(), AllocError>
    ensures { Grows (RestsOn store.now) steps.old.items steps.new.items }
{
    let (Some(by), Some(of)) = (descriptor_of(steps, control), descriptor_of(steps, source)) else {
        return Ok(());
    };
    if let Some(descriptor) = amplified(store, by, of) {
        let link = Link::Amplified { control, source };
        take(steps, Step { link, descriptor })?;
    }
    Ok(())
}

// The descriptor of a step by its number.
fn descriptor_of(steps: &[Step], number: usize) -> Option<Descriptor>
    ensures { result ≡ named_at steps.now number }
{
    steps.get(number).map(|step| step.descriptor)
}

// A descriptor with the rights that a type control adds, if another one is of a control that adds
// rights to its type, with type right 2.
fn amplified<B: Bank>(
    store: &Store<B>,
    control: Descriptor,
    source: Descriptor,
) -> Option<Descriptor>
    ensures { IfSome result (λ d. Amplifies store.now control source d) }
{
    if !control.rights.contains(Right::Type2) {
        return None;
    }
    let Entry::Control(added) = store.entry(control.table.get(), control.index.get())? else {
        return None;
    };
    let of = store.entry(source.table.get(), source.index.get())?;
    if of.kind() != added.kind {
        return None;
    }
    Some(Descriptor {
        table: source.table,
        index: source.index,
        rights: source.rights | Rights::low(added.rights as u32),
    })
}

// What the word in a slot names.
#[tactic(auto, unfolding(rules::specs::State::named))]
pub(crate) fn held<B: Bank>(store: &Store<B>, by: Shown, slot: u16) -> Option<Descriptor>
    ensures { result ≡ named_by store.now (held_at store.now (record { by = by; at = slot })) }
{
    let word = store.word(Place { by, at: slot });
    if !is_valid(word) {
        return None;
    }
    let descriptor = Descriptor::from(word);
    store.entry(descriptor.table.get(), descriptor.index.get())?;
    Some(descriptor)
}

// Adds a step, if the steps before it do not name its entry with all its rights.
fn take(steps: &mut Vec<Step>, step: Step) -> Result<(), AllocError>
    ensures { (steps.new.items ≡ steps.old.items)
        ⊎ (steps.new.items ≡ steps.old.items ++ step ∷ []) }
{
    if is_new(steps, step.descriptor) {
        steps.push(step)?;
    }
    Ok(())
}

// Whether steps do not name an entry, or not with all of the rights.
fn is_new(steps: &[Step], descriptor: Descriptor) -> bool {
    let mut named = false;
    let mut rights = 0u8;
    for step in steps {
        let other = step.descriptor;
        if other.table == descriptor.table && other.index == descriptor.index {
            named = true;
            rights |= other.rights.sum();
        }
    }
    !named || rights | descriptor.rights.sum() != rights
}
