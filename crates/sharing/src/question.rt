// Whether a task is separate.
ghost use Rattle.sharing.specs.Question.{IsAnswer, StaysYes, YesLasts};
ghost use Rattle.soundness.specs.Sound.{Sound};
ghost use Rattle.std.specs.Prelude.{◌≡◌, Ok, true};

use crate::reach::Reach;
use crate::side::Side;
use crate::types::Types;
use bank::Bank;
use rules::{Fault, Reason};
use store::Store;

/// Whether a task of a sealed store is separate: whether no object that it reaches and that the
/// other tasks together reach can be altered by either. It only reads, and allocates nothing. Once
/// the answer is yes it stays yes, whatever calls come.
///
/// Refused like an operator of the task: over a bank that is too small, before sealing, and for a
/// task that is not loaded.
pub fn separate<B: Bank>(store: &Store<B>, task: u32) -> Result<bool, Fault>
    ensures answer { IsAnswer task store.now result }
    ensures yes_lasts { YesLasts }
    ensures stays { Sound store.now → result ≡ Ok true → StaysYes task store.now }
{
    if !store.has_large_bank() {
        return Err(Fault::of_call(Reason::SmallBank, task));
    }
    if !store.is_sealed() {
        return Err(Fault::of_call(Reason::WrongPhase, task));
    }
    if store.level(task) == 0 {
        return Err(Fault::of_call(Reason::NoTask, task));
    }
    let types = Types::of(store);
    let own = Reach::by_types(store, &types, Side::Only(task));
    let theirs = Reach::by_types(store, &types, Side::Others(task));
    Ok(!own.meets(&theirs))
}
