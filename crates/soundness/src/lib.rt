// Stores that are sound, whatever calls come: no call with any numbers makes a store in which two
// objects share a byte, or in which a slot names an entry that has ended. A return gives back
// exactly what its call took, and what stands when a store is sealed stays.
#![tactic(auto)]

ghost use Rattle.rules.specs.State.{empty};
ghost use Rattle.runs.specs.Requests.{AreOutcomes, IsCutOff, IsRun};
ghost use Rattle.soundness.specs.Sound.{Sound};
ghost use Rattle.soundness.specs.Theorem.{
  CallsKeepSound,
  EmptyIsSound,
  EntriesLast,
  EveryRunIsSound,
  ReturnsGiveBack,
  SealedEntriesLast,
  StaysSound,
};
ghost use Rattle.std.specs.Prelude.{◌≡◌, IfOk, IfErr};

use bank::Bank;
use runs::{Outcome, Request};
use std::alloc::{AllocError, Global};
use store::Store;

/// A store with empty tables and no task over the bank as it is.
pub fn new_store<B: Bank>(bank: B) -> Store<B>
    ensures value { result ≡ empty (B.bytes bank) }
    ensures empty_is_sound { EmptyIsSound }
    ensures calls_keep_sound { CallsKeepSound }
    ensures every_run_is_sound { EveryRunIsSound }
    ensures stays_sound { StaysSound result }
    ensures returns_give_back { ReturnsGiveBack }
    ensures entries_last { EntriesLast }
    ensures sealed_entries_last { SealedEntriesLast }
{
    Store::new(bank)
}

/// Makes calls one after the other and answers the outcome of each. A sound store is sound
/// afterwards, also where memory runs out and only the first of them were made.
pub fn run<B: Bank>(
    heap: Global,
    store: &mut Store<B>,
    requests: &[Request<'_>],
) -> Result<Vec<Outcome>, AllocError>
    ensures made { IfOk result (λ _. IsRun requests.now store.old store.new) }
    ensures answered { IfOk result (λ os. AreOutcomes requests.now store.old os.items) }
    ensures cut_off { IfErr result (λ _. IsCutOff requests.now store.old store.new) }
    ensures stays_sound { Sound store.old → StaysSound store.new }
{
    runs::run(heap, store, requests)
}
