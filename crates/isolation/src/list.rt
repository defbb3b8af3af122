// Lists of calls made on a sealed store, and what tasks gain by them.
ghost use Rattle.isolation.specs.Gains.{NothingGained, NothingIsGained};
ghost use Rattle.isolation.specs.Share.{IsSealed};
ghost use Rattle.runs.specs.Requests.{AreOutcomes, IsCutOff, IsRun};
ghost use Rattle.soundness.specs.Sound.{Sound};
ghost use Rattle.soundness.specs.Theorem.{StaysSound};
ghost use Rattle.std.specs.Prelude.{IfOk, IfErr};

use bank::Bank;
use runs::{Outcome, Request};
use std::alloc::{AllocError, Global};
use store::Store;

/// Makes calls one after the other and answers the outcome of each. On a sealed store tasks gain
/// nothing by them: each of its entries stays, and all tasks together reach and can alter none of
/// them that they did not before, so that what none can alter never changes. Neither does a
/// separate task by itself gain anything, whatever the others call, nor do all others together,
/// whatever it calls. So it is also where memory runs out and only the first calls were made.
pub fn run<B: Bank>(
    heap: Global,
    store: &mut Store<B>,
    requests: &[Request<'_>],
) -> Result<Vec<Outcome>, AllocError>
    ensures made { IfOk result (λ _. IsRun requests.now store.old store.new) }
    ensures answered { IfOk result (λ os. AreOutcomes requests.now store.old os.items) }
    ensures cut_off { IfErr result (λ _. IsCutOff requests.now store.old store.new) }
    ensures stays_sound { Sound store.old → StaysSound store.new }
    ensures nothing_is_gained { NothingIsGained }
    ensures nothing_gained { IsSealed store.old → NothingGained store.old store.new }
{
    soundness::run(heap, store, requests)
}
