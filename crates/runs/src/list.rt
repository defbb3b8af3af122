// Lists of calls made on a store.
ghost use Rattle.runs.specs.Requests.{AreOutcomes, IsCutOff, IsRun, outcome_of, request_of};
ghost use Rattle.runs.specs.Runs.{IsMade};
ghost use Rattle.std.specs.Prelude.{◌≡◌, IfOk, IfErr};

use crate::request::{Outcome, Request};
use bank::Bank;
use std::alloc::{AllocError, Global};
use store::Store;

// Makes the call of a request on a copy of its bytes. Where there is no memory for the copy, the
// call is not made.
fn make<B: Bank>(
    heap: Global,
    store: &mut Store<B>,
    request: &Request<'_>,
) -> Result<Outcome, AllocError>
    ensures made { IfOk result (λ o.
        IsMade (request_of request.now) store.old (outcome_of o) store.new) }
    ensures not_made { IfErr result (λ _. store.new ≡ store.old) }
{
    let mut buffer = request.bytes.to_vec(heap)?;
    let answer = store.perform(request.call, &mut buffer);
    Ok(Outcome { answer, buffer })
}

/// Makes calls one after the other and answers the outcome of each. Where memory runs out, the
/// first of them were made.
#[tactic(auto, unfolding(crate::specs::Runs::run, crate::specs::Runs::outcomes), using(crate::proofs::More::if_err))]
pub fn run<B: Bank>(
    heap: Global,
    store: &mut Store<B>,
    requests: &[Request<'_>],
) -> Result<Vec<Outcome>, AllocError>
    ensures made { IfOk result (λ _. IsRun requests.now store.old store.new) }
    ensures answered { IfOk result (λ os. AreOutcomes requests.now store.old os.items) }
    ensures cut_off { IfErr result (λ _. IsCutOff requests.now store.old store.new) }
{
    let mut outcomes = Vec::new(heap);
    for request in requests {
        let outcome = make(heap, store, request)?;
        outcomes.push(outcome)?;
    }
    Ok(outcomes)
}
