// What a task sees in two stores.
ghost use Rattle.isolation.specs.Example.{AnExampleOfADifference};
ghost use Rattle.isolation.specs.Lists.{NoneSeen, StoppedInItsShare};
ghost use Rattle.isolation.specs.Theorem.{AreComparable, Isolation, is_by as is_called_by, outcomes_of as outcomes_seen, seen_by};
ghost use Rattle.runs.specs.Requests.{IsCutOff, IsRun, listed, outcome_of};
ghost use Rattle.std.specs.Prelude.{◌≡◌, ◌↔◌, IfOk, IfErr, false, map, true};

use bank::Bank;
use rules::Call;
use runs::{Outcome, Request};
use std::alloc::{AllocError, Global};
use store::Store;

// Whether the task makes a call: an operator that it calls.
fn is_by(task: u32, call: Call) -> bool
    ensures { result ≡ is_called_by task call }
{
    match call {
        Call::Load(_) => false,
        Call::Operator { task: caller, .. } => caller == task,
    }
}

/// Of the outcomes of a list of requests, those of one task's calls, in order. A load call is no
/// task's. What one of the two lists has more than the other is not looked at.
pub fn outcomes_of<'a>(
    heap: Global,
    task: u32,
    requests: &[Request<'_>],
    outcomes: &'a [Outcome],
) -> Result<Vec<&'a Outcome>, AllocError>
    ensures { IfOk result (λ os.
        map (λ o. outcome_of o.now) os.items
        ≡ outcomes_seen task (listed requests.now) (map outcome_of outcomes.now)) }
{
    let mut kept = Vec::new(heap);
    for (request, outcome) in requests.iter().zip(outcomes.iter()) {
        if is_by(task, request.call) {
            kept.push(outcome)?;
        }
    }
    Ok(kept)
}

// Whether two lists of outcomes are the same.
fn are_alike(left: &[&Outcome], right: &[&Outcome]) -> bool
    ensures { (result ≡ true)
        ↔ (map (λ o. outcome_of o.now) left.now ≡ map (λ o. outcome_of o.now) right.now) }
{
    left == right
}

// Whether the outcomes of the task's calls in one list differ from those in the other.
fn differ(
    heap: Global,
    task: u32,
    left_requests: &[Request<'_>],
    left: &[Outcome],
    right_requests: &[Request<'_>],
    right: &[Outcome],
) -> Result<bool, AllocError>
    ensures { IfOk result (λ b. (b ≡ false)
        ↔ (outcomes_seen task (listed left_requests.now) (map outcome_of left.now)
        ≡ outcomes_seen task (listed right_requests.now) (map outcome_of right.now))) }
{
    let left = outcomes_of(heap, task, left_requests, left)?;
    let right = outcomes_of(heap, task, right_requests, right)?;
    Ok(!are_alike(&left, &right))
}

/// Makes the calls of each list on its store, and answers whether a task sees a difference: whether
/// the outcomes of its calls in one store differ from those in the other. It sees none where both
/// stores are sealed and alike to it, it is separate in each, and the lists hold the same calls of
/// it. Then no call of the task has changed anything outside its share. Where memory runs out, the
/// first calls of each list were made.
pub fn sees_difference<A: Bank, B: Bank>(
    heap: Global,
    task: u32,
    left: &mut Store<A>,
    left_requests: &[Request<'_>],
    right: &mut Store<B>,
    right_requests: &[Request<'_>],
) -> Result<bool, AllocError>
    ensures made { IfOk result (λ _.
        IsRun left_requests.now left.old left.new
        × IsRun right_requests.now right.old right.new) }
    ensures cut_off { IfErr result (λ _.
        IsCutOff left_requests.now left.old left.new
        × IsCutOff right_requests.now right.old right.new) }
    ensures value { IfOk result (λ b. (b ≡ false)
        ↔ (seen_by task (listed left_requests.now) left.old
        ≡ seen_by task (listed right_requests.now) right.old)) }
    ensures isolation { Isolation }
    ensures never { AreComparable task left.old right.old
        (listed left_requests.now) (listed right_requests.now)
        → IfOk result (NoneSeen task left_requests.now right_requests.now
        left.old right.old left.new right.new) }
    ensures never_cut_off { AreComparable task left.old right.old
        (listed left_requests.now) (listed right_requests.now)
        → IfErr result (λ _.
        StoppedInItsShare task left_requests.now left.old left.new
        × StoppedInItsShare task right_requests.now right.old right.new) }
    ensures example { AnExampleOfADifference }
{
    let on_left = runs::run(heap, left, left_requests)?;
    let on_right = runs::run(heap, right, right_requests)?;
    differ(
        heap,
        task,
        left_requests,
        &on_left,
        right_requests,
        &on_right,
    )
}
