// What a task sees in two stores, and whether it is separate in each.
ghost use Rattle.isolation.specs.Lists.{NoneSeen, StoppedInItsShare};
ghost use Rattle.isolation.specs.Theorem.{seen_by};
ghost use Rattle.runs.specs.Requests.{IsCutOff, IsRun, listed};
ghost use Rattle.sharing.specs.Question.{AreKnown, IsAnswer, IsolationByAnswers};
ghost use Rattle.std.specs.Prelude.{◌≡◌, ◌↔◌, IfOk, IfErr, false};

use crate::question::separate;
use bank::Bank;
use isolation::sees_difference;
use rules::Fault;
use runs::Request;
use std::alloc::{AllocError, Global};
use store::Store;

/// What is answered of a task and two stores.
#[derive(Drop)]
pub struct Watched {
    /// Whether the task is separate in the left store, asked before any call was made.
    pub separate_on_left: Result<bool, Fault>,
    /// Whether it is separate in the right store, asked likewise.
    pub separate_on_right: Result<bool, Fault>,
    /// Whether the outcomes of its calls in one store differ from those in the other.
    pub differs: bool,
}

/// Asks in each store whether a task is separate, makes the calls of each list on its store, and
/// answers whether the task sees a difference, as `isolation::sees_difference` does. It sees none
/// where both stores are freshly sealed and alike to it, both answer yes, and the lists hold the
/// same calls of it. Then no call of the task has changed anything outside its share. Where memory runs out,
/// the first calls of each list were made.
pub fn watch<A: Bank, B: Bank>(
    heap: Global,
    task: u32,
    left: &mut Store<A>,
    left_requests: &[Request<'_>],
    right: &mut Store<B>,
    right_requests: &[Request<'_>],
) -> Result<Watched, AllocError>
    ensures on_left { IfOk result (λ w. IsAnswer task left.old w.separate_on_left) }
    ensures on_right { IfOk result (λ w. IsAnswer task right.old w.separate_on_right) }
    ensures made { IfOk result (λ _.
        IsRun left_requests.now left.old left.new
        × IsRun right_requests.now right.old right.new) }
    ensures cut_off { IfErr result (λ _.
        IsCutOff left_requests.now left.old left.new
        × IsCutOff right_requests.now right.old right.new) }
    ensures value { IfOk result (λ w. (w.differs ≡ false)
        ↔ (seen_by task (listed left_requests.now) left.old
        ≡ seen_by task (listed right_requests.now) right.old)) }
    ensures isolation { IsolationByAnswers }
    ensures never { AreKnown task left.old right.old
        (listed left_requests.now) (listed right_requests.now)
        → IfOk result (λ w. NoneSeen task left_requests.now right_requests.now
        left.old right.old left.new right.new w.differs) }
    ensures never_cut_off { AreKnown task left.old right.old
        (listed left_requests.now) (listed right_requests.now)
        → IfErr result (λ _.
        StoppedInItsShare task left_requests.now left.old left.new
        × StoppedInItsShare task right_requests.now right.old right.new) }
{
    let separate_on_left = separate(left, task);
    let separate_on_right = separate(right, task);
    let differs = sees_difference(heap, task, left, left_requests, right, right_requests)?;
    Ok(Watched {
        separate_on_left,
        separate_on_right,
        differs,
    })
}
