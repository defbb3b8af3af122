// Lists of calls made on two banks in lock step.
ghost use Rattle.bank_runs.specs.Requests.{IsRun, listed, request_of};
ghost use Rattle.bank_runs.specs.Runs.{outcome_by, outcomes, step};
ghost use Rattle.bank_runs.specs.Theorem.{FullAbstraction};
ghost use Rattle.std.specs.Prelude.{◌≡◌, ◌↔◌, ◌<◌, ℕ, IfOk, IfErr, false, length, take, true};

use crate::call::Answer;
use crate::request::Request;
use crate::single::perform;
use bank::Bank;
use std::alloc::{AllocError, Global};

// Whether two outcomes are the same: the answers, and the buffers as they are left.
fn are_alike(left: Answer, left_buffer: &[u8], right: Answer, right_buffer: &[u8]) -> bool
    ensures { (result ≡ true) ↔ ((left ≡ right) × (left_buffer.now ≡ right_buffer.now)) }
{
    left == right && left_buffer == right_buffer
}

// Makes the call of a request on both banks, on a copy of its bytes each, and answers whether the
// outcomes differ. Where there is no memory for the copies, neither call is made.
fn make<A: Bank, B: Bank>(
    heap: Global,
    left: &mut A,
    right: &mut B,
    request: &Request<'_>,
) -> Result<bool, AllocError>
    ensures left { IfOk result (λ _.
        A.bytes left.new ≡ step (request_of request.now) (A.bytes left.old)) }
    ensures right { IfOk result (λ _.
        B.bytes right.new ≡ step (request_of request.now) (B.bytes right.old)) }
    ensures value { IfOk result (λ b. (b ≡ false)
        ↔ (outcome_by (request_of request.now) (A.bytes left.old)
        ≡ outcome_by (request_of request.now) (B.bytes right.old))) }
    ensures not_made { IfErr result (λ _. (left.new ≡ left.old) × (right.new ≡ right.old)) }
{
    let mut on_left = request.bytes.to_vec(heap)?;
    let mut on_right = request.bytes.to_vec(heap)?;
    let left_answer = perform(left, request.call, &mut on_left);
    let right_answer = perform(right, request.call, &mut on_right);
    Ok(!are_alike(left_answer, &on_left, right_answer, &on_right))
}

/// Makes each call of a list on both banks, one after the other, and answers whether any outcome
/// differs: an answer, or a buffer as it is left. None does where the banks mean the same list of
/// bytes. Where memory runs out, the same first calls were made on both.
#[tactic(auto, unfolding(crate::specs::Runs::run, crate::specs::Runs::outcomes))]
pub fn differ<A: Bank, B: Bank>(
    heap: Global,
    left: &mut A,
    right: &mut B,
    requests: &[Request<'_>],
) -> Result<bool, AllocError>
    ensures made { IfOk result (λ _.
        IsRun requests.now (A.bytes left.old) (A.bytes left.new)
        × IsRun requests.now (B.bytes right.old) (B.bytes right.new)) }
    ensures cut_off { IfErr result (λ _. (n : ℕ)
        × (n < length requests.now)
        × IsRun (take n requests.now) (A.bytes left.old) (A.bytes left.new)
        × IsRun (take n requests.now) (B.bytes right.old) (B.bytes right.new)) }
    ensures value { IfOk result (λ b. (b ≡ false)
        ↔ (outcomes (listed requests.now) (A.bytes left.old)
        ≡ outcomes (listed requests.now) (B.bytes right.old))) }
    ensures same_meaning { A.bytes left.old ≡ B.bytes right.old
        → IfOk result (λ b. b ≡ false) × (A.bytes left.new ≡ B.bytes right.new) }
    ensures full_abstraction { FullAbstraction }
{
    let mut differs = false;
    for request in requests {
        differs |= make(heap, left, right, request)?;
    }
    Ok(differs)
}
