// Two stores on two kinds of bank, with the same attitude task and with another payload: a quiet
// one here, a hostile one there. Prints whether the attitude task is separate in each, the outcomes
// of its calls in both, and whether it sees a difference; then the same where the payload may write
// what the attitude task reads.
#![tactic(auto)]

mod stores;
mod tasks;

use isolation::outcomes_of;
use rules::{Answer, Call, Fault, Operator};
use runs::{Outcome, Request};
use std::alloc::{AllocError, Global};
use std::fmt::Write;
use std::io;
use stores::{on_coded, on_plain, watched};
use tasks::{ATTITUDE, PAYLOAD};

// The requests from one place of a list to another, as far as there are so many.
fn part<'a>(requests: &'a [Request<'static>], from: usize, to: usize) -> &'a [Request<'static>] {
    let from = from.min(requests.len());
    let to = to.min(requests.len()).max(from);
    &requests[from..to]
}

// The requests of both tasks: before each of the attitude task's come some of the payload's.
fn mixed(
    rt: &HostRuntime,
    payload: &[Request<'static>],
    each: usize,
) -> io::Result<Vec<Request<'static>>> {
    let mut requests = Vec::new(rt.alloc());
    let mut made = 0usize;
    for step in tasks::attitude().iter() {
        let next = made.saturating_add(each);
        requests.extend_from_slice(part(payload, made, next))?;
        requests.push(step.request)?;
        made = next;
    }
    requests.extend_from_slice(part(payload, made, payload.len()))?;
    Ok(requests)
}

// What a call answers, and for a read what is in its buffer.
fn text(heap: Global, call: Call, outcome: &Outcome) -> Result<String, AllocError> {
    let mut text = String::new(heap);
    match outcome.answer {
        Ok(Answer::Done | Answer::Filled) => write!(text, "done")?,
        Ok(Answer::Index(index)) => write!(text, "index {index}")?,
        Ok(Answer::Absent) => write!(text, "nothing")?,
        Ok(
            Answer::Seen {
                table,
                index,
                rights,
            },
        ) => write!(text, "entry {index} of table {table}, rights {rights}")?,
        Ok(
            Answer::Looked {
                kind,
                bytes,
                slots,
                level,
            },
        ) => write!(
            text,
            "type {kind}, {bytes} bytes, {slots} slots, level {level}"
        )?,
        Err(fault) => write!(text, "fault {}", fault.reason.number())?,
    }
    if let Call::Operator {
        operator: Operator::Read { .. },
        ..
    } = call
    {
        write!(text, ", buffer")?;
        for byte in outcome.buffer.iter() {
            write!(text, " {byte}")?;
        }
    }
    Ok(text)
}

// Prints the attitude task's outcomes in both stores side by side.
fn print_steps(rt: &HostRuntime, left: &[&Outcome], right: &[&Outcome]) -> io::Result<()> {
    println!(rt;
        "  {:<30}{:<40}{}",
        "attitude task", "plain bank, quiet payload", "coded bank, hostile payload"
    )?;
    for (step, (left, right)) in tasks::attitude().iter().zip(left.iter().zip(right.iter())) {
        let on_left = text(rt.alloc(), step.request.call, left)?;
        let on_right = text(rt.alloc(), step.request.call, right)?;
        println!(rt; "  {:<30}{on_left:<40}{on_right}", step.what)?;
    }
    Ok(())
}

// Prints how many calls a payload made, and how many were refused.
fn print_payload(rt: &HostRuntime, which: &str, outcomes: &[&Outcome]) -> io::Result<()> {
    let refused = outcomes.iter().filter(|o| o.answer.is_err()).count();
    let calls = outcomes.len();
    println!(rt; "  The {which} payload made {calls} calls, of which {refused} were refused.")
}

fn yes_or_no(answer: bool) -> &'static str {
    if answer { "yes" } else { "no" }
}

// Prints what a store answers to the question whether the attitude task is separate.
fn print_separate(rt: &HostRuntime, bank: &str, answer: Result<bool, Fault>) -> io::Result<()> {
    print!(rt; "  Is the attitude task separate on the {bank} bank? ")?;
    match answer {
        Ok(separate) => println!(rt; "{}", yes_or_no(separate)),
        Err(fault) => println!(rt; "{fault}"),
    }
}

fn compare(rt: &HostRuntime, title: &str, payload_may_write: bool) -> io::Result<()> {
    println!(rt; "{title}\n")?;
    let quiet = mixed(rt, &tasks::quiet_payload(), 1)?;
    let hostile = mixed(rt, &tasks::hostile_payload(rt.alloc())?, 40)?;
    let answers = watched(rt, payload_may_write, &quiet, &hostile)?;
    print_separate(rt, "plain", answers.separate_on_left)?;
    print_separate(rt, "coded", answers.separate_on_right)?;
    println!(rt; "")?;
    let left = on_plain(rt, payload_may_write, &quiet)?;
    let right = on_coded(rt, payload_may_write, &hostile)?;
    print_steps(
        rt,
        &outcomes_of(rt.alloc(), ATTITUDE, &quiet, &left)?,
        &outcomes_of(rt.alloc(), ATTITUDE, &hostile, &right)?,
    )?;
    println!(rt; "")?;
    print_payload(
        rt,
        "quiet",
        &outcomes_of(rt.alloc(), PAYLOAD, &quiet, &left)?,
    )?;
    print_payload(
        rt,
        "hostile",
        &outcomes_of(rt.alloc(), PAYLOAD, &hostile, &right)?,
    )?;
    let differs = yes_or_no(answers.differs);
    println!(rt; "  Does the attitude task see a difference? {differs}\n")
}

fn main(rt: HostRuntime) -> io::Result<()> {
    compare(
        &rt,
        "1. The payload may read the record, as the attitude task may. Neither may write it.",
        false,
    )?;
    compare(
        &rt,
        "2. The payload may write the record that the attitude task reads.",
        true,
    )
}
