// Calls as values, made on a bank.
ghost use Rattle.bank_runs.specs.Calls.{answered, changed, outcome};
ghost use Rattle.std.specs.Prelude.{◌≡◌};

use crate::call::{Answer, Call, Change, Query};
use bank::Bank;

/// Makes a call that only reads. `ReadRun` fills the buffer, and no other call looks at it.
pub fn ask<B: Bank>(bank: &B, query: Query, buffer: &mut [u8]) -> Answer
    ensures { record { answer = result; buffer = buffer.new }
        ≡ answered query buffer.old (B.bytes bank.now) }
{
    match query {
        Query::Size => Answer::Size(bank.size()),
        Query::Read { address } => Answer::Byte(bank.read(address)),
        Query::ReadRun { address } => {
            bank.read_run(address, buffer);
            Answer::Filled
        }
        Query::ReadWord { address } => Answer::Word(bank.read_word(address)),
    }
}

/// Makes a call that writes. `WriteRun` writes the bytes, and no other call looks at them.
pub fn change<B: Bank>(bank: &mut B, change: Change, bytes: &[u8])
    ensures { B.bytes bank.new ≡ changed change bytes.now (B.bytes bank.old) }
{
    match change {
        Change::Write { address, byte } => bank.write(address, byte),
        Change::WriteRun { address } => bank.write_run(address, bytes),
        Change::ClearRun { address, count } => bank.clear_run(address, count),
        Change::WriteWord { address, word } => bank.write_word(address, word),
    }
}

/// Makes a call. The buffer is what `WriteRun` writes and what `ReadRun` fills; no other call looks
/// at it.
#[tactic(auto, unfolding(crate::specs::Calls::outcome))]
pub fn perform<B: Bank>(bank: &mut B, call: Call, buffer: &mut [u8]) -> Answer
    ensures { (record { answer = result; buffer = buffer.new }, B.bytes bank.new)
        ≡ outcome call buffer.old (B.bytes bank.old) }
{
    match call {
        Call::Query(query) => ask(bank, query, buffer),
        Call::Change(it) => {
            change(bank, it, buffer);
            Answer::Done
        }
    }
}
