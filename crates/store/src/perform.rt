// Calls as values: one function makes each of them.
ghost use Rattle.rules.specs.Calls.{answer_of, load_outcome, operator_outcome, outcome};
ghost use Rattle.rules.specs.declared.call.Answer.TheVariants.{Done, Filled, Index};
ghost use Rattle.std.specs.Prelude.{◌≡◌};
ghost use Rattle.store.specs.Answers.{looked_answer, seen_answer};

use crate::store::Store;
use bank::Bank;
use rules::{Answer, Call, Fault, Load, Operator};

fn done(made: Result<(), Fault>) -> Result<Answer, Fault>
    ensures { result ≡ answer_of (λ _. Done) made }
{
    made?;
    Ok(Answer::Done)
}

fn filled(made: Result<(), Fault>) -> Result<Answer, Fault>
    ensures { result ≡ answer_of (λ _. Filled) made }
{
    made?;
    Ok(Answer::Filled)
}

fn index(made: Result<u32, Fault>) -> Result<Answer, Fault>
    ensures { result ≡ answer_of Index made }
{
    Ok(Answer::Index(made?))
}

fn seen(made: Result<Option<(u16, u16, u8)>, Fault>) -> Result<Answer, Fault>
    ensures { result ≡ answer_of seen_answer made }
{
    let Some((table, index, rights)) = made? else {
        return Ok(Answer::Absent);
    };
    Ok(Answer::Seen {
        table,
        index,
        rights,
    })
}

fn looked(made: Result<(u8, u16, u16, u8), Fault>) -> Result<Answer, Fault>
    ensures { result ≡ answer_of looked_answer made }
{
    let (kind, bytes, slots, level) = made?;
    Ok(Answer::Looked {
        kind,
        bytes,
        slots,
        level,
    })
}

impl<B: Bank> Store<B> {
    /// Makes a call. The buffer is what `Fill` and `Write` write and what `Read` fills; no other
    /// call looks at it. A call that is refused changes neither the store nor the buffer.
    #[tactic(auto, unfolding(rules::specs::Calls::outcome))]
    pub fn perform(&mut self, call: Call, buffer: &mut [u8]) -> Result<Answer, Fault>
        ensures { (record { answer = result; buffer = buffer.new }, self.new)
            ≡ outcome call buffer.old self.old }
    {
        match call {
            Call::Load(load) => self.perform_load(load, buffer),
            Call::Operator { task, operator } => self.perform_operator(task, operator, buffer),
        }
    }

    fn perform_load(&mut self, load: Load, bytes: &[u8]) -> Result<Answer, Fault>
        ensures { (record { answer = result; buffer = bytes.now }, self.new)
            ≡ load_outcome load bytes.now self.old }
    {
        match load {
            Load::Place {
                table,
                size,
                slots,
                kind,
            } => index(self.place(table, size, slots, kind)),
            Load::Control {
                table,
                kind,
                rights,
            } => index(self.control(table, kind, rights)),
            Load::Task { number, slots } => index(self.task(number, slots)),
            Load::Grant {
                table,
                index,
                slot,
                named_table,
                named_index,
                rights,
            } => done(self.grant(table, index, slot, named_table, named_index, rights)),
            Load::Fill {
                table,
                index,
                offset,
            } => done(self.fill(table, index, offset, bytes)),
            Load::Seal => done(self.seal()),
        }
    }

    fn perform_operator(
        &mut self,
        task: u32,
        operator: Operator,
        buffer: &mut [u8],
    ) -> Result<Answer, Fault>
        ensures { (record { answer = result; buffer = buffer.new }, self.new)
            ≡ operator_outcome task operator buffer.old self.old }
    {
        match operator {
            Operator::Copy {
                source,
                destination,
            } => done(self.copy(task, source, destination)),
            Operator::Null { destination } => done(self.null(task, destination)),
            Operator::Restrict {
                source,
                destination,
                mask,
            } => done(self.restrict(task, source, destination, mask)),
            Operator::Amplify {
                control,
                source,
                destination,
            } => done(self.amplify(task, control, source, destination)),
            Operator::Create {
                destination,
                size,
                slots,
            } => done(self.create(task, destination, size, slots)),
            Operator::Typed {
                control,
                destination,
                size,
                slots,
            } => done(self.typed(task, control, destination, size, slots)),
            Operator::Refine {
                source,
                destination,
                byte,
                bytes,
                slot,
                slots,
            } => done(self.refine(task, source, destination, byte, bytes, slot, slots)),
            Operator::Read { source, offset } => filled(self.read(task, source, offset, buffer)),
            Operator::Write { source, offset } => done(self.write(task, source, offset, buffer)),
            Operator::See { source } => seen(self.see(task, source)),
            Operator::Look { source } => looked(self.look(task, source)),
            Operator::Call { argument, slots } => done(self.call(task, argument, slots)),
            Operator::Return { res } => done(self.return_result(task, res)),
        }
    }
}
