// The calls of a list with the bytes beside them, and their outcomes.
use rules::{Answer, Call, Fault};

/// A call of a list, and the bytes beside it: what `Fill` and `Write` write, what the buffer of
/// `Read` holds beforehand. Other calls do not look at them.
#[derive(Clone, Copy, Debug)]
pub struct Request<'a> {
    /// The call.
    pub call: Call,
    /// The bytes beside it.
    pub bytes: &'a [u8],
}

/// The outcome of a call of a list.
#[derive(Drop, Debug, PartialEq, Eq)]
pub struct Outcome {
    /// What it answers, or why it was refused.
    pub answer: Result<Answer, Fault>,
    /// The bytes beside the call, as it leaves them: `Read` fills them, any other call leaves them
    /// as they were.
    pub buffer: Vec<u8>,
}
