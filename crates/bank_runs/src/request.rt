// The calls of a list with the bytes beside them.
use crate::call::Call;

/// A call of a list, and the bytes beside it: what `WriteRun` writes, what the buffer of `ReadRun`
/// holds beforehand. Other calls do not look at them.
#[derive(Clone, Copy, Debug)]
pub struct Request<'a> {
    /// The call.
    pub call: Call,
    /// The bytes beside it.
    pub bytes: &'a [u8],
}
