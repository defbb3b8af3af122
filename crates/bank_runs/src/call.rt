// The calls of a bank with their numbers, and what they answer. The bytes of a call stand beside
// it: what `WriteRun` writes, and the buffer that `ReadRun` fills.

/// A call that only reads.
#[derive(Clone, Copy, Debug, PartialEq, Eq)]
pub enum Query {
    /// Tells the size of the bank.
    Size,
    /// Reads the byte at `address`.
    Read { address: u32 },
    /// Fills the buffer beside the call with the bytes from `address` on.
    ReadRun { address: u32 },
    /// Reads the word of the four bytes from `address` on.
    ReadWord { address: u32 },
}

/// A call that writes.
#[derive(Clone, Copy, Debug, PartialEq, Eq)]
pub enum Change {
    /// Replaces the byte at `address`.
    Write { address: u32, byte: u8 },
    /// Writes the bytes beside the call from `address` on.
    WriteRun { address: u32 },
    /// Writes `count` zeros from `address` on.
    ClearRun { address: u32, count: u32 },
    /// Writes the four bytes of `word` from `address` on.
    WriteWord { address: u32, word: u32 },
}

/// A call of a bank. Each takes any numbers; at and beyond the size every byte reads as 0, and
/// nothing is written.
#[derive(Clone, Copy, Debug, PartialEq, Eq)]
pub enum Call {
    /// A call that only reads.
    Query(Query),
    /// A call that writes.
    Change(Change),
}

/// What a call answers.
#[derive(Clone, Copy, Debug, PartialEq, Eq)]
pub enum Answer {
    /// A call that writes: it is done.
    Done,
    /// `Size`: the size.
    Size(u32),
    /// `Read`: the byte.
    Byte(u8),
    /// `ReadRun`: the buffer has been filled.
    Filled,
    /// `ReadWord`: the word.
    Word(u32),
}
