//! Worked examples of the rules of the store and of the Hamming code: the numbers that they come
//! to, proved of the definitions.
#![tactic(auto)]

ghost use Rattle.examples.specs.Examples.{Examples};
ghost use Rattle.std.specs.Prelude.{ℕ, ◌≤◌, List, length};

/// The numbers that a fault carries.
#[derive(Clone, Copy, Debug, PartialEq, Eq)]
pub struct Refusal {
    /// The number of its reason, from 1 on.
    pub number: u8,
    /// The letter of its layer, as its ASCII code.
    pub letter: u8,
    /// The task that made the call.
    pub task: u32,
    /// The place of the operand among the call's, counted from 1 on, or 0 for none.
    pub place: u8,
    /// The selector of that operand, or 0.
    pub selector: u16,
}

/// The numbers of the examples. All but the code words and the corrected bytes are of a store on
/// which seven calls were made: task 1 is loaded with four slots, an object of two data bytes is
/// placed in its table and granted to it in slot 0 with rights 3, loading is sealed, 7 is written
/// into the second byte and read back, and a byte behind the object is asked for.
#[derive(Clone, Copy, Debug, PartialEq, Eq)]
pub struct Worked {
    /// The index of the task's first context.
    pub context_index: u32,
    /// The index of the object.
    pub object_index: u32,
    /// The byte that is read back.
    pub byte_read: u8,
    /// The word that the grant writes.
    pub granted_word: u32,
    /// The bytes of that word from the lowest address on.
    pub granted_bytes: [u8; 4],
    /// The code words of the bytes 0x01, 0x80 and 0xff.
    pub code_words: [u16; 3],
    /// The bytes that the words 0x006 and 0x801 read as.
    pub corrected: [u8; 2],
    /// The last offset at which the object can be read: no bytes, at its end.
    pub last_offset: u32,
    /// The most data bytes that the task can create next.
    pub largest_creation: u32,
    /// Granted with rights 35, which have delete: the index of the context that the task's next
    /// call opens, and again of the object that it creates once that call has returned.
    pub reused_index: u32,
    /// The fault of a read past the end.
    pub past_the_end: Refusal,
    /// The fault of a creation that is too large.
    pub no_room: Refusal,
    /// The fault of emptying slot 0, whose descriptor has no delete right.
    pub not_deletable: Refusal,
    /// The fault of a selector in an environment that is null.
    pub null_environment: Refusal,
}

/// The examples hold over a bank of any bytes, if they are enough for a store.
pub fn worked_examples() -> Worked
    ensures { (l : List ℕ) → 18432 ≤ length l → Examples result l }
{
    Worked {
        context_index: 0,
        object_index: 1,
        byte_read: 7,
        granted_word: 0x07001001,
        granted_bytes: [0x01, 0x10, 0x00, 0x07],
        code_words: [0x007, 0x888, 0xf77],
        corrected: [0x01, 0x80],
        last_offset: 2,
        largest_creation: 2030,
        reused_index: 2,
        past_the_end: Refusal {
            number: 12,
            letter: b'D',
            task: 1,
            place: 0,
            selector: 0,
        },
        no_room: Refusal {
            number: 14,
            letter: b'D',
            task: 1,
            place: 0,
            selector: 0,
        },
        not_deletable: Refusal {
            number: 11,
            letter: b'C',
            task: 1,
            place: 1,
            selector: 0,
        },
        null_environment: Refusal {
            number: 5,
            letter: b'B',
            task: 1,
            place: 1,
            selector: 5,
        },
    }
}
