// The coded bank: one byte in each 16-bit word of memory, as its code word.
ghost use Rattle.hamming.specs.Code.{code_word, decoded};
ghost use Rattle.hamming.proofs.Corrects.{word_back};
ghost use Rattle.std.specs.Prelude.{◌≡◌, map};
ghost use Rattle.std.proofs.Common.{refl};

use crate::lent::{LentBank, Unit};

/// A bank that keeps each byte as a 16-bit code word. A byte is read although one bit of its word
/// has flipped.
pub type CodedBank<'a> = LentBank<'a, u16>;

impl Unit for u16 {
    ghost byte_of = { decoded };

    ghost unit_of = { code_word };

    ghost bytes_of = { map decoded };

    ghost units_of = { map code_word };

    ghost back = { word_back };

    ghost bytes_each = { λ us. refl };

    ghost units_each = { λ bs. refl };

    ghost infallible = { λ u. tt };

    ghost clones = { λ u v e. e };

    fn decode(self) -> u8 {
        hamming::decode(self)
    }

    fn encode(byte: u8) -> u16 {
        hamming::encode(byte)
    }
}
