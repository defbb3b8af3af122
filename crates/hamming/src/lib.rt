//! The Hamming code of the coded bank: a byte in positions 1 to 12 of a 16-bit word, where position k
//! is bit k - 1. Any one of the word's bits may flip, and the byte is still read.
//!
//! ```text
//! let word = hamming::encode(0x80); // 0x888
//! hamming::decode(word ^ 0x800) // 0x80
//! ```
#![tactic(auto)]

ghost use Rattle.std.specs.Prelude.{◌≡◌, ℕ, ◌%◌, ◌==◌, ◌≤◌, true};
ghost use Rattle.hamming.specs.Code.{code_word, codes, decoded, every, turned};

mod decoded;
mod table;

// The code words of the bytes 0 to 255, in order.
fn code_words() -> &'static [u16; 256]
    ensures { every codes 0 result.now ≡ true }
{
    &table::CODE
}

// The bytes that the words 0 to 4,095 read as, in order.
#[tactic(auto, unfolding(crate::specs::Code::data_bits, crate::specs::Code::syndrome))]
fn decoded_bytes() -> &'static [u8; 4096]
    ensures { every (λ w b. decoded w == b) 0 result.now ≡ true }
{
    &decoded::DECODED
}

/// The code word of a byte. The byte comes back from it, and from it with any one bit flipped: at
/// positions 1 to 12, which are corrected, or at 13 to 16, which are ignored.
#[inline(always)]
pub fn encode(byte: u8) -> u16
    ensures value { result ≡ code_word byte }
    ensures rule { codes byte result ≡ true }
    ensures back { decoded result ≡ byte }
    ensures upset { (k : ℕ) → 1 ≤ k → k ≤ 16 → decoded (turned result k) ≡ byte }
{
    code_words()[byte as usize]
}

/// The byte that a word reads as, by its low twelve bits.
#[inline(always)]
#[tactic(auto, using(crate::proofs::Corrects::looked_up))]
pub fn decode(word: u16) -> u8
    ensures value { result ≡ decoded word }
    ensures high { (w : ℕ) → w % 4096 ≡ word % 4096 → decoded w ≡ result }
{
    decoded_bytes()[(word % 4096) as usize]
}
