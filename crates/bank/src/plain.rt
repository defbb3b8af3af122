// The plain bank: one byte in each byte of memory.
ghost use Rattle.std.specs.Prelude.{◌≡◌};
ghost use Rattle.std.proofs.Common.{refl, sym};
ghost use Rattle.std.proofs.lemmas.List.{map-id};

use crate::lent::{LentBank, Unit};

/// A bank that keeps each byte as it is.
pub type PlainBank<'a> = LentBank<'a, u8>;

impl Unit for u8 {
    ghost byte_of = { λ u. u };

    ghost unit_of = { λ b. b };

    ghost bytes_of = { λ us. us };

    ghost units_of = { λ bs. bs };

    ghost back = { λ b h. refl };

    ghost bytes_each = { λ us. sym (map-id us) };

    ghost units_each = { λ bs. sym (map-id bs) };

    ghost infallible = { λ u. tt };

    ghost clones = { λ u v e. e };

    fn decode(self) -> u8 {
        self
    }

    fn encode(byte: u8) -> u8 {
        byte
    }

    fn decode_run(units: &[u8], out: &mut [u8]) {
        out.copy_from_slice(units);
    }

    fn encode_run(units: &mut [u8], source: &[u8]) {
        units.copy_from_slice(source);
    }
}
