// Rights, and sets of them.
ghost use Rattle.std.specs.Prelude.{◌≡◌, ◌<◌, ◌%◌, if◌then◌else◌, Some, None, nat_le};
ghost use Rattle.rules.specs.Code.{weight};
ghost use Rattle.rules.specs.State.{has};

use crate::below::Below;
use std::marker::Model;
use std::ops::{BitAnd, BitOr};

/// A right that a descriptor can give, with the number that stands for it.
#[derive(Clone, Copy, Debug, PartialEq, Eq)]
pub enum Right {
    /// To read data bytes, and descriptors in slots.
    Read = 1,
    /// To write data bytes, and descriptors into slots.
    Write = 2,
    /// Of a type control, to make objects of its type.
    Type1 = 4,
    /// Of a type control, to add rights to descriptors of its type.
    Type2 = 8,
    /// Free for users.
    Type3 = 16,
    /// To overwrite the slot that holds the descriptor.
    Delete = 32,
}

impl Right {
    // The number that stands for a right.
    fn weight(self) -> u8
        ensures value { result ≡ weight self }
        ensures positive { 0 < result }
    {
        self as u8
    }

    /// Whether this right is among the rights that a number stands for.
    pub fn is_in(self, rights: u8) -> bool
        ensures { result ≡ has (weight self) rights }
    {
        rights / self.weight() % 2 == 1
    }
}

/// A set of rights, as the sum of the numbers that stand for them, 0 to 63.
#[derive(Clone, Copy, Debug, PartialEq, Eq)]
pub struct Rights {
    sum: Below<64>,
}

impl Model for Rights {
    ghost use Rattle.std.specs.Prelude.{ℕ};

    ghost Value = { ℕ };

    ghost view = { λ r. r.sum };

    ghost inverse = { λ n. record { sum = n } };
}

impl Rights {
    /// All six rights.
    pub const ALL: Rights = Rights {
        sum: Below::<64>::LAST,
    };

    /// The rights of a sum, if it is at most 63.
    pub fn new(sum: u32) -> Option<Rights>
        ensures { result ≡ (if nat_le sum 63 then Some sum else None) }
    {
        Some(Rights {
            sum: Below::new(sum)?,
        })
    }

    /// The rights that the six lowest bits of a number stand for.
    pub fn low(number: u32) -> Rights
        ensures { result ≡ number % 64 }
    {
        Rights {
            sum: Below::low(number),
        }
    }

    /// The sum of the numbers of the rights.
    pub fn sum(self) -> u8
        ensures value { result ≡ self }
        ensures below { result < 64 }
    {
        self.sum.get() as u8
    }

    /// Whether a right is in the set.
    pub fn contains(self, right: Right) -> bool
        ensures { result ≡ has (weight right) self }
    {
        right.is_in(self.sum())
    }
}

/// The rights in both sets.
impl BitAnd for Rights {
    ghost use Rattle.std.specs.Prelude.{◌≡◌, bit_and};

    type Output = Rights;

    ghost bitand_gives = { λ a b both. both ≡ bit_and a b };

    fn bitand(self, other: Rights) -> Rights {
        Rights {
            sum: Below::low(self.sum.get() & other.sum.get()),
        }
    }
}

/// The rights in one set or the other.
impl BitOr for Rights {
    ghost use Rattle.std.specs.Prelude.{◌≡◌, bit_or};

    type Output = Rights;

    ghost bitor_gives = { λ a b either. either ≡ bit_or a b };

    #[tactic(auto, using(crate::proofs::Unions::or_of_rights))]
    fn bitor(self, other: Rights) -> Rights {
        Rights {
            sum: Below::low(self.sum.get() | other.sum.get()),
        }
    }
}
