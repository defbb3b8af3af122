// Descriptors, and the words that they are kept as.
ghost use Rattle.std.specs.Prelude.{◌≡◌};
ghost use Rattle.rules.specs.State.{valid};

use crate::below::Below;
use crate::rights::Rights;

/// A descriptor: the entry that it names, and the rights that it gives.
#[derive(Clone, Copy, Debug, PartialEq, Eq)]
pub struct Descriptor {
    /// The number of the entry's table.
    pub table: Below<4096>,
    /// The index of the entry there.
    pub index: Below<4096>,
    /// The rights.
    pub rights: Rights,
}

/// The word of a descriptor.
impl From<Descriptor> for u32 {
    ghost use Rattle.std.specs.Prelude.{◌≡◌};
    ghost use Rattle.rules.specs.State.{encode};

    ghost from_gives = { λ d word. word ≡ encode d };

    #[tactic(auto, unfolding(crate::specs::State::encode))]
    fn from(d: Descriptor) -> u32 {
        let rights = d.rights.sum() as u32;
        d.index.get() + d.table.get() * 4096 + 16777216 + rights * 33554432
    }
}

/// The descriptor whose parts stand in a word, of every word: `is_valid` tells whether it counts.
impl From<u32> for Descriptor {
    ghost use Rattle.std.specs.Prelude.{◌≡◌};
    ghost use Rattle.rules.specs.State.{decode};

    ghost from_gives = { λ word d. d ≡ decode word };

    #[tactic(auto, unfolding(crate::specs::State::decode))]
    fn from(word: u32) -> Descriptor {
        Descriptor {
            table: Below::low(word / 4096),
            index: Below::low(word),
            rights: Rights::low(word / 33554432),
        }
    }
}

/// Whether a word has the valid bit (24) and not bit 31; without them it counts as null.
#[tactic(auto, unfolding(crate::specs::State::valid))]
pub fn is_valid(word: u32) -> bool
    ensures { result ≡ valid word }
{
    word / 16777216 % 2 == 1 && word / 2147483648 % 2 == 0
}
