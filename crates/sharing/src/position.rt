// Where entries can stand.
ghost use Rattle.std.specs.Prelude.{◌≡◌, ◌+◌, ◌*◌, ◌<◌, ◌/◌, ◌%◌};

use std::marker::Model;
use tables::{ENTRIES, Item, TABLES};

// How many entries the tables can have together.
pub(crate) const PLACES: usize = TABLES * ENTRIES;

// A place for an entry. They are numbered table by table, 64 in each.
#[derive(Clone, Copy, Debug, PartialEq, Eq)]
pub(crate) struct Position {
    number: u16,
}

impl Model for Position {
    ghost use Rattle.std.specs.Prelude.{ℕ, ◌<◌};

    ghost Value = { ℕ };

    ghost view = { λ p. p.number };

    ghost invariant = { λ p. p.number < 576 };

    ghost inverse = { λ n. record { number = n } };
}

impl Item for Position {
    ghost blank = { 0 };

    fn blank() -> Position {
        Position { number: 0 }
    }

    ghost infallible = { λ x. tt };

    ghost clones = { λ x y e. e };
}

impl Position {
    // The place of an index in a table.
    #[inline(always)]
    pub(crate) fn of(table: u32, index: u32) -> Position
        requires { (table < 9) × (index < 64) }
        ensures { result ≡ 64 * table + index }
    {
        Position {
            number: (64 * table + index) as u16,
        }
    }

    // The place of a number below `PLACES`.
    #[inline(always)]
    pub(crate) fn numbered(number: usize) -> Position
        requires { number < 576 }
        ensures { result ≡ number }
    {
        Position {
            number: number as u16,
        }
    }

    #[inline(always)]
    pub(crate) fn number(self) -> usize
        ensures value { result ≡ self }
        ensures below { result < 576 }
    {
        self.number as usize
    }

    #[inline(always)]
    pub(crate) fn table(self) -> u32
        ensures { result ≡ self / 64 }
    {
        self.number as u32 / 64
    }

    #[inline(always)]
    pub(crate) fn index(self) -> u32
        ensures { result ≡ self % 64 }
    {
        self.number as u32 % 64
    }
}
