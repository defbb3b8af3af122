// Types of objects.
ghost use Rattle.std.specs.Prelude.{◌≡◌, ◌||◌, ◌==◌, if◌then◌else◌, Some, None};
ghost use Rattle.rules.specs.Loading.{user_kind};

use std::marker::Model;

/// A type of objects by its number: 0 generic, 1 context, 2 type control, 16 to 255 the users' own.
#[derive(Clone, Copy, Debug, PartialEq, Eq)]
pub struct Kind {
    number: u8,
}

impl Model for Kind {
    ghost use Rattle.std.specs.Prelude.{ℕ};

    ghost Value = { ℕ };

    ghost view = { λ k. k.number };

    ghost inverse = { λ n. record { number = n } };
}

impl Kind {
    /// The type of objects that are of none of the others.
    pub const GENERIC: Kind = Kind { number: 0 };

    /// The type of contexts.
    pub const CONTEXT: Kind = Kind { number: 1 };

    /// The type of type controls.
    pub const CONTROL: Kind = Kind { number: 2 };

    /// The number of the type.
    pub fn number(self) -> u8
        ensures { result ≡ self }
    {
        self.number
    }

    /// A type that users give, if the number is one: 16 to 255.
    pub fn of_users(number: u32) -> Option<Kind>
        ensures { result ≡ (if user_kind number then Some number else None) }
    {
        u8::try_from(number)
            .ok()
            .filter(|n| *n >= 16)
            .map(Kind::from)
    }

    /// A type that an object is placed with, if the number is one: 0, or 16 to 255.
    pub fn of_placed(number: u32) -> Option<Kind>
        ensures { result ≡ (if number == 0 || user_kind number then Some number else None) }
    {
        if number == 0 {
            Some(Kind::GENERIC)
        } else {
            Kind::of_users(number)
        }
    }
}

impl From<u8> for Kind {
    ghost use Rattle.std.specs.Prelude.{◌≡◌};

    ghost from_gives = { λ n k. k ≡ n };

    fn from(number: u8) -> Kind {
        Kind { number }
    }
}
