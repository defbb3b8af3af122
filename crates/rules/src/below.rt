// Numbers below a limit.
ghost use Rattle.std.specs.Prelude.{◌≡◌, ◌<◌, ◌≤◌, ◌%◌, if◌then◌else◌, Some, None, nat_lt};

use std::marker::Model;

/// A number below `N`.
#[derive(Clone, Copy, Debug, PartialEq, Eq)]
pub struct Below<const N: usize> {
    number: u32,
}

impl<const N: usize> Model for Below<N> {
    ghost use Rattle.std.specs.Prelude.{ℕ, ◌<◌};

    ghost Value = { ℕ };

    ghost view = { λ b. b.number };

    ghost invariant = { λ b. b.number < N };

    ghost inverse = { λ n. record { number = n } };
}

impl Below<64> {
    pub(crate) const LAST: Below<64> = Below { number: 63 };
}

impl<const N: usize> Below<N> {
    /// The number, if it is below the limit.
    #[inline(always)]
    pub fn new(number: u32) -> Option<Below<N>>
        ensures { result ≡ (if nat_lt number N then Some number else None) }
    {
        if (number as usize) < N {
            Some(Below { number })
        } else {
            None
        }
    }

    /// A number that is known to be below the limit.
    #[inline(always)]
    pub fn known(number: u32) -> Below<N>
        requires { number < N }
        ensures { result ≡ number }
    {
        Below { number }
    }

    /// What is left of a number when it is divided by the limit.
    #[inline(always)]
    pub fn low(number: u32) -> Below<N>
        requires { 0 < N }
        ensures { result ≡ number % N }
    {
        Below {
            number: (number as usize % N) as u32,
        }
    }

    /// The same number, below a limit that is not smaller.
    pub fn widen<const M: usize>(&self) -> Below<M>
        requires { N ≤ M }
        ensures { result ≡ self.now }
    {
        Below {
            number: self.number,
        }
    }

    /// The number.
    #[inline(always)]
    pub fn get(&self) -> u32
        ensures value { result ≡ self.now }
        ensures below { result < N }
    {
        self.number // below the limit
    }

    /// The number, as an index.
    #[inline(always)]
    pub fn index(&self) -> usize
        ensures value { result ≡ self.now }
        ensures below { result < N }
    {
        self.number as usize
    }
}
