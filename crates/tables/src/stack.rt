// The open contexts of a task.
ghost use Rattle.std.specs.Prelude.{◌≡◌, ◌<◌, ◌≤◌, [], ◌∷◌, length};
ghost use Rattle.std.specs.List.{slice_get};
ghost use Rattle.rules.specs.Effects.{popped};
ghost use Rattle.rules.specs.Operators.{calling as calling_of};
ghost use Rattle.rules.specs.Tests.{current as current_of};

use crate::padded::{Item, PaddedList};
use crate::table::ENTRIES;
use rules::Below;
use std::marker::Model;

/// How many levels a task has: its first context is of level 1, the last that it can open of level
/// 8.
pub const LEVELS: usize = 8;

impl Item for Below<ENTRIES> {
    ghost blank = { 0 };

    fn blank() -> Below<ENTRIES> {
        Below::known(0)
    }

    ghost infallible = { λ x. tt };

    ghost clones = { λ x y e. e };
}

/// The indices of a task's open contexts in its table, from level 1 on. Clauses see the current one
/// first.
#[derive(Clone, Copy, Debug)]
pub struct Stack {
    contexts: PaddedList<Below<ENTRIES>, LEVELS>,
}

impl Model for Stack {
    ghost use Rattle.std.specs.Prelude.{ℕ, List, reverse};
    ghost use Rattle.std.proofs.lemmas.List.{reverse-reverse};

    ghost Value = { List ℕ };

    ghost view = { λ k. reverse k.contexts };

    ghost inverse = { λ cs. record { contexts = reverse cs } };

    ghost inverse_ok = { λ k h i. record { contexts = reverse-reverse k.contexts i } };
}

impl Stack {
    // A stack with no context.
    pub(crate) fn new() -> Stack
        ensures { result ≡ [] }
    {
        Stack {
            contexts: PaddedList::new(),
        }
    }

    /// How many contexts are open, 0 to 8: the task's level.
    #[inline(always)]
    pub fn level(&self) -> u8
        ensures value { result ≡ length self.now }
        ensures within { result ≤ 8 }
    {
        self.contexts.len() as u8
    }

    /// The context that was opened last.
    #[inline(always)]
    pub fn current(&self) -> Option<Below<ENTRIES>>
        ensures { result ≡ current_of self.now }
    {
        self.contexts.from_end(0)
    }

    /// The context from which the current one was called.
    #[inline(always)]
    pub fn calling(&self) -> Option<Below<ENTRIES>>
        ensures { result ≡ calling_of self.now }
    {
        self.contexts.from_end(1)
    }

    /// An open context by its number: 0 is the current one, and each further number the one from
    /// which that of the number before was called.
    #[inline(always)]
    pub fn get(&self, number: usize) -> Option<Below<ENTRIES>>
        ensures { result ≡ slice_get self.now number }
    {
        self.contexts.from_end(number)
    }

    /// Opens a context, for which there must be a level.
    #[inline(always)]
    pub fn push(&mut self, index: Below<ENTRIES>)
        requires { length self.old < 8 }
        ensures { self.new ≡ index ∷ self.old }
    {
        self.contexts.push(index);
    }

    /// Closes the current context, if one is open.
    #[inline(always)]
    pub fn pop(&mut self)
        ensures { self.new ≡ popped self.old }
    {
        self.contexts.pop();
    }
}
