// All that a store keeps besides its bank.
ghost use Rattle.std.specs.Prelude.{◌≡◌, ℕ, List, length};
ghost use Rattle.rules.specs.State.{empty};

use crate::stack::Stack;
use crate::table::Table;

/// How many tables a store has, and tasks: table 0 is of no task, and each other table of the task
/// of its number.
pub const TABLES: usize = 9;

/// Nine tables, the open contexts of the tasks, and the seal. Each is read and changed in its
/// place; clauses see them by `state_of`, beside any bank's list.
#[derive(Clone, Copy, Debug)]
pub struct Directory {
    /// The tables, by their numbers.
    pub tables: [Table; TABLES],
    /// The open contexts of each task, by its number; those of number 0 are none.
    pub stacks: [Stack; TABLES],
    /// Whether loading has ended.
    pub sealed: bool,
    ghost nine: { length tables ≡ 9 },
    ghost each: { length stacks ≡ 9 },
}

impl Directory {
    ghost use Rattle.tables.specs.Live.{state_of};

    /// Empty tables, no open context, and no seal.
    #[tactic(auto, unfolding(rules::specs::State::empty))]
    pub fn new() -> Directory
        ensures { (l : List ℕ) → state_of result l ≡ empty l }
    {
        Directory {
            tables: [Table::new(); TABLES],
            stacks: [Stack::new(); TABLES],
            sealed: false,
        }
    }
}
