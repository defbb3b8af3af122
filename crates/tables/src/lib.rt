// The tables of a store, the open contexts of its tasks, and its seal.
#![tactic(auto)]

mod bounded;
mod directory;
mod padded;
mod stack;
mod table;

pub use bounded::BoundedList;
pub use directory::{Directory, TABLES};
pub use padded::{Item, PaddedList};
pub use stack::{LEVELS, Stack};
pub use table::{BLOCK, ENTRIES, Table};
