// What a mission script makes of a store: which lines are refused, which tasks are separate, what
// stands in the way of the others and how it is reached, told as text or drawn as a graph.
#![tactic(auto)]

mod chain;
mod drawing;
mod flaw;
mod prose;
mod reading;
mod tasks;
mod words;

pub use chain::{Link, Step, chains};
pub use drawing::graph;
pub use flaw::Flaw;
pub use prose::report;
pub use reading::{Making, Notes, Refusal, Why, read};
pub use tasks::{Obstacle, Standing, standings};
