// The promise that tasks gain nothing of what stands in a sealed store, on the call that makes a
// list of calls; and that a separate task cannot tell two stores apart, on the call that compares
// what it sees in two stores.
#![tactic(auto)]

mod list;
mod watch;

pub use list::run;
pub use watch::{outcomes_of, sees_difference};
