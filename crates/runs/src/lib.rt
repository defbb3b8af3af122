// Lists of calls, and what becomes of a store by them.
#![tactic(auto)]

mod list;
mod request;

pub use list::run;
pub use request::{Outcome, Request};
