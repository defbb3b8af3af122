// Lists of calls of a bank, and what becomes of a bank by them: banks that mean the same list of
// bytes cannot be told apart by calls.
#![tactic(auto)]

mod call;
mod pair;
mod request;
mod single;

pub use call::{Answer, Call, Change, Query};
pub use pair::differ;
pub use request::Request;
pub use single::{ask, change, perform};
