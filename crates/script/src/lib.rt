// Scripts: a list of calls, one a line, is made on a new store, and the answers are printed.
#![tactic(auto)]

mod line;
mod outcome;
mod script;
mod text;

pub use line::{Line, parse_line};
pub use script::{HEADER, LONGEST, answer_script};
pub use text::{Lines, cut, number};
