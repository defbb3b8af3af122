// What tasks of a store share: what a set of tasks obtains, reaches and can alter, and whether a
// task is separate from the others. Both are questions that only read.
//
//     // after `store.seal()`
//     if separate(&store, 1)? {
//         // whatever the others call from now on, task 1 sees none of it
//     }
#![tactic(auto)]

mod gathering;
mod position;
mod question;
mod reach;
mod side;
mod types;
mod watching;

pub use question::separate;
pub use reach::Reach;
pub use side::Side;
pub use watching::{Watched, watch};
