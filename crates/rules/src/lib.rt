// The vocabulary of the store: entries, descriptors, faults, calls. The definition of every call is
// in specs/.
#![tactic(auto)]

mod below;
mod call;
mod descriptor;
mod entry;
mod fault;
mod kind;
mod rights;
mod selector;
mod shown;

pub use below::Below;
pub use call::{Answer, Call, Load, Operator};
pub use descriptor::{Descriptor, is_valid};
pub use entry::{Entry, Refinement, Storage, TypeControl};
pub use fault::{Fault, Layer, Reason};
pub use kind::Kind;
pub use rights::{Right, Rights};
pub use selector::{slot, slot_of};
pub use shown::{Place, Shown};
