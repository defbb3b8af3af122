//! A bank over memory in two chips: the bytes of even addresses stand in the first, those of odd
//! ones in the second.
//!
//! ```text
//! let (mut first, mut second) = ([0u8; 9216], [0u8; 9216]);
//! let mut bank = TwoChipBank::new(&mut first, &mut second);
//! bank.write_word(2048, 7); // two bytes in each chip, from place 1,024 on
//! ```
#![tactic(auto)]

mod chips;
mod pairs;

pub use chips::TwoChipBank;
