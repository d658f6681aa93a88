//! A bank of cells: what a word, a cell and a refusal are, and the interface that every memory and every layer implements.
#![tactic(auto)]

mod bank;
mod fault;
mod word;

pub use bank::Bank;
pub use fault::BankFault;
pub use word::{Cell, Change, Word};

/// The most cells that a bank has.
pub const MOST_CELLS: u32 = 4096;
