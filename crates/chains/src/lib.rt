//! Chains of track zones in a bank: the text of a zone, and the cells of a chain.
#![tactic(auto)]

mod chain;
mod pair;

pub use chain::{read_chain, write_chain};
pub use pair::{NotAPair, ZonePair};
