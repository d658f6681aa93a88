//! Pacing: when a collection begins, and how much each of its turns does.
#![tactic(auto)]

pub mod effort;
pub mod fault;
pub mod floor;
pub mod paced;
pub mod rule;
