//! What the calls of a list store take and give, and why one is refused.
#![tactic(auto)]

mod call;
mod fault;
mod phase;

pub use call::{Answer, Call, Outcome, Seen};
pub use fault::StoreFault;
pub use phase::Phase;
