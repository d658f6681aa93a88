//! A sheet of zones, line by line: what a line holds, what it is answered, and the totals.
#![tactic(auto)]

mod answers;
mod line;
mod listing;
mod tally;

pub use answers::{Fault, answer};
pub use line::LineFault;
pub use listing::Listing;
pub use tally::Tally;
