//! Plans: the text that a run is asked for in, read into typed lines.
#![tactic(auto)]

pub mod fault;
mod field;
pub mod line;
mod name;
pub mod reading;
mod scanner;
mod verb;

pub use fault::PlanFault;
pub use line::Line;
pub use reading::{MOST_PLAN_BYTES, Reading, read_plan};
