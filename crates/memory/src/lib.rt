//! Banks over lent memory, one cell to an element.
#![tactic(auto)]

mod element;
mod lent;
mod packing;

pub use lent::{PackedBank, RecordBank};
pub use packing::{LIMIT, pack, unpack};
