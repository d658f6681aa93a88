//! Atoms: values that a cell or a register holds as codes, and the kinds that code them.
#![tactic(auto)]

pub mod aspect;
pub mod aspects;
mod byte;
pub mod fault;
pub mod kind;
pub mod zone;
pub mod zones;

pub use kind::Kind;
pub use zone::Zone;
