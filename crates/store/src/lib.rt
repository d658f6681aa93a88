//! A store of Lisp cells over any bank, kind of atom and start rule, collected in small turns.
#![tactic(auto)]

mod half;
mod heap;
mod link;
mod list_store;
mod pool;
mod registers;
mod runs;
mod store;
mod waiting;

pub use list_store::ListStore;
pub use runs::{Run, RunFault, go_on, run};
pub use store::Store;
