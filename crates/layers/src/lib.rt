//! Layers over banks. Each holds the bank below by value and is a bank again.
#![tactic(auto)]

mod hold;
mod join;
mod places;
mod window;

pub use hold::Hold;
pub use join::Join;
pub use places::{Kept, Places};
pub use window::Window;
