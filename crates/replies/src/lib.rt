//! What a plan's lines ask of a store, and what is written of its answers.
#![tactic(auto)]

mod call;
mod fault;
mod opening;
mod reply;
mod serving;
mod session;
mod text;

pub use call::call_of;
pub use fault::LineFault;
pub use reply::Reply;
pub use session::answer_plan;
