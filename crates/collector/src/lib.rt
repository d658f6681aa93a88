//! A list store and its collector, as definitions with laws over every run of them; no call runs here.
#![tactic(auto)]

mod theorems;

pub use theorems::{
    bound_in_figures, collections_are_brief, every_run_is_lawful, every_state_is_safe,
    refusals_are_harmless, runs_grow, sample_run,
};
