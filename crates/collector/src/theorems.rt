//! The laws of every run, each on the contract of a function, so that the check asks for its proof. They speak of any kind of atom, by the type V of its values.
ghost use Rattle.collector.specs.Laws.{EveryRunLawful, EveryStateSafe, FreeUntilTaken, RefusalsHarmless, CollectionsBrief, RunsGrow, Enough};
ghost use Rattle.collector.specs.Samples.{SampleRun};

/// Answers equal the endless heap's; every finished collection freed exactly; no starvation under the bound.
#[tactic(auto, using(crate::proofs::Laws::every_run_lawful))]
pub fn every_run_is_lawful<V>()
    ensures { EveryRunLawful V }
{}

/// After every call no reachable cell is free, the free list is one of distinct cells, and what is reachable ahead of the sweep is marked.
pub fn every_state_is_safe<V>()
    ensures { EveryStateSafe V }
{}

/// A cell is free from the making of the store, or from being freed, until it is taken; and no other cell is.
#[tactic(auto, using(crate::proofs::Laws::free_until_taken))]
pub fn cells_are_free_until_taken<V>()
    ensures { FreeUntilTaken V }
{}

/// What a refusal leaves as it was.
#[tactic(auto, using(crate::proofs::Laws::refusals_harmless))]
pub fn refusals_are_harmless<V>()
    ensures { RefusalsHarmless V }
{}

/// How many turns a collection takes at most.
#[tactic(auto, using(crate::proofs::Laws::collections_brief))]
pub fn collections_are_brief<V>()
    ensures { CollectionsBrief V }
{}

/// A run is made call by call, and the laws hold of it at every call.
pub fn runs_grow<V>()
    ensures { RunsGrow V }
{}

/// The starvation bound in figures: at most 1,000 cells reachable, twenty scans or sweeps a turn.
pub fn bound_in_figures()
    ensures meets { Enough 1000 20 20 107 1219 }
    ensures floor { Enough 1000 20 20 106 1219 → ⊥ }
    ensures cells { Enough 1000 20 20 107 1218 → ⊥ }
{}

/// A collection in a store of three cells, answer by answer.
pub fn sample_run()
    ensures { SampleRun }
{}
