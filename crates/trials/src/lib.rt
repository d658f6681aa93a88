//! Tests of the banks, the layers and a store over them through their public items, in a crate of their own: a crate with tests is
//! proved twice.
#![tactic(auto)]

#[cfg(test)]
mod banks;
#[cfg(test)]
mod stores;
