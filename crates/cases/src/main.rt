//! cases: works through the examples of the rules, and prints what each call answers and what the store then holds.
#![tactic(auto)]

mod banks;
mod layered;
mod paces;
mod pairs;
mod plans;
mod runs;
mod signals;
mod stores;
mod tables;
mod text;

use std::io;

fn main(rt: HostRuntime) -> io::Result<()> {
    refusals(&rt)?;
    examples(&rt)?;
    paced(&rt)?;
    others(&rt)
}

// Three tables, which the check takes sooner than one of three times the length.
fn examples(rt: &HostRuntime) -> io::Result<()> {
    stores::work(rt, tables::SIZES)?;
    stores::work(rt, tables::REPLACEMENTS)?;
    stores::work(rt, tables::COLLECTIONS)
}

fn refusals(rt: &HostRuntime) -> io::Result<()> {
    stores::work(rt, tables::REFUSALS)?;
    banks::work(rt)?;
    pairs::work(rt)
}

fn paced(rt: &HostRuntime) -> io::Result<()> {
    paces::work(rt)?;
    stores::work(rt, tables::PACED)
}

fn others(rt: &HostRuntime) -> io::Result<()> {
    signals::work(rt)?;
    piles(rt)?;
    plans::work(rt)?;
    runs::work(rt)
}

fn piles(rt: &HostRuntime) -> io::Result<()> {
    stores::work(rt, tables::ALONE)?;
    layered::work(rt)
}
