//! zoneplan: reads a plan from standard input and prints the answers to its lines.
#![tactic(auto)]

use plan::MOST_PLAN_BYTES;
use replies::answer_plan;
use std::io::{Read, Write};

fn main(rt: HostRuntime) -> anyhow::Result<()> {
    run(&rt)
}

fn run(rt: &HostRuntime) -> anyhow::Result<()> {
    let heap = rt.alloc();
    // One byte past the limit tells that a plan is too long.
    let most = MOST_PLAN_BYTES + 1;
    let mut bytes = Vec::with_capacity(heap, most)?;
    rt.stdin().take(most as u64).read_to_end(&mut bytes)?;
    let text = answer_plan(heap, bytes.as_slice())?;
    rt.stdout().write_all(text.as_bytes())?;
    Ok(())
}
