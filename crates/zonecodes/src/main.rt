//! zonecodes: reads zones as lines "offset length", and prints for each its code, the positions that it covers and what
//! the code reads back as, or how it is refused; then the totals.
#![tactic(auto)]

use std::io::{BufRead, BufReader};
use std::{io, iter};
use zonesheet::{LineFault, Tally, answer};

fn main(rt: HostRuntime) -> anyhow::Result<()> {
    run(&rt)
}

fn run(rt: &HostRuntime) -> anyhow::Result<()> {
    let mut tally = Tally::new();
    // A number that is full stays full, where a range would end.
    let numbers = iter::successors(Some(1_u64), |n| Some(n.saturating_add(1)));
    let lines = BufReader::new(rt.alloc(), rt.stdin())?.lines(rt.alloc());
    for (number, line) in numbers.zip(lines) {
        let answer = match line {
            Ok(text) => {
                let text = text.as_str().trim();
                // A blank line parts the zones of a sheet, and has no answer.
                if text.is_empty() {
                    continue;
                }
                answer(text)
            }
            Err(error) if error.kind() == io::ErrorKind::InvalidData => Err(
                LineFault::NotText.into(),
            ),
            Err(error) => return Err(error.into()),
        };
        tally.count(&answer);
        match answer {
            Ok(listing) => println!(rt; "line {number}: {listing}")?,
            Err(fault) => println!(rt; "line {number}: {fault}")?,
        }
    }
    println!(rt; "total: {tally}")?;
    Ok(())
}
