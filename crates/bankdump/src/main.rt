//! Writes chains of track zones into a pile of banks, reads them back, and shows the packed memory.
//! Each line of the input is a chain of zones, and a zone is its offset, a plus sign and its length.
#![tactic(auto)]

mod script;

use bank::Cell;

fn main(rt: HostRuntime) -> anyhow::Result<()> {
    let mut packed = [0u64; 6];
    let mut records = [Cell::BLANK; 6];
    script::run(&rt, &mut packed, &mut records)?;
    for (i, bits) in packed.iter().enumerate() {
        println!(rt; "{i} {bits:016x}")?;
    }
    Ok(())
}
