use bank::{Bank, Cell};
use chains::{ZonePair, read_chain, write_chain};
use layers::{Hold, Join, Window};
use memory::{PackedBank, RecordBank};
use std::alloc::{AllocError, Global};

// Works over the two memories, in a window of their join.
pub fn run(rt: &HostRuntime, packed: &mut [u64], records: &mut [Cell]) -> anyhow::Result<()> {
    let join = Join::new(PackedBank::new(packed), RecordBank::new(records));
    work(rt, Window::new(join, 1, 9))
}

// Writes the chains into a hold over the bank, settles, and prints them as they are read back.
fn work<B: Bank + Drop>(rt: &HostRuntime, below: B) -> anyhow::Result<()> {
    let mut bank = Hold::new(below);
    let starts = write_lines(rt, &mut bank)?;
    bank.settle();
    for start in starts.iter() {
        print_chain(rt, &bank, *start)?;
    }
    Ok(())
}

// Writes each line of the input but blank ones as a chain; where the chains begin.
fn write_lines<B: Bank>(rt: &HostRuntime, bank: &mut B) -> anyhow::Result<Vec<u32>> {
    let mut starts = Vec::new(rt.alloc());
    let mut next = 0;
    for line in rt.lines(rt.alloc()) {
        let line = line?;
        if line.trim().is_empty() {
            continue;
        }
        let Some(codes) = chain_codes(rt.alloc(), line.as_str())? else {
            println!(rt; "not a chain: {line}")?;
            continue;
        };
        match write_chain(bank, next, codes.as_slice()) {
            Ok(end) => {
                starts.push(next)?;
                next = end;
            }
            Err(fault) => {
                let number = fault.number();
                println!(rt; "refused {number}: {fault}")?;
            }
        }
    }
    Ok(starts)
}

// Prints the chain that begins in cell `start`.
fn print_chain<B: Bank>(rt: &HostRuntime, bank: &B, start: u32) -> anyhow::Result<()> {
    let codes = read_chain(rt.alloc(), bank, start)?;
    print!(rt; "chain at {start}:")?;
    for code in codes.iter() {
        let zone = ZonePair::from(*code);
        print!(rt; " {zone}")?;
    }
    println!(rt; "")?;
    Ok(())
}

// The codes of a line's zones, or none where a word of it is no zone.
fn chain_codes(heap: Global, line: &str) -> Result<Option<Vec<u32>>, AllocError> {
    let mut codes = Vec::new(heap);
    for zone in line.split_whitespace() {
        let Ok(pair) = zone.parse::<ZonePair>() else {
            return Ok(None);
        };
        codes.push(pair.into())?;
    }
    Ok(Some(codes))
}
