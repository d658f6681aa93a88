//! Lists of calls made by `run`: their outcomes, and what the store then holds.
use crate::stores::show;
use crate::tables::Ask;
use crate::text::{AskText, Place, WordText, calls_of, effort, unasked};
use atoms::Zone;
use atoms::zones::Zones;
use bank::Bank;
use listcalls::{Call, Outcome};
use memory::PackedBank;
use pacing::effort::Effort;
use pacing::floor::FloorRule;
use replies::Reply;
use std::alloc::AllocError;
use std::io;
use store::{ListStore, run};

const COLLECTING: &[Ask] = &[
    Ask::Load(1, 120, 80),
    Ask::Cons(0, 1, 2),
    Ask::Cons(0, 1, 2),
    Ask::Cons(3, 0, 0),
    Ask::Cons(4, 0, 0),
    Ask::Cons(4, 0, 0),
    Ask::Look(1),
    Ask::Car(5, 4),
    Ask::Same(5, 0),
    Ask::Car(5, 1),
    Ask::Clear(16),
];

const EVERY_CALL: &[Ask] = &[
    Ask::Load(1, 4095, 1),
    Ask::Load(2, 4096, 1),
    Ask::Load(16, 4096, 1),
    Ask::Cons(0, 1, 2),
    Ask::Copy(3, 0),
    Ask::Same(3, 0),
    Ask::Rplaca(0, 2),
    Ask::Rplacd(0, 1),
    Ask::Car(4, 3),
    Ask::Look(4),
    Ask::Cdr(5, 3),
    Ask::Look(5),
    Ask::Look(3),
    Ask::Cons(15, 0, 3),
    Ask::Cons(4, 15, 4),
    Ask::Clear(3),
    Ask::Cons(5, 0, 0),
    Ask::Car(5, 2),
    Ask::Look(16),
];

// A title, a floor and the calls.
const RUNS: &[(&str, u32, &[Ask])] = &[
    ("runs: no call", 1, &[]),
    ("runs: a collection that finds a cell", 1, COLLECTING),
    ("runs: every call, and each refusal", 0, EVERY_CALL),
];

// The registers whose words are printed.
const REGISTERS: &[u32] = &[0, 1, 2, 3, 4, 5, 15];

pub fn work(rt: &HostRuntime) -> io::Result<()> {
    for (title, floor, asks) in RUNS {
        println!(rt; "{title}")?;
        made(rt, PackedBank::new(&mut [0_u64; 3]), *floor, asks)?;
    }
    Ok(())
}

fn made<B: Bank + Drop>(rt: &HostRuntime, bank: B, floor: u32, asks: &[Ask]) -> io::Result<()> {
    let calls = calls_of(rt.alloc(), asks)?;
    let effort = effort(1, 1)?;
    made_by(
        rt,
        bank,
        FloorRule::new(floor),
        effort,
        asks,
        calls.as_slice(),
    )
}

fn made_by<B: Bank + Drop>(
    rt: &HostRuntime,
    bank: B,
    rule: FloorRule,
    effort: Effort,
    asks: &[Ask],
    calls: &[Call<Zone>],
) -> io::Result<()> {
    match run(rt.alloc(), bank, Zones, rule, effort, calls) {
        Ok((outcomes, store)) => print_run(rt, asks, outcomes.as_slice(), &store),
        Err(fault) => Err(AllocError::from(fault).into()),
    }
}

fn print_run<S: ListStore>(
    rt: &HostRuntime,
    asks: &[Ask],
    outcomes: &[Outcome<Zone>],
    store: &S,
) -> io::Result<()> {
    print_outcomes(rt, asks, outcomes)?;
    println!(rt; "  then: {}", Place::of(store))?;
    print_registers(rt, store)?;
    show(rt, store, &[0, 1, 2])
}

fn print_registers<S: ListStore>(rt: &HostRuntime, store: &S) -> io::Result<()> {
    for r in REGISTERS {
        print_register(rt, store, *r)?;
    }
    Ok(())
}

fn print_outcomes(rt: &HostRuntime, asks: &[Ask], outcomes: &[Outcome<Zone>]) -> io::Result<()> {
    for (ask, outcome) in asks.iter().zip(outcomes) {
        println!(rt; "  {}: {}", AskText(*ask), Reply::from(outcome))?;
    }
    Ok(())
}

fn print_register<S: ListStore>(rt: &HostRuntime, store: &S, r: u32) -> io::Result<()> {
    match store.register(r) {
        Ok(word) => println!(rt; "  register {r}: {}", WordText(word)),
        Err(_) => Err(unasked()),
    }
}
