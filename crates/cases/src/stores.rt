//! Works through the tables of stores: calls made one by one, and what the store then holds.
use crate::tables::{Ask, Example, Memory, Rule, Step};
use crate::text::{AskText, CellText, Place, call_of, effort};
use atoms::Zone;
use atoms::zones::Zones;
use bank::{Bank, BankFault, Cell, MOST_CELLS};
use listcalls::Call;
use memory::{PackedBank, RecordBank};
use pacing::floor::FloorRule;
use pacing::paced::PacedRule;
use pacing::rule::StartRule;
use replies::Reply;
use std::io;
use store::{ListStore, Store};

pub fn work(rt: &HostRuntime, examples: &[Example]) -> io::Result<()> {
    for example in examples {
        one(rt, *example)?;
    }
    Ok(())
}

fn one(rt: &HostRuntime, example: Example) -> io::Result<()> {
    println!(rt; "{}", example.title)?;
    match example.memory {
        Memory::Packed(cells) => packed(rt, cells, example),
        Memory::Record(cells) => record(rt, cells, example),
    }
}

fn packed(rt: &HostRuntime, cells: usize, example: Example) -> io::Result<()> {
    let mut words = vec![in rt.alloc(); 7_u64; cells]?;
    over(rt, PackedBank::new(words.as_mut_slice()), example)?;
    past(rt, words.as_slice())
}

// The element of the memory past the last cell that a bank may have.
fn past(rt: &HostRuntime, words: &[u64]) -> io::Result<()> {
    match words.get(MOST_CELLS as usize) {
        Some(word) => println!(rt; "  the element past the last cell: {word}"),
        None => Ok(()),
    }
}

fn record(rt: &HostRuntime, cells: usize, example: Example) -> io::Result<()> {
    let mut cells = vec![in rt.alloc(); Cell::BLANK; cells]?;
    over(rt, RecordBank::new(cells.as_mut_slice()), example)
}

fn over<B: Bank + Drop>(rt: &HostRuntime, bank: B, example: Example) -> io::Result<()> {
    let Example { effort, steps, .. } = example;
    match example.rule {
        Rule::Floor(floor) => under(rt, bank, FloorRule::new(floor), effort, steps),
        Rule::Paced(floor, pace) => under(rt, bank, PacedRule::new(floor, pace), effort, steps),
    }
}

// Works through steps on a store over a bank, under a start rule and with an effort.
pub fn under<B: Bank + Drop, R: StartRule + Drop>(
    rt: &HostRuntime,
    bank: B,
    rule: R,
    (k1, k2): (u32, u32),
    steps: &[Step],
) -> io::Result<()> {
    let effort = effort(k1, k2)?;
    steps_on(rt, &mut Store::new(bank, Zones, rule, effort), steps)
}

fn steps_on<S: ListStore<Value = Zone>>(
    rt: &HostRuntime,
    store: &mut S,
    steps: &[Step],
) -> io::Result<()> {
    for step in steps {
        step_on(rt, store, *step)?;
    }
    Ok(())
}

fn step_on<S: ListStore<Value = Zone>>(
    rt: &HostRuntime,
    store: &mut S,
    step: Step,
) -> io::Result<()> {
    match step {
        Step::Make(asks) => make(rt, store, asks),
        Step::Repeat(times, ask) => repeat(rt, store, times, ask),
        Step::Count(times, ask) => count(rt, store, times, ask),
        Step::Turns(times, ask, size) => turns(rt, store, times, ask, size),
        Step::Show(cells) => show(rt, store, cells),
    }
}

// Makes a call, and prints its answer and where the collector then stands.
fn make_one<S: ListStore<Value = Zone>>(
    rt: &HostRuntime,
    store: &mut S,
    ask: Ask,
) -> io::Result<()> {
    let reply = Reply::from(&store.apply(&call_of(ask)?));
    print_made(rt, ask, reply, Place::of(store))
}

fn print_made(rt: &HostRuntime, ask: Ask, reply: Reply, place: Place) -> io::Result<()> {
    println!(rt; "  {}: {reply}; {place}", AskText(ask))
}

// Makes calls in order.
fn make<S: ListStore<Value = Zone>>(
    rt: &HostRuntime,
    store: &mut S,
    asks: &[Ask],
) -> io::Result<()> {
    for ask in asks {
        make_one(rt, store, *ask)?;
    }
    Ok(())
}

// Makes one call some times over.
fn repeat<S: ListStore<Value = Zone>>(
    rt: &HostRuntime,
    store: &mut S,
    times: u32,
    ask: Ask,
) -> io::Result<()> {
    for _ in 0..times {
        make_one(rt, store, ask)?;
    }
    Ok(())
}

// The same, with the counts of the answers alone.
fn count<S: ListStore<Value = Zone>>(
    rt: &HostRuntime,
    store: &mut S,
    times: u32,
    ask: Ask,
) -> io::Result<()> {
    print!(rt; "  {}, {times} in a row: ", AskText(ask))?;
    let refused = refused(store, times, &call_of(ask)?);
    print_counts(rt, times.saturating_sub(refused), refused, Place::of(store))
}

fn print_counts(rt: &HostRuntime, accepted: u32, refused: u32, place: Place) -> io::Result<()> {
    println!(rt; "{accepted} accepted, {refused} refused; {place}")
}

// How often the store refuses a call that is made some times over.
fn refused<S: ListStore<Value = Zone>>(store: &mut S, times: u32, call: &Call<Zone>) -> u32 {
    let mut refused = 0_u32;
    for _ in 0..times {
        if store.apply(call).is_err() {
            refused = refused.saturating_add(1);
        }
    }
    refused
}

// Makes one call some times over, and prints after each which of the first cells are marked.
fn turns<S: ListStore<Value = Zone>>(
    rt: &HostRuntime,
    store: &mut S,
    times: u32,
    ask: Ask,
    size: u32,
) -> io::Result<()> {
    for _ in 0..times {
        make_one(rt, store, ask)?;
        marked(rt, store, size)?;
    }
    Ok(())
}

fn marked<S: ListStore>(rt: &HostRuntime, store: &S, size: u32) -> io::Result<()> {
    print!(rt; "  marked:")?;
    for n in 0..size {
        mark(rt, store, n)?;
    }
    println!(rt; "")
}

fn mark<S: ListStore>(rt: &HostRuntime, store: &S, n: u32) -> io::Result<()> {
    match store.cell(n) {
        Ok(Cell { mark: true, .. }) => print!(rt; " {n}"),
        _ => Ok(()),
    }
}

pub fn print_cell(rt: &HostRuntime, n: u32, cell: Result<Cell, BankFault>) -> io::Result<()> {
    println!(rt; "  cell {n}: {}", CellText(cell))
}

// Prints some cells of the store's bank.
pub fn show<S: ListStore>(rt: &HostRuntime, store: &S, numbers: &[u32]) -> io::Result<()> {
    for n in numbers {
        print_cell(rt, *n, store.cell(*n))?;
    }
    Ok(())
}
