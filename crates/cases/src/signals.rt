//! Block signals: aspects in lists, in a store over a pile of layers under the paced rule.
use crate::text::{Place, effort, unasked};
use atoms::Kind;
use atoms::aspect::{Aspect, Seconds, Train};
use atoms::aspects::Aspects;
use bank::{Bank, Cell};
use layers::{Hold, Join, Window};
use listcalls::{Call, Seen};
use memory::{PackedBank, RecordBank};
use pacing::paced::PacedRule;
use std::{fmt, io};
use store::{ListStore, Store};

#[derive(Clone, Copy)]
struct AspectText(Option<Aspect>);

impl fmt::Display for AspectText {
    fn fmt<W: fmt::Write>(&self, f: &mut fmt::Formatter<W>) -> fmt::Result {
        match self.0 {
            None => f.write_str("no value"),
            Some(Aspect::Clear) => f.write_str("clear"),
            Some(Aspect::Hold(seconds)) => write!(f, "hold {}", seconds.get()),
            Some(Aspect::Occupied(train)) => write!(f, "occupied {}", train.get()),
        }
    }
}

const CODES: &[u32] = &[0, 1, 255, 256, 511, 512, 767, 768, u32::MAX];

pub fn work(rt: &HostRuntime) -> io::Result<()> {
    println!(rt; "signals: codes")?;
    values(rt)?;
    codes(rt)?;
    println!(rt; "signals: a train over four blocks")?;
    let mut cells = [Cell::BLANK; 10];
    let mut words = [0_u64; 16];
    train(rt, RecordBank::new(&mut cells), PackedBank::new(&mut words))
}

fn values(rt: &HostRuntime) -> io::Result<()> {
    let aspects = [
        Aspect::Clear,
        Aspect::Hold(Seconds::new(0)),
        Aspect::Hold(Seconds::new(255)),
        Aspect::Occupied(Train::new(0)),
        Aspect::Occupied(Train::new(255)),
    ];
    for aspect in aspects {
        println!(rt;
            "  {}: code {}",
            AspectText(Some(aspect)),
            Aspects.code(&aspect)
        )?;
    }
    Ok(())
}

fn codes(rt: &HostRuntime) -> io::Result<()> {
    for code in CODES {
        println!(rt; "  code {code}: {}", AspectText(Aspects.value(*code)))?;
    }
    Ok(())
}

fn train<A: Bank + Drop, B: Bank + Drop>(rt: &HostRuntime, record: A, packed: B) -> io::Result<()> {
    over(rt, Join::new(Window::new(record, 1, 8), Hold::new(packed)))
}

// The starvation bound holds: at most 8 cells are reachable, and the store has 24, a floor of 7 and an effort of 4 and 4.
fn over<B: Bank + Drop>(rt: &HostRuntime, bank: B) -> io::Result<()> {
    let effort = effort(4, 4)?;
    steps(
        rt,
        &mut Store::new(bank, Aspects, PacedRule::new(7, 3), effort),
    )
}

fn steps<S: ListStore<Value = Aspect>>(rt: &HostRuntime, store: &mut S) -> io::Result<()> {
    for step in 0..12 {
        make(store, &moves(step))?;
        print_signals(rt, store, "move", step)?;
        stop(store, step % 4)?;
        print_signals(rt, store, "stop", step)?;
    }
    Ok(())
}

// What a block's signal shows at a step of the train: it moves on by one block a step, and the block behind it is held.
fn aspect_at(block: u8, step: u8) -> Aspect {
    if block == step % 4 {
        Aspect::Occupied(Train::new(7))
    } else if block == step.wrapping_add(3) % 4 {
        Aspect::Hold(Seconds::new(step.saturating_add(30)))
    } else {
        Aspect::Clear
    }
}

// A new list of signals in register 0; the one before is dropped.
fn moves(step: u8) -> [Call<Aspect>; 11] {
    [
        Call::Clear(4),
        Call::Load(1, aspect_at(3, step)),
        Call::Cons(4, 1, 4),
        Call::Load(1, aspect_at(2, step)),
        Call::Cons(4, 1, 4),
        Call::Load(1, aspect_at(1, step)),
        Call::Cons(4, 1, 4),
        Call::Load(1, aspect_at(0, step)),
        Call::Cons(4, 1, 4),
        Call::Copy(0, 4),
        Call::Clear(4),
    ]
}

fn make<S: ListStore<Value = Aspect>>(store: &mut S, calls: &[Call<Aspect>]) -> io::Result<()> {
    for call in calls {
        if store.apply(call).is_err() {
            return Err(unasked());
        }
    }
    Ok(())
}

// A block's signal holds, in place.
fn stop<S: ListStore<Value = Aspect>>(store: &mut S, block: u8) -> io::Result<()> {
    make(store, &[Call::Copy(2, 0)])?;
    for _ in 0..block {
        make(store, &[Call::Cdr(2, 2)])?;
    }
    let held = Aspect::Hold(Seconds::new(255));
    make(store, &[Call::Load(1, held), Call::Rplaca(2, 1)])
}

// The signals of the list in register 0, and where the collector stands.
fn print_signals<S: ListStore<Value = Aspect>>(
    rt: &HostRuntime,
    store: &mut S,
    name: &str,
    step: u8,
) -> io::Result<()> {
    print!(rt; "  {name} {step}")?;
    make(store, &[Call::Copy(2, 0)])?;
    print_list(rt, store)?;
    println!(rt; "; {}", Place::of(store))
}

// The four signals of the list in register 2.
fn print_list<S: ListStore<Value = Aspect>>(rt: &HostRuntime, store: &mut S) -> io::Result<()> {
    print_next(rt, store, ":")?;
    for _ in 1..4 {
        print_next(rt, store, ",")?;
    }
    Ok(())
}

// The first signal of the list in register 2, which goes on to the rest.
fn print_next<S: ListStore<Value = Aspect>>(
    rt: &HostRuntime,
    store: &mut S,
    mark: &str,
) -> io::Result<()> {
    make(store, &[Call::Car(3, 2), Call::Cdr(2, 2)])?;
    let aspect = match store.look(3) {
        Ok(Seen::Atom(aspect)) => Some(aspect),
        _ => None,
    };
    print_aspect(rt, mark, aspect)
}

fn print_aspect(rt: &HostRuntime, mark: &str, aspect: Option<Aspect>) -> io::Result<()> {
    print!(rt; "{mark} {}", AspectText(aspect))
}
