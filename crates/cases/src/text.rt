//! What is printed of calls, of stores and of their cells.
use crate::tables::Ask;
use atoms::Zone;
use bank::{BankFault, Cell, Word};
use listcalls::{Call, Phase, StoreFault};
use pacing::effort::Effort;
use std::alloc::Global;
use std::{fmt, io};
use store::ListStore;

// The name of a call, its numbers and how many there are.
fn parts(ask: Ask) -> (&'static str, [u32; 3], usize) {
    match ask {
        Ask::Load(i, offset, length) => ("load", [i, offset, length], 3),
        Ask::Clear(i) => ("clear", [i, 0, 0], 1),
        Ask::Copy(i, a) => ("copy", [i, a, 0], 2),
        Ask::Cons(i, a, b) => ("cons", [i, a, b], 3),
        Ask::Car(i, a) => ("car", [i, a, 0], 2),
        Ask::Cdr(i, a) => ("cdr", [i, a, 0], 2),
        Ask::Rplaca(a, b) => ("rplaca", [a, b, 0], 2),
        Ask::Rplacd(a, b) => ("rplacd", [a, b, 0], 2),
        Ask::Look(i) => ("look", [i, 0, 0], 1),
        Ask::Same(i, j) => ("same", [i, j, 0], 2),
    }
}

// Numbers with a space before each.
#[derive(Clone, Copy)]
pub struct NumbersText<'a>(pub &'a [u32]);

impl fmt::Display for NumbersText<'_> {
    fn fmt<W: fmt::Write>(&self, f: &mut fmt::Formatter<W>) -> fmt::Result {
        for n in self.0 {
            write!(f, " {n}")?;
        }
        Ok(())
    }
}

#[derive(Clone, Copy)]
pub struct AskText(pub Ask);

impl fmt::Display for AskText {
    fn fmt<W: fmt::Write>(&self, f: &mut fmt::Formatter<W>) -> fmt::Result {
        let (name, numbers, count) = parts(self.0);
        let numbers = numbers.get(..count).unwrap_or(&numbers);
        write!(f, "{name}{}", NumbersText(numbers))
    }
}

#[derive(Clone, Copy)]
pub struct WordText(pub Word);

impl fmt::Display for WordText {
    fn fmt<W: fmt::Write>(&self, f: &mut fmt::Formatter<W>) -> fmt::Result {
        match self.0 {
            Word::Nil => f.write_str("nil"),
            Word::Cell(n) => write!(f, "cell {n}"),
            Word::Atom(code) => write!(f, "atom {code}"),
            Word::Reserved => f.write_str("reserved"),
        }
    }
}

// A cell, or its refusal.
#[derive(Clone, Copy)]
pub struct CellText(pub Result<Cell, BankFault>);

impl fmt::Display for CellText {
    fn fmt<W: fmt::Write>(&self, f: &mut fmt::Formatter<W>) -> fmt::Result {
        match self.0 {
            Ok(Cell { car, cdr, mark }) => {
                let end = if mark { ", marked" } else { "" };
                write!(f, "{}, {}{end}", WordText(car), WordText(cdr))
            }
            Err(fault) => write!(f, "{}", StoreFault::from(fault)),
        }
    }
}

// Where a store's collector stands.
#[derive(Clone, Copy, PartialEq, Eq)]
pub struct Place {
    phase: Phase,
    sweeper: u32,
    free: u32,
}

impl Place {
    pub fn of<S: ListStore>(store: &S) -> Place {
        Place {
            phase: store.phase(),
            sweeper: store.sweeper(),
            free: store.free_count(),
        }
    }
}

impl fmt::Display for Place {
    fn fmt<W: fmt::Write>(&self, f: &mut fmt::Formatter<W>) -> fmt::Result {
        let phase = match self.phase {
            Phase::Idle => "idle",
            Phase::Mark => "mark",
            Phase::Sweep => "sweep",
        };
        write!(f, "{phase}, sweeper {}, free {}", self.sweeper, self.free)
    }
}

// What the program says of a refusal that no example asks for.
pub fn unasked() -> io::Error {
    io::Error::other("refused, and no example asks for it")
}

pub fn effort(k1: u32, k2: u32) -> io::Result<Effort> {
    let Ok(effort) = Effort::new(k1, k2) else {
        return Err(unasked());
    };
    Ok(effort)
}

fn load(i: u32, offset: u32, length: u32) -> io::Result<Call<Zone>> {
    let Ok(zone) = Zone::new(offset, length) else {
        return Err(unasked());
    };
    Ok(Call::Load(i, zone))
}

// The call that is asked for.
pub fn call_of(ask: Ask) -> io::Result<Call<Zone>> {
    match ask {
        Ask::Load(i, offset, length) => load(i, offset, length),
        Ask::Clear(i) => Ok(Call::Clear(i)),
        Ask::Copy(i, a) => Ok(Call::Copy(i, a)),
        Ask::Cons(i, a, b) => Ok(Call::Cons(i, a, b)),
        Ask::Car(i, a) => Ok(Call::Car(i, a)),
        Ask::Cdr(i, a) => Ok(Call::Cdr(i, a)),
        Ask::Rplaca(a, b) => Ok(Call::Rplaca(a, b)),
        Ask::Rplacd(a, b) => Ok(Call::Rplacd(a, b)),
        Ask::Look(i) => Ok(Call::Look(i)),
        Ask::Same(i, j) => Ok(Call::Same(i, j)),
    }
}

pub fn calls_of(heap: Global, asks: &[Ask]) -> io::Result<Vec<Call<Zone>>> {
    let mut calls = Vec::new(heap);
    for ask in asks {
        calls.push(call_of(*ask)?)?;
    }
    Ok(calls)
}
