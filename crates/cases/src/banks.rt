//! Changes of a bank of two cells.
use crate::stores::print_cell;
use crate::text::WordText;
use bank::{Bank, BankFault, Cell, Change, Word};
use memory::{PackedBank, RecordBank};
use replies::{LineFault, Reply};
use std::{fmt, io};

// The least number that a packed word cannot have.
const WIDE: u32 = 268_435_456;

// The cell number is refused before the word is looked at.
const CHANGES: &[(u32, Change)] = &[
    (2, Change::Car(Word::Atom(WIDE))),
    (u32::MAX, Change::Cdr(Word::Atom(u32::MAX))),
    (2, Change::Mark(true)),
    (1, Change::Car(Word::Atom(WIDE))),
    (1, Change::Cdr(Word::Cell(WIDE))),
    (1, Change::Cdr(Word::Atom(WIDE - 1))),
    (1, Change::Mark(true)),
    (0, Change::Car(Word::Cell(7))),
    (0, Change::Cdr(Word::Reserved)),
];

#[derive(Clone, Copy)]
struct ChangeText(Change);

impl fmt::Display for ChangeText {
    fn fmt<W: fmt::Write>(&self, f: &mut fmt::Formatter<W>) -> fmt::Result {
        match self.0 {
            Change::Car(word) => write!(f, "car to {}", WordText(word)),
            Change::Cdr(word) => write!(f, "cdr to {}", WordText(word)),
            Change::Mark(mark) => write!(f, "mark to {mark}"),
        }
    }
}

pub fn work(rt: &HostRuntime) -> io::Result<()> {
    println!(rt; "refusals: a packed bank of two cells")?;
    changes(rt, PackedBank::new(&mut [0_u64; 2]))?;
    println!(rt; "refusals: a record bank of two cells")?;
    changes(rt, RecordBank::new(&mut [Cell::BLANK; 2]))
}

fn changes<B: Bank + Drop>(rt: &HostRuntime, mut bank: B) -> io::Result<()> {
    for (n, change) in CHANGES {
        let reply = reply_to(bank.set(*n, *change));
        print_change(rt, *n, *change, reply)?;
    }
    for n in 0..3 {
        print_cell(rt, n, bank.cell(n))?;
    }
    Ok(())
}

fn print_change(rt: &HostRuntime, n: u32, change: Change, reply: Reply) -> io::Result<()> {
    println!(rt; "  cell {n}, {}: {reply}", ChangeText(change))
}

fn reply_to(answer: Result<(), BankFault>) -> Reply {
    match answer {
        Ok(()) => Reply::Done,
        Err(fault) => Reply::Refused(LineFault::Store(fault.into())),
    }
}
