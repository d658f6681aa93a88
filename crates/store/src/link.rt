//! A bank's cells linked into one free list.
ghost use Rattle.std.specs.Prelude.{◌≡◌, length};
ghost use Rattle.collector.specs.Calls.{filling, filled};
ghost use Rattle.collector.specs.States.{linked, first_word};

use bank::{Bank, BankFault, Cell, Change, Word};

// The word that names the first of some cells from n on.
pub fn first_of(n: u32, rest: u32) -> Word
    ensures { result ≡ first_word n rest }
{
    if rest == 0 { Word::Nil } else { Word::Cell(n) }
}

// Links every cell to the next one through its car, and reserves its cdr; how many there are.
pub fn link<B: Bank>(bank: &mut B) -> u32
    ensures size { result ≡ length (B.cells bank.old) }
    ensures after { B.cells bank.new ≡ linked 0 (length (B.cells bank.old)) }
    ensures fixed { B.limit bank.new ≡ B.limit bank.old }
    ensures beside { B.beside bank.new ≡ B.beside bank.old }
{
    let size = bank.size();
    for n in 0..size {
        let cell = Cell {
            car: first_of(n + 1, size - (n + 1)),
            cdr: Word::Reserved,
            mark: false,
        };
        bank.write_cell(n, cell);
    }
    size
}

// Puts two words and a mark into a cell, one after the other, as far as the bank takes them.
#[tactic(auto, using(crate::proofs::Links::of_filling))]
pub fn fill<B: Bank>(bank: &mut B, h: u32, cell: Cell) -> Result<(), BankFault>
    ensures answer { result ≡ filling (B.limit bank.old) (B.cells bank.old) h cell.car cell.cdr }
    ensures after { B.cells bank.new ≡ filled (B.limit bank.old) (B.cells bank.old) h cell.car cell.cdr cell.mark }
    ensures fixed { B.limit bank.new ≡ B.limit bank.old }
    ensures beside { B.beside bank.new ≡ B.beside bank.old }
{
    bank.writable(h, cell.car)?;
    if let Err(fault) = cell.cdr.within(bank.word_limit()) {
        bank.set(h, Change::Car(cell.car))?;
        return Err(fault);
    }
    bank.write_cell(h, cell);
    Ok(())
}
