ghost use Rattle.std.specs.Prelude.{◌≡◌, length, is_ok, IfOk, if◌then◌else◌};
ghost use Rattle.bank.specs.declared.word.Word.{Word};
ghost use Rattle.chains.specs.Chains.{chain, chain_taken, link_before, placed, atoms_from};

use bank::{Bank, BankFault, Cell, Word};
use std::alloc::{AllocError, Global};

/// Writes the atoms as a chain into the cells from `from` on and gives the number of the next cell, or writes nothing.
#[tactic(auto, using(crate::proofs::Chaining::of_writing))]
pub fn write_chain<B: Bank>(bank: &mut B, from: u32, atoms: &[u32]) -> Result<u32, BankFault>
    ensures answer { result ≡ chain_taken (B.limit bank.old) (length (B.cells bank.old)) from atoms.now }
    ensures after { B.cells bank.new ≡ (if is_ok result then placed (B.cells bank.old) from (chain from atoms.now) else B.cells bank.old) }
    ensures fixed { B.limit bank.new ≡ B.limit bank.old }
    ensures beside { B.beside bank.new ≡ B.beside bank.old }
{
    let next = check_chain(bank.word_limit(), bank.size(), from, atoms)?;
    for (i, atom) in atoms.iter().enumerate() {
        let n = from + i as u32;
        let cell = Cell {
            car: Word::Atom(*atom),
            cdr: cdr_of(n, next),
            mark: false,
        };
        bank.write_cell(n, cell);
    }
    Ok(next)
}

// The cdr of cell n of a chain that ends before cell `next`.
fn cdr_of(n: u32, next: u32) -> Word
    ensures { result ≡ link_before next n }
{
    if next.saturating_sub(n) > 1 {
        Word::Cell(n + 1)
    } else {
        Word::Nil
    }
}

#[tactic(auto, using(crate::proofs::Chaining::of_checking))]
fn check_chain(limit: u32, size: u32, from: u32, atoms: &[u32]) -> Result<u32, BankFault>
    ensures { result ≡ chain_taken limit size from atoms.now }
{
    for (i, atom) in atoms.iter().enumerate() {
        let n = from + i as u32;
        if n >= size {
            return Err(BankFault::NoSuchCell(n));
        }
        Word::Atom(*atom).within(limit)?;
    }
    Ok(from + atoms.len() as u32)
}

/// The atoms of the chain that begins in cell `start`, up to the first word that names no cell. A car that is no atom is passed,
/// and no chain is followed for more steps than there are cells, since it may come back to itself.
pub fn read_chain<B: Bank>(heap: Global, bank: &B, start: u32) -> Result<Vec<u32>, AllocError>
    ensures { IfOk result (λ v. v.items ≡ atoms_from (length (B.cells bank.now)) (B.cells bank.now) (Word.Cell start)) }
{
    let mut atoms = Vec::new(heap);
    let mut word = Word::Cell(start);
    for _ in 0..bank.size() {
        let Word::Cell(n) = word else {
            return Ok(atoms);
        };
        let Ok(cell) = bank.cell(n) else {
            return Ok(atoms);
        };
        if let Word::Atom(code) = cell.car {
            atoms.push(code)?;
        }
        word = cell.cdr;
    }
    Ok(atoms)
}
