ghost use Rattle.std.specs.Prelude.{◌≡◌, ℕ, ◌≤◌, List, length};
ghost use Rattle.bank.specs.declared.word.Cell.{Cell};
ghost use Rattle.bank.specs.Banks.{Sound, asked, writable, change_taken, change_put, cell_put};

use super::fault::BankFault;
use super::word::{Cell, Change, Word};

/// A list of cells and the largest number that a word of them may have. Neither the limit nor the number of cells ever changes, nor what
/// stands beside the cells.
/// That the limit stays is a clause of each step, here and above: it joins what was and what is, and no type says that.
pub trait Bank {
    ghost limit: { Self → ℕ };

    ghost cells: { Self → List Cell };

    ghost sound: { (s : Self) → Sound (limit s) (cells s) };

    // What a bank is made of besides its cells, such as the memory past them: what one who takes it apart again finds there. Each bank
    // says what that is.
    ghost Beside: { Type 0 };

    ghost beside: { Self → Beside };

    fn size(&self) -> u32
        ensures { result ≡ length (cells self.now) };

    fn word_limit(&self) -> u32
        ensures { result ≡ limit self.now };

    fn cell(&self, n: u32) -> Result<Cell, BankFault>
        ensures { result ≡ asked (cells self.now) n };

    /// The cell n that the word may be put into, or the refusal that `set` gives.
    #[inline(always)]
    fn writable(&self, n: u32, word: Word) -> Result<Cell, BankFault>
        ensures { result ≡ writable (limit self.now) (cells self.now) n word }
    {
        let cell = self.cell(n)?;
        word.within(self.word_limit())?;
        Ok(cell)
    }

    /// Makes a change to cell n, or refuses it and changes nothing.
    fn set(&mut self, n: u32, change: Change) -> Result<(), BankFault>
        ensures answer { result ≡ change_taken (limit self.old) (cells self.old) n change }
        ensures after { cells self.new ≡ change_put (limit self.old) (cells self.old) n change }
        ensures fixed { limit self.new ≡ limit self.old }
        ensures beside { beside self.new ≡ beside self.old };

    /// Sets the three fields of cell n, but for a word above the limit.
    #[tactic(auto, using(crate::proofs::Laws::three_puts))]
    #[inline(always)]
    fn write_cell(&mut self, n: u32, cell: Cell)
        ensures after { cells self.new ≡ cell_put (limit self.old) (cells self.old) n cell }
        ensures fixed { limit self.new ≡ limit self.old }
        ensures beside { beside self.new ≡ beside self.old }
    {
        let _ = self.set(n, Change::Car(cell.car));
        let _ = self.set(n, Change::Cdr(cell.cdr));
        let _ = self.set(n, Change::Mark(cell.mark));
    }
}
