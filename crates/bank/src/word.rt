ghost use Rattle.std.specs.Prelude.{◌≡◌, Ok};
ghost use Rattle.bank.specs.Words.{number_of, word_in, with_change};
ghost use Rattle.bank.specs.Banks.{taken};

use super::fault::BankFault;

/// What a field of a cell holds. A cell is named by its number: a store has fixed memory of its own, and no call allocates.
/// `Reserved` stands only in the cdr of a cell that is free.
#[derive(Clone, Copy, PartialEq, Eq, Debug)]
pub enum Word {
    Nil,
    Cell(u32),
    Atom(u32),
    Reserved,
}

#[derive(Clone, Copy, PartialEq, Eq, Debug)]
pub struct Cell {
    pub car: Word,
    pub cdr: Word,
    pub mark: bool,
}

/// One field of a cell, and what it is set to.
#[derive(Clone, Copy, PartialEq, Eq, Debug)]
pub enum Change {
    Car(Word),
    Cdr(Word),
    Mark(bool),
}

impl Word {
    #[inline(always)]
    pub fn number(&self) -> u32
        ensures { result ≡ number_of self.now }
    {
        match *self {
            Word::Cell(n) | Word::Atom(n) => n,
            Word::Nil | Word::Reserved => 0,
        }
    }

    /// Refuses a word whose number lies above the limit.
    #[inline(always)]
    pub fn within(&self, limit: u32) -> Result<(), BankFault>
        ensures { result ≡ taken limit self.now (Ok tt) }
    {
        let number = self.number();
        if number > limit {
            return Err(BankFault::WordTooWide(number));
        }
        Ok(())
    }
}

impl Change {
    /// The word that comes into the cell; nil, which always fits, where none does.
    #[inline(always)]
    pub fn word(self) -> Word
        ensures { result ≡ word_in self }
    {
        match self {
            Change::Car(word) | Change::Cdr(word) => word,
            Change::Mark(_) => Word::Nil,
        }
    }
}

impl Cell {
    pub const BLANK: Cell = Cell {
        car: Word::Nil,
        cdr: Word::Nil,
        mark: false,
    };

    /// The cell with one field changed.
    pub fn with(self, change: Change) -> Cell
        ensures { result ≡ with_change change self }
    {
        match change {
            Change::Car(car) => Cell { car, ..self },
            Change::Cdr(cdr) => Cell { cdr, ..self },
            Change::Mark(mark) => Cell { mark, ..self },
        }
    }
}
