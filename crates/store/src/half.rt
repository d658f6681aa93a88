//! The two words of a cell.
ghost use Rattle.std.specs.Prelude.{◌≡◌};
ghost use Rattle.bank.specs.Words.{with_change, word_in};
ghost use Rattle.store.specs.Halves.{word_of, with_word};

use bank::{Cell, Change, Word};

#[derive(Clone, Copy)]
pub enum Half {
    Car,
    Cdr,
}

impl Half {
    pub fn of(self, cell: Cell) -> Word
        ensures { result ≡ word_of self cell }
    {
        match self {
            Half::Car => cell.car,
            Half::Cdr => cell.cdr,
        }
    }

    // The change that puts a word there.
    pub fn to(self, word: Word) -> Change
        ensures word { word_in result ≡ word }
        ensures change { with_change result ≡ with_word self word }
    {
        match self {
            Half::Car => Change::Car(word),
            Half::Cdr => Change::Cdr(word),
        }
    }
}
