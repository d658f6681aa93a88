ghost use Rattle.std.specs.Prelude.{◌≡◌, Some};
ghost use Rattle.bank.specs.Faults.{told, text_of_fault};

use std::error::Error;
use std::fmt;

/// Why a bank refuses: no cell has the number, or the number of the word lies above the limit.
#[derive(Clone, Copy, PartialEq, Eq, Debug)]
pub enum BankFault {
    NoSuchCell(u32),
    WordTooWide(u32),
}

impl BankFault {
    /// The number by which reports name the refusal.
    pub fn number(&self) -> u8
        ensures { result ≡ (told self.now).0 }
    {
        match self {
            BankFault::NoSuchCell(_) => 1,
            BankFault::WordTooWide(_) => 2,
        }
    }
}

impl fmt::Display for BankFault {
    ghost output = { λ x. Some (text_of_fault x) };

    fn fmt<W: fmt::Write>(&self, f: &mut fmt::Formatter<W>) -> fmt::Result {
        match *self {
            BankFault::NoSuchCell(n) => write!(f, "there is no cell {n}"),
            BankFault::WordTooWide(n) => write!(f, "the word's number {n} is above the limit"),
        }
    }
}

impl Error for BankFault {}
