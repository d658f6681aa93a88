ghost use Rattle.std.specs.Prelude.{◌≡◌, Some};
ghost use Rattle.listcalls.specs.Faults.{told, text_of_fault};
ghost use Rattle.listcalls.specs.declared.fault.StoreFault.{StoreFault};

use bank::BankFault;
use std::error::Error;
use std::fmt;

/// Why a call on a store is refused.
#[derive(Clone, Copy, PartialEq, Eq, Debug)]
pub enum StoreFault {
    /// what the bank refuses, with its cause and place
    Bank(BankFault),
    /// there is no such register
    NoRegister(u32),
    /// this register holds no cell
    NotACell(u32),
    /// no cell is free after the turn, which did this much work
    NoFreeCell(u32),
}

impl StoreFault {
    /// The number by which reports name the refusal.
    pub fn number(&self) -> u8
        ensures { result ≡ (told self.now).0 }
    {
        match self {
            StoreFault::Bank(fault) => fault.number(),
            StoreFault::NoRegister(_) => 5,
            StoreFault::NotACell(_) => 6,
            StoreFault::NoFreeCell(_) => 7,
        }
    }
}

// A bank's refusal passes up whole. By hand: what a derive of `From` writes promises nothing.
impl From<BankFault> for StoreFault {
    ghost from_gives = { λ e f. f ≡ StoreFault.Bank e };

    fn from(fault: BankFault) -> StoreFault {
        StoreFault::Bank(fault)
    }
}

impl fmt::Display for StoreFault {
    ghost output = { λ f. Some (text_of_fault f) };

    fn fmt<W: fmt::Write>(&self, f: &mut fmt::Formatter<W>) -> fmt::Result {
        let number = self.number();
        match *self {
            StoreFault::Bank(BankFault::NoSuchCell(n) | BankFault::WordTooWide(n))
            | StoreFault::NoRegister(n)
            | StoreFault::NotACell(n)
            | StoreFault::NoFreeCell(n) => write!(f, "refused {number} {n}"),
        }
    }
}

impl Error for StoreFault {}
