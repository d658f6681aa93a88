//! Why no zone was made.
ghost use Rattle.std.specs.Prelude.{◌≡◌, Some};
ghost use Rattle.atoms.specs.Refusals.{told, spoken};

use std::error::Error;
use std::fmt;

#[derive(Clone, Copy, PartialEq, Eq, Debug)]
pub enum ZoneFault {
    NotAZone { offset: u32, length: u32 },
}

impl ZoneFault {
    /// The number by which reports name the refusal.
    pub fn number(&self) -> u8
        ensures { result ≡ (told self.now).0 }
    {
        match *self {
            ZoneFault::NotAZone { .. } => 4,
        }
    }
}

impl fmt::Display for ZoneFault {
    ghost output = { λ f. Some (spoken (told f)) };

    fn fmt<W: fmt::Write>(&self, f: &mut fmt::Formatter<W>) -> fmt::Result {
        let number = self.number();
        let ZoneFault::NotAZone { offset, length } = *self;
        write!(f, "refused {number} {offset} {length}")
    }
}

impl Error for ZoneFault {}
