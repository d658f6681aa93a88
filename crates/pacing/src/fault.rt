//! Why no effort was made.
ghost use Rattle.std.specs.Prelude.{◌≡◌, Some};
ghost use Rattle.pacing.specs.Refusals.{told, text_of_fault};

use std::error::Error;
use std::fmt;

#[derive(Clone, Copy, PartialEq, Eq, Debug)]
pub enum EffortFault {
    OutOfRange { k1: u32, k2: u32 },
}

impl EffortFault {
    /// The number by which reports name the refusal.
    pub fn number(&self) -> u8
        ensures { result ≡ (told self.now).0 }
    {
        match *self {
            EffortFault::OutOfRange { .. } => 3,
        }
    }
}

impl fmt::Display for EffortFault {
    ghost output = { λ f. Some (text_of_fault f) };

    fn fmt<W: fmt::Write>(&self, f: &mut fmt::Formatter<W>) -> fmt::Result {
        let number = self.number();
        let EffortFault::OutOfRange { k1, k2 } = *self;
        write!(f, "refused {number} {k1} {k2}")
    }
}

impl Error for EffortFault {}
