//! Why a plan was not read to its end.
ghost use Rattle.std.specs.Prelude.{◌≡◌, Some};
ghost use Rattle.plan.specs.Refusals.{told, fault_text};

use std::error::Error;
use std::fmt;

#[derive(Clone, Copy, PartialEq, Eq, Debug)]
pub enum PlanFault {
    /// The plan has more bytes than the limit.
    TooLong,
    /// The place of the first byte with which no well-formed line goes on, both numbers from 1.
    Malformed { line: u32, column: u32 },
}

impl PlanFault {
    /// The number by which reports name the refusal.
    pub fn number(&self) -> u8
        ensures { result ≡ (told self.now).0 }
    {
        8
    }

    /// What the refusal returns: line and column, and where there is no place two zeros, as the printed line has them.
    pub fn values(&self) -> [u32; 2]
        ensures { result ≡ (told self.now).1 }
    {
        match *self {
            PlanFault::TooLong => [0, 0],
            PlanFault::Malformed { line, column } => [line, column],
        }
    }
}

impl fmt::Display for PlanFault {
    ghost output = { λ f. Some (fault_text f) };

    fn fmt<W: fmt::Write>(&self, f: &mut fmt::Formatter<W>) -> fmt::Result {
        let [line, column] = self.values();
        write!(f, "fault {line} {column}")
    }
}

impl Error for PlanFault {}
