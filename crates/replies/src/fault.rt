//! Why a line of a plan is refused.
ghost use Rattle.std.specs.Prelude.{◌≡◌, Some};
ghost use Rattle.atoms.specs.Refusals.{spoken};
ghost use Rattle.replies.specs.Refusals.{told};
ghost use Rattle.replies.specs.declared.fault.LineFault.{LineFault};

use atoms::fault::ZoneFault;
use listcalls::StoreFault;
use pacing::fault::EffortFault;
use std::error::Error;
use std::fmt;

/// The fault of the part that refused, whole.
#[derive(Clone, Copy, PartialEq, Eq, Debug)]
pub enum LineFault {
    Effort(EffortFault),
    Zone(ZoneFault),
    Store(StoreFault),
}

// By hand: what a derive of `From` writes promises nothing.
impl From<EffortFault> for LineFault {
    ghost from_gives = { λ e f. f ≡ LineFault.Effort e };

    fn from(fault: EffortFault) -> LineFault {
        LineFault::Effort(fault)
    }
}

impl From<ZoneFault> for LineFault {
    ghost from_gives = { λ e f. f ≡ LineFault.Zone e };

    fn from(fault: ZoneFault) -> LineFault {
        LineFault::Zone(fault)
    }
}

impl From<StoreFault> for LineFault {
    ghost from_gives = { λ e f. f ≡ LineFault.Store e };

    fn from(fault: StoreFault) -> LineFault {
        LineFault::Store(fault)
    }
}

impl LineFault {
    /// The number by which reports name the refusal.
    pub fn number(&self) -> u8
        ensures { result ≡ (told self.now).0 }
    {
        match self {
            LineFault::Effort(fault) => fault.number(),
            LineFault::Zone(fault) => fault.number(),
            LineFault::Store(fault) => fault.number(),
        }
    }
}

impl fmt::Display for LineFault {
    ghost output = { λ f. Some (spoken (told f)) };

    #[tactic(auto, using(crate::proofs::Spoken::of_speaking))]
    fn fmt<W: fmt::Write>(&self, f: &mut fmt::Formatter<W>) -> fmt::Result {
        match self {
            LineFault::Effort(fault) => write!(f, "{fault}"),
            LineFault::Zone(fault) => write!(f, "{fault}"),
            LineFault::Store(fault) => write!(f, "{fault}"),
        }
    }
}

impl Error for LineFault {}
