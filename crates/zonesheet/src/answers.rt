//! What a line is answered with.
ghost use Rattle.std.specs.Prelude.{◌≡◌, Some};
ghost use Rattle.zonesheet.specs.Answers.{Answers, faulted};
ghost use Rattle.zonesheet.specs.declared.answers.Fault.TheVariants.{Line, Refused};

use crate::line::{LineFault, read_pair};
use crate::listing::Listing;
use atoms::fault::ZoneFault;
use atoms::zone::Zone;
use std::fmt;

/// Why a line names no zone.
#[derive(Clone, Copy)]
pub enum Fault {
    Line(LineFault),
    Refused(ZoneFault),
}

// By hand, since a derived `From` promises nothing of the error that it makes.
impl From<LineFault> for Fault {
    ghost from_gives = { λ e r. r ≡ Line e };

    fn from(fault: LineFault) -> Fault {
        Fault::Line(fault)
    }
}

impl From<ZoneFault> for Fault {
    ghost from_gives = { λ e r. r ≡ Refused e };

    fn from(fault: ZoneFault) -> Fault {
        Fault::Refused(fault)
    }
}

impl fmt::Display for Fault {
    ghost output = { λ f. Some (faulted f) };

    fn fmt<W: fmt::Write>(&self, f: &mut fmt::Formatter<W>) -> fmt::Result {
        match *self {
            Fault::Line(fault) => write!(f, "bad line: {fault}"),
            Fault::Refused(fault) => write!(
                f,
                "{fault}: a zone is 1 to 65535 long and ends by 65536"
            ),
        }
    }
}

/// The listing of the zone that a line names.
#[tactic(auto, using(crate::proofs::Answering::answers_refused))]
pub fn answer(line: &str) -> Result<Listing, Fault>
    ensures { Answers line.now result }
{
    let (offset, length) = read_pair(line)?;
    let zone = Zone::new(offset, length)?;
    Ok(Listing::new(zone))
}
