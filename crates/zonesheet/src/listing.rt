//! What is printed of a zone.
ghost use Rattle.std.specs.Prelude.{◌≡◌, Some};
ghost use Rattle.zonesheet.specs.Listings.{listed, listing};

use atoms::kind::{Kind, reread};
use atoms::zone::Zone;
use atoms::zones::Zones;
use std::fmt;

#[derive(Clone, Copy)]
pub struct Listing {
    zone: Zone,
    code: u32,
    last: u16,
    // What the code reads back as.
    back: Zone,
}

impl Listing {
    pub fn new(zone: Zone) -> Listing
        ensures { result ≡ listed zone }
    {
        Listing {
            zone,
            code: Zones.code(&zone),
            last: zone.last(),
            // Every zone reads back from its code.
            back: reread(&Zones, &zone).unwrap(),
        }
    }
}

impl fmt::Display for Listing {
    ghost output = { λ l. Some (listing l) };

    fn fmt<W: fmt::Write>(&self, f: &mut fmt::Formatter<W>) -> fmt::Result {
        let Listing {
            zone,
            code,
            last,
            back,
        } = *self;
        let first = zone.offset();
        write!(
            f,
            "zone {zone}: code {code}, covers {first} to {last}, reads back as {back}"
        )
    }
}
