//! How many lines were answered in which way.
ghost use Rattle.std.specs.Prelude.{◌≡◌, Some};
ghost use Rattle.zonesheet.specs.Tallies.{none, counted, totals};

use crate::answers::Fault;
use crate::listing::Listing;
use std::fmt;

#[derive(Clone, Copy, Default)]
pub struct Tally {
    zones: u64,
    refused: u64,
    bad: u64,
}

impl Tally {
    pub fn new() -> Tally
        ensures { result ≡ none }
    {
        Tally::default()
    }

    /// Counts one answer more; a count that is full stays full.
    pub fn count(&mut self, answer: &Result<Listing, Fault>)
        ensures { self.new ≡ counted answer.now self.old }
    {
        match answer {
            Ok(_) => self.zones = self.zones.saturating_add(1),
            Err(Fault::Refused(_)) => self.refused = self.refused.saturating_add(1),
            Err(Fault::Line(_)) => self.bad = self.bad.saturating_add(1),
        }
    }
}

impl fmt::Display for Tally {
    ghost output = { λ t. Some (totals t) };

    fn fmt<W: fmt::Write>(&self, f: &mut fmt::Formatter<W>) -> fmt::Result {
        let Tally {
            zones,
            refused,
            bad,
        } = *self;
        write!(f, "zones {zones}, refused {refused}, bad lines {bad}")
    }
}
