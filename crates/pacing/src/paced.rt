//! The paced rule: yes at or below its floor, and also when it has said no as often as its pace since it was made or last
//! said yes.
ghost use Rattle.std.specs.Prelude.{◌≡◌};
ghost use Rattle.pacing.specs.Paced.{paced_floor, paced_says, paced_becomes, fresh, next, paced-law, KeepsPace};

use super::rule::StartRule;

#[derive(Clone, Copy, PartialEq, Eq, Debug)]
pub struct PacedRule {
    floor: u32,
    pace: u16,
    tally: u16,
}

impl PacedRule {
    /// Any floor and pace will do; with pace 0 the answer is always yes.
    pub fn new(floor: u32, pace: u16) -> PacedRule
        ensures { result ≡ fresh floor pace }
    {
        PacedRule {
            floor,
            pace,
            tally: 0,
        }
    }
}

impl StartRule for PacedRule {
    ghost floor = { paced_floor };

    ghost says = { paced_says };

    ghost becomes = { paced_becomes };

    ghost lawful = { paced-law };

    fn floor_count(&self) -> u32 {
        self.floor
    }

    fn ask(&mut self, count: u32) -> bool
        ensures answer { result ≡ paced_says self.old count }
        ensures keeps { paced_floor self.new ≡ paced_floor self.old }
        ensures after { self.new ≡ next self.old count }
    {
        let start = count <= self.floor || self.tally >= self.pace;
        // A no is only said below the pace, so the tally never passes it.
        self.tally = if start { 0 } else { self.tally + 1 };
        start
    }
}

/// The rule over any run of questions: yes exactly at or below the floor, or after as many noes as the pace.
pub fn pace_is_kept(floor: u32, pace: u16)
    ensures { KeepsPace floor pace }
{}
