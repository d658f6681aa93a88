//! The floor rule: yes exactly to the counts at or below its floor.
ghost use Rattle.std.specs.Prelude.{◌≡◌};
ghost use Rattle.pacing.specs.Floors.{floor_of, floor_says, floor_becomes, floor-law};

use super::rule::StartRule;

#[derive(Clone, Copy, PartialEq, Eq, Debug)]
pub struct FloorRule {
    floor: u32,
}

impl FloorRule {
    pub fn new(floor: u32) -> FloorRule
        ensures { floor_of result ≡ floor }
    {
        FloorRule { floor }
    }
}

impl StartRule for FloorRule {
    ghost floor = { floor_of };

    ghost says = { floor_says };

    ghost becomes = { floor_becomes };

    ghost lawful = { floor-law };

    fn floor_count(&self) -> u32 {
        self.floor
    }

    fn ask(&mut self, count: u32) -> bool
        ensures answer { result ≡ floor_says self.old count }
        ensures keeps { floor_of self.new ≡ floor_of self.old }
        ensures after { self.new ≡ self.old }
    {
        count <= self.floor
    }
}
