//! The kind whose values are zones: the offset in the upper 16 bits of the code, the length in the lower 16.
ghost use Rattle.atoms.specs.Zones.{zone_code, zone_of};
ghost use Rattle.atoms.specs.Laws.{zones-law};

use super::kind::Kind;
use super::zone::Zone;

#[derive(Clone, Copy, PartialEq, Eq, Debug)]
pub struct Zones;

impl Kind for Zones {
    type Value = Zone;

    ghost coded = { λ _. zone_code };

    ghost valued = { λ _. zone_of };

    ghost lawful = { λ _. zones-law };

    fn code(&self, value: &Zone) -> u32 {
        u32::from(value.offset()) * 65_536 + u32::from(value.length())
    }

    fn value(&self, code: u32) -> Option<Zone> {
        Zone::new(code / 65_536, code % 65_536).ok()
    }
}
