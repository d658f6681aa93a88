ghost use Rattle.std.specs.Prelude.{◌≡◌, ℕ, ◌+◌, ◌&&◌, [], ◌∷◌, IfErr, Some, nat_le};
ghost use Rattle.atoms.specs.Bounds.{IsZone};

use crate::fault::ZoneFault;
use std::fmt;

/// A stretch of track, in track units from the start of the circuit.
#[derive(Clone, Copy, PartialEq, Eq, Debug)]
pub struct Zone {
    offset: u16,
    length: u16,
    ghost fits: { IsZone offset length },
}

impl Zone {
    ghost use Rattle.std.specs.Result.{result_ok};
    ghost use Rattle.atoms.specs.Refusals.{told};
    ghost use Rattle.atoms.specs.Zones.{zone_at, covered};

    /// The zone of any pair, refused where the pair is none.
    pub fn new(offset: u32, length: u32) -> Result<Zone, ZoneFault>
        ensures made { result_ok result ≡ zone_at offset length }
        ensures refused { IfErr result (λ f. told f ≡ (4, offset ∷ length ∷ [])) }
    {
        // The first test keeps the difference of the second from wrapping.
        if !(1..=65_535).contains(&length) || offset > 65_536 - length {
            return Err(ZoneFault::NotAZone { offset, length });
        }
        Ok(Zone {
            offset: offset as u16,
            length: length as u16,
        })
    }

    pub fn offset(&self) -> u16
        ensures { result ≡ self.now.offset }
    {
        self.offset
    }

    pub fn length(&self) -> u16
        ensures { result ≡ self.now.length }
    {
        self.length
    }

    /// The last position that the zone covers.
    pub fn last(&self) -> u16
        ensures value { result + 1 ≡ self.now.offset + self.now.length }
        ensures span { (p : ℕ) → covered self.now p ≡ (nat_le self.now.offset p && nat_le p result) }
    {
        // 1 is taken off first, since offset + length may be 65,536, one too many for the type.
        (self.length - 1) + self.offset
    }

    /// Whether the zone covers the position `p`.
    pub fn covers(&self, p: u32) -> bool
        ensures { result ≡ covered self.now p }
    {
        let start = u32::from(self.offset);
        (start..start + u32::from(self.length)).contains(&p)
    }
}

impl fmt::Display for Zone {
    ghost use Rattle.atoms.specs.Zones.{pair_text};

    ghost output = { λ z. Some (pair_text z) };

    fn fmt<W: fmt::Write>(&self, f: &mut fmt::Formatter<W>) -> fmt::Result {
        let Zone { offset, length } = *self;
        write!(f, "{offset} {length}")
    }
}
