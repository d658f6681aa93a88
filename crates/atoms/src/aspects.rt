//! The kind whose values are aspects: the upper bits of the code tell the aspect, the lowest 8 its number.
ghost use Rattle.std.specs.Prelude.{◌≡◌, ◌≤◌};
ghost use Rattle.atoms.specs.Aspects.{aspect_code, aspect_of};
ghost use Rattle.atoms.specs.Laws.{aspects-law};

use super::aspect::{Aspect, Seconds, Train};
use super::kind::Kind;

#[derive(Clone, Copy, PartialEq, Eq, Debug)]
pub struct Aspects;

impl Kind for Aspects {
    type Value = Aspect;

    ghost coded = { λ _. aspect_code };

    ghost valued = { λ _. aspect_of };

    ghost lawful = { λ _. aspects-law };

    fn code(&self, value: &Aspect) -> u32 {
        match *value {
            Aspect::Clear => 0,
            Aspect::Hold(seconds) => 256 + u32::from(seconds.get()),
            Aspect::Occupied(train) => 512 + u32::from(train.get()),
        }
    }

    fn value(&self, code: u32) -> Option<Aspect> {
        match code {
            0 => Some(Aspect::Clear),
            256..=511 => Some(held(code)),
            512..=767 => Some(occupied(code)),
            _ => None,
        }
    }
}

// The hold that has a code of the block from 256 on.
fn held(code: u32) -> Aspect
    requires from { 256 ≤ code }
    requires to { code ≤ 511 }
    ensures { code ≡ aspect_code result }
{
    Aspect::Hold(Seconds::new((code - 256) as u8))
}

// The occupied block that has a code of the block from 512 on.
fn occupied(code: u32) -> Aspect
    requires from { 512 ≤ code }
    requires to { code ≤ 767 }
    ensures { code ≡ aspect_code result }
{
    Aspect::Occupied(Train::new((code - 512) as u8))
}
