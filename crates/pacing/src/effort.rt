ghost use Rattle.std.specs.Prelude.{◌≡◌, ◌↔◌, [], ◌∷◌, IfErr, IsTrue};
ghost use Rattle.pacing.specs.Shares.{IsShare, IsEffort};

use crate::fault::EffortFault;

/// How much a turn does: at most k1 cells scanned in a mark turn, at most k2 swept in a sweep turn.
#[derive(Clone, Copy, PartialEq, Eq, Debug)]
pub struct Effort {
    k1: u8,
    k2: u8,
    ghost fits: { IsEffort k1 k2 },
}

fn is_share(k: u32) -> bool
    ensures { IsTrue result ↔ IsShare k }
{
    (1..=64).contains(&k)
}

impl Effort {
    ghost use Rattle.std.specs.Result.{result_ok};
    ghost use Rattle.pacing.specs.Efforts.{effort_at};
    ghost use Rattle.pacing.specs.Refusals.{told};

    /// The effort of any pair, refused unless each is 1 to 64.
    pub fn new(k1: u32, k2: u32) -> Result<Effort, EffortFault>
        ensures made { result_ok result ≡ effort_at k1 k2 }
        ensures refused { IfErr result (λ f. told f ≡ (3, k1 ∷ k2 ∷ [])) }
    {
        if !is_share(k1) || !is_share(k2) {
            return Err(EffortFault::OutOfRange { k1, k2 });
        }
        Ok(Effort {
            k1: k1 as u8,
            k2: k2 as u8,
        })
    }

    pub fn k1(&self) -> u8
        ensures { result ≡ self.now.k1 }
    {
        self.k1
    }

    pub fn k2(&self) -> u8
        ensures { result ≡ self.now.k2 }
    {
        self.k2
    }
}
