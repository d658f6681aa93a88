//! The text that is left of a plan, read from its front.
ghost use Rattle.std.specs.Prelude.{◌≡◌, ◌+◌, ◌<◌, List, ℕ, ◌∷◌, MatchResult};
ghost use Rattle.plan.specs.Parts.{NoDigit};

// No text of the wanted kind goes on with what is left.
#[derive(Drop)]
pub struct Mismatch;

// What is left to read. Where a method fails, it is left at the byte with which no wanted text goes on.
#[derive(Drop)]
pub struct Scanner<'a> {
    pub rest: &'a [u8],
}

impl Scanner<'_> {
    // The value of the digit that comes.
    #[inline(always)]
    pub fn digit(&mut self) -> Result<u32, Mismatch>
        ensures { MatchResult result (λ d. (d < 10) × (self.old.rest.now ≡ (48 + d) ∷ self.new.rest.now)) (λ _. (self.new ≡ self.old) × NoDigit self.old.rest.now) }
    {
        let [b @ b'0'..=b'9', rest @ ..] = self.rest else {
            return Err(Mismatch);
        };
        self.rest = rest;
        Ok(u32::from(b - b'0'))
    }

    // Past this byte, which has to come.
    #[inline(always)]
    pub fn byte(&mut self, byte: u8) -> Result<(), Mismatch>
        ensures { MatchResult result (λ _. self.old.rest.now ≡ byte ∷ self.new.rest.now) (λ _. (self.new ≡ self.old) × ((after : List ℕ) → self.old.rest.now ≡ byte ∷ after → ⊥)) }
    {
        match self.rest {
            [b, rest @ ..] if *b == byte => {
                self.rest = rest;
                Ok(())
            }
            _ => Err(Mismatch),
        }
    }
}
