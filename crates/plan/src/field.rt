//! The numbers of a line.
ghost use Rattle.std.specs.Prelude.{◌≡◌, suc, ◌+◌, ◌*◌, ◌<◌, ◌≤◌, MatchBool};
ghost use Rattle.plan.specs.Parts.{Numbers, NumberAt, NumbersAt, Scans, mark};

use crate::scanner::{Mismatch, Scanner};

// The byte that ends a number with so many numbers after it.
fn end_of(left: usize) -> u8
    ensures { result ≡ mark left }
{
    if left == 0 { b'\n' } else { b' ' }
}

// Whether a number takes one digit more: a zero takes none, and five digits take no sixth.
fn takes_digit(n: u32) -> bool
    ensures { MatchBool result ((0 < n) × (10 * n + 9 ≤ 99999)) (0 < n → 10 * n ≤ 99999 → ⊥) }
{
    n > 0 && n < 10_000
}

impl Scanner<'_> {
    // A number with so many numbers after it, and the byte that ends it.
    #[inline(always)]
    fn number(&mut self, left: usize) -> Result<u32, Mismatch>
        ensures { Scans (Numbers (suc left)) (NumberAt left) self.old self.new result }
    {
        let mut n = self.digit()?;
        while takes_digit(n) {
            let Ok(d) = self.digit() else { break };
            n = 10 * n + d;
        }
        self.byte(end_of(left))?;
        Ok(n)
    }

    // So many numbers up to the line's end.
    #[inline(always)]
    pub fn numbers<const N: usize>(&mut self) -> Result<[u32; N], Mismatch>
        ensures { Scans (Numbers N) (NumbersAt N) self.old self.new result }
    {
        let mut numbers = [0; N];
        for (i, n) in numbers.iter_mut().enumerate() {
            *n = self.number(N - 1 - i)?;
        }
        Ok(numbers)
    }
}
