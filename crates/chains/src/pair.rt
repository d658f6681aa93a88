ghost use Rattle.std.specs.Prelude.{◌≡◌, ◌+◌, ◌*◌, ◌++◌, MatchOption, MatchResult, Some, codes, decimal};
ghost use Rattle.chains.specs.Pairs.{Writes, WritesNone, NoPlus, Parted, ReadsAs, ReadsNone};

use std::fmt;
use std::num::ParseIntError;
use std::str::FromStr;

/// The offset and the length of a zone, as the input writes them: any two of 16 bits, also where no track has the zone.
#[derive(Clone, Copy)]
pub struct ZonePair {
    offset: u16,
    length: u16,
}

/// The text is no offset, plus sign and length.
#[derive(Clone, Copy, PartialEq, Eq, Debug)]
pub struct NotAPair;

// By hand: a derive would need one more crate.
impl From<ParseIntError> for NotAPair {
    fn from(_: ParseIntError) -> NotAPair {
        NotAPair
    }
}

// The number that a text writes.
fn number(text: &str) -> Result<u16, NotAPair>
    ensures { MatchResult result (Writes text.now) (λ _. WritesNone text.now) }
{
    Ok(text.parse()?)
}

// What stands before a text's first plus sign and what stands after it.
fn halves(text: &str) -> Option<(&str, &str)>
    ensures { MatchOption result (NoPlus text.now) (λ p. Parted text.now p.0.now p.1.now) }
{
    text.split_once('+')
}

impl FromStr for ZonePair {
    type Err = NotAPair;

    ghost from_str_gives = { λ text r. MatchResult r (ReadsAs text) (λ _. ReadsNone text) };

    fn from_str(s: &str) -> Result<ZonePair, NotAPair> {
        let (offset, length) = halves(s).ok_or(NotAPair)?;
        Ok(ZonePair {
            offset: number(offset)?,
            length: number(length)?,
        })
    }
}

// The code of a zone is its offset times 65,536, and its length.
impl From<ZonePair> for u32 {
    ghost from_gives = { λ pair code. code ≡ pair.offset * 65536 + pair.length };

    fn from(pair: ZonePair) -> u32 {
        u32::from(pair.offset) * 65536 + u32::from(pair.length)
    }
}

impl From<u32> for ZonePair {
    ghost from_gives = { λ code pair. code ≡ pair.offset * 65536 + pair.length };

    fn from(code: u32) -> ZonePair {
        ZonePair {
            offset: (code / 65536) as u16,
            length: (code % 65536) as u16,
        }
    }
}

impl fmt::Display for ZonePair {
    ghost output = { λ pair. Some (decimal pair.offset ++ codes "+" ++ decimal pair.length) };

    fn fmt<W: fmt::Write>(&self, f: &mut fmt::Formatter<W>) -> fmt::Result {
        write!(f, "{}+{}", self.offset, self.length)
    }
}
