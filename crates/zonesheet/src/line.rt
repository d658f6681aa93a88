//! What a line holds: two numbers with one space between them.
ghost use Rattle.std.specs.Prelude.{Some, MatchOption};
ghost use Rattle.zonesheet.specs.Lines.{Writes, WritesNone, NoSpace, Parted, ReadsPair, why};

use std::fmt;

/// Why a line holds no two numbers.
#[derive(Clone, Copy)]
pub enum LineFault {
    NotText,
    NotTwo,
    Offset,
    Length,
}

impl fmt::Display for LineFault {
    ghost output = { λ f. Some (why f) };

    fn fmt<W: fmt::Write>(&self, f: &mut fmt::Formatter<W>) -> fmt::Result {
        f.write_str(match *self {
            LineFault::NotText => "not text",
            LineFault::NotTwo => "an offset, a space and a length are wanted",
            LineFault::Offset => "the offset is no number from 0 to 4294967295",
            LineFault::Length => "the length is no number from 0 to 4294967295",
        })
    }
}

// The number that a text writes, or none.
fn number(text: &str) -> Option<u32>
    ensures { MatchOption result (WritesNone text.now) (Writes text.now) }
{
    text.parse::<u32>().ok()
}

// What stands before a line's first space and what stands after it.
fn halves(line: &str) -> Option<(&str, &str)>
    ensures { MatchOption result (NoSpace line.now) (λ p. Parted line.now p.0.now p.1.now) }
{
    line.split_once(' ')
}

/// The two numbers of a line, or the first reason why it has none.
pub fn read_pair(line: &str) -> Result<(u32, u32), LineFault>
    ensures { ReadsPair line.now result }
{
    let (left, right) = halves(line).ok_or(LineFault::NotTwo)?;
    let offset = number(left).ok_or(LineFault::Offset)?;
    let length = number(right).ok_or(LineFault::Length)?;
    Ok((offset, length))
}
