//! A plan, read.
ghost use Rattle.std.specs.Prelude.{◌≡◌, ◌+◌, ◌<◌, ◌≤◌, length, IfOk, nat_lt};
ghost use Rattle.plan.specs.declared.fault.PlanFault.{PlanFault};
ghost use Rattle.plan.specs.Readings.{Written, Parses, Reads, Whole, OneReading};
ghost use Rattle.plan.specs.Parts.{LineAt, Scans};

use crate::fault::PlanFault;
use crate::line::Line;
use crate::scanner::{Mismatch, Scanner};
use std::alloc::{AllocError, Global};

/// The most bytes that a plan has.
pub const MOST_PLAN_BYTES: usize = 32_768;

// The fewest bytes that a line has: a clear or a look of a register of one digit.
const FEWEST_LINE_BYTES: usize = 7;

/// The lines of a plan up to its end, or up to the fault that ends it.
#[derive(PartialEq, Eq, Debug, Drop)]
pub struct Reading {
    pub lines: Vec<Line>,
    pub fault: Option<PlanFault>,
}

// The line that comes, a plan's first or a later one.
#[inline(always)]
fn line(text: &mut Scanner, first: bool) -> Result<Line, Mismatch>
    ensures { Scans (Written first) (LineAt first) text.old text.new result }
{
    text.verb(first)?.line(text)
}

// The fault after so many lines and so many bytes of the next one.
fn fault_after(lines: usize, bytes: usize) -> PlanFault
    requires { (lines ≤ 32768) × (bytes ≤ 32768) }
    ensures { result ≡ PlanFault.Malformed (lines + 1) (bytes + 1) }
{
    PlanFault::Malformed {
        line: (lines + 1) as u32,
        column: (bytes + 1) as u32,
    }
}

// The lines of a text that is not too long.
fn read_lines(heap: Global, bytes: &[u8]) -> Result<Reading, AllocError>
    requires { length bytes.now ≤ 32768 }
    ensures { IfOk result (λ p. Parses bytes.now p.lines.items p.fault) }
{
    let mut lines = Vec::with_capacity(heap, bytes.len() / FEWEST_LINE_BYTES + 1)?;
    let mut text = Scanner { rest: bytes };
    // A plan has at least one line.
    while !text.rest.is_empty() || lines.is_empty() {
        let before = text.rest.len();
        match line(&mut text, lines.is_empty()) {
            Ok(line) => lines.push(line)?,
            Err(Mismatch) => {
                let fault = Some(fault_after(lines.len(), before - text.rest.len()));
                return Ok(Reading { lines, fault });
            }
        }
    }
    Ok(Reading { lines, fault: None })
}

fn is_too_long(bytes: &[u8]) -> bool
    ensures { result ≡ nat_lt 32768 (length bytes.now) }
{
    bytes.len() > MOST_PLAN_BYTES
}

/// A plan's lines, and the fault that ends it if there is one. A text has one reading.
pub fn read_plan(heap: Global, bytes: &[u8]) -> Result<Reading, AllocError>
    ensures reads { IfOk result (λ p. Reads bytes.now p.lines.items p.fault) }
    ensures whole { IfOk result (λ p. Whole bytes.now p.lines.items p.fault) }
    ensures only { OneReading }
{
    if is_too_long(bytes) {
        let fault = Some(PlanFault::TooLong);
        return Ok(Reading {
            lines: Vec::new(heap),
            fault,
        });
    }
    read_lines(heap, bytes)
}
