//! A plan, answered.
ghost use Rattle.std.specs.Prelude.{◌≡◌, ◌++◌, length, IfOk, OnOk, Ok, Some, string_bytes};
ghost use Rattle.collector.specs.Laws.{LawfulRun};
ghost use Rattle.replies.specs.Replies.{text_of_replies};
ghost use Rattle.replies.specs.Sessions.{plan_fixed, events_of, replies_in, Added, Answered, text_of_fault, later};

use super::opening::{Opening, open_plan};
use super::reply::Reply;
use super::serving::serve_lines;
use super::text::push_line;
use atoms::zones::Zones;
use bank::{Bank, MOST_CELLS};
use memory::PackedBank;
use pacing::fault::EffortFault;
use pacing::floor::FloorRule;
use plan::{Line, PlanFault, read_plan};
use std::alloc::{AllocError, Global};
use store::Store;

// Most replies have no more bytes.
const USUAL_REPLY_BYTES: usize = 8;

// Writes the replies of a new store over a bank. Generic in the bank: all that the proof then meets is what a bank means.
fn serve_on<B: Bank + Drop>(
    text: &mut String,
    bank: B,
    opening: Opening,
    lines: &[Line],
) -> Result<(), AllocError>
    ensures text { OnOk result (string_bytes text.new ≡ string_bytes text.old ++ text_of_replies (replies_in (B.limit bank) (length (B.cells bank)) opening lines.now)) }
    ensures lawful { LawfulRun (plan_fixed (B.limit bank) opening) (length (B.cells bank)) (events_of (B.limit bank) (length (B.cells bank)) opening lines.now) }
{
    let rule = FloorRule::new(opening.floor);
    let mut store = Store::new(bank, Zones, rule, opening.effort);
    push_line(text, Reply::Done)?;
    serve_lines(text, &mut store, lines)
}

// The same over packed cells in memory of its own.
fn serve(
    heap: Global,
    text: &mut String,
    opening: Opening,
    lines: &[Line],
) -> Result<(), AllocError>
    ensures { OnOk result (Added (Ok (Some opening)) lines.now (string_bytes text.old) (string_bytes text.new)) }
{
    let size = opening.cells.min(MOST_CELLS) as usize;
    let mut memory = vec![in heap; 0u64; size]?;
    serve_on(text, PackedBank::new(memory.as_mut_slice()), opening, lines)
}

// Writes the replies to a plan's lines, of which these are the later ones.
fn push_replies(
    heap: Global,
    text: &mut String,
    opening: Result<Option<Opening>, EffortFault>,
    lines: &[Line],
) -> Result<(), AllocError>
    ensures { OnOk result (Added opening lines.now (string_bytes text.old) (string_bytes text.new)) }
{
    match opening {
        Ok(Some(opening)) => serve(heap, text, opening, lines),
        Ok(None) => Ok(()),
        Err(fault) => push_line(text, Reply::Refused(fault.into())),
    }
}

fn after_first(lines: &[Line]) -> &[Line]
    ensures { result.now ≡ later lines.now }
{
    let Some((_, rest)) = lines.split_first() else {
        return lines;
    };
    rest
}

// What is printed of the fault that ends a plan, if it comes to that.
fn push_fault(
    text: &mut String,
    opening: Result<Option<Opening>, EffortFault>,
    fault: Option<PlanFault>,
) -> Result<(), AllocError>
    ensures { OnOk result (string_bytes text.new ≡ string_bytes text.old ++ text_of_fault opening fault) }
{
    match (opening, fault) {
        (Ok(_), Some(fault)) => writeln!(text, "{fault}"),
        _ => Ok(()),
    }
}

/// The text that is printed for a plan: its calls are made of a store of its own, and the laws of runs hold of them.
pub fn answer_plan(heap: Global, bytes: &[u8]) -> Result<String, AllocError>
    ensures { IfOk result (λ t. Answered bytes.now (string_bytes t)) }
{
    let reading = read_plan(heap, bytes)?;
    let lines = reading.lines.as_slice();
    let opening = open_plan(lines);
    let mut text = String::with_capacity(heap, USUAL_REPLY_BYTES.saturating_mul(lines.len()))?;
    push_replies(heap, &mut text, opening, after_first(lines))?;
    push_fault(&mut text, opening, reading.fault)?;
    Ok(text)
}
