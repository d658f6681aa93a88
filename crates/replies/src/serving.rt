//! The lines of a plan, served by a store.
ghost use Rattle.std.specs.Prelude.{◌≡◌, ◌++◌, OnOk, string_bytes};
ghost use Rattle.replies.specs.Replies.{text_of_replies};
ghost use Rattle.replies.specs.Requests.{call_of};
ghost use Rattle.replies.specs.Serving.{zone_state, floor_in, listed, served, replies_from};

use super::call::call_of;
use super::reply::Reply;
use super::text::push_line;
use atoms::zones::Zones;
use bank::Bank;
use pacing::floor::FloorRule;
use plan::Line;
use std::alloc::AllocError;
use store::{Store, go_on};

// Writes a reply where there is one.
#[inline(always)]
fn push_reply(text: &mut String, reply: Option<Reply>) -> Result<(), AllocError>
    ensures { OnOk result (string_bytes text.new ≡ string_bytes text.old ++ text_of_replies (listed reply)) }
{
    match reply {
        Some(reply) => push_line(text, reply),
        None => Ok(()),
    }
}

// The reply to a line, by the call that it makes of the store; none to a store line, which asks for none.
fn serve_line<B: Bank>(store: &mut Store<B, Zones, FloorRule>, line: Line) -> Option<Reply>
    ensures state { zone_state B.limit B.cells store.new ≡ (served (call_of line) (floor_in store.old) (zone_state B.limit B.cells store.old)).0 }
    ensures reply { result ≡ (served (call_of line) (floor_in store.old) (zone_state B.limit B.cells store.old)).1 }
    ensures floor { floor_in store.new ≡ floor_in store.old }
{
    match call_of(line) {
        Ok(call) => Some(Reply::from(&go_on(store, &call?))),
        Err(fault) => Some(Reply::Refused(fault)),
    }
}

// Makes the calls of some lines of the store, in order, and writes the replies.
pub fn serve_lines<B: Bank>(
    text: &mut String,
    store: &mut Store<B, Zones, FloorRule>,
    lines: &[Line],
) -> Result<(), AllocError>
    ensures { OnOk result (string_bytes text.new ≡ string_bytes text.old ++ text_of_replies (replies_from (floor_in store.old) (zone_state B.limit B.cells store.old) lines.now)) }
{
    for line in lines {
        let reply = serve_line(store, *line);
        push_reply(text, reply)?;
    }
    Ok(())
}
