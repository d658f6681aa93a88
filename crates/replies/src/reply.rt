//! What is printed for a line of a plan: one case for each form of text, refusals included.
ghost use Rattle.std.specs.Prelude.{◌≡◌, Some};
ghost use Rattle.replies.specs.Replies.{reply_text, reply_in, reply_of, answer_reply, seen_reply};

use super::fault::LineFault;
use atoms::Zone;
use listcalls::{Answer, Outcome, Seen};
use std::fmt;

#[derive(Clone, Copy, PartialEq, Eq, Debug)]
pub enum Reply {
    Done,
    /// of a cons, with the work of its turn
    Worked(u32),
    Nil,
    Cell,
    Atom(Zone),
    Same(bool),
    Refused(LineFault),
}

impl fmt::Display for Reply {
    ghost output = { λ r. Some (reply_text r) };

    fn fmt<W: fmt::Write>(&self, f: &mut fmt::Formatter<W>) -> fmt::Result {
        match *self {
            Reply::Done => f.write_str("ok"),
            Reply::Worked(work) => write!(f, "ok {work}"),
            Reply::Nil => f.write_str("nil"),
            Reply::Cell => f.write_str("cell"),
            Reply::Atom(zone) => write!(f, "zone {zone}"),
            Reply::Same(true) => f.write_str("yes"),
            Reply::Same(false) => f.write_str("no"),
            Reply::Refused(fault) => write!(f, "{fault}"),
        }
    }
}

// A line's reply, or its refusal.
impl From<Result<Reply, LineFault>> for Reply {
    ghost from_gives = { λ e r. r ≡ reply_in e };

    fn from(res: Result<Reply, LineFault>) -> Reply {
        match res {
            Ok(reply) => reply,
            Err(fault) => Reply::Refused(fault),
        }
    }
}

// What a line is answered by the outcome of its call. The store's fault goes up whole.
fn answered(outcome: &Outcome<Zone>) -> Result<Reply, LineFault>
    ensures { reply_in result ≡ reply_of outcome.now }
{
    let answer = outcome.as_ref().map_err(|fault| *fault)?;
    Ok(answer.into())
}

// The reply to a line by the outcome of its call.
impl From<&Outcome<Zone>> for Reply {
    ghost from_gives = { λ e r. r ≡ reply_of e.now };

    fn from(outcome: &Outcome<Zone>) -> Reply {
        answered(outcome).into()
    }
}

impl From<&Answer<Zone>> for Reply {
    ghost from_gives = { λ e r. r ≡ answer_reply e.now };

    fn from(answer: &Answer<Zone>) -> Reply {
        match answer {
            Answer::Done => Reply::Done,
            Answer::Worked(work) => Reply::Worked(*work),
            Answer::Saw(seen) => seen.into(),
            Answer::Same(same) => Reply::Same(*same),
        }
    }
}

impl From<&Seen<Zone>> for Reply {
    ghost from_gives = { λ e r. r ≡ seen_reply e.now };

    fn from(seen: &Seen<Zone>) -> Reply {
        match *seen {
            Seen::Nil => Reply::Nil,
            Seen::Cell => Reply::Cell,
            Seen::Atom(zone) => Reply::Atom(zone),
        }
    }
}
