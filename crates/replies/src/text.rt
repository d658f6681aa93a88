//! The text that is printed for a reply.
ghost use Rattle.std.specs.Prelude.{◌≡◌, ◌+◌, ◌<◌, [], ◌∷◌, ◌++◌, OnOk, string_bytes, decimal};
ghost use Rattle.replies.specs.Replies.{line_of};

use super::reply::Reply;
use std::alloc::AllocError;

// The line of a reply. Its commonest words are put in as they are, since a formatter takes longer.
#[inline(always)]
pub fn push_line(text: &mut String, reply: Reply) -> Result<(), AllocError>
    ensures { OnOk result (string_bytes text.new ≡ string_bytes text.old ++ line_of reply) }
{
    match reply {
        Reply::Done => text.push_str("ok\n"),
        Reply::Nil => text.push_str("nil\n"),
        Reply::Cell => text.push_str("cell\n"),
        Reply::Same(true) => text.push_str("yes\n"),
        Reply::Same(false) => text.push_str("no\n"),
        Reply::Worked(work) => {
            text.push_str("ok ")?;
            push_number(text, work)?;
            text.push_str("\n")
        }
        _ => push_formatted(text, reply),
    }
}

// The work of a turn has two digits at most.
#[tactic(auto, using(crate::proofs::Numbers::one_digit))]
fn push_number(text: &mut String, n: u32) -> Result<(), AllocError>
    ensures { OnOk result (string_bytes text.new ≡ string_bytes text.old ++ decimal n) }
{
    match n {
        0..=9 => push_digit(text, n),
        10..=99 => {
            push_digit(text, n / 10)?;
            push_digit(text, n % 10)
        }
        _ => write!(text, "{n}"),
    }
}

#[inline(always)]
fn push_digit(text: &mut String, d: u32) -> Result<(), AllocError>
    requires { d < 10 }
    ensures { OnOk result (string_bytes text.new ≡ string_bytes text.old ++ (48 + d) ∷ []) }
{
    text.push(char::from(b'0' + d as u8))
}

#[inline(never)]
fn push_formatted(text: &mut String, reply: Reply) -> Result<(), AllocError>
    ensures { OnOk result (string_bytes text.new ≡ string_bytes text.old ++ line_of reply) }
{
    writeln!(text, "{reply}")
}
