//! What a line begins with: the name of its call.
ghost use Rattle.std.specs.Prelude.{◌≡◌};
ghost use Rattle.plan.specs.Verbs.{word, arity};
ghost use Rattle.plan.specs.Parts.{CallAt, Numbers, Scans};

use crate::line::Line;
use crate::scanner::{Mismatch, Scanner};

#[derive(Clone, Copy)]
pub enum Verb {
    Store,
    Load,
    Clear,
    Copy,
    Cons,
    Car,
    Cdr,
    Rplaca,
    Rplacd,
    Look,
    Same,
}

// The line of a call, with these names for its fields, in the order in which its numbers come.
macro_rules! line {
    ($call:ident($($field:ident),+), $numbers:expr) => {{
        let [$($field),+] = $numbers?;
        Ok(Line::$call { $($field),+ })
    }};
}

impl Verb {
    // The name and the space after it: no call's is the beginning of another's.
    pub fn word(self) -> &'static [u8]
        ensures { result.now ≡ word self }
    {
        match self {
            Verb::Store => b"store ",
            Verb::Load => b"load ",
            Verb::Clear => b"clear ",
            Verb::Copy => b"copy ",
            Verb::Cons => b"cons ",
            Verb::Car => b"car ",
            Verb::Cdr => b"cdr ",
            Verb::Rplaca => b"rplaca ",
            Verb::Rplacd => b"rplacd ",
            Verb::Look => b"look ",
            Verb::Same => b"same ",
        }
    }

    // The line of the call, whose numbers come.
    #[inline(always)]
    pub fn line(self, text: &mut Scanner) -> Result<Line, Mismatch>
        ensures { Scans (Numbers (arity self)) (CallAt self) text.old text.new result }
    {
        match self {
            Verb::Store => line!(Store(cells, k1, k2, floor), text.numbers::<4>()),
            Verb::Load => line!(Load(register, offset, length), text.numbers::<3>()),
            Verb::Clear => line!(Clear(i), text.numbers::<1>()),
            Verb::Copy => line!(Copy(i, a), text.numbers::<2>()),
            Verb::Cons => line!(Cons(i, a, b), text.numbers::<3>()),
            Verb::Car => line!(Car(i, a), text.numbers::<2>()),
            Verb::Cdr => line!(Cdr(i, a), text.numbers::<2>()),
            Verb::Rplaca => line!(Rplaca(a, b), text.numbers::<2>()),
            Verb::Rplacd => line!(Rplacd(a, b), text.numbers::<2>()),
            Verb::Look => line!(Look(i), text.numbers::<1>()),
            Verb::Same => line!(Same(i, j), text.numbers::<2>()),
        }
    }
}
