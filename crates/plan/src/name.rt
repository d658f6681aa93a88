//! The name that a line begins with.
ghost use Rattle.std.specs.Prelude.{◌≡◌, ◌≤◌, ◌∷◌, length, false, IfSome};
ghost use Rattle.plan.specs.Names.{table, agree, found, closest};
ghost use Rattle.plan.specs.Verbs.{word};
ghost use Rattle.plan.specs.Readings.{Written};
ghost use Rattle.plan.specs.Parts.{NameAt, Scans};

use crate::scanner::{Mismatch, Scanner};
use crate::verb::Verb;

const FIRST: [Verb; 1] = [Verb::Store];

const LATER: [Verb; 10] = [
    Verb::Load,
    Verb::Clear,
    Verb::Copy,
    Verb::Cons,
    Verb::Car,
    Verb::Cdr,
    Verb::Rplaca,
    Verb::Rplacd,
    Verb::Look,
    Verb::Same,
];

// The verbs of a plan's first line, or of a later one.
fn verbs(first: bool) -> &'static [Verb]
    ensures { result.now ≡ table first }
{
    if first { &FIRST } else { &LATER }
}

// How many bytes a word and a text have in common from their start on.
fn agreement(word: &[u8], text: &[u8]) -> usize
    ensures { result ≡ agree word.now text.now }
{
    word.iter().zip(text).take_while(|(a, b)| a == b).count()
}

// The verb of these with whose word the text begins.
fn verb_at(verbs: &[Verb], text: &[u8]) -> Option<Verb>
    ensures value { result ≡ found verbs.now text.now }
    ensures within { IfSome result (λ v. length (word v) ≤ length text.now) }
{
    verbs.iter().copied().find(|v| text.starts_with(v.word()))
}

// The most bytes that the text has in common with the word of one of these verbs.
fn closest(verbs: &[Verb], text: &[u8]) -> usize
    ensures value { result ≡ closest verbs.now text.now }
    ensures within { result ≤ length text.now }
{
    verbs
        .iter()
        .map(|v| agreement(v.word(), text))
        .max()
        .unwrap_or(0)
}

// The verb of a later line and what comes after its word. All at once, where a search would compare the text with word after word.
#[inline(always)]
fn later(text: &[u8]) -> Option<(Verb, &[u8])>
    ensures { IfSome result (λ r. NameAt false text.now r.0 r.1.now) }
{
    match text {
        [b'c', rest @ ..] => later_with_c(rest),
        [b'l', b'o', b'a', b'd', b' ', rest @ ..] => Some((Verb::Load, rest)),
        [b'r', b'p', b'l', b'a', b'c', b'a', b' ', rest @ ..] => Some((Verb::Rplaca, rest)),
        [b'r', b'p', b'l', b'a', b'c', b'd', b' ', rest @ ..] => Some((Verb::Rplacd, rest)),
        [b'l', b'o', b'o', b'k', b' ', rest @ ..] => Some((Verb::Look, rest)),
        [b's', b'a', b'm', b'e', b' ', rest @ ..] => Some((Verb::Same, rest)),
        _ => None,
    }
}

// The same behind the c that half of the words begin with: the prover is faster with two matches of five than with one of ten.
#[inline(always)]
fn later_with_c(text: &[u8]) -> Option<(Verb, &[u8])>
    ensures { IfSome result (λ r. NameAt false (99 ∷ text.now) r.0 r.1.now) }
{
    match text {
        [b'l', b'e', b'a', b'r', b' ', rest @ ..] => Some((Verb::Clear, rest)),
        [b'o', b'p', b'y', b' ', rest @ ..] => Some((Verb::Copy, rest)),
        [b'o', b'n', b's', b' ', rest @ ..] => Some((Verb::Cons, rest)),
        [b'a', b'r', b' ', rest @ ..] => Some((Verb::Car, rest)),
        [b'd', b'r', b' ', rest @ ..] => Some((Verb::Cdr, rest)),
        _ => None,
    }
}

impl Scanner<'_> {
    // The name of a call and the space after it, by a search among those that may stand there.
    #[cold]
    fn search(&mut self, first: bool) -> Result<Verb, Mismatch>
        ensures { Scans (Written first) (NameAt first) self.old self.new result }
    {
        let verbs = verbs(first);
        let Some(verb) = verb_at(verbs, self.rest) else {
            // The last place to which one of them goes along with the text.
            self.rest = &self.rest[closest(verbs, self.rest)..];
            return Err(Mismatch);
        };
        self.rest = &self.rest[verb.word().len()..];
        Ok(verb)
    }

    // The name of a call and the space after it.
    #[inline(always)]
    pub fn verb(&mut self, first: bool) -> Result<Verb, Mismatch>
        ensures { Scans (Written first) (NameAt first) self.old self.new result }
    {
        if first {
            return self.search(true);
        }
        let Some((verb, rest)) = later(self.rest) else {
            return self.search(false);
        };
        self.rest = rest;
        Ok(verb)
    }
}
