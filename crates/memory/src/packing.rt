ghost use Rattle.std.specs.Prelude.{◌≡◌, ◌^◌, ◌<◌, ◌≤◌, Ok};
ghost use Rattle.bank.specs.Words.{number_of, with_car, with_cdr, with_mark};
ghost use Rattle.bank.specs.Banks.{taken};
ghost use Rattle.memory.specs.Packing.{packed_top, above, field_of, kind_of, word_bits, word_of_bits, packed, unpacked, packing, Narrow, IsPacked, ReadsBack, PacksApart};

use bank::{BankFault, Cell, Word};

/// The largest number that a packed word holds.
pub const LIMIT: u32 = 268_435_455;

/// The packed cell, or the refusal of its first word that is too wide.
#[tactic(auto, using(crate::proofs::Fields::of_packing))]
pub fn pack(cell: Cell) -> Result<u64, BankFault>
    ensures value { result ≡ packing cell }
    ensures back { ReadsBack }
    ensures apart { PacksApart }
{
    check(cell)?;
    Ok(packed_cell(cell))
}

// Refuses a cell with a word that is too wide, the car first.
fn check(cell: Cell) -> Result<(), BankFault>
    ensures { result ≡ taken packed_top cell.car (taken packed_top cell.cdr (Ok tt)) }
{
    cell.car.within(LIMIT)?;
    cell.cdr.within(LIMIT)
}

/// The cell that the bits hold; those above the mark say nothing.
#[inline(always)]
pub fn unpack(bits: u64) -> Cell
    ensures { result ≡ unpacked bits }
{
    Cell {
        car: unpacked_word(field(bits, 0, 30)),
        cdr: unpacked_word(field(bits, 30, 30)),
        mark: field(bits, 60, 1) == 1,
    }
}

// The bits of a cell whose words fit.
pub(super) fn packed_cell(cell: Cell) -> u64
    requires { Narrow cell }
    ensures { result ≡ packed cell }
{
    let marked = above(cell.mark as u64, 30, packed_word(cell.cdr));
    above(marked, 30, packed_word(cell.car))
}

// The bits of a packed cell with one part put anew: the others stay where they are, packed as they were.
#[tactic(auto, using(crate::proofs::Fields::of_changing))]
#[inline(always)]
pub(super) fn with_car(bits: u64, car: Word) -> u64
    requires fits { number_of car ≤ packed_top }
    requires kept { IsPacked bits }
    ensures { result ≡ packed (with_car car (unpacked bits)) }
{
    above(field(bits, 30, 31), 30, packed_word(car))
}

#[tactic(auto, using(crate::proofs::Fields::of_changing))]
#[inline(always)]
pub(super) fn with_cdr(bits: u64, cdr: Word) -> u64
    requires fits { number_of cdr ≤ packed_top }
    requires kept { IsPacked bits }
    ensures { result ≡ packed (with_cdr cdr (unpacked bits)) }
{
    let high = above(field(bits, 60, 1), 30, packed_word(cdr));
    above(high, 30, field(bits, 0, 30))
}

#[tactic(auto, using(crate::proofs::Fields::of_changing))]
#[inline(always)]
pub(super) fn with_mark(bits: u64, mark: bool) -> u64
    requires kept { IsPacked bits }
    ensures { result ≡ packed (with_mark mark (unpacked bits)) }
{
    above(mark as u64, 60, field(bits, 0, 60))
}

#[inline(always)]
fn packed_word(word: Word) -> u64
    requires { number_of word ≤ packed_top }
    ensures value { result ≡ word_bits word }
    ensures small { result < 2 ^ 30 }
{
    above(kind(word), 28, word.number() as u64)
}

#[inline(always)]
fn unpacked_word(bits: u64) -> Word
    ensures { result ≡ word_of_bits bits }
{
    let number = field(bits, 0, 28) as u32;
    match field(bits, 28, 2) {
        0 => Word::Nil,
        1 => Word::Cell(number),
        2 => Word::Atom(number),
        _ => Word::Reserved,
    }
}

// The kind as the number that the format gives it. Not forced in place: made simple by itself, it is the variant's number.
fn kind(word: Word) -> u64
    ensures value { result ≡ kind_of word }
    ensures small { result < 4 }
{
    match word {
        Word::Nil => 0,
        Word::Cell(_) => 1,
        Word::Atom(_) => 2,
        Word::Reserved => 3,
    }
}

// A field of `wide` bits with `low` in it, and `high` above it.
#[tactic(auto, using(crate::proofs::Fields::of_packing))]
#[inline(always)]
fn above(high: u64, wide: u32, low: u64) -> u64
    requires narrow { low < 2 ^ wide }
    requires fits { above high wide low < 2 ^ 64 }
    requires shift { wide < 64 }
    ensures { result ≡ above high wide low }
{
    (high << wide) | low
}

// The field of `wide` bits that begins at bit `at`.
#[tactic(auto, using(crate::proofs::Fields::of_packing))]
#[inline(always)]
fn field(bits: u64, at: u32, wide: u32) -> u64
    requires start { at < 64 }
    requires shift { wide < 64 }
    ensures value { result ≡ field_of bits at wide }
    ensures small { result < 2 ^ wide }
{
    (bits >> at) & ((1 << wide) - 1)
}
