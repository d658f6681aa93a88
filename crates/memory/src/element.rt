ghost use Rattle.std.specs.Prelude.{◌≡◌, ℕ, ◌≤◌, true};
ghost use Rattle.std.proofs.Common.{rules, arith};
ghost use Rattle.bank.specs.declared.word.Cell.{Cell};
ghost use Rattle.bank.specs.Words.{blank, word_in, with_change};
ghost use Rattle.bank.specs.Banks.{fits};
ghost use Rattle.memory.specs.Packing.{packed_top, packed, unpacked};
ghost use Rattle.memory.specs.Elements.{top};

use super::packing;
use bank::{Cell, Change};

// What a memory of cells may be made of: an element holds one cell.
pub(super) trait Element: Copy {
    // The cell that an element shows.
    ghost shows: { Self → Cell };

    // The element that stores a cell.
    ghost stores: { Cell → Self };

    // The largest number that a word of such a cell may have.
    ghost LIMIT: { ℕ };

    // Every cell has a number. Above the methods, where it is a member that others can name, and not below them as a law.
    ghost wide: { 4095 ≤ LIMIT };

    const LIMIT: u32;

    // The element that stores a blank cell.
    fn blank() -> Self
        ensures value { result ≡ stores blank }
        ensures back { shows result ≡ blank };

    fn cell(self) -> Cell
        ensures { result ≡ shows self };

    // The element that stores the cell with the change made, of one that stores what it shows.
    fn changed(self, change: Change) -> Self
        requires fits { fits LIMIT (word_in change) ≡ true }
        requires kept { stores (shows self) ≡ self }
        ensures value { result ≡ stores (with_change change (shows self)) }
        ensures back { shows result ≡ with_change change (shows self) };

    // A clone never fails, and is the element.
    ghost clones: { (x : Self) → Self.is_infallible x };

    ghost copies: { (x y : Self) → Self.is_clone x y → y ≡ x };
}

// A whole cell, packed.
#[tactic(auto, using(crate::proofs::Fields::of_packing))]
impl Element for u64 {
    ghost shows = { unpacked };

    ghost stores = { packed };

    ghost LIMIT = { packed_top };

    ghost wide = { omega arith };

    ghost clones = { Prim.search rules };

    ghost copies = { Prim.search rules };

    const LIMIT: u32 = packing::LIMIT;

    #[inline(always)]
    fn blank() -> u64 {
        0
    }

    #[inline(always)]
    fn cell(self) -> Cell {
        packing::unpack(self)
    }

    #[inline(always)]
    fn changed(self, change: Change) -> u64 {
        match change {
            Change::Car(car) => packing::with_car(self, car),
            Change::Cdr(cdr) => packing::with_cdr(self, cdr),
            Change::Mark(mark) => packing::with_mark(self, mark),
        }
    }
}

// The cell itself.
impl Element for Cell {
    ghost shows = { λ c. c };

    ghost stores = { λ c. c };

    ghost LIMIT = { top };

    ghost wide = { omega arith };

    ghost clones = { Prim.search rules };

    ghost copies = { Prim.search rules };

    const LIMIT: u32 = u32::MAX;

    fn blank() -> Cell {
        Cell::BLANK
    }

    fn cell(self) -> Cell {
        self
    }

    fn changed(self, change: Change) -> Cell {
        self.with(change)
    }
}
