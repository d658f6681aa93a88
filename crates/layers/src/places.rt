ghost use Rattle.std.specs.Prelude.{◌≡◌, ◌+◌, ◌*◌, ◌/◌, ◌%◌, ◌<◌, ◌==◌, None, slice_index_or, slice_set};
ghost use Rattle.bank.specs.Banks.{fitted, merged};
ghost use Rattle.layers.specs.Holds.{none_kept, kept_for, seen};

use bank::{Cell, Word};

/// A kept cell with its row: that of cell n is n / 16.
#[derive(Clone, Copy, PartialEq, Eq, Debug)]
pub struct Kept {
    row: u8,
    pub(super) cell: Cell,
}

/// Place i is for the cells whose number leaves i on division by 16.
#[derive(Clone, Copy, PartialEq, Eq, Debug)]
pub struct Places {
    slots: [Option<Kept>; 16],
}

impl Kept {
    // The number of the cell, where cell n has the same place.
    pub(super) fn number(&self, n: u32) -> u32
        ensures { result ≡ self.now.row * 16 + n % 16 }
    {
        u32::from(self.row) * 16 + n % 16
    }

    // Whether it is cell n, which has the same place.
    pub(super) fn is_cell(&self, n: u32) -> bool
        ensures { result ≡ (self.now.row == n / 16) }
    {
        u32::from(self.row) == n / 16
    }
}

impl Places {
    #[tactic(auto, unfolding(crate::specs::Holds::none_kept))]
    pub(super) fn empty() -> Places
        ensures { result.slots ≡ none_kept }
    {
        Places { slots: [None; 16] }
    }

    // What the place of cell n keeps.
    pub(super) fn get(&self, n: u32) -> Option<Kept>
        ensures { result ≡ slice_index_or self.now.slots (n % 16) None }
    {
        self.slots[(n % 16) as usize]
    }

    // The same, and the place keeps nothing then.
    pub(super) fn take(&mut self, n: u32) -> Option<Kept>
        ensures value { result ≡ slice_index_or self.old.slots (n % 16) None }
        ensures after { self.new.slots ≡ slice_set self.old.slots (n % 16) None }
    {
        self.slots[(n % 16) as usize].take()
    }

    // Keeps cell n in its place.
    pub(super) fn keep(&mut self, n: u32, cell: Cell)
        requires { n < 4096 }
        ensures { self.new.slots ≡ slice_set self.old.slots (n % 16) (kept_for n cell) }
    {
        self.slots[(n % 16) as usize] = Some(Kept {
            row: (n / 16) as u8,
            cell,
        });
    }

    /// What is seen of cell n, given the cell below.
    pub fn over(&self, limit: u32, n: u32, below: Cell) -> Cell
        ensures { result ≡ seen limit self.now.slots n below }
    {
        match self.get(n) {
            Some(kept) if kept.is_cell(n) => merge(limit, kept.cell, below),
            _ => below,
        }
    }
}

// A cell laid over another, each word where it fits.
pub(super) fn merge(limit: u32, cell: Cell, below: Cell) -> Cell
    ensures { result ≡ merged limit cell below }
{
    Cell {
        car: fit(limit, cell.car, below.car),
        cdr: fit(limit, cell.cdr, below.cdr),
        mark: cell.mark,
    }
}

fn fit(limit: u32, word: Word, below: Word) -> Word
    ensures { result ≡ fitted limit word below }
{
    if word.number() <= limit { word } else { below }
}
