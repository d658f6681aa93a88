ghost use Rattle.std.specs.Prelude.{◌≡◌, []};
ghost use Rattle.collector.specs.Lists.{is_empty};
ghost use Rattle.collector.specs.Turns.{pushed};
ghost use Rattle.store.specs.Stacks.{first, popped};

use bank::MOST_CELLS;
use std::marker::Model;

// The most cells that wait at once: as many as a bank has.
const MOST: usize = MOST_CELLS as usize;

// The numbers of the cells that wait to be scanned, the latest last. A plain array: a store has fixed memory, and no call allocates.
#[derive(Drop)]
pub struct Waiting {
    cells: [u16; 4096],
    len: usize,
}

impl Model for Waiting {
    ghost use Rattle.std.specs.Prelude.{ℕ, List, ◌≤◌};

    ghost Value = { List ℕ };

    ghost use Rattle.store.specs.Stacks.{backwards};

    ghost view = { λ w. backwards w.len w.cells };

    ghost invariant = { λ w. w.len ≤ 4096 };
}

impl Waiting {
    pub fn new() -> Waiting
        ensures { result ≡ [] }
    {
        Waiting {
            cells: [0; 4096],
            len: 0,
        }
    }

    pub fn is_empty(&self) -> bool
        ensures { result ≡ is_empty self.now }
    {
        self.len == 0
    }

    pub fn push(&mut self, n: u16)
        ensures { self.new ≡ pushed n self.old }
    {
        if self.len < MOST {
            self.cells[self.len] = n;
            self.len += 1;
        }
    }

    // The latest, or none where nothing waits.
    pub fn pop(&mut self) -> Option<u16>
        ensures latest { result ≡ first self.old }
        ensures left { self.new ≡ popped self.old }
    {
        if self.len == 0 {
            return None;
        }
        self.len -= 1;
        Some(self.cells[self.len])
    }
}
