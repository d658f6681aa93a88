ghost use Rattle.std.specs.Prelude.{◌≡◌, ◌%◌, ◌<◌, None, Option, length, nat_lt, is_ok, if◌then◌else◌, slice_index_or, slice_set};
ghost use Rattle.bank.specs.Words.{blank, with_change};
ghost use Rattle.bank.specs.Banks.{change_taken, change_put, cell_put, merged};
ghost use Rattle.layers.specs.declared.places.Kept.{Kept};
ghost use Rattle.layers.specs.Holds.{none_kept, kept_for, hold_cells, spilled, evicted, sound-hold};

use super::places::{Places, merge};
use bank::{Bank, BankFault, Cell, Change};

/// Keeps written cells in 16 places, and writes one below only when another needs its place.
#[derive(Drop)]
pub struct Hold<B> {
    below: B,
    places: Places,
}

impl<B: Bank> Hold<B> {
    #[tactic(auto, using(crate::proofs::Holding::held_none))]
    pub fn new(below: B) -> Hold<B>
        ensures below { result.below ≡ below }
        ensures empty { result.places.slots ≡ none_kept }
        ensures same { hold_cells B.Bank.limit B.Bank.cells result ≡ B.Bank.cells below }
    {
        Hold {
            below,
            places: Places::empty(),
        }
    }

    pub fn into_parts(self) -> (B, Places)
        ensures below { result.0 ≡ self.below }
        ensures places { result.1 ≡ self.places }
    {
        let Hold { below, places } = self;
        (below, places)
    }

    /// Writes every kept cell below, by place.
    pub fn settle(&mut self)
        ensures same { hold_cells B.Bank.limit B.Bank.cells self.new ≡ hold_cells B.Bank.limit B.Bank.cells self.old }
        ensures below { B.Bank.cells self.new.below ≡ hold_cells B.Bank.limit B.Bank.cells self.old }
        ensures empty { self.new.places.slots ≡ none_kept }
        ensures fixed { B.Bank.limit self.new.below ≡ B.Bank.limit self.old.below }
        ensures beside { B.Bank.beside self.new.below ≡ B.Bank.beside self.old.below }
    {
        for i in 0..16 {
            self.spill(i);
        }
    }

    // Empties the place of cell n, and writes below what it kept.
    #[tactic(auto, unfolding(crate::specs::Holds::spilled))]
    fn spill(&mut self, n: u32)
        ensures below { B.Bank.cells self.new.below ≡ spilled (B.Bank.limit self.old.below) (slice_index_or self.old.places.slots (n % 16) None) (n % 16) (B.Bank.cells self.old.below) }
        ensures empty { self.new.places.slots ≡ slice_set self.old.places.slots (n % 16) None }
        ensures fixed { B.Bank.limit self.new.below ≡ B.Bank.limit self.old.below }
        ensures beside { B.Bank.beside self.new.below ≡ B.Bank.beside self.old.below }
    {
        if let Some(kept) = self.places.take(n) {
            self.below.write_cell(kept.number(n), kept.cell);
        }
    }

    // Makes room for cell n.
    fn evict(&mut self, n: u32)
        ensures below { B.Bank.cells self.new.below ≡ evicted (B.Bank.limit self.old.below) (slice_index_or self.old.places.slots (n % 16) None) n (B.Bank.cells self.old.below) }
        ensures rest { (p : Option Kept) → slice_set self.new.places.slots (n % 16) p ≡ slice_set self.old.places.slots (n % 16) p }
        ensures fixed { B.Bank.limit self.new.below ≡ B.Bank.limit self.old.below }
        ensures beside { B.Bank.beside self.new.below ≡ B.Bank.beside self.old.below }
    {
        if let Some(kept) = self.places.get(n)
            && !kept.is_cell(n)
        {
            self.spill(n);
        }
    }

    // Keeps a whole cell, whose words fit or stand below.
    fn keep(&mut self, n: u32, cell: Cell)
        requires here { n < length (B.Bank.cells self.old.below) }
        requires whole { merged (B.Bank.limit self.old.below) cell (slice_index_or (B.Bank.cells self.old.below) n blank) ≡ cell }
        ensures after { hold_cells B.Bank.limit B.Bank.cells self.new ≡ slice_set (hold_cells B.Bank.limit B.Bank.cells self.old) n cell }
        ensures kept { self.new.places.slots ≡ slice_set self.old.places.slots (n % 16) (kept_for n cell) }
        ensures below { B.Bank.cells self.new.below ≡ evicted (B.Bank.limit self.old.below) (slice_index_or self.old.places.slots (n % 16) None) n (B.Bank.cells self.old.below) }
        ensures fixed { B.Bank.limit self.new.below ≡ B.Bank.limit self.old.below }
        ensures beside { B.Bank.beside self.new.below ≡ B.Bank.beside self.old.below }
    {
        self.evict(n);
        self.places.keep(n, cell);
    }
}

impl<B: Bank> Bank for Hold<B> {
    ghost limit = { λ s. B.Bank.limit s.below };

    ghost cells = { hold_cells B.Bank.limit B.Bank.cells };

    ghost sound = { λ s. sound-hold s.places.slots (B.Bank.sound s.below) };

    // What is written late is written into the cells below, so nothing but what stands beside those is left.
    ghost Beside = { B.Bank.Beside };

    ghost beside = { λ s. B.Bank.beside s.below };

    #[tactic(auto, using(crate::proofs::Holding::of_size))]
    fn size(&self) -> u32 {
        self.below.size()
    }

    fn word_limit(&self) -> u32 {
        self.below.word_limit()
    }

    fn cell(&self, n: u32) -> Result<Cell, BankFault> {
        let below = self.below.cell(n)?;
        Ok(self.places.over(self.below.word_limit(), n, below))
    }

    // `answer` and `after` are the trait's own: beside further clauses the check asks for them again.
    fn set(&mut self, n: u32, change: Change) -> Result<(), BankFault>
        ensures answer { result ≡ change_taken (B.Bank.limit self.old.below) (hold_cells B.Bank.limit B.Bank.cells self.old) n change }
        ensures after { hold_cells B.Bank.limit B.Bank.cells self.new ≡ change_put (B.Bank.limit self.old.below) (hold_cells B.Bank.limit B.Bank.cells self.old) n change }
        ensures fixed { B.Bank.limit self.new.below ≡ B.Bank.limit self.old.below }
        ensures beside { B.Bank.beside self.new.below ≡ B.Bank.beside self.old.below }
        ensures kept { self.new.places.slots ≡ (if is_ok result then slice_set self.old.places.slots (n % 16) (kept_for n (with_change change (slice_index_or (hold_cells B.Bank.limit B.Bank.cells self.old) n blank))) else self.old.places.slots) }
        ensures below { B.Bank.cells self.new.below ≡ (if is_ok result then evicted (B.Bank.limit self.old.below) (slice_index_or self.old.places.slots (n % 16) None) n (B.Bank.cells self.old.below) else B.Bank.cells self.old.below) }
    {
        let cell = self.writable(n, change.word())?;
        self.keep(n, cell.with(change));
        Ok(())
    }

    #[tactic(auto, using(crate::proofs::Holding::of_laying))]
    fn write_cell(&mut self, n: u32, cell: Cell)
        ensures after { hold_cells B.Bank.limit B.Bank.cells self.new ≡ cell_put (B.Bank.limit self.old.below) (hold_cells B.Bank.limit B.Bank.cells self.old) n cell }
        ensures fixed { B.Bank.limit self.new.below ≡ B.Bank.limit self.old.below }
        ensures beside { B.Bank.beside self.new.below ≡ B.Bank.beside self.old.below }
        ensures kept { self.new.places.slots ≡ (if nat_lt n (length (B.Bank.cells self.old.below)) then slice_set self.old.places.slots (n % 16) (kept_for n (merged (B.Bank.limit self.old.below) cell (slice_index_or (hold_cells B.Bank.limit B.Bank.cells self.old) n blank))) else self.old.places.slots) }
        ensures below { B.Bank.cells self.new.below ≡ (if nat_lt n (length (B.Bank.cells self.old.below)) then evicted (B.Bank.limit self.old.below) (slice_index_or self.old.places.slots (n % 16) None) n (B.Bank.cells self.old.below) else B.Bank.cells self.old.below) }
    {
        if let Ok(seen) = self.cell(n) {
            self.keep(n, merge(self.word_limit(), cell, seen));
        }
    }
}
