ghost use Rattle.std.specs.Prelude.{◌≡◌, length, Ok};
ghost use Rattle.bank.specs.Banks.{on_cell, change_taken, change_put, cell_put};
ghost use Rattle.layers.specs.Joins.{BesideJoin, join_cells, join_limit, join_beside, side_of, sound-join};

use bank::{Bank, BankFault, Cell, Change, MOST_CELLS};

/// The cells of two banks, one after the other: the first 4,096 in all.
#[derive(Drop)]
pub struct Join<F, G> {
    first: F,
    second: G,
}

// Where a cell of a join lies, with its number there.
#[derive(Drop)]
enum Side {
    First(u32),
    Second(u32),
}

impl<F: Bank, G: Bank> Join<F, G> {
    pub fn new(first: F, second: G) -> Join<F, G>
        ensures first { result.first ≡ first }
        ensures second { result.second ≡ second }
    {
        Join { first, second }
    }

    pub fn into_parts(self) -> (F, G)
        ensures first { result.0 ≡ self.first }
        ensures second { result.1 ≡ self.second }
    {
        let Join { first, second } = self;
        (first, second)
    }

    fn side(&self, n: u32) -> Result<Side, BankFault>
        ensures { result ≡ on_cell (join_cells F.Bank.cells G.Bank.cells self.now) n (Ok (side_of (length (F.Bank.cells self.now.first)) n)) }
    {
        if n >= self.size() {
            return Err(BankFault::NoSuchCell(n));
        }
        let split = self.first.size();
        if n < split {
            Ok(Side::First(n))
        } else {
            Ok(Side::Second(n - split))
        }
    }
}

impl<F: Bank, G: Bank> Bank for Join<F, G> {
    ghost limit = { join_limit F.Bank.limit G.Bank.limit };

    ghost cells = { join_cells F.Bank.cells G.Bank.cells };

    ghost sound = { λ s. sound-join (F.Bank.sound s.first) (G.Bank.sound s.second) };

    ghost Beside = { BesideJoin F.Bank.Beside G.Bank.Beside };

    ghost beside = { join_beside F.Bank.limit G.Bank.limit F.Bank.cells G.Bank.cells F.Bank.beside G.Bank.beside };

    #[tactic(auto, using(crate::proofs::Joining::of_size))]
    fn size(&self) -> u32 {
        (self.first.size() + self.second.size()).min(MOST_CELLS)
    }

    fn word_limit(&self) -> u32 {
        self.first.word_limit().min(self.second.word_limit())
    }

    // In place, and so is `set`: the turns of a store call both over and over, and out of line they
    // cost half as much again.
    #[inline(always)]
    fn cell(&self, n: u32) -> Result<Cell, BankFault> {
        match self.side(n)? {
            Side::First(m) => self.first.cell(m),
            Side::Second(m) => self.second.cell(m),
        }
    }

    // `answer` and `after` are the trait's own: beside further clauses the check asks for them again.
    #[inline(always)]
    fn set(&mut self, n: u32, change: Change) -> Result<(), BankFault>
        ensures answer { result ≡ change_taken (join_limit F.Bank.limit G.Bank.limit self.old) (join_cells F.Bank.cells G.Bank.cells self.old) n change }
        ensures after { join_cells F.Bank.cells G.Bank.cells self.new ≡ change_put (join_limit F.Bank.limit G.Bank.limit self.old) (join_cells F.Bank.cells G.Bank.cells self.old) n change }
        ensures first { F.Bank.cells self.new.first ≡ change_put (join_limit F.Bank.limit G.Bank.limit self.old) (F.Bank.cells self.old.first) n change }
        ensures beside { join_beside F.Bank.limit G.Bank.limit F.Bank.cells G.Bank.cells F.Bank.beside G.Bank.beside self.new ≡ join_beside F.Bank.limit G.Bank.limit F.Bank.cells G.Bank.cells F.Bank.beside G.Bank.beside self.old }
    {
        let side = self.side(n)?;
        // The wider bank would take a word that the join must refuse.
        change.word().within(self.word_limit())?;
        match side {
            Side::First(m) => self.first.set(m, change),
            Side::Second(m) => self.second.set(m, change),
        }
    }

    #[tactic(auto, using(crate::proofs::Joining::of_laying))]
    fn write_cell(&mut self, n: u32, cell: Cell)
        ensures after { join_cells F.Bank.cells G.Bank.cells self.new ≡ cell_put (join_limit F.Bank.limit G.Bank.limit self.old) (join_cells F.Bank.cells G.Bank.cells self.old) n cell }
        ensures first { F.Bank.cells self.new.first ≡ cell_put (join_limit F.Bank.limit G.Bank.limit self.old) (F.Bank.cells self.old.first) n cell }
        ensures beside { join_beside F.Bank.limit G.Bank.limit F.Bank.cells G.Bank.cells F.Bank.beside G.Bank.beside self.new ≡ join_beside F.Bank.limit G.Bank.limit F.Bank.cells G.Bank.cells F.Bank.beside G.Bank.beside self.old }
    {
        let _ = self.set(n, Change::Car(cell.car));
        let _ = self.set(n, Change::Cdr(cell.cdr));
        let _ = self.set(n, Change::Mark(cell.mark));
    }
}
