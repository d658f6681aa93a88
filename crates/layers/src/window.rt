ghost use Rattle.std.specs.Prelude.{◌≡◌, ◌+◌, ◌<◌, ◌≤◌, length, Ok};
ghost use Rattle.bank.specs.Banks.{on_cell, change_taken, change_put, cell_put};
ghost use Rattle.layers.specs.Windows.{BesideWindow, window_cells, window_beside, framed, sound-window};

use bank::{Bank, BankFault, Cell, Change};

/// The cells of the bank below from `offset` on, at most `len` of them, numbered from 0.
#[derive(Drop)]
pub struct Window<B> {
    below: B,
    offset: u32,
    len: u32,
}

impl<B: Bank> Window<B> {
    pub fn new(below: B, offset: u32, len: u32) -> Window<B>
        ensures below { result.below ≡ below }
        ensures offset { result.offset ≡ offset }
        ensures len { result.len ≡ len }
    {
        Window { below, offset, len }
    }

    pub fn into_below(self) -> B
        ensures { result ≡ self.below }
    {
        let Window {
            below,
            offset: _,
            len: _,
        } = self;
        below
    }

    // The number below of cell n.
    fn number_below(&self, n: u32) -> Result<u32, BankFault>
        ensures { result ≡ on_cell (window_cells B.Bank.cells self.now) n (Ok (self.now.offset + n)) }
    {
        if n < self.size() {
            Ok(self.offset + n)
        } else {
            Err(BankFault::NoSuchCell(n))
        }
    }
}

impl<B: Bank> Bank for Window<B> {
    ghost limit = { λ s. B.Bank.limit s.below };

    ghost cells = { window_cells B.Bank.cells };

    ghost sound = { λ s. sound-window s.offset s.len (B.Bank.sound s.below) };

    ghost Beside = { BesideWindow B.Bank.Beside };

    ghost beside = { window_beside B.Bank.cells B.Bank.beside };

    #[tactic(auto, using(crate::proofs::Windowing::of_size))]
    fn size(&self) -> u32
        ensures value { result ≡ length (window_cells B.Bank.cells self.now) }
        ensures inside { 0 < result → self.now.offset + result ≤ 4096 }
    {
        self.below.size().saturating_sub(self.offset).min(self.len)
    }

    fn word_limit(&self) -> u32 {
        self.below.word_limit()
    }

    fn cell(&self, n: u32) -> Result<Cell, BankFault> {
        let m = self.number_below(n)?;
        self.below.cell(m)
    }

    // `answer` and `after` are the trait's own: beside further clauses the check asks for them again.
    fn set(&mut self, n: u32, change: Change) -> Result<(), BankFault>
        ensures answer { result ≡ change_taken (B.Bank.limit self.old.below) (window_cells B.Bank.cells self.old) n change }
        ensures after { window_cells B.Bank.cells self.new ≡ change_put (B.Bank.limit self.old.below) (window_cells B.Bank.cells self.old) n change }
        ensures fixed { B.Bank.limit self.new.below ≡ B.Bank.limit self.old.below }
        ensures framed { B.Bank.cells self.new.below ≡ framed self.old.offset self.old.len (B.Bank.cells self.old.below) (change_put (B.Bank.limit self.old.below) (window_cells B.Bank.cells self.old) n change) }
        ensures beside { window_beside B.Bank.cells B.Bank.beside self.new ≡ window_beside B.Bank.cells B.Bank.beside self.old }
    {
        let m = self.number_below(n)?;
        self.below.set(m, change)
    }

    #[tactic(auto, using(crate::proofs::Windowing::of_laying))]
    fn write_cell(&mut self, n: u32, cell: Cell)
        ensures after { window_cells B.Bank.cells self.new ≡ cell_put (B.Bank.limit self.old.below) (window_cells B.Bank.cells self.old) n cell }
        ensures fixed { B.Bank.limit self.new.below ≡ B.Bank.limit self.old.below }
        ensures framed { B.Bank.cells self.new.below ≡ framed self.old.offset self.old.len (B.Bank.cells self.old.below) (cell_put (B.Bank.limit self.old.below) (window_cells B.Bank.cells self.old) n cell) }
        ensures beside { window_beside B.Bank.cells B.Bank.beside self.new ≡ window_beside B.Bank.cells B.Bank.beside self.old }
    {
        if let Ok(m) = self.number_below(n) {
            self.below.write_cell(m, cell);
        }
    }
}
