//! The free list, and where the sweep stands: sweeping. The bank is a parameter of each step, since the heap owns it.
ghost use Rattle.std.specs.Prelude.{◌≡◌, ◌-◌, min, false, length, if◌then◌else◌, slice_index_or};
ghost use Rattle.bank.specs.Words.{blank};
ghost use Rattle.collector.specs.Turns.{is_reserved, treat, sweep, sweeps};
ghost use Rattle.store.specs.Meaning.{ground_of};
ghost use Rattle.store.specs.Passing.{is_passed, free_run};

use bank::{Bank, Cell, Change, MOST_CELLS, Word};

#[derive(Clone, Copy)]
pub struct Pool {
    pub head: Word,
    pub count: u32,
    pub sweeper: u32,
}

impl Pool {
    // Makes a cell without a mark the head of the free list.
    #[tactic(auto, using(crate::proofs::Sweeps::of_releasing))]
    #[inline(always)]
    fn release<B: Bank>(&mut self, bank: &mut B, n: u32)
        requires unmarked { (slice_index_or (B.cells bank.old) n blank).mark ≡ false }
        ensures ground { ground_of B.cells bank.new self.new ≡ treat false false (B.limit bank.old) n (ground_of B.cells bank.old self.old) }
        ensures limit { B.limit bank.new ≡ B.limit bank.old }
        ensures beside { B.beside bank.new ≡ B.beside bank.old }
    {
        // A refusal is passed over here as in the definition, and so below; no run meets one.
        let free = Cell {
            car: self.head,
            cdr: Word::Reserved,
            mark: false,
        };
        bank.write_cell(n, free);
        self.head = Word::Cell(n);
        if self.count < MOST_CELLS {
            self.count += 1;
        }
    }

    // Takes the mark off cell n if it has one, leaves the cell as it is if it is free, and otherwise releases it. Whether it was
    // left: a hint, of which nothing is promised.
    #[inline(always)]
    fn treat<B: Bank>(&mut self, bank: &mut B, n: u32, cell: Cell) -> bool
        requires read { cell ≡ slice_index_or (B.cells bank.old) n blank }
        ensures ground { ground_of B.cells bank.new self.new ≡ treat cell.mark (is_reserved cell.cdr) (B.limit bank.old) n (ground_of B.cells bank.old self.old) }
        ensures limit { B.limit bank.new ≡ B.limit bank.old }
        ensures beside { B.beside bank.new ≡ B.beside bank.old }
    {
        match (cell.mark, cell.cdr) {
            (true, _) => {
                let _ = bank.set(n, Change::Mark(false));
                false
            }
            (false, Word::Reserved) => true,
            (false, _) => {
                self.release(bank, n);
                false
            }
        }
    }

    // Sweeps the cell at the sweeper, none past the last; the hint of `treat`.
    #[inline(always)]
    fn sweep<B: Bank>(&mut self, bank: &mut B) -> bool
        ensures ground { ground_of B.cells bank.new self.new ≡ sweep (B.limit bank.old) (ground_of B.cells bank.old self.old) }
        ensures limit { B.limit bank.new ≡ B.limit bank.old }
        ensures beside { B.beside bank.new ≡ B.beside bank.old }
    {
        let n = self.sweeper;
        let Ok(cell) = bank.cell(n) else {
            return false;
        };
        let left = self.treat(bank, n, cell);
        self.sweeper += 1;
        left
    }

    // The share of a sweep turn: up to k cells. The count of cells swept.
    // Not one loop with `scans`: a step that is passed in would hide what it does to the bank, and a trait for it is longer.
    #[inline(never)]
    pub fn sweeps<B: Bank>(&mut self, bank: &mut B, k: u8) -> u32
        ensures ground { ground_of B.cells bank.new self.new ≡ sweeps (B.limit bank.old) k (ground_of B.cells bank.old self.old) }
        ensures swept { result ≡ min k (length (B.cells bank.old) - self.old.sweeper) }
        ensures limit { B.limit bank.new ≡ B.limit bank.old }
        ensures beside { B.beside bank.new ≡ B.beside bank.old }
    {
        let swept = u32::from(k).min(bank.size().saturating_sub(self.sweeper));
        // A copy of its own, which the loop can hold in registers.
        let mut pool = *self;
        let mut left = swept;
        while left > 0 {
            let was_free = pool.sweep(bank);
            let run = run_after(bank, was_free, pool.sweeper, left - 1);
            pool.sweeper += run;
            left -= run + 1;
        }
        *self = pool;
        swept
    }
}

// Whether a sweep leaves the cell as it is: free, and without a mark.
#[inline(always)]
fn is_passed(cell: Cell) -> bool
    ensures { result ≡ is_passed cell }
{
    matches!((cell.cdr, cell.mark), (Word::Reserved, false))
}

// How many cells go by at once after one that was swept: those that are free, where it was. Nothing is written meanwhile, so what
// the bank stands on is read once for all of them.
#[inline(always)]
fn run_after<B: Bank>(bank: &B, was_free: bool, n: u32, most: u32) -> u32
    ensures { result ≡ (if was_free then free_run (B.cells bank.now) n most else 0) }
{
    if was_free { free_run(bank, n, most) } else { 0 }
}

// How many of the cells from n on, up to `most`, a sweep leaves as they are.
#[inline(always)]
fn free_run<B: Bank>(bank: &B, n: u32, most: u32) -> u32
    ensures { result ≡ free_run (B.cells bank.now) n most }
{
    // No further than the last cell: the compiler then drops the test that the bank makes of each.
    let end = bank.size().min(n.saturating_add(most));
    for next in n..end {
        let Ok(cell) = bank.cell(next) else {
            return next - n;
        };
        if !is_passed(cell) {
            return next - n;
        }
    }
    end.saturating_sub(n)
}
