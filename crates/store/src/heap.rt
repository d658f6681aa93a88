//! The cells of a bank and those of them that wait to be scanned: marking.
ghost use Rattle.std.specs.Prelude.{◌≡◌, length};
ghost use Rattle.collector.specs.Turns.{offer, offers, scan, scans, scanned, latest};
ghost use Rattle.store.specs.Meaning.{heap_of};

use crate::waiting::Waiting;
use bank::{Bank, Cell, Change, Word};

#[derive(Drop)]
pub struct Heap<B> {
    pub bank: B,
    pub waiting: Waiting,
}

impl<B: Bank> Heap<B> {
    // To offer a word is to mark and push the cell that it names, if that is unmarked.
    #[inline(always)]
    pub fn offer(&mut self, word: Word)
        ensures heap { heap_of B.cells self.new ≡ offer word (heap_of B.cells self.old) }
        ensures limit { B.limit self.new.bank ≡ B.limit self.old.bank }
        ensures beside { B.beside self.new.bank ≡ B.beside self.old.bank }
    {
        let Word::Cell(n) = word else {
            return;
        };
        let Ok(cell) = self.bank.cell(n) else {
            return;
        };
        if !cell.mark {
            // A refusal is passed over here as in the definition; no run meets one.
            let _ = self.bank.set(n, Change::Mark(true));
            self.waiting.push(n as u16);
        }
    }

    // Offers the words of a table, in order.
    pub fn offer_all(&mut self, words: &[Word])
        ensures heap { heap_of B.cells self.new ≡ offers words.now (heap_of B.cells self.old) }
        ensures limit { B.limit self.new.bank ≡ B.limit self.old.bank }
        ensures beside { B.beside self.new.bank ≡ B.beside self.old.bank }
    {
        for word in words {
            self.offer(*word);
        }
    }

    // Offers the car of a cell and then its cdr.
    #[inline(always)]
    fn offer_fields(&mut self, cell: Cell)
        ensures heap { heap_of B.cells self.new ≡ offer cell.cdr (offer cell.car (heap_of B.cells self.old)) }
        ensures limit { B.limit self.new.bank ≡ B.limit self.old.bank }
        ensures beside { B.beside self.new.bank ≡ B.beside self.old.bank }
    {
        let Cell { car, cdr, mark: _ } = cell;
        self.offer(car);
        self.offer(cdr);
    }

    // Pops the latest waiting cell, and offers its car and then its cdr; the count of cells popped, none where none waits.
    #[inline(always)]
    fn scan(&mut self) -> u32
        ensures heap { heap_of B.cells self.new ≡ scan (heap_of B.cells self.old) }
        ensures popped { result ≡ length (latest (heap_of B.cells self.old).stack) }
        ensures limit { B.limit self.new.bank ≡ B.limit self.old.bank }
        ensures beside { B.beside self.new.bank ≡ B.beside self.old.bank }
    {
        let Some(n) = self.waiting.pop() else {
            return 0;
        };
        let Ok(cell) = self.bank.cell(n as u32) else {
            return 1;
        };
        self.offer_fields(cell);
        1
    }

    // The share of a mark turn: up to k scans. The count of cells popped.
    #[tactic(auto, using(crate::proofs::Scans::of_scanning))]
    #[inline(never)]
    pub fn scans(&mut self, k: u8) -> u32
        ensures heap { heap_of B.cells self.new ≡ scans k (heap_of B.cells self.old) }
        ensures popped { result ≡ length (scanned k (heap_of B.cells self.old)) }
        ensures limit { B.limit self.new.bank ≡ B.limit self.old.bank }
        ensures beside { B.beside self.new.bank ≡ B.beside self.old.bank }
    {
        let mut popped = 0;
        for _ in 0..k {
            // Where nothing waits, no scan does anything.
            if self.waiting.is_empty() {
                break;
            }
            popped += self.scan();
        }
        popped
    }
}
