ghost use Rattle.std.specs.Prelude.{◌≡◌, List, min, length, replicate, is_ok, nat_lt, if◌then◌else◌, slice_index_or};
ghost use Rattle.std.specs.Borrow.{GName};
ghost use Rattle.bank.specs.Words.{blank, with_change};
ghost use Rattle.bank.specs.Banks.{change_taken, change_put, cell_put, merged};
ghost use Rattle.memory.specs.Memories.{cleared, lent_beside, shown, stored, Packed};
ghost use Rattle.memory.specs.Elements.{fitted, sound-memory};

use super::element::Element;
use bank::{Bank, BankFault, Cell, Change, MOST_CELLS};

/// A bank over lent memory, a cell in each element: at most the first 4,096, and later ones are never touched. Each of these stores the cell that it shows, and nothing more.
#[derive(Drop)]
pub struct LentBank<'a, E: Element> {
    memory: &'a mut [E],
    // Beside the memory, since it is asked for at each call.
    size: u32,
    ghost sized: { size ≡ min 4096 (length memory.now) },
    pub ghost packed: { Packed E.shows E.stores memory.now },
}

/// Its elements are packed cells.
pub type PackedBank<'a> = LentBank<'a, u64>;

/// Its elements are the cells themselves.
pub type RecordBank<'a> = LentBank<'a, Cell>;

#[tactic(auto, using(crate::proofs::Writes::of_clearing))]
impl<'a, E: Element> LentBank<'a, E> {
    pub fn new(memory: &'a mut [E]) -> LentBank<'a, E>
        ensures beside { lent_beside result.memory.ghost_name result.memory.now ≡ lent_beside memory.entry.ghost_name memory.old }
        ensures made { result.memory.now ≡ cleared (E.stores blank) memory.old }
        ensures empty { shown E.shows result.memory.now ≡ replicate (min 4096 (length memory.old)) blank }
    {
        let n = memory.len().min(MOST_CELLS as usize);
        memory[..n].fill(E::blank());
        LentBank {
            memory,
            size: n as u32,
        }
    }
}

#[tactic(auto, using(crate::proofs::Writes::of_memory))]
impl<'a, E: Element> Bank for LentBank<'a, E> {
    ghost limit = { λ _. E.LIMIT };

    ghost cells = { λ s. shown E.shows s.memory.now };

    ghost sound = { λ s. sound-memory E.LIMIT E.shows E.wide s.memory.now };

    // Which memory it is that was lent, and the elements past the cells.
    ghost Beside = { GName × List E };

    ghost beside = { λ s. lent_beside s.memory.ghost_name s.memory.now };

    #[inline(always)]
    fn size(&self) -> u32 {
        self.size
    }

    #[inline(always)]
    fn word_limit(&self) -> u32 {
        E::LIMIT
    }

    #[inline(always)]
    fn cell(&self, n: u32) -> Result<Cell, BankFault> {
        if n < self.size() {
            Ok(self.memory[n as usize].cell())
        } else {
            Err(BankFault::NoSuchCell(n))
        }
    }

    // `answer` and `after` are the trait's own: beside further clauses the check asks for them again.
    #[inline(always)]
    fn set(&mut self, n: u32, change: Change) -> Result<(), BankFault>
        ensures answer { result ≡ change_taken E.LIMIT (shown E.shows self.old.memory.now) n change }
        ensures after { shown E.shows self.new.memory.now ≡ change_put E.LIMIT (shown E.shows self.old.memory.now) n change }
        ensures stored { self.new.memory.now ≡ (if is_ok result then stored (E.stores (with_change change (slice_index_or (shown E.shows self.old.memory.now) n blank))) self.old.memory.now n else self.old.memory.now) }
        ensures beside { lent_beside self.new.memory.ghost_name self.new.memory.now ≡ lent_beside self.old.memory.ghost_name self.old.memory.now }
    {
        self.writable(n, change.word())?;
        let element = self.memory[n as usize].changed(change);
        self.memory[n as usize] = element;
        Ok(())
    }

    // The element is read and stored once.
    #[inline(always)]
    fn write_cell(&mut self, n: u32, cell: Cell)
        ensures after { shown E.shows self.new.memory.now ≡ cell_put E.LIMIT (shown E.shows self.old.memory.now) n cell }
        ensures stored { self.new.memory.now ≡ (if nat_lt n (length (shown E.shows self.old.memory.now)) then stored (E.stores (merged E.LIMIT cell (slice_index_or (shown E.shows self.old.memory.now) n blank))) self.old.memory.now n else self.old.memory.now) }
        ensures beside { lent_beside self.new.memory.ghost_name self.new.memory.now ≡ lent_beside self.old.memory.ghost_name self.old.memory.now }
    {
        if n < self.size() {
            let element = self.memory[n as usize];
            let element = fitted(element, Change::Car(cell.car));
            let element = fitted(element, Change::Cdr(cell.cdr));
            let element = fitted(element, Change::Mark(cell.mark));
            self.memory[n as usize] = element;
        }
    }
}

// The element with the change made, where its word fits.
#[inline(always)]
fn fitted<E: Element>(element: E, change: Change) -> E
    requires kept { E.stores (E.shows element) ≡ element }
    ensures back { E.shows result ≡ fitted E.LIMIT change (E.shows element) }
    ensures kept { E.stores (E.shows result) ≡ result }
{
    if change.word().within(E::LIMIT).is_ok() {
        element.changed(change)
    } else {
        element
    }
}
