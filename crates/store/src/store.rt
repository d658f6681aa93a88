//! The store, and the parts that its calls share.
ghost use Rattle.std.specs.Prelude.{◌≡◌, false, length, ◌==◌};
ghost use Rattle.collector.specs.States.{new as new_state};
ghost use Rattle.collector.specs.Turns.{begun, turn, work as work_of};
ghost use Rattle.collector.specs.Calls.{with_heap, offer_in, take_from, read_by, write, replace_by};
ghost use Rattle.collector.specs.Outcomes.{same_word, seen};
ghost use Rattle.collector.specs.Runs.{RuleAfter, is_idle};
ghost use Rattle.listcalls.specs.declared.call.Answer.{Answer};
ghost use Rattle.store.specs.Answers.{outcome_by, outcome_of};
ghost use Rattle.store.specs.Halves.{word_of, with_word};
ghost use Rattle.store.specs.Meaning.{fixed_by};
ghost use Rattle.store.specs.Steps.{with_phase, shared, over};

use crate::half::Half;
use crate::heap::Heap;
use crate::link::{fill, first_of, link};
use crate::list_store::ListStore;
use crate::pool::Pool;
use crate::registers::Registers;
use crate::waiting::Waiting;
use atoms::Kind;
use bank::{Bank, Cell, Word};
use listcalls::{Phase, Seen, StoreFault};
use pacing::effort::Effort;
use pacing::rule::StartRule;

mod calls;

/// A store over a bank, a kind of atom and a start rule.
#[derive(Drop)]
pub struct Store<B, K, R> {
    heap: Heap<B>,
    pool: Pool,
    registers: Registers,
    phase: Phase,
    effort: Effort,
    kind: K,
    rule: R,
}

impl<B: Bank, K: Kind, R: StartRule> Store<B, K, R> {
    /// A new store, all of whose cells are free.
    pub fn new(mut bank: B, kind: K, rule: R, effort: Effort) -> Store<B, K, R>
        ensures state { ⟦<Self as ListStore>⟧.state result ≡
            new_state (fixed_by B.limit K.coded K.valued R.floor bank kind rule effort) (length (B.cells bank)) }
        ensures kind { result.kind ≡ kind }
        ensures rule { result.rule ≡ rule }
        ensures beside { B.beside result.heap.bank ≡ B.beside bank }
    {
        let size = link(&mut bank);
        Store {
            heap: Heap {
                bank,
                waiting: Waiting::new(),
            },
            pool: Pool {
                head: first_of(0, size),
                count: size,
                sweeper: size,
            },
            registers: Registers::new(),
            phase: Phase::Idle,
            effort,
            kind,
            rule,
        }
    }

    /// The bank, the kind and the rule, as they are.
    pub fn into_parts(self) -> (B, K, R)
        ensures bank { result.0 ≡ self.heap.bank }
        ensures kind { result.1 ≡ self.kind }
        ensures rule { result.2 ≡ self.rule }
    {
        let Store {
            heap,
            pool: _,
            registers: _,
            phase: _,
            effort: _,
            kind,
            rule,
        } = self;
        let Heap { bank, waiting: _ } = heap;
        (bank, kind, rule)
    }

    // The roots of a new collection are offered, and the sweep is set back. That kind and rule stay is a clause of each step, as
    // in `ListStore`.
    fn begin(&mut self)
        ensures state { ⟦<Self as ListStore>⟧.state self.new ≡
            with_phase self.old.phase (begun (⟦<Self as ListStore>⟧.state self.old)) }
        ensures registers { self.new.registers ≡ self.old.registers }
        ensures kind { self.new.kind ≡ self.old.kind }
        ensures beside { B.beside self.new.heap.bank ≡ B.beside self.old.heap.bank }
        ensures rule { self.new.rule ≡ self.old.rule }
    {
        self.pool.sweeper = 0;
        let words = self.registers.words();
        self.heap.offer_all(&words);
    }

    // The share of work that the phase has in a turn.
    fn share(&mut self) -> u32
        ensures state { ⟦<Self as ListStore>⟧.state self.new ≡ shared (⟦<Self as ListStore>⟧.state self.old) }
        ensures work { result ≡ work_of (⟦<Self as ListStore>⟧.state self.old) }
        ensures registers { self.new.registers ≡ self.old.registers }
        ensures kind { self.new.kind ≡ self.old.kind }
        ensures beside { B.beside self.new.heap.bank ≡ B.beside self.old.heap.bank }
        ensures rule { self.new.rule ≡ self.old.rule }
    {
        match self.phase {
            Phase::Idle => 0,
            Phase::Mark => self.heap.scans(self.effort.k1()),
            Phase::Sweep => self.pool.sweeps(&mut self.heap.bank, self.effort.k2()),
        }
    }

    // Whether the phase is over. Only an idle store asks its start rule, since a question may change later answers.
    fn is_over(&mut self) -> bool
        ensures state { ⟦<Self as ListStore>⟧.state self.new ≡ ⟦<Self as ListStore>⟧.state self.old }
        ensures answer { result ≡ over (R.says self.old.rule self.old.pool.count) (⟦<Self as ListStore>⟧.state self.old) }
        ensures registers { self.new.registers ≡ self.old.registers }
        ensures kind { self.new.kind ≡ self.old.kind }
        ensures beside { B.beside self.new.heap.bank ≡ B.beside self.old.heap.bank }
        ensures rule { RuleAfter R.becomes (is_idle self.old.phase) self.old.rule self.old.pool.count self.new.rule }
    {
        match self.phase {
            Phase::Idle => self.rule.ask(self.pool.count),
            Phase::Mark => self.heap.waiting.is_empty(),
            Phase::Sweep => self.heap.bank.size() <= self.pool.sweeper,
        }
    }

    // A turn of the collector; its work.
    fn turn(&mut self) -> u32
        ensures state { ⟦<Self as ListStore>⟧.state self.new ≡
            turn (R.says self.old.rule self.old.pool.count) (⟦<Self as ListStore>⟧.state self.old) }
        ensures work { result ≡ work_of (⟦<Self as ListStore>⟧.state self.old) }
        ensures registers { self.new.registers ≡ self.old.registers }
        ensures kind { self.new.kind ≡ self.old.kind }
        ensures beside { B.beside self.new.heap.bank ≡ B.beside self.old.heap.bank }
        ensures rule { RuleAfter R.becomes (is_idle self.old.phase) self.old.rule self.old.pool.count self.new.rule }
    {
        let work = self.share();
        let over = self.is_over();
        match (self.phase, over) {
            (Phase::Idle, true) => {
                self.begin();
                self.phase = Phase::Mark;
            }
            (Phase::Mark, true) => self.phase = Phase::Sweep,
            (Phase::Sweep, true) => self.phase = Phase::Idle,
            (_, false) => {}
        }
        work
    }

    // While marking, a word that is about to be overwritten is offered.
    #[inline(always)]
    fn shade(&mut self, word: Word)
        ensures state { ⟦<Self as ListStore>⟧.state self.new ≡
            with_heap (offer_in self.old.phase word (⟦<Self as ListStore>⟧.state self.old).heap) (⟦<Self as ListStore>⟧.state self.old) }
        ensures kind { self.new.kind ≡ self.old.kind }
        ensures beside { B.beside self.new.heap.bank ≡ B.beside self.old.heap.bank }
        ensures rule { self.new.rule ≡ self.old.rule }
    {
        match self.phase {
            Phase::Mark => self.heap.offer(word),
            Phase::Idle | Phase::Sweep => {}
        }
    }

    // The head of the free list leaves it for register i, with two words.
    fn take(&mut self, work: u32, i: u32, car: Word, cdr: Word) -> Result<u32, StoreFault>
        ensures state { ⟦<Self as ListStore>⟧.state self.new ≡
            (take_from (self.old.pool.count == 0) self.old.pool.head work i car cdr (⟦<Self as ListStore>⟧.state self.old)).state }
        ensures answer { outcome_by Answer.Worked result ≡
            (take_from (self.old.pool.count == 0) self.old.pool.head work i car cdr (⟦<Self as ListStore>⟧.state self.old)).outcome }
        ensures kind { self.new.kind ≡ self.old.kind }
        ensures beside { B.beside self.new.heap.bank ≡ B.beside self.old.heap.bank }
        ensures rule { self.new.rule ≡ self.old.rule }
    {
        if self.pool.count == 0 {
            return Err(StoreFault::NoFreeCell(work));
        }
        let Word::Cell(h) = self.pool.head else {
            return Err(StoreFault::NoFreeCell(work));
        };
        let next = self.heap.bank.cell(h)?.car;
        // A new cell is marked exactly from the sweeper on.
        let mark = self.pool.sweeper <= h;
        fill(&mut self.heap.bank, h, Cell { car, cdr, mark })?;
        self.pool.head = next;
        self.pool.count -= 1;
        self.registers.set(i, Word::Cell(h));
        Ok(work)
    }

    // What a look at a word shows.
    #[inline(always)]
    fn seen(&self, word: Word) -> Seen<K::Value>
        ensures { result ≡ seen (⟦<Self as ListStore>⟧.state self.now).fixed.atoms word }
    {
        match word {
            Word::Nil | Word::Reserved => Seen::Nil,
            Word::Cell(_) => Seen::Cell,
            Word::Atom(code) => match self.kind.value(code) {
                Some(value) => Seen::Atom(value),
                None => Seen::Nil,
            },
        }
    }

    // Copies a word of the cell that the word of register a names into register i.
    #[inline(always)]
    fn read(&mut self, half: Half, i: u32, a: u32, word: Word) -> Result<(), StoreFault>
        ensures state { ⟦<Self as ListStore>⟧.state self.new ≡ (read_by (word_of half) word i a (⟦<Self as ListStore>⟧.state self.old)).state }
        ensures answer { outcome_of result ≡ (read_by (word_of half) word i a (⟦<Self as ListStore>⟧.state self.old)).outcome }
        ensures kind { self.new.kind ≡ self.old.kind }
        ensures beside { B.beside self.new.heap.bank ≡ B.beside self.old.heap.bank }
        ensures rule { self.new.rule ≡ self.old.rule }
    {
        let Word::Cell(n) = word else {
            return Err(StoreFault::NotACell(a));
        };
        let cell = self.heap.bank.cell(n)?;
        self.registers.set(i, half.of(cell));
        Ok(())
    }

    // Puts a word into a cell.
    #[inline(always)]
    fn write(&mut self, half: Half, n: u32, word: Word) -> Result<(), StoreFault>
        ensures state { ⟦<Self as ListStore>⟧.state self.new ≡ (write (with_word half) n word (⟦<Self as ListStore>⟧.state self.old)).state }
        ensures answer { outcome_of result ≡ (write (with_word half) n word (⟦<Self as ListStore>⟧.state self.old)).outcome }
        ensures kind { self.new.kind ≡ self.old.kind }
        ensures beside { B.beside self.new.heap.bank ≡ B.beside self.old.heap.bank }
        ensures rule { self.new.rule ≡ self.old.rule }
    {
        self.heap.bank.set(n, half.to(word))?;
        Ok(())
    }

    // Puts a word into the cell that the word of register a names.
    #[inline(always)]
    fn replace(&mut self, half: Half, a: u32, target: Word, word: Word) -> Result<(), StoreFault>
        ensures state { ⟦<Self as ListStore>⟧.state self.new ≡
            (replace_by (word_of half) (with_word half) target a word (⟦<Self as ListStore>⟧.state self.old)).state }
        ensures answer { outcome_of result ≡
            (replace_by (word_of half) (with_word half) target a word (⟦<Self as ListStore>⟧.state self.old)).outcome }
        ensures kind { self.new.kind ≡ self.old.kind }
        ensures beside { B.beside self.new.heap.bank ≡ B.beside self.old.heap.bank }
        ensures rule { self.new.rule ≡ self.old.rule }
    {
        let Word::Cell(n) = target else {
            return Err(StoreFault::NotACell(a));
        };
        let cell = self.heap.bank.cell(n)?;
        self.shade(half.of(cell));
        self.write(half, n, word)
    }
}

// Whether two words are the same one: two nils, one cell, or equal codes.
#[inline(always)]
fn same_word(first: Word, second: Word) -> bool
    ensures { result ≡ same_word first second }
{
    match (first, second) {
        (Word::Nil, Word::Nil) => true,
        (Word::Cell(m), Word::Cell(n)) => m == n,
        (Word::Atom(b), Word::Atom(c)) => b == c,
        _ => false,
    }
}
