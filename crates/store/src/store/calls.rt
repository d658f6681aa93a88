//! The ten calls, and what is read of a store.
ghost use Rattle.store.specs.Meaning.{meant, grounded-by};

use super::{Store, same_word};
use crate::half::Half;
use crate::list_store::ListStore;
use atoms::Kind;
use bank::{Bank, BankFault, Cell, Word};
use listcalls::{Phase, Seen, StoreFault};
use pacing::rule::StartRule;

impl<B: Bank, K: Kind, R: StartRule> ListStore for Store<B, K, R> {
    type Value = K::Value;

    type Kind = K;

    type Rule = R;

    ghost state = { meant B.Bank.limit B.Bank.cells K.Kind.coded K.Kind.valued R.StartRule.floor };

    ghost says = { R.StartRule.says };

    ghost becomes = { R.StartRule.becomes };

    ghost kind = { λ s. s.kind };

    ghost rule = { λ s. s.rule };

    ghost Beside = { B.Bank.Beside };

    ghost beside = { λ s. B.Bank.beside s.heap.bank };

    ghost keeps = { λ s idle low. R.StartRule.lawful s.rule s.pool.count low };

    ghost grounded = { grounded-by B.Bank.limit B.Bank.cells K.Kind.coded K.Kind.valued R.StartRule.floor B.Bank.sound };

    fn load(&mut self, i: u32, value: &K::Value) -> Result<(), StoreFault> {
        self.registers.get(i)?;
        let atom = Word::Atom(self.kind.code(value));
        atom.within(self.heap.bank.word_limit())?;
        self.registers.set(i, atom);
        Ok(())
    }

    fn clear(&mut self, i: u32) -> Result<(), StoreFault> {
        self.registers.get(i)?;
        self.registers.set(i, Word::Nil);
        Ok(())
    }

    fn copy(&mut self, i: u32, a: u32) -> Result<(), StoreFault> {
        let (_, word) = self.registers.pair(i, a)?;
        self.registers.set(i, word);
        Ok(())
    }

    fn cons(&mut self, i: u32, a: u32, b: u32) -> Result<u32, StoreFault> {
        self.registers.get(i)?;
        let (car, cdr) = self.registers.pair(a, b)?;
        let work = self.turn();
        self.take(work, i, car, cdr)
    }

    fn car(&mut self, i: u32, a: u32) -> Result<(), StoreFault> {
        let (_, word) = self.registers.pair(i, a)?;
        self.read(Half::Car, i, a, word)
    }

    fn cdr(&mut self, i: u32, a: u32) -> Result<(), StoreFault> {
        let (_, word) = self.registers.pair(i, a)?;
        self.read(Half::Cdr, i, a, word)
    }

    fn rplaca(&mut self, a: u32, b: u32) -> Result<(), StoreFault> {
        let (target, word) = self.registers.pair(a, b)?;
        self.replace(Half::Car, a, target, word)
    }

    fn rplacd(&mut self, a: u32, b: u32) -> Result<(), StoreFault> {
        let (target, word) = self.registers.pair(a, b)?;
        self.replace(Half::Cdr, a, target, word)
    }

    fn look(&self, i: u32) -> Result<Seen<K::Value>, StoreFault> {
        Ok(self.seen(self.registers.get(i)?))
    }

    fn same(&self, i: u32, j: u32) -> Result<bool, StoreFault> {
        let (first, second) = self.registers.pair(i, j)?;
        Ok(same_word(first, second))
    }

    fn phase(&self) -> Phase {
        self.phase
    }

    fn sweeper(&self) -> u32 {
        self.pool.sweeper
    }

    fn free_count(&self) -> u32 {
        self.pool.count
    }

    fn register(&self, r: u32) -> Result<Word, StoreFault> {
        self.registers.get(r)
    }

    fn cell(&self, n: u32) -> Result<Cell, BankFault> {
        self.heap.bank.cell(n)
    }
}
