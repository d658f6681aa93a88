//! A store of lists: sixteen registers, ten calls, and what they leave. Each contract is an equation with the definition of the
//! call, for every state. What the start rule says counts in a cons alone.
ghost use Rattle.std.specs.Prelude.{◌≡◌, ℕ, Bool};
ghost use Rattle.bank.specs.Banks.{asked};
ghost use Rattle.listcalls.specs.declared.call.Answer.{Answer};
ghost use Rattle.listcalls.specs.declared.call.Call.{Call};
ghost use Rattle.collector.specs.Calls.{call_under};
ghost use Rattle.collector.specs.Outcomes.{register_asked};
ghost use Rattle.collector.specs.States.{State, size};
ghost use Rattle.collector.specs.Runs.{Keeps, RuleAfter, asks};
ghost use Rattle.collector.specs.Laws.{Grounded};
ghost use Rattle.store.specs.Answers.{outcome_by, outcome_of};

use bank::{BankFault, Cell, Word};
use listcalls::{Answer, Call, Outcome, Phase, Seen, StoreFault};

// A call with nothing to answer.
fn done<V>(res: Result<(), StoreFault>) -> Outcome<V>
    ensures { result ≡ outcome_of res }
{
    res?;
    Ok(Answer::Done)
}

pub trait ListStore {
    type Value;

    type Kind;

    type Rule;

    // What the store holds, as the state that the definitions speak of.
    ghost state: { Self → State Self.Value };

    // What a start rule says of a free count, and what a question with it may leave the rule as.
    ghost says: { Self.Rule → ℕ → Bool };

    ghost becomes: { Self.Rule → ℕ → Self.Rule → Type 0 };

    // That kind and rule stay is a clause of each call: it joins what was and what is, and no type says that.
    ghost kind: { Self → Self.Kind };

    ghost rule: { Self → Self.Rule };

    // What stands beside the cells of the bank that the store is over. That it stays is a clause of each call too.
    ghost Beside: { Type 0 };

    ghost beside: { Self → Beside };

    /// Sets register i to the atom of a value.
    fn load(&mut self, i: u32, value: &Self::Value) -> Result<(), StoreFault>
        ensures state { state self.new ≡ (call_under says (rule self.old) (state self.old) (Call.Load i value.now)).state }
        ensures answer { outcome_of result ≡ (call_under says (rule self.old) (state self.old) (Call.Load i value.now)).outcome }
        ensures kind { kind self.new ≡ kind self.old }
        ensures beside { beside self.new ≡ beside self.old }
        ensures rule { rule self.new ≡ rule self.old };

    /// Sets register i to nil.
    fn clear(&mut self, i: u32) -> Result<(), StoreFault>
        ensures state { state self.new ≡ (call_under says (rule self.old) (state self.old) (Call.Clear i)).state }
        ensures answer { outcome_of result ≡ (call_under says (rule self.old) (state self.old) (Call.Clear i)).outcome }
        ensures kind { kind self.new ≡ kind self.old }
        ensures beside { beside self.new ≡ beside self.old }
        ensures rule { rule self.new ≡ rule self.old };

    /// Sets register i to register a's word.
    fn copy(&mut self, i: u32, a: u32) -> Result<(), StoreFault>
        ensures state { state self.new ≡ (call_under says (rule self.old) (state self.old) (Call.Copy i a)).state }
        ensures answer { outcome_of result ≡ (call_under says (rule self.old) (state self.old) (Call.Copy i a)).outcome }
        ensures kind { kind self.new ≡ kind self.old }
        ensures beside { beside self.new ≡ beside self.old }
        ensures rule { rule self.new ≡ rule self.old };

    /// Makes a turn, takes a free cell for register i and puts the words of a and b into it; the work of the turn.
    fn cons(&mut self, i: u32, a: u32, b: u32) -> Result<u32, StoreFault>
        ensures state { state self.new ≡ (call_under says (rule self.old) (state self.old) (Call.Cons i a b)).state }
        ensures answer { outcome_by Answer.Worked result ≡ (call_under says (rule self.old) (state self.old) (Call.Cons i a b)).outcome }
        ensures kind { kind self.new ≡ kind self.old }
        ensures beside { beside self.new ≡ beside self.old }
        ensures rule { RuleAfter becomes (asks (state self.old) (Call.Cons i a b)) (rule self.old) (state self.old).pool.count (rule self.new) };

    /// Copies the car of the cell in register a into register i.
    fn car(&mut self, i: u32, a: u32) -> Result<(), StoreFault>
        ensures state { state self.new ≡ (call_under says (rule self.old) (state self.old) (Call.Car i a)).state }
        ensures answer { outcome_of result ≡ (call_under says (rule self.old) (state self.old) (Call.Car i a)).outcome }
        ensures kind { kind self.new ≡ kind self.old }
        ensures beside { beside self.new ≡ beside self.old }
        ensures rule { rule self.new ≡ rule self.old };

    /// Copies the cdr of the cell in register a into register i.
    fn cdr(&mut self, i: u32, a: u32) -> Result<(), StoreFault>
        ensures state { state self.new ≡ (call_under says (rule self.old) (state self.old) (Call.Cdr i a)).state }
        ensures answer { outcome_of result ≡ (call_under says (rule self.old) (state self.old) (Call.Cdr i a)).outcome }
        ensures kind { kind self.new ≡ kind self.old }
        ensures beside { beside self.new ≡ beside self.old }
        ensures rule { rule self.new ≡ rule self.old };

    /// Puts register b's word into the car of the cell in register a.
    fn rplaca(&mut self, a: u32, b: u32) -> Result<(), StoreFault>
        ensures state { state self.new ≡ (call_under says (rule self.old) (state self.old) (Call.Rplaca a b)).state }
        ensures answer { outcome_of result ≡ (call_under says (rule self.old) (state self.old) (Call.Rplaca a b)).outcome }
        ensures kind { kind self.new ≡ kind self.old }
        ensures beside { beside self.new ≡ beside self.old }
        ensures rule { rule self.new ≡ rule self.old };

    /// Puts register b's word into the cdr of the cell in register a.
    fn rplacd(&mut self, a: u32, b: u32) -> Result<(), StoreFault>
        ensures state { state self.new ≡ (call_under says (rule self.old) (state self.old) (Call.Rplacd a b)).state }
        ensures answer { outcome_of result ≡ (call_under says (rule self.old) (state self.old) (Call.Rplacd a b)).outcome }
        ensures kind { kind self.new ≡ kind self.old }
        ensures beside { beside self.new ≡ beside self.old }
        ensures rule { rule self.new ≡ rule self.old };

    /// What register i holds.
    fn look(&self, i: u32) -> Result<Seen<Self::Value>, StoreFault>
        ensures state { state self.now ≡ (call_under says (rule self.now) (state self.now) (Call.Look i)).state }
        ensures answer { outcome_by Answer.Saw result ≡ (call_under says (rule self.now) (state self.now) (Call.Look i)).outcome };

    /// Whether registers i and j hold two nils, one cell, or equal codes.
    fn same(&self, i: u32, j: u32) -> Result<bool, StoreFault>
        ensures state { state self.now ≡ (call_under says (rule self.now) (state self.now) (Call.Same i j)).state }
        ensures answer { outcome_by Answer.Same result ≡ (call_under says (rule self.now) (state self.now) (Call.Same i j)).outcome };

    fn phase(&self) -> Phase
        ensures { result ≡ (state self.now).phase };

    fn sweeper(&self) -> u32
        ensures { result ≡ (state self.now).pool.sweeper };

    fn free_count(&self) -> u32
        ensures { result ≡ (state self.now).pool.count };

    /// The word of a register.
    fn register(&self, r: u32) -> Result<Word, StoreFault>
        ensures { result ≡ register_asked (state self.now).registers r };

    /// A cell of the bank.
    fn cell(&self, n: u32) -> Result<Cell, BankFault>
        ensures { result ≡ asked (state self.now).heap.cells n };

    /// Makes any call, given as a value.
    fn apply(&mut self, call: &Call<Self::Value>) -> Outcome<Self::Value>
        ensures state { state self.new ≡ (call_under says (rule self.old) (state self.old) call.now).state }
        ensures answer { result ≡ (call_under says (rule self.old) (state self.old) call.now).outcome }
        ensures kind { kind self.new ≡ kind self.old }
        ensures beside { beside self.new ≡ beside self.old }
        ensures rule { RuleAfter becomes (asks (state self.old) call.now) (rule self.old) (state self.old).pool.count (rule self.new) }
    {
        match call {
            Call::Load(i, value) => done(self.load(*i, value)),
            Call::Clear(i) => done(self.clear(*i)),
            Call::Copy(i, a) => done(self.copy(*i, *a)),
            Call::Cons(i, a, b) => Ok(Answer::Worked(self.cons(*i, *a, *b)?)),
            Call::Car(i, a) => done(self.car(*i, *a)),
            Call::Cdr(i, a) => done(self.cdr(*i, *a)),
            Call::Rplaca(a, b) => done(self.rplaca(*a, *b)),
            Call::Rplacd(a, b) => done(self.rplacd(*a, *b)),
            Call::Look(i) => Ok(Answer::Saw(self.look(*i)?)),
            Call::Same(i, j) => Ok(Answer::Same(self.same(*i, *j)?)),
        }
    }

    // The start rule says yes at its floor, and what the store stands on keeps its bounds.
    ghost keeps: { (s : Self) → Keeps (state s) (says (rule s) (state s).pool.count) };

    ghost grounded: { (s : Self) → Grounded (state s).fixed (size (state s)) };
}
