//! A whole list of calls on a new store.
ghost use Rattle.std.specs.Prelude.{◌≡◌, ℕ, length};
ghost use Rattle.collector.specs.Calls.{call_under};
ghost use Rattle.collector.specs.Runs.{RuleAfter, asks};
ghost use Rattle.collector.specs.States.{Fixed, new};
ghost use Rattle.store.specs.Meaning.{fixed_by};
ghost use Rattle.store.specs.Results.{GoesOn, Ran, store_of};

use crate::list_store::ListStore;
use crate::store::Store;
use atoms::Kind;
use bank::Bank;
use listcalls::{Call, Outcome};
use pacing::effort::Effort;
use pacing::rule::StartRule;
use std::alloc::{AllocError, Global};

/// Memory for the outcomes ran out after some call: the outcomes before it, its own, and the store as it stands after it.
#[derive(Drop)]
pub struct RunFault<S, V> {
    pub outcomes: Vec<Outcome<V>>,
    pub last: Outcome<V>,
    pub store: S,
}

/// The outcomes of all the calls, and the store after them.
pub type Run<S, V> = Result<(Vec<Outcome<V>>, S), RunFault<S, V>>;

/// Makes a call, as `apply` does. Where the calls so far were a run from a new store, they are one with this call, and the laws of
/// runs hold of it.
#[inline(always)]
pub fn go_on<S: ListStore>(store: &mut S, call: &Call<S::Value>) -> Outcome<S::Value>
    ensures state { S.state store.new ≡ (call_under S.says (S.rule store.old) (S.state store.old) call.now).state }
    ensures answer { result ≡ (call_under S.says (S.rule store.old) (S.state store.old) call.now).outcome }
    ensures kind { S.kind store.new ≡ S.kind store.old }
    ensures beside { S.beside store.new ≡ S.beside store.old }
    ensures rule { RuleAfter S.becomes (asks (S.state store.old) call.now) (S.rule store.old) (S.state store.old).pool.count (S.rule store.new) }
    ensures law { GoesOn S.says S.becomes (S.state store.old) (S.rule store.old) call.now result (S.state store.new) (S.rule store.new) }
{
    store.apply(call)
}

// Makes every call in order; a store that is new makes a run.
fn finish<S: ListStore>(heap: Global, mut store: S, calls: &[Call<S::Value>]) -> Run<S, S::Value>
    ensures law { (fixed : Fixed S.Value) (size : ℕ) → S.state store ≡ new fixed size → Ran S.says S.becomes fixed size (S.rule store) calls.now S.state S.rule result }
    ensures kind { S.kind (store_of result) ≡ S.kind store }
    ensures beside { S.beside (store_of result) ≡ S.beside store }
{
    let mut outcomes = Vec::new(heap);
    for call in calls {
        let outcome = go_on(&mut store, call);
        if let Err(refused) = outcomes.push(outcome) {
            return Err(RunFault {
                outcomes,
                last: refused.value,
                store,
            });
        }
    }
    Ok((outcomes, store))
}

/// Makes every call in order on a new store. The contract is the whole law of runs, with no hypothesis.
pub fn run<B: Bank, K: Kind, R: StartRule>(
    heap: Global,
    bank: B,
    kind: K,
    rule: R,
    effort: Effort,
    calls: &[Call<K::Value>],
) -> Run<Store<B, K, R>, K::Value>
    ensures law { Ran R.says R.becomes (fixed_by B.limit K.coded K.valued R.floor bank kind rule effort) (length (B.cells bank)) rule calls.now
        ⟦<Store<B, K, R> as ListStore>⟧.state ⟦<Store<B, K, R> as ListStore>⟧.rule result }
    ensures kind { (store_of result).kind ≡ kind }
    ensures beside { B.beside (store_of result).heap.bank ≡ B.beside bank }
{
    let store = Store::new(bank, kind, rule, effort);
    finish(heap, store, calls)
}

// Where nothing but the outcomes was wanted, want of memory is all that is left to say.
impl<S: Drop, V: Drop> From<RunFault<S, V>> for AllocError {
    fn from(_fault: RunFault<S, V>) -> AllocError {
        AllocError
    }
}
