ghost use Rattle.std.specs.Prelude.{◌≡◌, take, drop};

use atoms::zones::Zones;
use bank::{Bank, Cell, Change, Word};
use layers::Window;
use memory::PackedBank;
use pacing::effort::Effort;
use pacing::floor::FloorRule;
use std::process::Abort;
use store::{ListStore, Store};

// Two calls of a store over cells 2 to 5 of a bank. That no other cell changes, nor what stands beside the bank's cells, follows from
// what the store and the window promise.
fn works_within<B: Bank + Drop>(rt: &impl Abort, bank: B, effort: Effort) -> B
    ensures before { take 2 (B.cells result) ≡ take 2 (B.cells bank) }
    ensures after { drop 6 (B.cells result) ≡ drop 6 (B.cells bank) }
    ensures beside { B.beside result ≡ B.beside bank }
{
    let window = Window::new(bank, 2, 4);
    let mut store = Store::new(window, Zones, FloorRule::new(1), effort);
    assert_eq!(rt; store.cons(0, 1, 1), Ok(0));
    assert_eq!(rt; store.rplacd(0, 0), Ok(()));
    let (window, _kind, _rule) = store.into_parts();
    window.into_below()
}

#[test]
fn store_over_a_window(rt: HostRuntime) {
    let mut words = [7u64; 4097];
    let mut bank = PackedBank::new(&mut words);
    for n in [1, 6] {
        assert_eq!(rt; bank.set(n, Change::Car(Word::Atom(n))), Ok(()));
    }
    let effort = Effort::new(1, 1).unwrap();
    let bank = works_within(&rt, bank, effort);
    let around = [1, 6].map(|n| bank.cell(n).map(|cell| cell.car));
    assert_eq!(rt; around, [Ok(Word::Atom(1)), Ok(Word::Atom(6))]);
    let looped = Cell {
        car: Word::Nil,
        cdr: Word::Cell(0),
        mark: false,
    };
    assert_eq!(rt; bank.cell(2), Ok(looped));
    assert_eq!(rt; words[4096], 7);
}
