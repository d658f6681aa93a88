use bank::{Bank, BankFault, Cell, Change, Word};
use layers::{Hold, Join, Window};
use memory::{PackedBank, RecordBank};
use std::process::Abort;

// Tries these changes in order, each with the answer that it must get.
fn tries<B: Bank>(rt: &impl Abort, bank: &mut B, changes: &[(u32, Change, Result<(), BankFault>)]) {
    for (n, change, answer) in changes {
        assert_eq!(rt; bank.set(*n, *change), *answer);
    }
}

// Asks for these cells, each with the answer that it must get.
fn has<B: Bank>(rt: &impl Abort, bank: &B, cells: &[(u32, Result<Cell, BankFault>)]) {
    for (n, answer) in cells {
        assert_eq!(rt; bank.cell(*n), *answer);
    }
}

// Asks for the size and the limit.
fn measures<B: Bank>(rt: &impl Abort, bank: &B, size: u32, limit: u32) {
    assert_eq!(rt; (bank.size(), bank.word_limit()), (size, limit));
}

// A cell whose car alone is not nil.
fn with_car(word: Word) -> Cell {
    Cell {
        car: word,
        ..Cell::BLANK
    }
}

// A cell whose cdr alone is not nil.
fn with_cdr(word: Word) -> Cell {
    Cell {
        cdr: word,
        ..Cell::BLANK
    }
}

#[test]
fn packs(rt: HostRuntime) {
    let cell = Cell {
        car: Word::Cell(1),
        cdr: Word::Nil,
        mark: true,
    };
    assert_eq!(rt; memory::pack(cell), Ok(1_152_921_504_875_282_433));
    assert_eq!(rt; memory::unpack(1_152_921_504_875_282_433), cell);
    assert_eq!(rt;
        memory::pack(cell.with(Change::Cdr(Word::Atom(268_435_456)))),
        Err(BankFault::WordTooWide(268_435_456))
    );
}

#[test]
fn packed_memory(rt: HostRuntime) {
    let mut words = [7u64; 4097];
    let mut bank = PackedBank::new(&mut words);
    measures(&rt, &bank, 4096, 268_435_455);
    tries(
        &rt,
        &mut bank,
        &[
            (4095, Change::Car(Word::Cell(1)), Ok(())),
            (4095, Change::Mark(true), Ok(())),
            (
                4096,
                Change::Cdr(Word::Nil),
                Err(BankFault::NoSuchCell(4096)),
            ),
            (
                0,
                Change::Cdr(Word::Atom(268_435_456)),
                Err(BankFault::WordTooWide(268_435_456)),
            ),
        ],
    );
    assert_eq!(rt;
        [words[4095], words[0], words[4096]],
        [1_152_921_504_875_282_433, 0, 7]
    );
}

#[test]
fn windows(rt: HostRuntime) {
    let mut cells = [Cell::BLANK; 4];
    let mut window = Window::new(RecordBank::new(&mut cells), 2, 3);
    measures(&rt, &window, 2, u32::MAX);
    let widest = Word::Atom(u32::MAX);
    tries(
        &rt,
        &mut window,
        &[
            (1, Change::Car(widest), Ok(())),
            (2, Change::Mark(true), Err(BankFault::NoSuchCell(2))),
        ],
    );
    let past = Window::new(window.into_below(), 4, 1);
    measures(&rt, &past, 0, u32::MAX);
    let far = Window::new(past.into_below(), u32::MAX, u32::MAX);
    measures(&rt, &far, 0, u32::MAX);
    has(&rt, &far, &[(0, Err(BankFault::NoSuchCell(0)))]);
    has(&rt, &far.into_below(), &[(3, Ok(with_car(widest)))]);
}

#[test]
fn joins(rt: HostRuntime) {
    let mut words = [0u64; 4096];
    let mut cells = [Cell::BLANK; 1];
    let mut join = Join::new(PackedBank::new(&mut words), RecordBank::new(&mut cells));
    measures(&rt, &join, 4096, 268_435_455);
    tries(
        &rt,
        &mut join,
        &[(4096, Change::Mark(true), Err(BankFault::NoSuchCell(4096)))],
    );
    let (_, mut second) = join.into_parts();
    tries(
        &rt,
        &mut second,
        &[(0, Change::Cdr(Word::Reserved), Ok(()))],
    );
    has(&rt, &second, &[(0, Ok(with_cdr(Word::Reserved)))]);
}

// Cells 3 and 19 share a place; the one that makes room is written below.
#[test]
fn holds(rt: HostRuntime) {
    let mut cells = [Cell::BLANK; 20];
    let mut hold = Hold::new(RecordBank::new(&mut cells));
    tries(
        &rt,
        &mut hold,
        &[
            (3, Change::Car(Word::Atom(30)), Ok(())),
            (19, Change::Car(Word::Atom(190)), Ok(())),
            (19, Change::Mark(true), Ok(())),
        ],
    );
    let kept = with_car(Word::Atom(190)).with(Change::Mark(true));
    has(
        &rt,
        &hold,
        &[(3, Ok(with_car(Word::Atom(30)))), (19, Ok(kept))],
    );
    let (below, _) = hold.into_parts();
    has(
        &rt,
        &below,
        &[(3, Ok(with_car(Word::Atom(30)))), (19, Ok(Cell::BLANK))],
    );
}

#[test]
fn settles_twice(rt: HostRuntime) {
    let mut cells = [Cell::BLANK; 20];
    let mut hold = Hold::new(RecordBank::new(&mut cells));
    tries(
        &rt,
        &mut hold,
        &[
            (7, Change::Cdr(Word::Cell(8)), Ok(())),
            (18, Change::Mark(true), Ok(())),
        ],
    );
    hold.settle();
    hold.settle();
    let settled = [
        (7, Ok(with_cdr(Word::Cell(8)))),
        (18, Ok(Cell::BLANK.with(Change::Mark(true)))),
    ];
    has(&rt, &hold, &settled);
    let (below, _) = hold.into_parts();
    has(&rt, &below, &settled);
}

// The record bank holds a word that the join refuses. A hold keeps its cell whole and leaves that word as it stands below.
#[test]
fn wide_word_below(rt: HostRuntime) {
    let wide = Word::Atom(300_000_000);
    let mut words = [0u64; 2];
    let mut cells = [Cell::BLANK; 2];
    let mut record = RecordBank::new(&mut cells);
    tries(&rt, &mut record, &[(1, Change::Car(wide), Ok(()))]);
    let mut hold = Hold::new(Join::new(PackedBank::new(&mut words), record));
    tries(
        &rt,
        &mut hold,
        &[
            (
                3,
                Change::Cdr(wide),
                Err(BankFault::WordTooWide(300_000_000)),
            ),
            (3, Change::Cdr(Word::Cell(0)), Ok(())),
        ],
    );
    let kept = with_car(wide).with(Change::Cdr(Word::Cell(0)));
    has(&rt, &hold, &[(3, Ok(kept))]);
    hold.settle();
    has(&rt, &hold, &[(3, Ok(kept))]);
    tries(&rt, &mut hold, &[(3, Change::Car(Word::Nil), Ok(()))]);
    hold.settle();
    has(&rt, &hold, &[(3, Ok(with_cdr(Word::Cell(0))))]);
}

// Every cell gets its own number, and what lies past the end or above the limit is refused.
fn works<B: Bank + Drop>(rt: &impl Abort, mut bank: B, size: u32) {
    assert_eq!(rt; bank.size(), size);
    for n in 0..size {
        let changes = [
            (n, Change::Car(Word::Cell(n)), Ok(())),
            (n, Change::Mark(true), Ok(())),
        ];
        tries(rt, &mut bank, &changes);
    }
    for n in 0..size {
        let cell = with_car(Word::Cell(n)).with(Change::Mark(true));
        has(rt, &bank, &[(n, Ok(cell))]);
    }
    let past = BankFault::NoSuchCell(size);
    tries(rt, &mut bank, &[(size, Change::Cdr(Word::Nil), Err(past))]);
    has(rt, &bank, &[(size, Err(past))]);
}

// These three piles have each of the layers over each.
#[test]
fn hold_over_hold_and_windows(rt: HostRuntime) {
    let mut words = [0u64; 40];
    let mut cells = [Cell::BLANK; 30];
    let join = Join::new(PackedBank::new(&mut words), RecordBank::new(&mut cells));
    let windows = Window::new(Window::new(join, 5, 60), 3, 100);
    works(&rt, Hold::new(Hold::new(windows)), 57);
}

#[test]
fn hold_over_join_over_window_over_hold(rt: HostRuntime) {
    let mut words = [0u64; 40];
    let mut cells = [Cell::BLANK; 30];
    let window = Window::new(Hold::new(PackedBank::new(&mut words)), 2, 30);
    let join = Join::new(window, RecordBank::new(&mut cells));
    works(&rt, Hold::new(join), 60);
}

#[test]
fn join_over_join_over_hold(rt: HostRuntime) {
    let mut words = [0u64; 40];
    let mut some = [Cell::BLANK; 30];
    let mut more = [Cell::BLANK; 20];
    let hold = Hold::new(PackedBank::new(&mut words));
    let inner = Join::new(RecordBank::new(&mut some), hold);
    works(&rt, Join::new(inner, RecordBank::new(&mut more)), 90);
}
