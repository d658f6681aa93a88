//! A store over each pile of layers two deep.
use crate::stores::under;
use crate::tables::LAYERED;
use bank::{Bank, Cell};
use layers::{Hold, Join, Window};
use memory::{PackedBank, RecordBank};
use pacing::floor::FloorRule;
use std::io;

#[derive(Clone, Copy)]
enum Upper {
    Window,
    Join,
    Hold,
}

#[derive(Clone, Copy)]
enum Lower {
    Window,
    Join,
    // A join with the second memory first.
    Reversed,
    Hold,
}

// The memories below a pile: packed words and cells, or cells alone.
#[derive(Clone, Copy)]
enum Bottom {
    Packed,
    Record,
}

// Two layers, the sizes of the memories below, and where the windows begin and end: the upper one, and those over the first memory
// and over the second. The third memory stands beside a lower join.
#[derive(Clone, Copy)]
struct Pile {
    title: &'static str,
    upper: Upper,
    lower: Lower,
    bottom: Bottom,
    sizes: [usize; 3],
    windows: [(u32, u32); 3],
}

const PILES: &[Pile] = &[
    Pile {
        title: "layered: window over window",
        upper: Upper::Window,
        lower: Lower::Window,
        bottom: Bottom::Packed,
        sizes: [30, 0, 0],
        windows: [(3, 20), (5, 30), (0, 0)],
    },
    Pile {
        title: "layered: window over join",
        upper: Upper::Window,
        lower: Lower::Reversed,
        bottom: Bottom::Packed,
        sizes: [30, 16, 0],
        windows: [(8, 20), (0, 0), (0, 0)],
    },
    Pile {
        title: "layered: window over hold",
        upper: Upper::Window,
        lower: Lower::Hold,
        bottom: Bottom::Record,
        sizes: [30, 0, 0],
        windows: [(4, 20), (0, 0), (0, 0)],
    },
    Pile {
        title: "layered: join over windows",
        upper: Upper::Join,
        lower: Lower::Window,
        bottom: Bottom::Packed,
        sizes: [10, 12, 0],
        windows: [(0, 0), (0, 9), (1, 20)],
    },
    Pile {
        title: "layered: join over join",
        upper: Upper::Join,
        lower: Lower::Join,
        bottom: Bottom::Record,
        sizes: [12, 0, 8],
        windows: [(0, 0); 3],
    },
    Pile {
        title: "layered: join over holds",
        upper: Upper::Join,
        lower: Lower::Hold,
        bottom: Bottom::Packed,
        sizes: [10, 10, 0],
        windows: [(0, 0); 3],
    },
    Pile {
        title: "layered: hold over window",
        upper: Upper::Hold,
        lower: Lower::Window,
        bottom: Bottom::Record,
        sizes: [30, 0, 0],
        windows: [(0, 0), (7, 20), (0, 0)],
    },
    Pile {
        title: "layered: hold over join",
        upper: Upper::Hold,
        lower: Lower::Join,
        bottom: Bottom::Packed,
        sizes: [9, 11, 0],
        windows: [(0, 0); 3],
    },
    Pile {
        title: "layered: hold over hold",
        upper: Upper::Hold,
        lower: Lower::Hold,
        bottom: Bottom::Packed,
        sizes: [20, 0, 0],
        windows: [(0, 0); 3],
    },
];

pub fn work(rt: &HostRuntime) -> io::Result<()> {
    for pile in PILES {
        one(rt, *pile)?;
    }
    Ok(())
}

fn one(rt: &HostRuntime, pile: Pile) -> io::Result<()> {
    println!(rt; "{}", pile.title)?;
    match pile.bottom {
        Bottom::Packed => over_packed(rt, pile),
        Bottom::Record => over_records(rt, pile),
    }
}

fn over_packed(rt: &HostRuntime, pile: Pile) -> io::Result<()> {
    let [first, _, _] = pile.sizes;
    let mut words = vec![in rt.alloc(); 0_u64; first]?;
    over(rt, pile, PackedBank::new(words.as_mut_slice()))
}

fn over_records(rt: &HostRuntime, pile: Pile) -> io::Result<()> {
    let [first, _, _] = pile.sizes;
    let mut cells = vec![in rt.alloc(); Cell::BLANK; first]?;
    over(rt, pile, RecordBank::new(cells.as_mut_slice()))
}

fn over<A: Bank + Drop>(rt: &HostRuntime, pile: Pile, first: A) -> io::Result<()> {
    let [_, second, third] = pile.sizes;
    let mut cells = vec![in rt.alloc(); Cell::BLANK; second]?;
    let mut more = vec![in rt.alloc(); Cell::BLANK; third]?;
    let second = RecordBank::new(cells.as_mut_slice());
    below(
        rt,
        pile,
        first,
        second,
        RecordBank::new(more.as_mut_slice()),
    )
}

fn below<A: Bank + Drop, B: Bank + Drop, C: Bank + Drop>(
    rt: &HostRuntime,
    pile: Pile,
    first: A,
    second: B,
    third: C,
) -> io::Result<()> {
    let [_, (a, m), (b, n)] = pile.windows;
    match pile.lower {
        Lower::Window => above(
            rt,
            pile,
            Window::new(first, a, m),
            Window::new(second, b, n),
        ),
        Lower::Join => above(rt, pile, Join::new(first, second), third),
        Lower::Reversed => above(rt, pile, Join::new(second, first), third),
        Lower::Hold => above(rt, pile, Hold::new(first), Hold::new(second)),
    }
}

fn above<A: Bank + Drop, B: Bank + Drop>(
    rt: &HostRuntime,
    pile: Pile,
    first: A,
    second: B,
) -> io::Result<()> {
    let [(a, m), _, _] = pile.windows;
    match pile.upper {
        Upper::Window => under(
            rt,
            Window::new(first, a, m),
            FloorRule::new(6),
            (3, 3),
            LAYERED,
        ),
        Upper::Join => under(
            rt,
            Join::new(first, second),
            FloorRule::new(6),
            (3, 3),
            LAYERED,
        ),
        Upper::Hold => under(rt, Hold::new(first), FloorRule::new(6), (3, 3), LAYERED),
    }
}
