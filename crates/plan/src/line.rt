//! One line of a plan: the store that it asks for, or a call with its numbers.

#[derive(Clone, Copy, PartialEq, Eq, Debug)]
pub enum Line {
    Store {
        cells: u32,
        k1: u32,
        k2: u32,
        floor: u32,
    },
    Load {
        register: u32,
        offset: u32,
        length: u32,
    },
    Clear {
        i: u32,
    },
    Copy {
        i: u32,
        a: u32,
    },
    Cons {
        i: u32,
        a: u32,
        b: u32,
    },
    Car {
        i: u32,
        a: u32,
    },
    Cdr {
        i: u32,
        a: u32,
    },
    Rplaca {
        a: u32,
        b: u32,
    },
    Rplacd {
        a: u32,
        b: u32,
    },
    Look {
        i: u32,
    },
    Same {
        i: u32,
        j: u32,
    },
}
