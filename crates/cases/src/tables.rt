//! The examples of stores of zones. An example more costs no proof.

// A call in numbers; the last two of a load are its zone's.
#[derive(Clone, Copy)]
pub enum Ask {
    Load(u32, u32, u32),
    Clear(u32),
    Copy(u32, u32),
    Cons(u32, u32, u32),
    Car(u32, u32),
    Cdr(u32, u32),
    Rplaca(u32, u32),
    Rplacd(u32, u32),
    Look(u32),
    Same(u32, u32),
}

#[derive(Clone, Copy)]
pub enum Memory {
    Packed(usize),
    Record(usize),
}

#[derive(Clone, Copy)]
pub enum Rule {
    Floor(u32),
    Paced(u32, u16),
}

#[derive(Clone, Copy)]
pub enum Step {
    // Calls in order.
    Make(&'static [Ask]),
    // A call so many times.
    Repeat(u32, Ask),
    // The same, with the counts of the answers alone.
    Count(u32, Ask),
    // The same as a repeat, and after each which of so many cells are marked.
    Turns(u32, Ask, u32),
    // Cells of the bank.
    Show(&'static [u32]),
}

#[derive(Clone, Copy)]
pub struct Example {
    pub title: &'static str,
    pub memory: Memory,
    pub rule: Rule,
    pub effort: (u32, u32),
    pub steps: &'static [Step],
}

// Every refusal of every call, and which of two is told.
pub const REFUSALS: &[Example] = &[
    // The floor lets every turn of an idle store begin a collection: that none does shows that no turn was made.
    Example {
        title: "refusals: one bad register",
        memory: Memory::Packed(4),
        rule: Rule::Floor(4),
        effort: (1, 1),
        steps: &[Step::Make(&[
            Ask::Load(16, 120, 80),
            Ask::Clear(16),
            Ask::Copy(16, 0),
            Ask::Copy(0, 16),
            Ask::Cons(16, 0, 0),
            Ask::Cons(0, 16, 0),
            Ask::Cons(0, 0, 16),
            Ask::Car(16, 0),
            Ask::Car(0, 16),
            Ask::Cdr(16, 0),
            Ask::Cdr(0, 16),
            Ask::Rplaca(16, 0),
            Ask::Rplaca(0, 16),
            Ask::Rplacd(16, 0),
            Ask::Rplacd(0, 16),
            Ask::Look(16),
            Ask::Same(16, 0),
            Ask::Same(0, 16),
            Ask::Clear(u32::MAX),
            Ask::Clear(15),
        ])],
    },
    Example {
        title: "refusals: several bad registers, the first is told",
        memory: Memory::Packed(4),
        rule: Rule::Floor(4),
        effort: (1, 1),
        steps: &[Step::Make(&[
            Ask::Copy(17, 16),
            Ask::Cons(18, 17, 16),
            Ask::Cons(0, 17, 16),
            Ask::Cons(18, 0, 16),
            Ask::Car(17, 16),
            Ask::Cdr(17, 16),
            Ask::Rplaca(17, 16),
            Ask::Rplacd(17, 16),
            Ask::Same(17, 16),
            Ask::Load(16, 4096, 1),
        ])],
    },
    Example {
        title: "refusals: a cons refused for its register makes no turn",
        memory: Memory::Packed(4),
        rule: Rule::Floor(4),
        effort: (1, 1),
        steps: &[Step::Make(&[
            Ask::Cons(16, 0, 0),
            Ask::Cons(0, 0, 0),
            Ask::Cons(1, 16, 0),
            Ask::Cons(1, 0, 0),
            Ask::Cons(2, 0, 16),
            Ask::Cons(2, 0, 0),
        ])],
    },
    Example {
        title: "refusals: no cell in the register",
        memory: Memory::Packed(4),
        rule: Rule::Floor(0),
        effort: (1, 1),
        steps: &[Step::Make(&[
            Ask::Load(1, 120, 80),
            Ask::Car(5, 0),
            Ask::Car(5, 1),
            Ask::Cdr(5, 0),
            Ask::Cdr(5, 1),
            Ask::Rplaca(0, 1),
            Ask::Rplaca(1, 0),
            Ask::Rplacd(0, 1),
            Ask::Rplacd(1, 0),
            Ask::Look(5),
            Ask::Look(1),
            Ask::Cons(2, 1, 0),
            Ask::Car(5, 2),
            Ask::Look(5),
            Ask::Cdr(5, 2),
            Ask::Look(5),
            Ask::Car(2, 2),
            Ask::Car(2, 2),
        ])],
    },
    Example {
        title: "refusals: no free cell, and the turn stands",
        memory: Memory::Packed(2),
        rule: Rule::Floor(0),
        effort: (1, 1),
        steps: &[
            Step::Make(&[
                Ask::Load(2, 120, 80),
                Ask::Cons(0, 2, 15),
                Ask::Cons(0, 0, 15),
                Ask::Cons(1, 0, 0),
            ]),
            Step::Show(&[0, 1]),
            Step::Repeat(2, Ask::Cons(1, 0, 0)),
            Step::Show(&[0, 1]),
            Step::Repeat(2, Ask::Cons(1, 0, 0)),
            Step::Make(&[Ask::Look(1), Ask::Car(3, 0), Ask::Car(3, 3), Ask::Look(3)]),
            Step::Show(&[0, 1]),
        ],
    },
    Example {
        title: "refusals: no free cell, the largest effort",
        memory: Memory::Packed(2),
        rule: Rule::Floor(0),
        effort: (64, 64),
        steps: &[
            Step::Make(&[Ask::Cons(0, 15, 15), Ask::Cons(0, 0, 15)]),
            Step::Repeat(4, Ask::Cons(1, 0, 0)),
        ],
    },
    Example {
        title: "refusals: codes over a packed bank",
        memory: Memory::Packed(2),
        rule: Rule::Floor(0),
        effort: (1, 1),
        steps: &[Step::Make(&[
            Ask::Load(0, 4095, 61_441),
            Ask::Look(0),
            Ask::Load(0, 4096, 1),
            Ask::Look(0),
            Ask::Load(0, 65_535, 1),
            Ask::Look(0),
        ])],
    },
    Example {
        title: "refusals: codes over a record bank",
        memory: Memory::Record(2),
        rule: Rule::Floor(0),
        effort: (1, 1),
        steps: &[Step::Make(&[
            Ask::Load(0, 4095, 61_441),
            Ask::Look(0),
            Ask::Load(0, 4096, 1),
            Ask::Look(0),
            Ask::Load(0, 65_535, 1),
            Ask::Look(0),
        ])],
    },
];

// Cell 0 is reached only through the car of cell 1, which register 0 names; the third cons begins a collection.
const BEGIN: Step = Step::Make(&[
    Ask::Cons(1, 15, 15),
    Ask::Cons(0, 1, 15),
    Ask::Clear(1),
    Ask::Cons(2, 15, 15),
]);

// Comparisons, small and full banks.
pub const SIZES: &[Example] = &[
    // Not by the number of a word alone, nor by a cell's words.
    Example {
        title: "looks: what a register holds, and whether two hold the same",
        memory: Memory::Packed(4),
        rule: Rule::Floor(0),
        effort: (1, 1),
        steps: &[Step::Make(&[
            Ask::Load(1, 0, 1),
            Ask::Cons(2, 15, 15),
            Ask::Cons(3, 15, 15),
            Ask::Look(0),
            Ask::Look(1),
            Ask::Look(2),
            Ask::Same(0, 15),
            Ask::Same(0, 2),
            Ask::Same(0, 1),
            Ask::Same(1, 3),
            Ask::Same(2, 3),
            Ask::Copy(4, 2),
            Ask::Same(2, 4),
            Ask::Same(4, 4),
            Ask::Load(5, 0, 1),
            Ask::Same(1, 5),
            Ask::Load(5, 0, 2),
            Ask::Same(1, 5),
            Ask::Car(6, 2),
            Ask::Same(6, 0),
        ])],
    },
    Example {
        title: "sizes: no cell, floor 0",
        memory: Memory::Packed(0),
        rule: Rule::Floor(0),
        effort: (1, 1),
        steps: &[
            Step::Repeat(4, Ask::Cons(0, 15, 15)),
            Step::Make(&[
                Ask::Load(1, 120, 80),
                Ask::Look(1),
                Ask::Car(0, 1),
                Ask::Same(0, 15),
            ]),
        ],
    },
    Example {
        title: "sizes: no cell, floor 4294967295",
        memory: Memory::Packed(0),
        rule: Rule::Floor(u32::MAX),
        effort: (1, 1),
        steps: &[
            Step::Repeat(4, Ask::Cons(0, 15, 15)),
            Step::Make(&[
                Ask::Load(1, 120, 80),
                Ask::Look(1),
                Ask::Car(0, 1),
                Ask::Same(0, 15),
            ]),
        ],
    },
    Example {
        title: "sizes: one cell, floor 0",
        memory: Memory::Packed(1),
        rule: Rule::Floor(0),
        effort: (1, 1),
        steps: &[
            Step::Make(&[Ask::Cons(0, 15, 15)]),
            Step::Show(&[0]),
            Step::Repeat(4, Ask::Cons(1, 0, 0)),
            Step::Show(&[0]),
            Step::Make(&[Ask::Clear(0)]),
            Step::Repeat(6, Ask::Cons(1, 15, 15)),
            Step::Show(&[0]),
        ],
    },
    Example {
        title: "sizes: one cell, floor 4294967295",
        memory: Memory::Packed(1),
        rule: Rule::Floor(u32::MAX),
        effort: (1, 1),
        steps: &[
            Step::Make(&[Ask::Cons(0, 15, 15)]),
            Step::Show(&[0]),
            Step::Repeat(4, Ask::Cons(1, 0, 0)),
            Step::Show(&[0]),
            Step::Make(&[Ask::Clear(0)]),
            Step::Repeat(6, Ask::Cons(1, 15, 15)),
            Step::Show(&[0]),
        ],
    },
    // Two collections free nothing; once the chain is dropped, the next frees what a cons needs.
    Example {
        title: "sizes: four cells, all reachable",
        memory: Memory::Packed(4),
        rule: Rule::Floor(0),
        effort: (2, 2),
        steps: &[
            Step::Make(&[Ask::Load(1, 120, 80)]),
            Step::Repeat(4, Ask::Cons(0, 1, 0)),
            Step::Repeat(10, Ask::Cons(2, 0, 0)),
            Step::Make(&[
                Ask::Cdr(3, 0),
                Ask::Cdr(3, 3),
                Ask::Cdr(3, 3),
                Ask::Car(4, 3),
                Ask::Look(4),
                Ask::Cdr(3, 3),
                Ask::Look(3),
                Ask::Look(2),
                Ask::Clear(0),
            ]),
            Step::Repeat(3, Ask::Cons(2, 1, 2)),
            Step::Show(&[0, 1, 2, 3]),
        ],
    },
    // What was reachable when the collection began is freed by the next one.
    Example {
        title: "sizes: four cells, dropped while marking",
        memory: Memory::Packed(4),
        rule: Rule::Floor(0),
        effort: (2, 2),
        steps: &[
            Step::Make(&[Ask::Load(1, 120, 80)]),
            Step::Repeat(4, Ask::Cons(0, 1, 0)),
            Step::Make(&[Ask::Cons(2, 1, 15), Ask::Clear(0)]),
            Step::Repeat(7, Ask::Cons(2, 1, 15)),
            Step::Show(&[0, 1, 2, 3]),
        ],
    },
    // In a memory of one element more.
    Example {
        title: "sizes: 4096 cells",
        memory: Memory::Packed(4097),
        rule: Rule::Floor(0),
        effort: (64, 64),
        steps: &[
            Step::Count(4096, Ask::Cons(0, 1, 0)),
            Step::Make(&[Ask::Cons(2, 0, 0)]),
            Step::Count(64, Ask::Cons(2, 0, 0)),
            Step::Count(64, Ask::Cons(2, 0, 0)),
            Step::Make(&[Ask::Clear(0)]),
            Step::Repeat(2, Ask::Cons(2, 1, 1)),
            Step::Count(64, Ask::Cons(2, 1, 1)),
        ],
    },
];

// Replacements in each phase. Only while marking is the old word offered; the new one never is.
pub const REPLACEMENTS: &[Example] = &[
    Example {
        title: "replacing: idle",
        memory: Memory::Packed(4),
        rule: Rule::Floor(0),
        effort: (1, 1),
        steps: &[
            Step::Make(&[
                Ask::Load(1, 120, 80),
                Ask::Cons(2, 15, 15),
                Ask::Cons(0, 2, 2),
                Ask::Rplaca(0, 1),
                Ask::Rplacd(0, 15),
            ]),
            Step::Show(&[0, 1]),
        ],
    },
    // Cell 0 is not freed by the collection that was under way, and is by the next.
    Example {
        title: "replacing: marking, the old word is offered",
        memory: Memory::Packed(6),
        rule: Rule::Floor(4),
        effort: (64, 64),
        steps: &[
            BEGIN,
            Step::Show(&[0, 1, 2]),
            Step::Make(&[Ask::Rplaca(0, 15)]),
            Step::Show(&[0, 1]),
            Step::Repeat(2, Ask::Cons(2, 15, 15)),
            Step::Show(&[0, 1, 2, 3, 4, 5]),
            Step::Repeat(3, Ask::Cons(2, 15, 15)),
            Step::Show(&[0, 1, 2, 3, 4, 5]),
        ],
    },
    // Register 3 takes the name of cell 0 before the link is cut: it would be lost were the old word not offered.
    Example {
        title: "replacing: marking, the old word is in a register",
        memory: Memory::Packed(6),
        rule: Rule::Floor(4),
        effort: (1, 64),
        steps: &[
            BEGIN,
            Step::Make(&[Ask::Car(3, 0)]),
            Step::Show(&[0, 1]),
            Step::Make(&[Ask::Rplaca(0, 15), Ask::Same(3, 0)]),
            Step::Show(&[0, 1]),
            Step::Repeat(3, Ask::Cons(2, 15, 15)),
            Step::Show(&[0, 1]),
            Step::Make(&[Ask::Clear(3)]),
            Step::Repeat(6, Ask::Cons(2, 15, 15)),
            Step::Show(&[0, 1, 2, 3, 4, 5]),
        ],
    },
    Example {
        title: "replacing: marking, the new word is not offered",
        memory: Memory::Packed(6),
        rule: Rule::Floor(4),
        effort: (64, 64),
        steps: &[
            BEGIN,
            Step::Make(&[Ask::Car(3, 0), Ask::Rplacd(2, 3)]),
            Step::Show(&[0, 2]),
            Step::Make(&[Ask::Rplacd(2, 15)]),
            Step::Show(&[0, 2]),
        ],
    },
    // First ahead of the sweeper, then behind it, where the old word names an unmarked cell: it stays unmarked.
    Example {
        title: "replacing: sweeping",
        memory: Memory::Packed(6),
        rule: Rule::Floor(4),
        effort: (64, 2),
        steps: &[
            BEGIN,
            Step::Make(&[Ask::Cons(2, 15, 15)]),
            Step::Show(&[0, 1]),
            Step::Make(&[Ask::Rplacd(0, 2)]),
            Step::Show(&[0, 1]),
            Step::Make(&[Ask::Cons(2, 15, 15), Ask::Rplaca(0, 15)]),
            Step::Show(&[0, 1, 2, 3, 4, 5]),
            Step::Repeat(2, Ask::Cons(2, 15, 15)),
            Step::Show(&[0, 1, 2, 3, 4, 5]),
            Step::Repeat(3, Ask::Cons(2, 15, 15)),
            Step::Show(&[0, 1, 2, 3, 4, 5]),
        ],
    },
];

// Mark turns of one scan each, and cells taken while the sweep goes on.
pub const COLLECTIONS: &[Example] = &[
    // Registers are offered from 0 on and a car before its cdr, and the latest offered is scanned first.
    Example {
        title: "marking: the order of the offers",
        memory: Memory::Packed(9),
        rule: Rule::Floor(2),
        effort: (1, 64),
        steps: &[
            Step::Make(&[
                Ask::Cons(2, 15, 15),
                Ask::Cons(3, 15, 15),
                Ask::Cons(2, 2, 15),
                Ask::Cons(3, 3, 15),
                Ask::Cons(0, 2, 3),
                Ask::Cons(1, 15, 15),
                Ask::Cons(1, 1, 15),
                Ask::Clear(2),
                Ask::Clear(3),
            ]),
            Step::Show(&[0, 1, 2, 3, 4, 5, 6]),
            Step::Turns(9, Ask::Cons(4, 15, 15), 9),
        ],
    },
    // Each cell is scanned once, however many words name it; a ring that nothing names is freed.
    Example {
        title: "marking: a ring, and a cell with two names",
        memory: Memory::Packed(4),
        rule: Rule::Floor(2),
        effort: (1, 64),
        steps: &[
            Step::Make(&[
                Ask::Cons(0, 15, 15),
                Ask::Cons(1, 0, 0),
                Ask::Rplaca(0, 1),
                Ask::Rplacd(0, 0),
                Ask::Clear(1),
            ]),
            Step::Show(&[0, 1]),
            Step::Turns(4, Ask::Cons(2, 15, 15), 4),
            Step::Make(&[Ask::Clear(0)]),
            Step::Turns(4, Ask::Cons(2, 15, 15), 4),
            Step::Show(&[0, 1, 2, 3]),
        ],
    },
    // The cons into register i takes cell i. The third finds the sweeper at the very cell that it takes.
    Example {
        title: "sweeping: a cell taken above the sweeper, at it and below it",
        memory: Memory::Packed(6),
        rule: Rule::Floor(6),
        effort: (64, 2),
        steps: &[
            Step::Make(&[Ask::Cons(0, 15, 15)]),
            Step::Show(&[0]),
            Step::Make(&[Ask::Cons(1, 15, 15)]),
            Step::Show(&[1]),
            Step::Make(&[Ask::Cons(2, 15, 15)]),
            Step::Show(&[2]),
            Step::Make(&[Ask::Cons(3, 15, 15)]),
            Step::Show(&[3]),
            Step::Make(&[Ask::Cons(4, 15, 15)]),
            Step::Show(&[4]),
            Step::Show(&[0, 1, 2, 3, 4, 5]),
        ],
    },
    // None of them is freed by the sweep under way, and all are by the next.
    Example {
        title: "sweeping: cells dropped as soon as they were taken",
        memory: Memory::Packed(6),
        rule: Rule::Floor(6),
        effort: (64, 2),
        steps: &[
            Step::Make(&[Ask::Cons(0, 15, 15), Ask::Clear(0)]),
            Step::Show(&[0]),
            Step::Make(&[Ask::Cons(1, 15, 15), Ask::Clear(1)]),
            Step::Show(&[1]),
            Step::Make(&[Ask::Cons(2, 15, 15), Ask::Clear(2)]),
            Step::Show(&[2]),
            Step::Make(&[Ask::Cons(3, 15, 15), Ask::Clear(3)]),
            Step::Show(&[3]),
            Step::Make(&[Ask::Cons(4, 15, 15)]),
            Step::Show(&[0, 1, 2, 3, 4, 5]),
            Step::Repeat(5, Ask::Cons(5, 15, 15)),
            Step::Show(&[0, 1, 2, 3, 4, 5]),
        ],
    },
];

// Stores under the paced rule.
pub const PACED: &[Example] = &[
    Example {
        title: "paces: a store of six cells, floor 0, pace 0",
        memory: Memory::Packed(6),
        rule: Rule::Paced(0, 0),
        effort: (64, 64),
        steps: &[Step::Repeat(9, Ask::Cons(0, 15, 15))],
    },
    Example {
        title: "paces: a store of six cells, floor 3, pace 0",
        memory: Memory::Packed(6),
        rule: Rule::Paced(3, 0),
        effort: (64, 64),
        steps: &[Step::Repeat(9, Ask::Cons(0, 15, 15))],
    },
    Example {
        title: "paces: a store of six cells, floor 0, pace 2",
        memory: Memory::Packed(6),
        rule: Rule::Paced(0, 2),
        effort: (64, 64),
        steps: &[Step::Repeat(9, Ask::Cons(0, 15, 15))],
    },
    Example {
        title: "paces: a store of six cells, floor 0, pace 65535",
        memory: Memory::Packed(6),
        rule: Rule::Paced(0, u16::MAX),
        effort: (64, 64),
        steps: &[Step::Repeat(9, Ask::Cons(0, 15, 15))],
    },
    Example {
        title: "paces: a store of six cells, floor 3, pace 65535",
        memory: Memory::Packed(6),
        rule: Rule::Paced(3, u16::MAX),
        effort: (64, 64),
        steps: &[Step::Repeat(9, Ask::Cons(0, 15, 15))],
    },
    Example {
        title: "paces: a cons refused for its register asks nothing",
        memory: Memory::Packed(6),
        rule: Rule::Paced(0, 2),
        effort: (64, 64),
        steps: &[Step::Make(&[
            Ask::Cons(0, 15, 15),
            Ask::Cons(16, 15, 15),
            Ask::Cons(0, 16, 15),
            Ask::Cons(0, 15, 15),
            Ask::Cons(0, 15, 16),
            Ask::Cons(0, 15, 15),
        ])],
    },
];

// A round of calls: a list of five is made, and changed at both ends.
const ROUND: Step = Step::Make(&[
    Ask::Load(1, 120, 80),
    Ask::Load(2, 300, 40),
    Ask::Clear(0),
    Ask::Cons(0, 1, 0),
    Ask::Cons(0, 1, 0),
    Ask::Cons(0, 1, 0),
    Ask::Cons(0, 1, 0),
    Ask::Cons(0, 1, 0),
    Ask::Cons(3, 0, 15),
    Ask::Rplaca(3, 2),
    Ask::Rplacd(0, 2),
    Ask::Car(4, 3),
    Ask::Cdr(5, 0),
    Ask::Look(4),
    Ask::Same(5, 2),
]);

// The steps of a store of 20 cells over each pile of layers. Last comes a code that no packed word can have.
pub const LAYERED: &[Step] = &[
    ROUND,
    ROUND,
    ROUND,
    ROUND,
    ROUND,
    ROUND,
    Step::Show(&[
        0, 1, 2, 3, 4, 5, 6, 7, 8, 9, 10, 11, 12, 13, 14, 15, 16, 17, 18, 19,
    ]),
    Step::Make(&[Ask::Load(0, 4096, 1)]),
];

pub const ALONE: &[Example] = &[Example {
    title: "layered: a record bank alone",
    memory: Memory::Record(20),
    rule: Rule::Floor(6),
    effort: (3, 3),
    steps: LAYERED,
}];
