use crate::fault::StoreFault;

/// A call on a store of values V, with register numbers in the order in which they are checked.
#[derive(PartialEq, Eq, Debug, Drop)]
pub enum Call<V> {
    Load(u32, V),
    Clear(u32),
    Copy(u32, u32),
    Cons(u32, u32, u32),
    Car(u32, u32),
    Cdr(u32, u32),
    Rplaca(u32, u32),
    Rplacd(u32, u32),
    Look(u32),
    Same(u32, u32),
}

/// What a look at a register shows.
#[derive(PartialEq, Eq, Debug, Drop)]
pub enum Seen<V> {
    Nil,
    Cell,
    Atom(V),
}

/// What an accepted call answers: nothing, a cons the work of its turn, a look what it saw, a comparison yes or no.
#[derive(PartialEq, Eq, Debug, Drop)]
pub enum Answer<V> {
    Done,
    Worked(u32),
    Saw(Seen<V>),
    Same(bool),
}

pub type Outcome<V> = Result<Answer<V>, StoreFault>;
