/// What the collector is doing between two calls. Code matches on it: there are three phases, and no caller brings another.
#[derive(Clone, Copy, PartialEq, Eq, Debug)]
pub enum Phase {
    Idle,
    Mark,
    Sweep,
}
