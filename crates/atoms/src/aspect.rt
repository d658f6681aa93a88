use super::byte::Byte;

/// How long a train is held, 0 to 255 seconds.
pub type Seconds = Byte<HoldTime>;

/// The number of a train, 0 to 255.
pub type Train = Byte<TrainNumber>;

/// What a byte counts: types without values, which only name it.
pub enum HoldTime {}

pub enum TrainNumber {}

/// What a block signal shows.
#[derive(Clone, Copy, PartialEq, Eq, Debug)]
pub enum Aspect {
    Clear,
    Hold(Seconds),
    Occupied(Train),
}
