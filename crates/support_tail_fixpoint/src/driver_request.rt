//! What a driver answers to a turn.

/// What a driver asks for, once it was given what a turn gave.
#[derive(Debug, PartialEq, Eq, Drop)]
pub enum DriverRequest<O> {
    /// Another turn is to be evaluated.
    Turn,
    /// There is no other turn, and these are the joined leaves of all turns, if any has some.
    Out(Option<O>),
    /// The last turn that is allowed asks for another.
    OutOfFuel,
}
