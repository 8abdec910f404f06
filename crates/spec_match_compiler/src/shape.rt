//! The shapes of what is matched.

/// What kind of value stands at a position.
#[derive(Clone, Copy, Drop)]
pub enum Shape {
    /// A truth value.
    Bool,
    /// A word of this many bits, 1 to 64.
    Word(u32),
    /// A value of the type with this number.
    Data(u32),
    /// A value that no pattern looks into, such as a map.
    Opaque,
}

/// The declared types, by their numbers: of each type its constructors, by theirs, and of each
/// constructor the shapes of its fields.
#[derive(Drop)]
pub struct Sig {
    pub datas: Vec<Vec<Vec<Shape>>>,
}
