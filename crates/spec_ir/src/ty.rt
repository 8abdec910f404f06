//! Types.

ghost use Rattle.std.specs.Prelude.{◌≡◌};
ghost use Rattle.spec_ir.specs.Environment.{same_type};

/// A type. Datatypes and map types go by their numbers, from 0, in the order of declaration.
#[derive(Clone, Copy, Debug, PartialEq, Eq, Drop)]
pub enum Ty {
    Bool,
    /// A word of this many bits.
    Word(u32),
    Data(u32),
    Map(u32),
}

/// Whether two types are the same.
pub fn same_type(a: Ty, b: Ty) -> bool
    ensures { result ≡ same_type a b }
{
    match (a, b) {
        (Ty::Bool, Ty::Bool) => true,
        (Ty::Word(v), Ty::Word(w)) => v == w,
        (Ty::Data(s), Ty::Data(t)) => s == t,
        (Ty::Map(m), Ty::Map(n)) => m == n,
        _ => false,
    }
}
