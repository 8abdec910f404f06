//! From the kind of an operation to the function that does it.

/// An instance's table of operations: which function does each kind, on the same operands.
///
/// `dispatch!(op (w, x, y) { Op2::Add => add, Op2::Sub => sub, _ => any })` is
/// `match op { Op2::Add => add(w, x, y), Op2::Sub => sub(w, x, y), _ => any(w, x, y) }`. A table of the
/// row `_` alone does every kind alike.
#[macro_export]
macro_rules! dispatch {
    ($kind:ident $operands:tt { _ => $all:ident $(,)? }) => {
        $all $operands
    };
    ($kind:ident $operands:tt { $($kinds:ident::$row:ident => $one:ident,)+ $(_ => $others:ident $(,)?)? }) => {
        match $kind {
            $($kinds::$row => $one $operands,)+
            $(_ => $others $operands,)?
        }
    };
}
