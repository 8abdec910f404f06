//! Whether the premises of a match hold.

ghost use Rattle.std.specs.Prelude.{◌≡◌, true, Some, IfSome, map};
ghost use Rattle.spec_match_compiler.specs.Shapes.{fields_of};
ghost use Rattle.spec_match_compiler.specs.Patterns.{pats};
ghost use Rattle.test_match_compiler.specs.Premises.{shape_fits, shapes_fit, cases_fit, types_fit, pattern_fits, patterns_fit, rows_fit};
ghost use Rattle.spec_match_compiler.specs.Views.{types, pat};

use spec_match_compiler::{Pattern, Shape, Sig};

/// Whether a shape is one that a field of type `n` may have, if types name earlier types alone.
pub fn is_shape(n: u64, shape: Shape) -> bool
    ensures { result ≡ shape_fits n shape }
{
    match shape {
        Shape::Word(w) => 1 <= w && w <= 64,
        Shape::Data(t) => (t as u64) < n,
        _ => true,
    }
}

fn are_shapes(n: u64, shapes: &[Shape]) -> bool
    ensures { result ≡ shapes_fit n shapes.now }
{
    for shape in shapes {
        if !is_shape(n, *shape) {
            return false;
        }
    }
    true
}

fn are_cases(n: u64, cases: &[Vec<Shape>]) -> bool
    ensures { result ≡ cases_fit n (map (λ c. c.items) cases.now) }
{
    for fields in cases {
        if fields.len() as u64 >= 0x1_0000_0000 || !are_shapes(n, fields) {
            return false;
        }
    }
    true
}

/// Whether types are declared in order.
pub fn are_types(sig: &Sig) -> bool
    ensures { result ≡ types_fit 0 (types sig.now) }
{
    for (n, cases) in sig.datas.as_slice().iter().enumerate() {
        let count = cases.len() as u64;
        if count == 0 || count >= 0x1_0000_0000 || !are_cases(n as u64, cases) {
            return false;
        }
    }
    true
}

/// The fields of a constructor of type `t`.
fn fields_at<'a>(sig: &'a Sig, t: u32, case: u32) -> Option<&'a Vec<Shape>>
    ensures { IfSome result (λ fields. fields_of (types sig.now) t case ≡ Some fields.now.items) }
{
    let cases = sig.datas.get(t as usize)?;
    cases.get(case as usize)
}

/// Whether a pattern may stand where values have a shape.
#[cycle(suits)]
fn suits(sig: &Sig, shape: Shape, pattern: &Pattern) -> bool
    ensures { result ≡ true → pattern_fits (types sig.now) shape (pat pattern.now) ≡ true }
{
    match (shape, pattern) {
        (_, Pattern::Any) => true,
        (_, Pattern::Bind(_n)) => true,
        (Shape::Bool, Pattern::Flag(_b)) => true,
        (Shape::Word(w), Pattern::Word(n)) => 1 <= w && w <= 64 && *n <= u64::MAX >> (64 - w),
        (Shape::Data(t), Pattern::Case { case, parts }) => match fields_at(sig, t, *case) {
            None => false,
            Some(fields) => all_suit(sig, fields, parts),
        },
        _ => false,
    }
}

#[cycle(suits)]
fn all_suit(sig: &Sig, shapes: &[Shape], parts: &[Pattern]) -> bool
    ensures { result ≡ true → patterns_fit (types sig.now) shapes.now (pats (map pat parts.now)) ≡ true }
{
    if shapes.len() != parts.len() {
        return false;
    }
    for i in 0..shapes.len().min(parts.len()) {
        if !suits(sig, shapes[i], &parts[i]) {
            return false;
        }
    }
    true
}

/// Whether all rows may stand where values have a shape.
pub fn all_rows_suit(sig: &Sig, shape: Shape, rows: &[Pattern]) -> bool
    ensures { result ≡ true → rows_fit (types sig.now) shape (map pat rows.now) ≡ true }
{
    for row in rows {
        if !suits(sig, shape, row) {
            return false;
        }
    }
    true
}
