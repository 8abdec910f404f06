//! Equality of values.

ghost use Rattle.std.specs.Prelude.{◌≡◌, get_or, map, None};
ghost use Rattle.abstract_value_laws.specs.Abs.{parts};
ghost use Rattle.abstract_value.specs.Constructors.{spread};
ghost use Rattle.abstract_value.specs.Same.{same_case, same_cases, same_flag, same_parts, same_value};
ghost use Rattle.abstract_value.specs.View.{abs, case_of, cases_of};

use super::constructors::{Constructors, both_alone};
use super::value::AbstractValue;
use base_trait::{Base, Tri};

impl<B: Base> PartialEq for AbstractValue<B> {
    ghost use Rattle.abstract_value.specs.Same.{same_view, same_view_partial};

    ghost eq = { same_view B.Word.eq B.Note.eq };

    ghost laws = { same_view_partial B.Word.eq B.Note.eq B.Word.Eq.laws B.Note.Eq.laws B.same_words B.same_notes };

    fn eq(&self, other: &AbstractValue<B>) -> bool {
        same_value(self, other)
    }
}

impl<B: Base> Eq for AbstractValue<B> {
    ghost use Rattle.abstract_value.specs.Same.{same_view_equiv};

    ghost laws = { same_view_equiv B.Word.eq B.Note.eq B.Word.Eq.laws B.Note.Eq.laws B.same_words B.same_notes };
}

/// Whether two flags may be the same truth values.
fn same_flag(t: Tri, u: Tri) -> bool
    ensures { result ≡ same_flag t u }
{
    t.may_true == u.may_true && t.may_false == u.may_false
}

/// Whether two values are equal, part by part.
#[cycle(same)]
fn same_value<B: Base>(x: &AbstractValue<B>, y: &AbstractValue<B>) -> bool
    ensures { result ≡ same_value B.Word.eq B.Note.eq (abs x.now) (abs y.now) }
{
    match (x, y) {
        (AbstractValue::Flag(t), AbstractValue::Flag(u)) => same_flag(*t, *u),
        (AbstractValue::Word { w, x: word }, AbstractValue::Word { w: u, x: other }) => *w == *u
            && *word == *other,
        (
            AbstractValue::Data { ty, cases },
            AbstractValue::Data {
                ty: tz,
                cases: others,
            },
        ) => *ty == *tz && same_cases::<B>(cases, others),
        (AbstractValue::Map { map, m }, AbstractValue::Map { map: n, m: other }) => *map == *n
            && *m == *other,
        _ => false,
    }
}

#[cycle(same)]
fn same_cases<B: Base>(
    xs: &Constructors<AbstractValue<B>>,
    ys: &Constructors<AbstractValue<B>>,
) -> bool
    ensures { result ≡ same_cases B.Word.eq B.Note.eq (cases_of xs.now) (cases_of ys.now) }
{
    match both_alone(xs, ys) {
        Some((_number, x, y)) => same_parts::<B>(x, y),
        None => same_each::<B>(xs, ys),
    }
}

#[cycle(same)]
fn same_each<B: Base>(
    xs: &Constructors<AbstractValue<B>>,
    ys: &Constructors<AbstractValue<B>>,
) -> bool
    ensures { result ≡ same_cases B.Word.eq B.Note.eq (cases_of xs.now) (cases_of ys.now) }
{
    if xs.len() != ys.len() {
        return false;
    }
    for i in 0..xs.len() {
        if !same_case::<B>(xs, ys, i) {
            return false;
        }
    }
    true
}

/// Whether one constructor is the same.
#[cycle(same)]
fn same_case<B: Base>(
    xs: &Constructors<AbstractValue<B>>,
    ys: &Constructors<AbstractValue<B>>,
    i: usize,
) -> bool
    ensures { result ≡ same_case B.Word.eq B.Note.eq (case_of (get_or (spread xs.now) i None)) (case_of (get_or (spread ys.now) i None)) }
{
    match (xs.fields(i), ys.fields(i)) {
        (None, None) => true,
        (Some(x), Some(y)) => same_parts::<B>(x, y),
        _ => false,
    }
}

#[cycle(same)]
fn same_parts<B: Base>(xs: &[AbstractValue<B>], ys: &[AbstractValue<B>]) -> bool
    ensures { result ≡ same_parts B.Word.eq B.Note.eq (parts (map abs xs.now)) (parts (map abs ys.now)) }
{
    if xs.len() != ys.len() {
        return false;
    }
    for i in 0..xs.len() {
        if !same_value::<B>(&xs[i], &ys[i]) {
            return false;
        }
    }
    true
}
