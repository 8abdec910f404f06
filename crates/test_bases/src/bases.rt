//! The bases by their names.

ghost use Rattle.std.specs.Prelude.{IsTrue};

use super::generic::sum_of_words;
use super::notations::{Definitions, Intervals, Numbers, Pairs, Sets};
use super::notes::{made_again, noted};
use base_concrete::Concrete;
use base_defuse::DefUse;
use base_product::{Pair, Paired};
use base_trait::Base;
use std::alloc::{AllocError as NoMemory, Global};
use test_case_lines::{Notation, Read, Unread, answer, given, parts};

/// What the case of a base gives.
pub(crate) fn found(alloc: Global, line: &str) -> Result<String, NoMemory> {
    match case_of_base(alloc, line) {
        Ok(text) => Ok(text),
        Err(Unread::No) => format!(in alloc; "no case"),
        Err(Unread::NoMemory) => Err(NoMemory),
    }
}

/// What the case of a base gives, if it is one. Of pairs of a number and stamps there are calls on notes alone.
fn case_of_base(alloc: Global, line: &str) -> Read<String> {
    let (base, case) = parts(line);
    let none = ();
    let pair = Pair((), ());
    match base {
        "set0" => of_joining::<Sets<0>>(alloc, &none, case),
        "set2" => of_joining::<Sets<2>>(alloc, &none, case),
        "set16" => of_joining::<Sets<16>>(alloc, &none, case),
        "number" => of_base::<Numbers>(alloc, &none, case),
        "defuse" => of_joining::<Definitions>(alloc, &none, case),
        "set16&interval" => of_set_and::<Intervals>(alloc, &pair, case),
        "set16&defuse" => of_set_and::<Definitions>(alloc, &pair, case),
        "number&defuse" => noted::<Paired<Concrete, DefUse>>(alloc, case),
        "stamps" => made_again(alloc, case),
        _ => Err(Unread::No),
    }
}

fn of_set_and<B: Notation>(
    alloc: Global,
    ctx: &Pair<(), <B::Of as Base>::Ctx>,
    case: &str,
) -> Read<String>
    requires { IsTrue B.Of.algebra.joins }
{
    of_joining::<Pairs<Sets<16>, B>>(alloc, ctx, case)
}

fn of_base<N: Notation>(alloc: Global, ctx: &<N::Of as Base>::Ctx, case: &str) -> Read<String> {
    match noted::<N::Of>(alloc, case) {
        Err(Unread::No) => given(answer::<N>(alloc, ctx, case)),
        read => read,
    }
}

fn of_joining<N: Notation>(alloc: Global, ctx: &<N::Of as Base>::Ctx, case: &str) -> Read<String>
    requires { IsTrue N.Of.algebra.joins }
{
    match sum_of_words::<N>(alloc, ctx, case) {
        Err(Unread::No) => of_base::<N>(alloc, ctx, case),
        read => read,
    }
}
