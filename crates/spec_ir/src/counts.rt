//! How many constructors there are.

ghost use Rattle.std.specs.Prelude.{◌≡◌, length, slice_get};
ghost use Rattle.spec_ir.specs.Texts.{cases_of};
ghost use Rattle.spec_ir.specs.Views.{specification};

use crate::spec::Spec;

/// How many constructors the datatype of a number has; 0 where there is no such datatype.
pub fn case_count(spec: &Spec, number: u32) -> usize
    ensures { result ≡ length (cases_of (slice_get (specification spec.now).datas number)) }
{
    match spec.datas.get(number as usize) {
        Some(data) => data.cases.len(),
        None => 0,
    }
}
