//! Sizes of declarations.

ghost use Rattle.std.specs.Prelude.{◌≡◌, None, OnOk, map, true};
ghost use Rattle.std.specs.List.{list_all};
ghost use Rattle.syntax_parser.specs.View as view;
ghost use Rattle.spec_ir.specs.Answers.{Agrees};
ghost use Rattle.spec_declarations.specs.Sizes as spec;

use spec_ir::SpecError;
use syntax_parser::tree::{CaseDecl, DataDecl};

/// Constructors and their fields have numbers of 32 bits. More take more memory than there is.
pub fn check_sizes(datas: &[&DataDecl]) -> Result<(), SpecError>
    ensures answer { Agrees result None }
    ensures sized { OnOk result (spec.are_sized (map (λ d. view.datatype d.now) datas.now) ≡ true) }
{
    if are_sized(datas) {
        Ok(())
    } else {
        Err(SpecError::NoMemory)
    }
}

fn are_sized(datas: &[&DataDecl]) -> bool
    ensures { result ≡ spec.are_sized (map (λ d. view.datatype d.now) datas.now) }
{
    for d in datas {
        if !is_sized(d) {
            return false;
        }
    }
    true
}

fn is_sized(d: &DataDecl) -> bool
    ensures { result ≡ spec.is_sized (view.datatype d.now) }
{
    d.cases.len() < 4_294_967_296 && have_few_fields(&d.cases)
}

fn have_few_fields(cases: &[CaseDecl]) -> bool
    ensures { result ≡ list_all spec.has_few_fields (map view.constructor cases.now) }
{
    for c in cases {
        if c.fields.len() >= 4_294_967_296 {
            return false;
        }
    }
    true
}
