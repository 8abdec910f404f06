//! Texts of examples.

ghost use Rattle.std.specs.Prelude.{◌≡◌, ◌++◌, ◌<◌, IfOk, OnOk, length, map, option_map};
ghost use Rattle.std.specs.String.{string_bytes};
ghost use Rattle.spec_match_compiler.specs.Patterns.{pats};
ghost use Rattle.spec_match_compiler.specs.Views.{pat};
ghost use Rattle.spec_ir.specs.Environment.{field_types};
ghost use Rattle.spec_ir.specs.Texts as texts;
ghost use Rattle.spec_ir.specs.Views.{case_of, environment};

use crate::declared::{Case, Declarations};
use crate::names::field_types;
use crate::ty::Ty;
use spec_match_compiler::Pattern;
use std::alloc::{AllocError, Global};
use syntax_lexer::Text;

/// An example, where values have a type.
pub fn pattern_text(
    alloc: Global,
    declarations: &Declarations,
    ty: Ty,
    p: &Pattern,
) -> Result<Text, AllocError>
    ensures { IfOk result (λ t. t ≡ texts.pattern_text (environment declarations.now) ty (pat p.now)) }
{
    let mut out = String::new(alloc);
    write_pattern(alloc, declarations, &mut out, ty, p)?;
    Text::from_str(alloc, out.as_str())
}

/// The text of a pattern at the end of `out`.
#[cycle(text)]
fn write_pattern(
    alloc: Global,
    declarations: &Declarations,
    out: &mut String,
    ty: Ty,
    p: &Pattern,
) -> Result<(), AllocError>
    ensures { OnOk result (string_bytes out.new ≡ string_bytes out.old ++ texts.pattern_text (environment declarations.now) ty (pat p.now)) }
{
    match p {
        Pattern::Any => out.push_str("_"),
        Pattern::Bind(_variable) => out.push_str("_"),
        Pattern::Flag(true) => out.push_str("true"),
        Pattern::Flag(false) => out.push_str("false"),
        Pattern::Word(v) => write_number(alloc, out, ty, *v),
        Pattern::Case { case, parts } => match case_at(declarations, ty, *case) {
            Some(c) => write_case(alloc, declarations, out, c, parts),
            None => Ok(()),
        },
    }
}

/// A constructor of a type.
fn case_at<'a>(declarations: &'a Declarations, ty: Ty, case: u32) -> Option<&'a Case>
    ensures { option_map (λ c. case_of c.now) result ≡ texts.case_at (environment declarations.now) ty case }
{
    match ty {
        Ty::Data(t) => match declarations.datas.get(t as usize) {
            Some(data) => data.cases.get(case as usize),
            None => None,
        },
        _ => None,
    }
}

/// A number that stands where values have a type.
fn write_number(alloc: Global, out: &mut String, ty: Ty, v: u64) -> Result<(), AllocError>
    ensures { OnOk result (string_bytes out.new ≡ string_bytes out.old ++ texts.number_text ty v) }
{
    match ty {
        Ty::Word(w) => {
            let text = format!(in alloc; "{v}:{w}")?;
            out.push_str(text.as_str())
        }
        _ => Ok(()),
    }
}

/// A constructor with its parts.
#[cycle(text)]
fn write_case(
    alloc: Global,
    declarations: &Declarations,
    out: &mut String,
    case: &Case,
    parts: &[Pattern],
) -> Result<(), AllocError>
    ensures { OnOk result (string_bytes out.new ≡ string_bytes out.old ++ case.now.name ++ texts.arguments_text (environment declarations.now)
        (field_types (case_of case.now)) (pats (map pat parts.now))) }
{
    out.push_str(case.name.as_str())?;
    let types = field_types(alloc, &case.fields)?;
    if types.is_empty() || parts.is_empty() {
        return Ok(());
    }
    write_parts(alloc, declarations, out, &types, parts)
}

/// Parts in parentheses.
#[cycle(text)]
fn write_parts(
    alloc: Global,
    declarations: &Declarations,
    out: &mut String,
    types: &[Ty],
    parts: &[Pattern],
) -> Result<(), AllocError>
    requires types { 0 < length types.now }
    requires parts { 0 < length parts.now }
    ensures { OnOk result (string_bytes out.new ≡ string_bytes out.old ++ texts.arguments_text (environment declarations.now) types.now
        (pats (map pat parts.now))) }
{
    out.push_str("(")?;
    write_pattern(alloc, declarations, out, types[0], &parts[0])?;
    for i in 1..types.len().min(parts.len()) {
        out.push_str(", ")?;
        write_pattern(alloc, declarations, out, types[i], &parts[i])?;
    }
    out.push_str(")")
}
