//! The arguments that texts write.

ghost use Rattle.std.specs.Prelude.{◌≡◌, IfOk, length, map, option_map};
ghost use Rattle.spec_ir.specs.declared.ty.Ty.TheVariants.{Bool, Word};
ghost use Rattle.semantics_values.specs.Views.{val};
ghost use Rattle.concrete_function_calls.specs.Arguments.{argument_in, arguments_in, borrowed};

use semantics_values::Value;
use spec_ir::Ty;
use state_cell_text::{fits, hex_number};
use std::alloc::{AllocError, Global};

/// How many hex digits a number has at most.
const MOST_DIGITS: usize = 16;

/// The value of a type that a text writes.
pub fn argument(ty: Ty, text: &str) -> Option<Value>
    ensures { option_map val result ≡ argument_in ty text.now }
{
    match ty {
        Ty::Word(w) => word(w, text),
        Ty::Bool => flag(text),
        Ty::Data(_) | Ty::Map(_) => None,
    }
}

/// The word of a width that a text writes.
fn word(w: u32, text: &str) -> Option<Value>
    ensures { option_map val result ≡ argument_in (Word w) text.now }
{
    let v = hex_number(MOST_DIGITS, text.as_bytes())?;
    if fits(v, w) {
        Some(Value::Word { w, v })
    } else {
        None
    }
}

/// The truth value that a text writes.
fn flag(text: &str) -> Option<Value>
    ensures { option_map val result ≡ argument_in Bool text.now }
{
    match text {
        "true" => Some(Value::Flag(true)),
        "false" => Some(Value::Flag(false)),
        _ => None,
    }
}

/// The values of the types that the texts write, where there are as many texts as types and each writes one.
pub fn arguments(
    alloc: Global,
    types: &[Ty],
    texts: &[&str],
) -> Result<Option<Vec<Value>>, AllocError>
    ensures { IfOk result (λ found. option_map (λ args. map val args.items) found
        ≡ arguments_in types.now (borrowed texts.now)) }
{
    if types.len() != texts.len() {
        return Ok(None);
    }
    let mut args = Vec::new(alloc);
    for i in 0..types.len() {
        let Some(arg) = argument(types[i], texts[i]) else {
            return Ok(None);
        };
        args.push(arg)?;
    }
    Ok(Some(args))
}
