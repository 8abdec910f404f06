//! The line of a value.

ghost use Rattle.std.specs.Prelude.{◌≡◌, IfOk};
ghost use Rattle.std.specs.String.{string_bytes};
ghost use Rattle.semantics_values.specs.Values.{word};
ghost use Rattle.semantics_values.specs.Views.{val};
ghost use Rattle.concrete_function_calls.specs.Calls.{value_line};

use semantics_values::Value;
use state_cell_text::push_hex;
use std::alloc::{AllocError, Global};

/// A word as hex digits in lower case, one for four bits, rounded up; a truth value as `true` or `false`; and a line end. Other
/// values have the empty line.
pub fn value_line(alloc: Global, value: &Value) -> Result<String, AllocError>
    ensures { IfOk result (λ text. string_bytes text ≡ value_line (val value.now)) }
{
    match value {
        Value::Word { w, v } => word_line(alloc, *w, *v),
        Value::Flag(true) => String::from_str(alloc, "true\n"),
        Value::Flag(false) => String::from_str(alloc, "false\n"),
        Value::Made { .. } | Value::Map(_) => Ok(String::new(alloc)),
    }
}

/// The line of a word.
fn word_line(alloc: Global, w: u32, v: u64) -> Result<String, AllocError>
    ensures { IfOk result (λ text. string_bytes text ≡ value_line (word w v)) }
{
    let mut text = String::new(alloc);
    push_hex(&mut text, w.div_ceil(4), v)?;
    text.push('\n')?;
    Ok(text)
}
