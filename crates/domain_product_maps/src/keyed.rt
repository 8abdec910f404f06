//! Values with keys.

ghost use Rattle.std.specs.Prelude.{◌≡◌, IfOk, IsOkAnd};

use std::alloc::AllocError as NoMemory;

/// A value with its key, if there is a value.
pub(crate) fn with_key<T>(key: u64, value: Result<T, NoMemory>) -> Result<(u64, T), NoMemory>
    ensures { IfOk result (λ r. IsOkAnd value (λ x. r ≡ (key, x))) }
{
    match value {
        Ok(value) => Ok((key, value)),
        Err(error) => Err(error),
    }
}
