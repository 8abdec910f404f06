//! Numbers of 32 bits.

ghost use Rattle.std.specs.Prelude.{◌≡◌, IfErr, IfOk};

use crate::spec_error::SpecError;

/// A number of 32 bits. As many things as that take more memory than there is.
pub fn number(n: usize) -> Result<u32, SpecError>
    ensures memory { IfErr result (λ e. e ≡ SpecError.NoMemory) }
    ensures same { IfOk result (λ m. m ≡ n) }
{
    match u32::try_from(n) {
        Ok(m) => Ok(m),
        Err(_) => Err(SpecError::NoMemory),
    }
}
