//! Why segments are no image.

ghost use Rattle.std.specs.Prelude.{◌≡◌, IfOk};
ghost use Rattle.std.specs.String.{string_bytes};
ghost use Rattle.code_image.specs.Faults.{fault_line};

use std::alloc::{AllocError, AllocFailed, Global};

/// The first fault of segments in the order in which they are given.
#[derive(Clone, Copy, Debug, PartialEq, Eq, Drop)]
pub enum ImageError {
    /// I1: a length that is no multiple of 4.
    OddLength,
    /// I2: more than 1,048,576 bytes in all.
    TooLong,
    /// I3: a byte past the end of memory.
    PastEnd,
    /// I4: a base that is no multiple of 4.
    Misaligned,
    /// I5: a byte at an address of an earlier segment.
    Overlap,
    /// Memory ran out.
    NoMemory,
}

impl ImageError {
    /// The line that names the fault, `code I1` to `code I5`, with a line end. Want of memory has the empty one.
    pub fn fault_line(&self, alloc: Global) -> Result<String, AllocError>
        ensures { IfOk result (λ text. string_bytes text ≡ fault_line self.now) }
    {
        String::from_str(
            alloc,
            match self {
                ImageError::OddLength => "code I1\n",
                ImageError::TooLong => "code I2\n",
                ImageError::PastEnd => "code I3\n",
                ImageError::Misaligned => "code I4\n",
                ImageError::Overlap => "code I5\n",
                ImageError::NoMemory => "",
            },
        )
    }
}

impl From<AllocError> for ImageError {
    ghost use Rattle.std.specs.Prelude.{◌≡◌};
    ghost use Rattle.code_image.specs.declared.image_error.ImageError.TheVariants.{NoMemory};

    ghost from_gives = { λ _ e. e ≡ NoMemory };

    fn from(_error: AllocError) -> ImageError {
        ImageError::NoMemory
    }
}
