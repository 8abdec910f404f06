//! Inputs in memory that do not fail.

ghost use Rattle.std.specs.Prelude.{◌≡◌, IsOkAnd, IsTrue};
ghost use Rattle.std.specs.Bool.{IsFalse};
ghost use Rattle.support_io.specs.FileList.{first_file, is_held};
ghost use Rattle.support_io.specs.SureInputs.{state_of};

use crate::named_files::NamedFiles;
use crate::{Failed, Inputs};
use std::alloc::{AllocError, Global};

/// Inputs in memory. An `open` of a name that is not held fails, and no other call does.
#[derive(Drop)]
pub struct SureInputs {
    files: NamedFiles,
    faults: u64,
}

impl SureInputs {
    /// These files by their names, of which the first of a name counts.
    pub fn new(_alloc: Global, files: Vec<(String, Vec<u8>)>) -> Result<SureInputs, AllocError>
        ensures tells { IsOkAnd result (λ inputs. IsTrue (⟦<SureInputs as Inputs>⟧.state inputs).tells) }
        ensures held { IsOkAnd result (λ inputs. (⟦<SureInputs as Inputs>⟧.state inputs).held ≡ first_file files.items) }
        ensures sure { IsOkAnd result (λ inputs. (⟦<SureInputs as Inputs>⟧.state inputs).sure ≡ is_held (first_file files.items)) }
        ensures closed { IsOkAnd result (λ inputs. IsFalse (⟦<SureInputs as Inputs>⟧.state inputs).is_open) }
        ensures faults { IsOkAnd result (λ inputs. (⟦<SureInputs as Inputs>⟧.state inputs).faults ≡ 0) }
    {
        Ok(SureInputs {
            files: NamedFiles::new(files),
            faults: 0,
        })
    }
}

impl Inputs for SureInputs {
    ghost state = { state_of };

    ghost sure_is_held = { λ inputs name told sure. sure };

    fn open(&mut self, name: &str) -> Result<(), Failed> {
        if self.files.open(name) {
            return Ok(());
        }
        self.faults = self.faults.saturating_add(1);
        Err(Failed)
    }

    fn read(&mut self, buf: &mut [u8]) -> Result<usize, Failed> {
        Ok(self.files.read(buf))
    }
}
