//! Inputs in memory that fail where they are told to.

ghost use Rattle.std.specs.Prelude.{◌≡◌, ◌↔◌, ◌⊎◌, ◌<◌, ◌≤◌, ◌++◌, [], if◌then◌else◌, None, is_some, is_ok, min, take, IfOk, OnErr, OnOk, IsErr, IsTrue, length, IsOkAnd};
ghost use Rattle.std.specs.Bool.{IsFalse};
ghost use Rattle.support_io.specs.FileList.{first_file};
ghost use Rattle.support_io.specs.FailingCalls.{FailsNext, GoesOn, sure_names};
ghost use Rattle.support_io.specs.Faults.{counted};
ghost use Rattle.support_io.specs.InputState.{InputsKept, StillOpen};
ghost use Rattle.support_io.specs.MemInputs.{files_of, calls_of, state_of};
ghost use Rattle.support_io.specs.NamedFiles.{held_in, open_in, left_in};
ghost use Rattle.std.proofs.Common.{rules};

use crate::failing_calls::FailingCalls;
use crate::named_files::NamedFiles;
use crate::{Failed, Inputs};
use std::alloc::{AllocError, Global};

/// Inputs in memory. The calls of `open` and `read` are numbered together from 0, and those whose
/// number was given to `new` fail. An `open` of a name that is not held fails too.
#[derive(Drop)]
pub struct MemInputs {
    files: NamedFiles,
    calls: FailingCalls,
    faults: u64,
}

impl MemInputs {
    /// These files by their names, of which the first of a name counts, and the numbers of the
    /// calls that are to fail.
    pub fn new(
        _alloc: Global,
        files: Vec<(String, Vec<u8>)>,
        fail: Vec<u32>,
    ) -> Result<MemInputs, AllocError>
        ensures tells { IsOkAnd result (λ inputs. IsTrue (⟦<MemInputs as Inputs>⟧.state inputs).tells) }
        ensures held { IsOkAnd result (λ inputs. (⟦<MemInputs as Inputs>⟧.state inputs).held ≡ first_file files.items) }
        ensures sure { IsOkAnd result (λ inputs. (⟦<MemInputs as Inputs>⟧.state inputs).sure ≡ sure_names (calls_of inputs) (first_file files.items)) }
        ensures calls { IsOkAnd result (λ inputs. calls_of inputs ≡ record { fail = fail; next = 0 }) }
        ensures closed { IsOkAnd result (λ inputs. IsFalse (⟦<MemInputs as Inputs>⟧.state inputs).is_open) }
        ensures faults { IsOkAnd result (λ inputs. (⟦<MemInputs as Inputs>⟧.state inputs).faults ≡ 0) }
    {
        Ok(MemInputs {
            files: NamedFiles::new(files),
            calls: FailingCalls::new(fail),
            faults: 0,
        })
    }

    // Counts a fault, and answers it.
    fn count_fault(&mut self) -> Failed
        ensures counts { self.new ≡ record self.old { faults = counted (state_of self.old).faults } }
        ensures faults { (state_of self.old).faults ≤ (state_of self.new).faults }
    {
        self.faults = self.faults.saturating_add(1);
        Failed
    }
}

impl Inputs for MemInputs {
    ghost state = { state_of };

    ghost sure_is_held = { λ inputs name told sure. Prim.search rules };

    fn open(&mut self, name: &str) -> Result<(), Failed>
        // It fails exactly where it is told to, and at a name that is not held.
        ensures fails { IsErr result ↔ (FailsNext (calls_of self.old) ⊎ (held_in (files_of self.old) name.now ≡ None)) }
        ensures opened { open_in (files_of self.new) ≡ (if is_ok result then held_in (files_of self.old) name.now else None) }
        ensures named { OnOk result ((state_of self.new).name ≡ name.now) }
        ensures counts { (state_of self.new).faults ≡ (if is_ok result then (state_of self.old).faults else counted (state_of self.old).faults) }

        ensures kept { InputsKept (state_of self.old) (state_of self.new) }
        ensures goes_on { GoesOn (calls_of self.old) (calls_of self.new) }
    {
        if self.calls.next_fails() {
            self.files.close();
            return Err(self.count_fault());
        }
        if !self.files.open(name) {
            return Err(self.count_fault());
        }
        Ok(())
    }

    fn read(&mut self, buf: &mut [u8]) -> Result<usize, Failed>
        requires open { IsTrue (is_some (open_in (files_of self.old))) }
        requires nonempty { 0 < length buf.old }

        // It fails exactly where it is told to, and reads as much as there is elsewhere.
        ensures fails { IsErr result ↔ FailsNext (calls_of self.old) }
        ensures count { IfOk result (λ count. count ≡ min (length buf.new) (length (left_in (files_of self.old)))) }
        ensures taken { IfOk result (λ count. left_in (files_of self.old) ≡ take count buf.new ++ left_in (files_of self.new)) }
        ensures end { IfOk result (λ count. (count ≡ 0) ↔ (left_in (files_of self.old) ≡ [])) }
        ensures none_taken { OnErr result (left_in (files_of self.new) ≡ left_in (files_of self.old)) }
        ensures unchanged { OnErr result (buf.new ≡ buf.old) }
        ensures counts { (state_of self.new).faults ≡ (if is_ok result then (state_of self.old).faults else counted (state_of self.old).faults) }

        ensures kept { InputsKept (state_of self.old) (state_of self.new) }
        ensures still_open { StillOpen (state_of self.old) (state_of self.new) }
        ensures goes_on { GoesOn (calls_of self.old) (calls_of self.new) }
    {
        if self.calls.next_fails() {
            return Err(self.count_fault());
        }
        Ok(self.files.read(buf))
    }
}
