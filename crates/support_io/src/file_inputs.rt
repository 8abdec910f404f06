//! The files of the file system as inputs.
//!
//! `read_front` does the work, and its contract says which bytes of a reader it hands on. What a file gives
//! to its reader no contract can tell: that is shown by a test, and by the stored run of the program.

ghost use Rattle.std.specs.Prelude.{◌≡◌, ◌<◌, ◌≤◌, false, [], None, is_some, length, IfOk, OnOk, OnErr};
ghost use Rattle.std.specs.Bool.{IsFalse};
ghost use Rattle.std.specs.Io.KnownBytes.{ReadConsumes};
ghost use Rattle.std.proofs.Common.{rules};
ghost use Rattle.support_io.specs.Faults.{RoseByOne};

use crate::whole_read::PIECE;
use crate::{Failed, Inputs};
use std::fs;
use std::io::Read;
use std::rt::Files;

/// Files of the file system by their paths. What they hold is not told.
#[derive(Drop)]
pub struct FileInputs<'a, R: Files> {
    rt: &'a R,
    file: Option<R::File>,
    faults: u64,
}

impl<'a, R: Files> FileInputs<'a, R> {
    /// The files that `rt` reaches, none of them open.
    pub fn new(rt: &'a R) -> FileInputs<'a, R>
        ensures closed { IsFalse (⟦<FileInputs<'a, R> as Inputs>⟧.state result).is_open }
        ensures faults { (⟦<FileInputs<'a, R> as Inputs>⟧.state result).faults ≡ 0 }
    {
        FileInputs {
            rt,
            file: None,
            faults: 0,
        }
    }
}

impl<R: Files> Inputs for FileInputs<'_, R> {
    ghost state = { λ inputs. record {
      tells = false;
      held = λ _. None;
      is_open = is_some inputs.file;
      name = [];
      left = [];
      faults = inputs.faults;
      sure = λ _. false;
      is_open_sure = false;
    } };

    ghost sure_is_held = { Prim.search rules };

    fn open(&mut self, name: &str) -> Result<(), Failed> {
        self.file = fs::open(self.rt, name).ok();
        if self.file.is_some() {
            return Ok(());
        }
        self.faults = self.faults.saturating_add(1);
        Err(Failed)
    }

    fn read(&mut self, buf: &mut [u8]) -> Result<usize, Failed> {
        let Some(file) = &mut self.file else {
            unreachable!()
        };
        read_front(file, buf, &mut self.faults)
    }
}

/// Reads a piece of what the reader has left into the front of `buf`, and answers how many bytes it has. Where this
/// fails a fault is counted, and `buf` is as it was.
fn read_front<R: Read>(reader: &mut R, buf: &mut [u8], faults: &mut u64) -> Result<usize, Failed>
    requires { 0 < length buf.old }
    ensures within { IfOk result (λ count. count ≤ length buf.new) }
    ensures bytes { ReadConsumes (R.remaining reader.old) (R.remaining reader.new) result buf.new }
    ensures faults { faults.old ≤ faults.new }
    ensures no_fault { OnOk result (faults.new ≡ faults.old) }
    ensures fault { OnErr result (RoseByOne faults.old faults.new) }
    ensures unchanged { OnErr result (buf.new ≡ buf.old) }
{
    // What a failed read leaves in the bytes that it was lent is not known, so these are its own.
    let mut piece = [0u8; PIECE];
    let lent = buf.len().min(PIECE);
    match reader.read(&mut piece[..lent]) {
        Ok(count) => {
            buf[..count].copy_from_slice(&piece[..count]);
            Ok(count)
        }
        Err(_) => {
            *faults = faults.saturating_add(1);
            Err(Failed)
        }
    }
}
