//! Programs of the machine.

ghost use Rattle.std.specs.Prelude.{◌≡◌, List, IfSome};
ghost use Rattle.base_trait.specs.Lists.{ascends_from};
ghost use Rattle.test_cases.specs.Machine.{IsProgram, addresses, instr_at};

use crate::machine::{Instr, Interval, TOP, Word};

/// Code words, where runs start, and with which numbers.
#[derive(Drop)]
pub(crate) struct Program {
    pub(crate) code: Vec<Word>,
    pub(crate) start: u32,
    pub(crate) entry: Interval,
}

/// Whether the addresses ascend without doubles.
fn are_ascending(code: &[Word]) -> bool
    ensures { result ≡ ascends_from 0 (addresses code.now) }
{
    let mut low = 0u64;
    for word in code {
        let at = word.at;
        if u64::from(at) < low {
            return false;
        }
        low = u64::from(at) + 1;
    }
    true
}

impl Program {
    /// The program of these words, where they ascend and are not too many, and where the numbers are of the machine.
    pub(crate) fn new(code: Vec<Word>, start: u32, entry: Interval) -> Option<Program>
        ensures { IfSome result (λ p. IsProgram p.code.items p.entry) }
    {
        if code.len() <= 262144 && entry.high <= TOP && are_ascending(&code) {
            Some(Program { code, start, entry })
        } else {
            None
        }
    }

    /// The instruction at an address.
    pub(crate) fn instr_at(&self, at: u32) -> Option<Instr>
        ensures { result ≡ instr_at self.now.code.items at }
    {
        for word in &self.code {
            if word.at == at {
                return Some(word.instr);
            }
        }
        None
    }
}
