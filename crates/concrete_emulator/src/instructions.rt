//! Instructions of code addresses.

ghost use Rattle.std.specs.Prelude.{◌≡◌, [], IfOk};
ghost use Rattle.concrete_emulator.specs.Emulators.{IsReady};
ghost use Rattle.concrete_emulator.specs.Instructions.{AreInstructions, IsFetched, entries};

use crate::emulator::Emulator;
use abstract_value::AbstractValue;
use base_concrete::Concrete;
use indexmap::IndexMap;
use std::alloc::{AllocError, Global};

/// The instructions that a run has met, by their addresses, as arguments of calls. Memory holds no code, so the word at an address
/// is decoded once.
#[derive(Drop)]
pub(crate) struct Instructions {
    by_address: IndexMap<u32, AbstractValue<Concrete>>,
}

/// What stands at an address: no code word, a word that is no instruction, or an instruction.
#[derive(Drop)]
pub(crate) enum Fetched {
    NoCode,
    NoInstruction(u32),
    Instruction(AbstractValue<Concrete>),
}

impl Instructions {
    /// Of no addresses.
    pub(crate) fn new(alloc: Global) -> Instructions
        ensures { entries result ≡ [] }
    {
        Instructions {
            by_address: IndexMap::new(alloc),
        }
    }

    /// What stands at an address. An instruction that was met there before is copied, which shares its fields.
    pub(crate) fn fetch(
        &mut self,
        alloc: Global,
        emulator: &Emulator,
        at: u32,
    ) -> Result<Fetched, AllocError>
        requires ready { IsReady emulator.now }
        requires known { AreInstructions emulator.now (entries self.old) }
        ensures known { AreInstructions emulator.now (entries self.new) }
        ensures fetched { IfOk result (IsFetched emulator.now at) }
    {
        if let Some(instruction) = self.by_address.get(&at) {
            return Ok(Fetched::Instruction(instruction.copy(alloc, &())?));
        }
        self.decode(alloc, emulator, at)
    }

    /// The same, where nothing was met before: an instruction is kept.
    fn decode(&mut self, alloc: Global, emulator: &Emulator, at: u32) -> Result<Fetched, AllocError>
        requires ready { IsReady emulator.now }
        requires known { AreInstructions emulator.now (entries self.old) }
        ensures known { AreInstructions emulator.now (entries self.new) }
        ensures fetched { IfOk result (IsFetched emulator.now at) }
    {
        match decoded_at(alloc, emulator, at)? {
            Fetched::NoCode => Ok(Fetched::NoCode),
            Fetched::NoInstruction(word) => Ok(Fetched::NoInstruction(word)),
            Fetched::Instruction(instruction) => {
                let kept = instruction.copy(alloc, &())?;
                self.by_address.insert(at, kept)?;
                Ok(Fetched::Instruction(instruction))
            }
        }
    }
}

/// What the word at an address is, if there is one.
fn decoded_at(alloc: Global, emulator: &Emulator, at: u32) -> Result<Fetched, AllocError>
    requires { IsReady emulator.now }
    ensures { IfOk result (IsFetched emulator.now at) }
{
    let Some(word) = emulator.image.fetch(at) else {
        return Ok(Fetched::NoCode);
    };
    match emulator.decoder.find(alloc, emulator.spec, word)? {
        None => Ok(Fetched::NoInstruction(word)),
        Some(instruction) => Ok(Fetched::Instruction(AbstractValue::of_value(
            alloc,
            &(),
            emulator.spec,
            &instruction,
        )?)),
    }
}
