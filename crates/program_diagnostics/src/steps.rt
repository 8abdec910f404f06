//! The steps at open blocks, each made once more, alone, over a base that tells what it reads.

use crate::files::{length_of, text_of};
use crate::machine::{Machine, machine_of};
use crate::runs::{EndedRun, MemoryRuns};
use program_advice::{NamedMachine, OpenBlock, entry_of, machine_for, reads_of};
use state_cell_text::hex_number;
use std::alloc::{AllocError, Global};
use std::rt::Files;
use support_command_line::{CodePart, Order};

/// How many bytes a code word has.
const WORD_LENGTH: usize = 4;

/// What the instructions of open blocks read, each at the place of its block. It is empty where the table says it, or it was not found.
pub fn reads_of_blocks<'a>(
    rt: &(impl Files + AllocGlobal),
    runs: &impl MemoryRuns,
    ended: &EndedRun<'a>,
) -> Vec<String> {
    let mut reads = Vec::new(rt.alloc());
    let blocks = ended.open.blocks();
    if !blocks.iter().any(|block| block.element().is_some()) {
        return reads;
    }
    let Ok(Some(named)) = machine_for(rt.alloc(), ended.words) else {
        return reads;
    };
    let Some(machine) = machine_of(rt, named.spec) else {
        return reads;
    };
    for block in blocks {
        let found = match step_of(rt, &named, &machine, block) {
            Some(step) => reads_by(rt.alloc(), runs, block, step),
            None => None,
        };
        if reads
            .push(found.unwrap_or(String::new(rt.alloc())))
            .is_err()
        {
            break;
        }
    }
    reads
}

/// A step that is to be made again: the words of its analysis, and the files that they name.
#[derive(Drop)]
struct Step {
    words: Vec<String>,
    files: Vec<(String, Vec<u8>)>,
}

/// The step of a block, where it is left to be found what it reads, and all that it needs can be read again.
fn step_of<'a>(
    rt: &(impl Files + AllocGlobal),
    named: &NamedMachine<'a>,
    machine: &Machine,
    block: &OpenBlock,
) -> Option<Step> {
    let element = block.element()?;
    let word = word_at(rt, named.parts.as_slice(), block.at())?;
    let entry = entry_of(rt.alloc(), &machine.cells, block.at(), element).ok()?;
    Some(Step {
        words: words_for(rt.alloc(), block.at(), named.order).ok()?,
        files: files_for(rt.alloc(), &machine.source, word, entry).ok()?,
    })
}

/// What the step of a block reads.
fn reads_by(
    alloc: Global,
    runs: &impl MemoryRuns,
    block: &OpenBlock,
    step: Step,
) -> Option<String> {
    let Step { words, files } = step;
    let element = block.element()?;
    let table = runs.answer(alloc, &words, files)?;
    let text = std::str::from_utf8(&table).ok()?;
    reads_of(alloc, block.at(), element, text).ok()
}

/// The bytes of the code word at an address, where its file can be read again.
fn word_at<'a>(
    rt: &(impl Files + AllocGlobal),
    parts: &[CodePart<'a>],
    at: &str,
) -> Option<Vec<u8>> {
    let at = u32::try_from(hex_number(8, at.as_bytes())?).ok()?;
    for part in parts {
        let Some(offset) = at.checked_sub(part.base) else {
            continue;
        };
        if u64::from(offset) < length_of(rt, part.name)? {
            return word_in(rt.alloc(), &text_of(rt, part.name), offset);
        }
    }
    None
}

/// The word of code that begins so many bytes behind the first.
fn word_in(alloc: Global, code: &[u8], offset: u32) -> Option<Vec<u8>> {
    let word = code.chunks(WORD_LENGTH).nth(offset as usize / WORD_LENGTH)?;
    Vec::from_slice(alloc, word).ok()
}

/// The words of an analysis of the one code word at an address.
fn words_for(alloc: Global, at: &str, order: Order) -> Result<Vec<String>, AllocError> {
    let order = match order {
        Order::Big => "big",
        Order::Little => "little",
    };
    let text = format!(in alloc;
        "analyse spec code entry --open --base kset+defuse --order {order} --at {at}"
    )?;
    let mut words = Vec::new(alloc);
    for word in text.split(' ') {
        words.push(String::from_str(alloc, word)?)?;
    }
    Ok(words)
}

/// The files that these words name.
fn files_for(
    alloc: Global,
    source: &[u8],
    word: Vec<u8>,
    entry: String,
) -> Result<Vec<(String, Vec<u8>)>, AllocError> {
    let mut files = Vec::new(alloc);
    files.push((
        String::from_str(alloc, "spec")?,
        Vec::from_slice(alloc, source)?,
    ))?;
    files.push((String::from_str(alloc, "code")?, word))?;
    files.push((String::from_str(alloc, "entry")?, entry.into_bytes()))?;
    Ok(files)
}
