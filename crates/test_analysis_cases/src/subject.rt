//! What a case analyses.

ghost use Rattle.std.specs.Prelude.{◌≡◌, ◌<◌, ◌^◌, IfOk, length, vec_len};
ghost use Rattle.spec_ir.specs.Views.{specification};
ghost use Rattle.semantics_laws.specs.Accepted.{IsAccepted};
ghost use Rattle.state_text.specs.Reading.{entry_of};
ghost use Rattle.domain_laws.specs.States.{state_type};
ghost use Rattle.test_analysis_cases.specs.Subjects.{IsRead, IsSubject};

use crate::case::Case;
use crate::machine::machine;
use code_image::{Image, ImageError, Order, Segment};
use semantics_values::Entry;
use spec_ir::{Machine, Spec};
use state_text::{EntryError, read_entry};
use std::alloc::{AllocError as NoMemory, Global};

/// The address of the code.
const BASE: u32 = 4096;

/// The machine of a specification, an image and an entry.
#[derive(Drop)]
pub struct Subject {
    pub spec: Spec,
    pub machine: Machine,
    pub image: Image,
    pub entry: Entry,
}

/// Why a case was not read.
#[derive(Clone, Copy)]
pub enum Unread {
    /// It has no such part.
    No(&'static str),
    NoMemory,
}

impl From<NoMemory> for Unread {
    fn from(_error: NoMemory) -> Unread {
        Unread::NoMemory
    }
}

impl Subject {
    /// What the name of a machine, code words and an entry say.
    pub(crate) fn read(alloc: Global, case: Case<'_>) -> Result<Subject, Unread>
        ensures { IfOk result IsSubject }
    {
        match machine(alloc, case.machine) {
            Some(spec) => Subject::of_spec(alloc, spec, case),
            None => Err(Unread::No("machine")),
        }
    }

    /// The same, of a machine's specification.
    fn of_spec(alloc: Global, spec: Spec, case: Case<'_>) -> Result<Subject, Unread>
        requires accepted { IsAccepted (specification spec) }
        requires few { length (state_type (specification spec)).fields < 2 ^ 32 }
        ensures { IfOk result IsSubject }
    {
        let Some(machine) = spec.machine else {
            return Err(Unread::No("machine"));
        };
        match coded(alloc, &spec, case) {
            Ok((image, entry)) => Ok(Subject {
                spec,
                machine,
                image,
                entry,
            }),
            Err(error) => Err(error),
        }
    }
}

/// The image and the entry of a case.
fn coded(alloc: Global, spec: &Spec, case: Case<'_>) -> Result<(Image, Entry), Unread>
    ensures { IfOk result (λ r. IsRead (specification spec.now) (entry_of r.1)) }
{
    let image = image(alloc, case.words)?;
    match entry(alloc, spec, case.entry) {
        Ok(entry) => Ok((image, entry)),
        Err(error) => Err(error),
    }
}

/// The number of a word in hex.
fn word(text: &str) -> Result<u32, Unread> {
    match u32::from_str_radix(text, 16) {
        Ok(number) => Ok(number),
        Err(_) => Err(Unread::No("image")),
    }
}

/// The bytes of words in hex, with a space between.
fn bytes(alloc: Global, words: &str) -> Result<Vec<u8>, Unread> {
    let mut out = Vec::new(alloc);
    for text in words.split(' ') {
        out.extend_from_slice(&word(text)?.to_be_bytes())?;
    }
    Ok(out)
}

/// The one segment of an image.
fn segments(alloc: Global, bytes: Vec<u8>) -> Result<Vec<Segment>, NoMemory>
    ensures { IfOk result (λ r. vec_len r ≡ 1) }
{
    Ok(vec![in alloc; Segment { base: BASE, bytes }]?)
}

/// The image of words in hex.
fn image(alloc: Global, words: &str) -> Result<Image, Unread> {
    let segments = segments(alloc, bytes(alloc, words)?)?;
    match Image::new(alloc, Order::Big, &segments) {
        Ok(image) => Ok(image),
        Err(ImageError::NoMemory) => Err(Unread::NoMemory),
        Err(_fault) => Err(Unread::No("image")),
    }
}

/// The entry of a text, with a `;` for each line end.
pub fn entry(alloc: Global, spec: &Spec, text: &str) -> Result<Entry, Unread>
    ensures { IfOk result (λ e. IsRead (specification spec.now) (entry_of e)) }
{
    let mut lines = String::new(alloc);
    for line in text.split(';') {
        writeln!(lines, "{line}")?;
    }
    if lines.len() > 65_536 {
        return Err(Unread::No("entry"));
    }
    match read_entry(alloc, spec, lines.as_bytes()) {
        Ok(entry) => Ok(entry),
        Err(EntryError::NoMemory) => Err(Unread::NoMemory),
        Err(_fault) => Err(Unread::No("entry")),
    }
}
