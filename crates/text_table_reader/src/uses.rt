//! The lines of uses.

ghost use Rattle.std.specs.Prelude.{◌≡◌, ◌<◌, IfOk, IfSome, drop, length, map, option_map};
ghost use Rattle.std.specs.Option.{option_and_then, option_copied};
ghost use Rattle.base_trait.specs.Uses.{seen};
ghost use Rattle.spec_ir.specs.Views.{specification};
ghost use Rattle.spec_ir.specs.declared.ty.Ty.TheVariants as types;
ghost use Rattle.state_cell_text.specs.Keys.{keys_of};
ghost use Rattle.state_cell_text.specs.Places as places;
ghost use Rattle.text_lines.specs.Outcomes.{one};
ghost use Rattle.text_table_reader.specs.Ends as ends;
ghost use Rattle.text_table_reader.specs.Ends.{is_word_of};

use crate::setting::Setting;
use analysis_uses::is_cell_before;
use base_trait::Use;
use domain_laws::Field;
use spec_ir::{Spec, Ty};
use state_cell_text::{same, state_fields};
use std::alloc::{AllocError as NoMemory, Global};
use support_lists::pushed;
use syntax_lexer::Text;
use text_lines::LinesOf;
use text_part_readers::{cut, key_in};
use text_words::{stamps_in, text_behind};

/// The first field of a name.
fn field_named<'f>(fields: &'f [(Text, Ty)], name: &[u8]) -> Option<&'f (Text, Ty)>
    ensures { option_copied result ≡ ends.field_named name.now fields.now }
{
    for field in fields {
        if same(field.0.as_str().as_bytes(), name) {
            return Some(field);
        }
    }
    None
}

/// The number of the map that the field of a name is.
fn map_named(spec: &Spec, name: &[u8]) -> Option<u32>
    ensures { result ≡ option_and_then ends.map_of (ends.field_named name.now (places.state_fields (specification spec.now))) }
{
    match field_named(state_fields(spec), name)?.1 {
        Ty::Map(map) => Some(map),
        _ => None,
    }
}

/// The type of the keys of a map.
fn keys_of_map(spec: &Spec, map: u32) -> Ty
    ensures { result ≡ keys_of (specification spec.now) (types.Map map) }
{
    match spec.maps.get(map as usize) {
        Some(d) => d.key,
        None => Ty::Bool,
    }
}

/// The key of a map that a text is, or any.
fn use_key(spec: &Spec, map: u32, text: &[u8]) -> Option<Option<u64>>
    ensures { result ≡ ends.use_key (specification spec.now) map text.now }
{
    if same(text, b"*") {
        return Some(None);
    }
    match key_in(spec, keys_of_map(spec, map), text) {
        Some(key) => Some(Some(key)),
        None => None,
    }
}

/// A use of a map, by the texts of the key and of the stamps.
fn use_of_map(
    alloc: Global,
    at: &Setting,
    map: u32,
    key: &[u8],
    stamps: &[u8],
) -> Result<Option<Use>, NoMemory>
    ensures { IfOk result (λ r. option_map seen r ≡ ends.use_of_map (specification at.now.spec.now) (is_word_of at.now.image.now) (key.now, stamps.now) map) }
{
    let Some(key) = use_key(at.spec, map, key) else {
        return Ok(None);
    };
    match stamps_in(alloc, at.image, stamps)? {
        Some(from) => Ok(Some(Use { map, key, from })),
        None => Ok(None),
    }
}

/// A use of the map of a name, by what stands behind the bracket.
fn use_behind(
    alloc: Global,
    at: &Setting,
    name: &[u8],
    text: &[u8],
) -> Result<Option<Use>, NoMemory>
    ensures { IfOk result (λ r. option_map seen r ≡ ends.use_behind (specification at.now.spec.now) (is_word_of at.now.image.now) (name.now, text.now)) }
{
    let Some(map) = map_named(at.spec, name) else {
        return Ok(None);
    };
    match cut(b']', text) {
        Some((key, stamps)) => use_of_map(alloc, at, map, key, stamps),
        None => Ok(None),
    }
}

/// The name in a line of a use, and what stands behind the bracket.
fn name_and_rest(line: &[u8]) -> Option<(&[u8], &[u8])>
    ensures { option_map (λ p. (p.0.now, p.1.now)) result ≡ ends.name_said line.now }
{
    cut(b'[', text_behind(b"use ", line)?)
}

/// The use that a line is.
fn use_said(alloc: Global, at: &Setting, line: &[u8]) -> Result<Option<Use>, NoMemory>
    ensures { IfOk result (λ r. option_map seen r ≡ ends.use_said (specification at.now.spec.now) (is_word_of at.now.image.now) line.now) }
{
    match name_and_rest(line) {
        Some((name, text)) => use_behind(alloc, at, name, text),
        None => Ok(None),
    }
}

/// Whether a use may stand behind others: its cell comes after that of the last one.
fn is_use_behind(fields: &[Field], uses: &[Use], of: &Use) -> bool
    ensures { result ≡ ends.is_use_behind fields.now (map seen uses.now) (seen of.now) }
{
    match uses.last() {
        Some(last) => is_cell_before(fields, last, of),
        None => true,
    }
}

/// The use that a line is, where it may stand behind others.
fn next_use(alloc: Global, at: &Setting, uses: &[Use], line: &[u8]) -> Result<Option<Use>, NoMemory>
    ensures { IfOk result (λ r. option_map seen r ≡ ends.next_use (specification at.now.spec.now) (is_word_of at.now.image.now) at.now.fields.now
        (map seen uses.now) line.now) }
{
    let Some(of) = use_said(alloc, at, line)? else {
        return Ok(None);
    };
    if is_use_behind(at.fields, uses, &of) {
        Ok(Some(of))
    } else {
        Ok(None)
    }
}

/// Reads a use that may stand behind others.
fn read_use(
    alloc: Global,
    at: &Setting,
    uses: &[Use],
    lines: &mut LinesOf<'_>,
) -> Result<Option<Use>, NoMemory>
    ensures value { IfOk result (λ r. (option_map seen r, lines.new) ≡ one
        (ends.next_use (specification at.now.spec.now) (is_word_of at.now.image.now) at.now.fields.now (map seen uses.now)) lines.old) }
    ensures shorter { IfOk result (λ r. IfSome r (λ u. length lines.new < length lines.old)) }
{
    let Some((line, rest)) = lines.next() else {
        return Ok(None);
    };
    match next_use(alloc, at, uses, line)? {
        Some(of) => {
            *lines = rest;
            Ok(Some(of))
        }
        None => Ok(None),
    }
}

/// Reads uses as long as lines go on with one.
pub(crate) fn read_uses(
    alloc: Global,
    at: &Setting,
    lines: &mut LinesOf<'_>,
) -> Result<Vec<Use>, NoMemory>
    ensures { IfOk result (λ r. (map seen r.items, lines.new) ≡ ends.read_uses (specification at.now.spec.now) (is_word_of at.now.image.now)
        at.now.fields.now lines.old) }
{
    let mut uses = Vec::new(alloc);
    'uses: loop {
        match read_use(alloc, at, &uses, lines) {
            Ok(Some(of)) => uses = pushed(uses, Ok(of))?,
            Ok(None) => return Ok(uses),
            Err(error) => {
                drop(uses);
                return Err(error);
            }
        }
    }
}
