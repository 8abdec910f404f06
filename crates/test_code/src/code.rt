//! What a call gives.

use super::segments::{number, order, segments};
use code_image::{Decoder, Image, ImageError, Order, listing_text};
use spec_checker::{SpecUse, check};
use spec_ir::Spec;
use std::alloc::{AllocError, Global};
use syntax_lexer::lex;
use syntax_parser::parse;

/// What the call of a line gives.
pub(crate) fn answer(alloc: Global, line: &str) -> Result<String, AllocError> {
    let Some((name, rest)) = line.split_once(' ') else {
        return no_case(alloc);
    };
    let Some((order_name, rest)) = rest.split_once(' ') else {
        return no_case(alloc);
    };
    let Some(order) = order(order_name) else {
        return no_case(alloc);
    };
    match name {
        "image" => shown(alloc, order, rest),
        "fetch" => fetched(alloc, order, rest),
        "rv" => listed(alloc, program_spec_riscv::text(), order, rest),
        "ppc" => listed(alloc, program_spec_powerpc::text(), order, rest),
        _ => no_case(alloc),
    }
}

fn no_case(alloc: Global) -> Result<String, AllocError> {
    format!(in alloc; "no case")
}

/// The image of segments as text.
fn image(
    alloc: Global,
    order: Order,
    text: &str,
) -> Result<Option<Result<Image, ImageError>>, AllocError> {
    match segments(alloc, text)? {
        Some(segments) if segments.len() <= 16 => Ok(Some(Image::new(alloc, order, &segments))),
        _ => Ok(None),
    }
}

/// The segments of an image in their order, or the line of the first fault.
fn shown(alloc: Global, order: Order, text: &str) -> Result<String, AllocError> {
    let image = match image(alloc, order, text)? {
        None => return no_case(alloc),
        Some(Err(fault)) => return faulty(alloc, fault),
        Some(Ok(image)) => image,
    };
    let mut out = format!(in alloc; "{} words:", image.words())?;
    for i in 0..image.segments() {
        let part = format!(in alloc; " {:08x} {}", image.base_at(i), image.words_at(i))?;
        out.push_str(part.as_str())?;
    }
    Ok(out)
}

/// The line of a fault, without its line end.
fn faulty(alloc: Global, fault: ImageError) -> Result<String, AllocError> {
    let line = fault.fault_line(alloc)?;
    format!(in alloc; "{}", line.as_str().trim_end())
}

/// The word at the address that a text begins with.
fn fetched(alloc: Global, order: Order, text: &str) -> Result<String, AllocError> {
    let Some((address, rest)) = text.split_once(' ') else {
        return no_case(alloc);
    };
    match (number(address), image(alloc, order, rest)?) {
        (Some(address), Some(Ok(image))) => match image.fetch(address) {
            Some(word) => format!(in alloc; "{word:08x}"),
            None => format!(in alloc; "none"),
        },
        (_, Some(Err(fault))) => faulty(alloc, fault),
        _ => no_case(alloc),
    }
}

/// The listing of segments by a specification.
fn listed(alloc: Global, source: &str, order: Order, text: &str) -> Result<String, AllocError> {
    let Some(spec) = specification(alloc, source.as_bytes()) else {
        return format!(in alloc; "no specification");
    };
    let image = match image(alloc, order, text)? {
        None => return no_case(alloc),
        Some(Err(fault)) => return faulty(alloc, fault),
        Some(Ok(image)) => image,
    };
    let decoder = Decoder::new(alloc, &spec)?;
    let bytes = listing_text(alloc, &spec, &decoder, &image)?;
    match std::str::from_utf8(&bytes) {
        Ok(text) => format!(in alloc; "{}", text.trim_end()),
        Err(_) => format!(in alloc; "no text"),
    }
}

/// The specification of a source that has no fault.
fn specification(alloc: Global, source: &[u8]) -> Option<Spec> {
    if source.len() > 262_144 {
        return None;
    }
    let tokens = lex(alloc, source).ok()?;
    let tree = parse(alloc, &tokens, source.len() as u32).ok()?;
    check(alloc, &tree, SpecUse::Machine).ok()
}
