//! The head of a table.

ghost use Rattle.std.specs.Prelude.{◌≡◌, ◌++◌, IfOk, codes};
ghost use Rattle.std.specs.List.{list_all};
ghost use Rattle.std.specs.String.{string_bytes};
ghost use Rattle.text_lines.specs.Lines.{lines};
ghost use Rattle.text_tables.specs.Heads as lines_of;
ghost use Rattle.text_table_reader.specs.Heads as heads;
ghost use Rattle.text_table_reader.specs.Views.{Leaves};

use crate::lines::is_line;
use code_image::{Image, Order};
use state_cell_text::same;
use std::alloc::{AllocError, Global};
use support_command_line::BaseName;
use text_lines::next_line;
use text_tables::{push_order, push_segment};
use text_words::{number_in, text_behind};

/// Which rule a faulty line breaks.
#[derive(Clone, Copy, Debug, PartialEq, Eq)]
pub(crate) enum Rule {
    /// X1: the form of lines.
    Form,
    /// X2: the base is another one.
    Base,
    /// X3: the code, or the order of its bytes, is another one.
    Code,
}

/// Which line of the head is wanted.
#[derive(Clone, Copy, Debug, PartialEq, Eq)]
pub(crate) enum Place {
    Base,
    Order,
    Code,
}

/// Why the head is not read to its end: a line is faulty, and `left` is the text from there on.
pub(crate) enum HeadStop<'a> {
    At { rule: Rule, left: &'a [u8] },
    NoMemory,
}

impl From<AllocError> for HeadStop<'_> {
    ghost use Rattle.text_table_reader.specs.declared.head.HeadStop.TheVariants.{NoMemory};

    ghost from_gives = { λ _ stop. stop ≡ NoMemory };

    fn from(_: AllocError) -> Self {
        HeadStop::NoMemory
    }
}

/// Whether a name is that of a base.
fn is_base(name: &[u8]) -> bool
    ensures { result ≡ heads.is_base name.now }
{
    BaseName::ALL
        .iter()
        .any(|base| same(base.name().as_bytes(), name))
}

/// Whether a byte is a decimal digit.
fn is_decimal(byte: u8) -> bool
    ensures { result ≡ heads.is_decimal byte }
{
    matches!(byte, b'0'..=b'9')
}

/// Whether all bytes are decimal digits.
fn are_decimal(text: &[u8]) -> bool
    ensures { result ≡ list_all heads.is_decimal text.now }
{
    text.iter().all(|byte| is_decimal(*byte))
}

/// Whether a text is a number in decimal digits without leading zeros, of any size.
fn is_length(text: &[u8]) -> bool
    ensures { result ≡ heads.is_length text.now }
{
    match text {
        [] => false,
        [first, digits @ ..] => {
            is_decimal(*first) && are_decimal(digits) && !(*first == b'0' && !digits.is_empty())
        }
    }
}

/// Whether a text is a space and a length.
fn is_length_part(text: &[u8]) -> bool
    ensures { result ≡ heads.is_length_part text.now }
{
    match text {
        [] => false,
        [first, digits @ ..] => *first == b' ' && is_length(digits),
    }
}

/// Whether a text is an address in 8 digits, a space and a length.
fn is_code_part(text: &[u8]) -> bool
    ensures { result ≡ heads.is_code_part text.now }
{
    let len = text.len().min(8);
    number_in(32, &text[..len]).is_some() && is_length_part(&text[len..])
}

/// Whether a line has the form of one of code.
fn has_code_form(line: &[u8]) -> bool
    ensures { result ≡ heads.has_code_form line.now }
{
    match text_behind(b"code ", line) {
        Some(part) => is_code_part(part),
        None => false,
    }
}

/// Whether a line names a base.
fn has_base_form(line: &[u8]) -> bool
    ensures { result ≡ heads.has_base_form line.now }
{
    match text_behind(b"base ", line) {
        Some(name) => is_base(name),
        None => false,
    }
}

/// Whether a line tells an order of bytes.
fn has_order_form(line: &[u8]) -> bool
    ensures { result ≡ heads.has_order_form line.now }
{
    same(line, b"order big") || same(line, b"order little")
}

/// The rule that a line breaks, where it stands in place of this one and is another.
fn rule_at(place: Place, line: &[u8]) -> Rule
    ensures { result ≡ heads.rule_at place line.now }
{
    match place {
        Place::Base if has_base_form(line) => Rule::Base,
        Place::Order if has_order_form(line) => Rule::Code,
        Place::Code if has_code_form(line) => Rule::Code,
        _ => Rule::Form,
    }
}

/// Behind the line that is wanted.
fn expect_line<'a>(wanted: &[u8], place: Place, text: &'a [u8]) -> Result<&'a [u8], HeadStop<'a>>
    ensures { Leaves result (heads.exact wanted.now place (lines text.now)) }
{
    match next_line(text) {
        Some((line, rest)) => {
            if is_line(wanted, line) {
                Ok(rest)
            } else {
                Err(HeadStop::At {
                    rule: rule_at(place, line),
                    left: text,
                })
            }
        }
        None => Err(HeadStop::At {
            rule: Rule::Form,
            left: text,
        }),
    }
}

/// Behind the line of a base.
fn read_base<'a>(alloc: Global, name: &str, text: &'a [u8]) -> Result<&'a [u8], HeadStop<'a>>
    ensures { Leaves result (heads.read_base name.now (lines text.now)) }
{
    let wanted = base_line(alloc, name)?;
    expect_line(wanted.as_bytes(), Place::Base, text)
}

/// The line of a base.
fn base_line(alloc: Global, name: &str) -> Result<String, AllocError>
    ensures { IfOk result (λ r. string_bytes r ≡ codes "base " ++ (name.now ++ codes "\n")) }
{
    format!(in alloc; "base {name}\n")
}

/// The line of the order of bytes.
fn order_line(alloc: Global, order: Order) -> Result<String, AllocError>
    ensures { IfOk result (λ r. string_bytes r ≡ lines_of.order_line order) }
{
    let mut out = String::new(alloc);
    push_order(&mut out, order)?;
    Ok(out)
}

/// The line of a segment.
fn code_line(alloc: Global, base: u32, words: u32) -> Result<String, AllocError>
    ensures { IfOk result (λ r. string_bytes r ≡ lines_of.code_line base words) }
{
    let mut out = String::new(alloc);
    push_segment(&mut out, base, words)?;
    Ok(out)
}

/// Behind the lines of the segments of an image.
fn read_codes<'a>(alloc: Global, image: &Image, text: &'a [u8]) -> Result<&'a [u8], HeadStop<'a>>
    ensures { Leaves result (heads.read_codes image.now.segments (lines text.now)) }
{
    let mut rest = text;
    for i in 0..image.segments() {
        let wanted = code_line(alloc, image.base_at(i), image.words_at(i))?;
        match expect_line(wanted.as_bytes(), Place::Code, rest) {
            Ok(behind) => rest = behind,
            Err(stop) => return Err(stop),
        }
    }
    Ok(rest)
}

/// The same text, where it does not begin with a line of code.
fn no_code(text: &[u8]) -> Result<&[u8], HeadStop<'_>>
    ensures { Leaves result (heads.no_code (lines text.now)) }
{
    match next_line(text) {
        Some((line, _rest)) => {
            if has_code_form(line) {
                Err(HeadStop::At {
                    rule: Rule::Code,
                    left: text,
                })
            } else {
                Ok(text)
            }
        }
        None => Ok(text),
    }
}

/// Behind the order of bytes and the lines of code, as format 2 has them.
fn read_image<'a>(alloc: Global, image: &Image, text: &'a [u8]) -> Result<&'a [u8], HeadStop<'a>>
    ensures { Leaves result (heads.read_image image.now (lines text.now)) }
{
    let order = order_line(alloc, image.order())?;
    let codes = expect_line(order.as_bytes(), Place::Order, text)?;
    let rest = read_codes(alloc, image, codes)?;
    no_code(rest)
}

/// Behind the one line of code that format 1 has. It can tell of an image of one segment in big order alone.
fn read_one<'a>(alloc: Global, image: &Image, text: &'a [u8]) -> Result<&'a [u8], HeadStop<'a>>
    ensures { Leaves result (heads.read_one image.now (lines text.now)) }
{
    if image.segments() == 1 && image.order() == Order::Big {
        let wanted = code_line(alloc, image.base_at(0), image.words_at(0))?;
        return expect_line(wanted.as_bytes(), Place::Code, text);
    }
    let rule = match next_line(text) {
        Some((line, _rest)) => rule_at(Place::Code, line),
        None => Rule::Form,
    };
    Err(HeadStop::At { rule, left: text })
}

/// Behind the head of a table over a base, of an image.
pub(crate) fn read_head<'a>(
    alloc: Global,
    name: &str,
    image: &Image,
    text: &'a [u8],
) -> Result<&'a [u8], HeadStop<'a>>
    ensures { Leaves result (heads.read_head name.now image.now (lines text.now)) }
{
    let Some((format, rest)) = next_line(text) else {
        return Err(HeadStop::At {
            rule: Rule::Form,
            left: text,
        });
    };
    if same(format, b"tsl-table 2") {
        let behind = read_base(alloc, name, rest)?;
        return read_image(alloc, image, behind);
    }
    if same(format, b"tsl-table 1") {
        let behind = read_base(alloc, name, rest)?;
        return read_one(alloc, image, behind);
    }
    Err(HeadStop::At {
        rule: Rule::Form,
        left: text,
    })
}
