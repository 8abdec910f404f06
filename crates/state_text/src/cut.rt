//! The cell that a line begins with.

ghost use Rattle.std.specs.Prelude.{◌≡◌, ◌≤◌, length, option_map};
ghost use Rattle.std.specs.List.{prefix_len};
ghost use Rattle.state_text.specs.Cuts.{cut_of};
ghost use Rattle.state_text.specs.Forms as forms;
ghost use Rattle.state_text.specs.Parsing as defined;

/// What is written of a cell behind its name: nothing, `[*]`, `[KEY]`, or `[KEY..]` for a run from a key on.
#[derive(Clone, Copy, Debug)]
pub(crate) enum CellSuffix<'a> {
    Whole,
    Rest,
    At(&'a [u8]),
    From(&'a [u8]),
}

/// The parts of a line: a name, what is written behind it of the cell, and what follows.
#[derive(Clone, Copy, Debug)]
pub(crate) struct Cut<'a> {
    pub name: &'a [u8],
    pub part: CellSuffix<'a>,
    pub after: &'a [u8],
}

/// Whether the byte is one of a name's.
pub fn is_word_byte(byte: u8) -> bool
    ensures { result ≡ forms.is_word_byte byte }
{
    byte.is_ascii_alphanumeric() || byte == b'_'
}

/// The number of letters, digits and `_` that the bytes begin with.
fn word_len(bytes: &[u8]) -> usize
    ensures count { result ≡ prefix_len forms.is_word_byte bytes.now }
    ensures bound { result ≤ length bytes.now }
{
    bytes.iter().take_while(|byte| is_word_byte(**byte)).count()
}

/// Whether the bytes begin a name.
pub fn begins_name(bytes: &[u8]) -> bool
    ensures { result ≡ forms.begins_name bytes.now }
{
    match bytes.first() {
        Some(byte) => byte.is_ascii_alphabetic() || *byte == b'_',
        None => false,
    }
}

/// Whether the bytes are `_` alone.
pub fn is_mark(bytes: &[u8]) -> bool
    ensures { result ≡ forms.is_mark bytes.now }
{
    match bytes {
        [] => false,
        [byte, rest @ ..] => *byte == b'_' && rest.is_empty(),
    }
}

/// The cell `NAME[KEY]`, behind it.
fn behind_key<'a>(name: &'a [u8], key: &'a [u8], after: &'a [u8]) -> Option<Cut<'a>>
    ensures { option_map cut_of result ≡ defined.behind_key name.now key.now after.now }
{
    match key {
        [] => None,
        [_, ..] => Some(Cut {
            name,
            part: CellSuffix::At(key),
            after,
        }),
    }
}

/// The cells `NAME[KEY..]`, behind the first dot.
fn behind_dot<'a>(name: &'a [u8], key: &'a [u8], bytes: &'a [u8]) -> Option<Cut<'a>>
    ensures { option_map cut_of result ≡ defined.behind_dot name.now key.now bytes.now }
{
    match key {
        [] => None,
        [_, ..] => match bytes {
            [] => None,
            [_] => None,
            [a, b, after @ ..] => {
                if *a == b'.' && *b == b']' {
                    Some(Cut {
                        name,
                        part: CellSuffix::From(key),
                        after,
                    })
                } else {
                    None
                }
            }
        },
    }
}

/// The cells `NAME[*]`, behind the star.
fn behind_star<'a>(name: &'a [u8], key: &'a [u8], bytes: &'a [u8]) -> Option<Cut<'a>>
    ensures { option_map cut_of result ≡ defined.behind_star name.now key.now bytes.now }
{
    match key {
        [_, ..] => None,
        [] => match bytes {
            [] => None,
            [byte, after @ ..] => {
                if *byte == b']' {
                    Some(Cut {
                        name,
                        part: CellSuffix::Rest,
                        after,
                    })
                } else {
                    None
                }
            }
        },
    }
}

/// The cell, behind `[` and the text of a key.
fn cut_closing<'a>(name: &'a [u8], key: &'a [u8], bytes: &'a [u8]) -> Option<Cut<'a>>
    ensures { option_map cut_of result ≡ defined.cut_closing name.now key.now bytes.now }
{
    match bytes {
        [] => None,
        [byte, after @ ..] => match *byte {
            b']' => behind_key(name, key, after),
            b'.' => behind_dot(name, key, after),
            b'*' => behind_star(name, key, after),
            _ => None,
        },
    }
}

/// The cell, behind its name.
fn cut_name<'a>(name: &'a [u8], bytes: &'a [u8]) -> Option<Cut<'a>>
    ensures { option_map cut_of result ≡ defined.cut_name name.now bytes.now }
{
    match bytes {
        [] => Some(Cut {
            name,
            part: CellSuffix::Whole,
            after: bytes,
        }),
        [byte, rest @ ..] => {
            if *byte == b'[' {
                let len = word_len(rest);
                cut_closing(name, &rest[..len], &rest[len..])
            } else {
                Some(Cut {
                    name,
                    part: CellSuffix::Whole,
                    after: bytes,
                })
            }
        }
    }
}

/// The cell that a line begins with, and what follows.
pub(crate) fn cut_line(line: &[u8]) -> Option<Cut>
    ensures { option_map cut_of result ≡ defined.cut line.now }
{
    if !begins_name(line) {
        return None;
    }
    let len = word_len(line);
    let name = &line[..len];
    if is_mark(name) {
        return None;
    }
    cut_name(name, &line[len..])
}
