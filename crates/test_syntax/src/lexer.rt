use std::alloc::{AllocError, Global};
use std::test::Fail;
use syntax_lexer::{Kind, Token, lex};

/// A token and its span: `^` stands before a capitalized name, `#` before a number.
fn shown(alloc: Global, token: &Token) -> Result<String, AllocError> {
    let Token { kind, from, to } = token;
    match kind {
        Kind::Upper(text) => format!(in alloc; "^{} {from}-{to}", text.as_str()),
        Kind::Lower(text) => format!(in alloc; "{} {from}-{to}", text.as_str()),
        Kind::Number(n) => format!(in alloc; "#{n} {from}-{to}"),
        Kind::Word(word) => format!(in alloc; "{word:?} {from}-{to}"),
        Kind::Mark(mark) => format!(in alloc; "{mark:?} {from}-{to}"),
    }
}

/// Puts a token behind those that are shown.
fn push_shown(alloc: Global, token: &Token, all: &mut String) -> Result<(), AllocError> {
    if !all.is_empty() {
        all.push_str(", ")?;
    }
    let text = shown(alloc, token)?;
    all.push_str(text.as_str())?;
    Ok(())
}

fn all_shown(alloc: Global, tokens: &[Token]) -> Result<String, AllocError> {
    let mut all = String::new(alloc);
    for token in tokens {
        push_shown(alloc, token, &mut all)?;
    }
    Ok(all)
}

/// Whether a source has these tokens.
fn is_read(alloc: Global, source: &[u8], wanted: &str) -> Result<bool, AllocError> {
    if source.len() > 262_144 {
        return Ok(false);
    }
    match lex(alloc, source) {
        Ok(tokens) => Ok(all_shown(alloc, tokens.as_slice())?.as_str() == wanted),
        Err(_error) => Ok(false),
    }
}

/// Sources and their tokens.
const TEXTS: &[(&str, &str)] = &[
    (
        "( ) { } [ ] , ; : := = == != => -> | || && & ^ + - * ! ~ < _",
        "LParen 0-1, RParen 2-3, LBrace 4-5, RBrace 6-7, LBracket 8-9, RBracket 10-11, Comma 12-13, Semi 14-15, Colon 16-17, Assign 18-20, Equals 21-22, EqEq 23-25, NotEq 26-28, FatArrow 29-31, Arrow 32-34, Bar 35-36, BarBar 37-39, AndAnd 40-42, And 43-44, Caret 45-46, Plus 47-48, Minus 49-50, Star 51-52, Bang 53-54, Tilde 55-56, Less 57-58, Underscore 59-60",
    ),
    (
        "type map default fun let in if then else match with true false decode when shl shru shrs rotl divu divs remu rems mulhu mulhs ltu leu lts les zext sext trunc",
        "KwType 0-4, KwMap 5-8, KwDefault 9-16, KwFun 17-20, KwLet 21-24, KwIn 25-27, KwIf 28-30, KwThen 31-35, KwElse 36-40, KwMatch 41-46, KwWith 47-51, KwTrue 52-56, KwFalse 57-62, KwDecode 63-69, KwWhen 70-74, KwShl 75-78, KwShru 79-83, KwShrs 84-88, KwRotl 89-93, KwDivu 94-98, KwDivs 99-103, KwRemu 104-108, KwRems 109-113, KwMulhu 114-119, KwMulhs 120-125, KwLtu 126-129, KwLeu 130-133, KwLts 134-137, KwLes 138-141, KwZext 142-146, KwSext 147-151, KwTrunc 152-157",
    ),
    ("", ""),
    (" \t\r\n ", ""),
    ("// all of it", ""),
    ("//", ""),
    ("a//b\nC // d", "a 0-1, ^C 5-6"),
    ("a///*\r\nb", "a 0-1, b 7-8"),
    (
        "let lets Let leT _let",
        "KwLet 0-3, lets 4-8, ^Let 9-12, leT 13-16, _let 17-21",
    ),
    ("a_1 A9_ zZ", "a_1 0-3, ^A9_ 4-7, zZ 8-10"),
    ("_ _a __ _1", "Underscore 0-1, _a 2-4, __ 5-7, _1 8-10"),
    (":===", "Assign 0-2, EqEq 2-4"),
    ("===", "EqEq 0-2, Equals 2-3"),
    ("==<=>", "EqEq 0-2, Less 2-3, FatArrow 3-5"),
    ("!!=", "Bang 0-1, NotEq 1-3"),
    ("-->", "Minus 0-1, Arrow 1-3"),
    ("|||", "BarBar 0-2, Bar 2-3"),
    ("&&&", "AndAnd 0-2, And 2-3"),
    ("a:b", "a 0-1, Colon 1-2, b 2-3"),
    ("0 007 0x0 0xfF", "#0 0-1, #7 2-5, #0 6-9, #255 10-14"),
    ("18446744073709551615", "#18446744073709551615 0-20"),
    ("0x00ffffffffffffffff", "#18446744073709551615 0-20"),
    ("1:2", "#1 0-1, Colon 1-2, #2 2-3"),
    (
        "nnnnnnnnnnnnnnnnnnnnnnnnnnnnnnnnnnnnnnnnnnnnnnnnnnnnnnnnnnnnnnnn NNNNNNNNNNNNNNNNNNNNNNNNNNNNNNNNNNNNNNNNNNNNNNNNNNNNNNNNNNNNNNNN",
        "nnnnnnnnnnnnnnnnnnnnnnnnnnnnnnnnnnnnnnnnnnnnnnnnnnnnnnnnnnnnnnnn 0-64, ^NNNNNNNNNNNNNNNNNNNNNNNNNNNNNNNNNNNNNNNNNNNNNNNNNNNNNNNNNNNNNNNN 65-129",
    ),
    ("=>=", "FatArrow 0-2, Equals 2-3"),
];

#[test]
fn texts(rt: HostRuntime) -> Result<(), Fail> {
    for (source, wanted) in TEXTS {
        assert!(rt;
            is_read(rt.alloc(), source.as_bytes(), wanted)?,
            "in {source}"
        );
    }
    Ok(())
}

#[test]
fn bytes_of_comments(rt: HostRuntime) -> Result<(), Fail> {
    let alloc = rt.alloc();
    assert!(rt; is_read(alloc, b"a // \x00\x80\xff\nb", "a 0-1, b 9-10")?);
    assert!(rt; is_read(alloc, b"a // \xc3", "a 0-1")?);
    Ok(())
}

/// Whether the longest source of one byte again and again has so many tokens.
fn has_tokens(alloc: Global, byte: u8, wanted: usize) -> Result<bool, AllocError> {
    let source = vec![in alloc; byte; 262_144]?;
    match lex(alloc, source.as_slice()) {
        Ok(tokens) => Ok(tokens.len() == wanted),
        Err(_error) => Ok(false),
    }
}

#[test]
fn long_sources(rt: HostRuntime) -> Result<(), Fail> {
    for (byte, wanted) in [
        (b'=', 131_072usize),
        (b'+', 262_144),
        (b'0', 1),
        (b'/', 0),
        (b' ', 0),
    ] {
        assert!(rt; has_tokens(rt.alloc(), byte, wanted)?, "of byte {byte}");
    }
    Ok(())
}
