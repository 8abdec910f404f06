//! Tokens with their places.

use crate::text::Text;

/// The keywords of the language.
#[derive(Clone, Copy, Debug, PartialEq, Eq)]
pub enum Keyword {
    KwType,
    KwMap,
    KwDefault,
    KwFun,
    KwLet,
    KwIn,
    KwIf,
    KwThen,
    KwElse,
    KwMatch,
    KwWith,
    KwTrue,
    KwFalse,
    KwDecode,
    KwWhen,
    KwShl,
    KwShru,
    KwShrs,
    KwRotl,
    KwDivu,
    KwDivs,
    KwRemu,
    KwRems,
    KwMulhu,
    KwMulhs,
    KwLtu,
    KwLeu,
    KwLts,
    KwLes,
    KwZext,
    KwSext,
    KwTrunc,
}

/// The punctuation marks of the language.
#[derive(Clone, Copy, Debug, PartialEq, Eq)]
pub enum Mark {
    LParen,
    RParen,
    LBrace,
    RBrace,
    LBracket,
    RBracket,
    Comma,
    Semi,
    Colon,
    Assign,
    Equals,
    EqEq,
    NotEq,
    FatArrow,
    Arrow,
    Bar,
    BarBar,
    AndAnd,
    And,
    Caret,
    Plus,
    Minus,
    Star,
    Bang,
    Tilde,
    Less,
    Underscore,
}

/// What a token is.
#[derive(Debug, Drop)]
pub enum Kind {
    /// A name that begins with a capital letter.
    Upper(Text),
    /// Any other name, but for `_` alone, which is a mark.
    Lower(Text),
    /// A number below 2^64.
    Number(u64),
    Word(Keyword),
    Mark(Mark),
}

/// A token and its place in the source: the byte offset of its first byte, and the one just after
/// its last.
#[derive(Debug, Drop)]
pub struct Token {
    pub kind: Kind,
    pub from: u32,
    pub to: u32,
}
