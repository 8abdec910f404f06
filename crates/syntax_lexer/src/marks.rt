//! The texts of the punctuation marks.

ghost use Rattle.std.specs.Prelude.{◌≡◌, IfNone, IfSome};
ghost use Rattle.syntax_lexer.specs.Lexeme.{mark_text};
ghost use Rattle.syntax_lexer.specs.Scanning.{BeginsNoMark, BeginsMark, IsLongestMark};

use crate::token::Mark;

/// All marks, a longer one before each shorter one.
const LONGEST_FIRST: [Mark; 27] = [
    Mark::Assign,
    Mark::EqEq,
    Mark::NotEq,
    Mark::FatArrow,
    Mark::Arrow,
    Mark::BarBar,
    Mark::AndAnd,
    Mark::LParen,
    Mark::RParen,
    Mark::LBrace,
    Mark::RBrace,
    Mark::LBracket,
    Mark::RBracket,
    Mark::Comma,
    Mark::Semi,
    Mark::Colon,
    Mark::Equals,
    Mark::Bar,
    Mark::And,
    Mark::Caret,
    Mark::Plus,
    Mark::Minus,
    Mark::Star,
    Mark::Bang,
    Mark::Tilde,
    Mark::Less,
    Mark::Underscore,
];

impl Mark {
    /// The text of the mark.
    pub fn text(self) -> &'static str
        ensures { result.now ≡ mark_text self }
    {
        match self {
            Mark::LParen => "(",
            Mark::RParen => ")",
            Mark::LBrace => "{",
            Mark::RBrace => "}",
            Mark::LBracket => "[",
            Mark::RBracket => "]",
            Mark::Comma => ",",
            Mark::Semi => ";",
            Mark::Colon => ":",
            Mark::Assign => ":=",
            Mark::Equals => "=",
            Mark::EqEq => "==",
            Mark::NotEq => "!=",
            Mark::FatArrow => "=>",
            Mark::Arrow => "->",
            Mark::Bar => "|",
            Mark::BarBar => "||",
            Mark::AndAnd => "&&",
            Mark::And => "&",
            Mark::Caret => "^",
            Mark::Plus => "+",
            Mark::Minus => "-",
            Mark::Star => "*",
            Mark::Bang => "!",
            Mark::Tilde => "~",
            Mark::Less => "<",
            Mark::Underscore => "_",
        }
    }

    /// The longest mark that `source` begins with.
    pub(crate) fn at_start(source: &[u8]) -> Option<Mark>
        ensures none { IfNone result (BeginsNoMark source.now) }
        ensures some { IfSome result (BeginsMark source.now) }
        ensures longest { IfSome result (λ m. IsLongestMark source.now m) }
    {
        for mark in LONGEST_FIRST {
            if source.starts_with(mark.text().as_bytes()) {
                return Some(mark);
            }
        }
        None
    }
}
