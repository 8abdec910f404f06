//! The texts of the keywords.

ghost use Rattle.std.specs.Prelude.{◌≡◌, ◌≢◌, IfNone, IfSome};
ghost use Rattle.syntax_lexer.specs.Lexeme.{keyword_text};

use crate::token::Keyword;

/// All keywords.
const KEYWORDS: [Keyword; 32] = [
    Keyword::KwType,
    Keyword::KwMap,
    Keyword::KwDefault,
    Keyword::KwFun,
    Keyword::KwLet,
    Keyword::KwIn,
    Keyword::KwIf,
    Keyword::KwThen,
    Keyword::KwElse,
    Keyword::KwMatch,
    Keyword::KwWith,
    Keyword::KwTrue,
    Keyword::KwFalse,
    Keyword::KwDecode,
    Keyword::KwWhen,
    Keyword::KwShl,
    Keyword::KwShru,
    Keyword::KwShrs,
    Keyword::KwRotl,
    Keyword::KwDivu,
    Keyword::KwDivs,
    Keyword::KwRemu,
    Keyword::KwRems,
    Keyword::KwMulhu,
    Keyword::KwMulhs,
    Keyword::KwLtu,
    Keyword::KwLeu,
    Keyword::KwLts,
    Keyword::KwLes,
    Keyword::KwZext,
    Keyword::KwSext,
    Keyword::KwTrunc,
];

impl Keyword {
    /// The text of the keyword.
    pub fn text(self) -> &'static str
        ensures { result.now ≡ keyword_text self }
    {
        match self {
            Keyword::KwType => "type",
            Keyword::KwMap => "map",
            Keyword::KwDefault => "default",
            Keyword::KwFun => "fun",
            Keyword::KwLet => "let",
            Keyword::KwIn => "in",
            Keyword::KwIf => "if",
            Keyword::KwThen => "then",
            Keyword::KwElse => "else",
            Keyword::KwMatch => "match",
            Keyword::KwWith => "with",
            Keyword::KwTrue => "true",
            Keyword::KwFalse => "false",
            Keyword::KwDecode => "decode",
            Keyword::KwWhen => "when",
            Keyword::KwShl => "shl",
            Keyword::KwShru => "shru",
            Keyword::KwShrs => "shrs",
            Keyword::KwRotl => "rotl",
            Keyword::KwDivu => "divu",
            Keyword::KwDivs => "divs",
            Keyword::KwRemu => "remu",
            Keyword::KwRems => "rems",
            Keyword::KwMulhu => "mulhu",
            Keyword::KwMulhs => "mulhs",
            Keyword::KwLtu => "ltu",
            Keyword::KwLeu => "leu",
            Keyword::KwLts => "lts",
            Keyword::KwLes => "les",
            Keyword::KwZext => "zext",
            Keyword::KwSext => "sext",
            Keyword::KwTrunc => "trunc",
        }
    }

    /// The keyword with this text.
    pub(crate) fn from_text(text: &[u8]) -> Option<Keyword>
        ensures none { IfNone result ((w : Keyword) → text.now ≢ keyword_text w) }
        ensures some { IfSome result (λ w. text.now ≡ keyword_text w) }
    {
        for keyword in KEYWORDS {
            if text == keyword.text().as_bytes() {
                return Some(keyword);
            }
        }
        None
    }
}
