//! A cursor over tokens.

ghost use Rattle.std.specs.Prelude.{◌≡◌, ◌≤◌, ◌+◌, [], ◌∷◌, ◌++◌, IfOk, length};
ghost use Rattle.std.specs.Option.{option_copied};
ghost use Rattle.syntax_grammar.specs.Nodes as nodes;
ghost use Rattle.syntax_grammar.specs.Tokens as token_specs;
ghost use Rattle.syntax_grammar.specs.Parsing as spec;
ghost use Rattle.syntax_grammar.specs.Parsing.{Gives};

use std::alloc::{AllocError, Global};
use std::marker::Model;
use syntax_grammar::rules::{Literal, RuleFault};
use syntax_grammar::tree::{Name, Num, Span};
use syntax_lexer::{Keyword, Kind, Mark, Token};

/// From the beginning of one span to the end of another.
pub fn hull(a: Span, b: Span) -> Span
    ensures { result ≡ nodes.hull a b }
{
    Span {
        from: a.from,
        to: b.to,
    }
}

/// A list with one more item at its end.
pub fn pushed<T: Drop>(list: Vec<T>, item: T) -> Result<Vec<T>, AllocError>
    ensures { IfOk result (λ longer. longer.items ≡ list.items ++ item ∷ []) }
{
    let mut longer = list;
    match longer.push(item) {
        Ok(()) => Ok(longer),
        Err(_) => Err(AllocError),
    }
}

/// The greatest level at which a token may stand.
pub const MAX_LEVEL: usize = 256;

/// A cursor: the tokens that are left, and the level so far of the innermost term or pattern that is open.
#[derive(Drop)]
pub struct Reader<'a> {
    rest: &'a [Token],
    level: usize,
}

impl<'a> Model for Reader<'a> {
    ghost use Rattle.syntax_grammar.specs.State.{At};

    ghost Value = { At };

    ghost use Rattle.syntax_cursor.specs.Cursor.{at_of};

    ghost view = { at_of };
}

impl<'a> Reader<'a> {
    /// A cursor before all tokens, at level 0.
    pub fn new(tokens: &'a [Token]) -> Reader<'a>
        ensures { result ≡ record { level = 0; rest = tokens.now } }
    {
        Reader {
            rest: tokens,
            level: 0,
        }
    }

    /// How many tokens are left.
    pub fn left(&self) -> usize
        ensures { result ≡ length self.now.rest }
    {
        self.rest.len()
    }

    /// Where the next token begins, or the end.
    pub fn place(&self, end: u32) -> u32
        ensures { result ≡ token_specs.place end self.now.rest }
    {
        match self.rest {
            [token, ..] => token.from,
            [] => end,
        }
    }

    /// What the next token is.
    pub fn next(&self) -> Option<&'a Kind>
        ensures { option_copied result ≡ spec.next self.now }
    {
        match self.rest {
            [token, ..] => Some(&token.kind),
            [] => None,
        }
    }

    /// Whether the next token is this mark.
    #[tactic(auto, unfolding(syntax_grammar::specs::Parsing::sees))]
    pub fn sees(&self, mark: Mark) -> bool
        ensures { result ≡ spec.sees mark self.now }
    {
        match self.next() {
            Some(Kind::Mark(found)) => *found == mark,
            _ => false,
        }
    }

    /// Whether the next token is this keyword.
    pub fn sees_word(&self, word: Keyword) -> bool
        ensures { result ≡ spec.is_word word (spec.next self.now) }
    {
        is_word(word, self.next())
    }

    /// Takes the next token, whatever it is, and answers its span.
    pub fn skip(&mut self) -> Span
        ensures { spec.skip self.old ≡ (Ok result, self.new) }
    {
        match self.rest {
            [token, rest @ ..] => {
                self.rest = rest;
                Span {
                    from: token.from,
                    to: token.to,
                }
            }
            [] => Span { from: 0, to: 0 },
        }
    }

    /// Takes this mark, which must come: mark .
    #[tactic(auto, unfolding(syntax_grammar::specs::Parsing::expect, syntax_grammar::specs::Parsing::sees))]
    pub fn expect(&mut self, mark: Mark) -> Result<Span, RuleFault>
        ensures { Gives (spec.expect mark self.old) result self.new }
    {
        if self.sees(mark) {
            Ok(self.skip())
        } else {
            Err(RuleFault::Syntax)
        }
    }

    /// Takes this keyword, which must come: word .
    #[tactic(auto, unfolding(syntax_grammar::specs::Parsing::expect_word))]
    pub fn expect_word(&mut self, word: Keyword) -> Result<Span, RuleFault>
        ensures { Gives (spec.expect_word word self.old) result self.new }
    {
        if self.sees_word(word) {
            Ok(self.skip())
        } else {
            Err(RuleFault::Syntax)
        }
    }

    /// Takes this mark, if it comes: [ mark ] .
    #[tactic(auto, unfolding(syntax_grammar::specs::Parsing::eat, syntax_grammar::specs::Parsing::sees))]
    pub fn eat(&mut self, mark: Mark) -> bool
        ensures { spec.eat mark self.old ≡ (Ok result, self.new) }
    {
        let found = self.sees(mark);
        if found {
            self.skip();
        }
        found
    }

    /// A number: Number .
    #[tactic(auto, unfolding(syntax_grammar::specs::Parsing::number))]
    pub fn number(&mut self) -> Result<Num, RuleFault>
        ensures { Gives (spec.number self.old) result self.new }
    {
        match self.next() {
            Some(Kind::Number(v)) => Ok(Num {
                v: *v,
                span: self.skip(),
            }),
            _ => Err(RuleFault::Syntax),
        }
    }

    /// The literal `v:w`: Number ":" Number .
    #[tactic(auto, unfolding(syntax_grammar::specs::Parsing::literal))]
    pub fn literal(&mut self) -> Result<Literal, RuleFault>
        ensures { Gives (spec.literal self.old) result self.new }
    {
        let v = self.number()?;
        self.expect(Mark::Colon)?;
        let w = self.number()?;
        Ok(Literal {
            v,
            w,
            span: hull(v.span, w.span),
        })
    }

    /// A name that does not begin with a capital letter: Lower .
    #[tactic(auto, unfolding(syntax_grammar::specs::Parsing::lower))]
    pub fn lower(&mut self, alloc: Global) -> Result<Name, RuleFault>
        ensures { Gives (spec.lower self.old) result self.new }
    {
        match self.next() {
            Some(Kind::Lower(text)) => Ok(Name {
                text: text.copy(alloc)?,
                span: self.skip(),
            }),
            _ => Err(RuleFault::Syntax),
        }
    }

    /// A name that begins with a capital letter: Upper .
    #[tactic(auto, unfolding(syntax_grammar::specs::Parsing::upper))]
    pub fn upper(&mut self, alloc: Global) -> Result<Name, RuleFault>
        ensures { Gives (spec.upper self.old) result self.new }
    {
        match self.next() {
            Some(Kind::Upper(text)) => Ok(Name {
                text: text.copy(alloc)?,
                span: self.skip(),
            }),
            _ => Err(RuleFault::Syntax),
        }
    }

    /// Goes one level deeper.
    #[tactic(auto, unfolding(syntax_grammar::specs::Parsing::rise))]
    pub fn rise(&mut self) -> Result<(), RuleFault>
        ensures { Gives (spec.rise self.old) result self.new }
    {
        if self.level < MAX_LEVEL {
            self.level += 1;
            Ok(())
        } else {
            Err(RuleFault::TooDeep)
        }
    }

    /// Goes one level deeper, where a form begins here, and answers the level to go back to.
    fn enter_if(&mut self, begins: bool) -> Result<usize, RuleFault>
        ensures { Gives (spec.enter_if begins self.old) result self.new }
    {
        if !begins {
            return Err(RuleFault::Syntax);
        }
        let outer = self.level;
        self.rise()?;
        Ok(outer)
    }

    /// Begins a term, and answers the level to go back to.
    #[tactic(auto, unfolding(syntax_grammar::specs::Parsing::enter))]
    pub fn enter_term(&mut self) -> Result<usize, RuleFault>
        ensures { Gives (spec.enter spec.begins_term self.old) result self.new }
    {
        self.enter_if(begins_term(self.next()))
    }

    /// Begins a pattern, and answers the level to go back to.
    #[tactic(auto, unfolding(syntax_grammar::specs::Parsing::enter))]
    pub fn enter_pattern(&mut self) -> Result<usize, RuleFault>
        ensures { Gives (spec.enter spec.begins_pattern self.old) result self.new }
    {
        self.enter_if(begins_pattern(self.next()))
    }

    /// Ends a term or a pattern, back to the level round it.
    pub fn leave(&mut self, outer: usize)
        ensures { spec.leave outer self.old ≡ (Ok tt, self.new) }
    {
        self.level = outer;
    }
}

/// Whether a keyword names an operation of two operands.
pub fn is_operation(word: Keyword) -> bool
    ensures { result ≡ token_specs.is_operation word }
{
    matches!(
        word,
        Keyword::KwShl
            | Keyword::KwShru
            | Keyword::KwShrs
            | Keyword::KwRotl
            | Keyword::KwDivu
            | Keyword::KwDivs
            | Keyword::KwRemu
            | Keyword::KwRems
            | Keyword::KwMulhu
            | Keyword::KwMulhs
            | Keyword::KwLtu
            | Keyword::KwLeu
            | Keyword::KwLts
            | Keyword::KwLes
    )
}

/// Whether a keyword names a cast.
pub fn is_cast(word: Keyword) -> bool
    ensures { result ≡ token_specs.is_cast word }
{
    matches!(word, Keyword::KwZext | Keyword::KwSext | Keyword::KwTrunc)
}

/// Whether the next token is a prefix operator.
pub fn is_prefix(next: Option<&Kind>) -> bool
    ensures { result ≡ token_specs.is_prefix (option_copied next.entry) }
{
    matches!(
        next,
        Some(Kind::Mark(Mark::Bang | Mark::Tilde | Mark::Minus))
    )
}

fn word_begins_atom(word: Keyword) -> bool
    ensures { result ≡ spec.word_begins_atom word }
{
    match word {
        Keyword::KwTrue | Keyword::KwFalse | Keyword::KwMatch => true,
        _ => is_operation(word) || is_cast(word),
    }
}

fn begins_atom(next: Option<&Kind>) -> bool
    ensures { result ≡ spec.begins_atom (option_copied next.entry) }
{
    match next {
        Some(Kind::Upper(_) | Kind::Lower(_) | Kind::Number(_)) => true,
        Some(Kind::Word(word)) => word_begins_atom(*word),
        Some(Kind::Mark(mark)) => matches!(*mark, Mark::LParen),
        None => false,
    }
}

fn is_word(word: Keyword, next: Option<&Kind>) -> bool
    ensures { result ≡ spec.is_word word (option_copied next.entry) }
{
    match next {
        Some(Kind::Word(found)) => *found == word,
        _ => false,
    }
}

fn begins_term(next: Option<&Kind>) -> bool
    ensures { result ≡ spec.begins_term (option_copied next.entry) }
{
    begins_atom(next)
        || is_prefix(next)
        || is_word(Keyword::KwLet, next)
        || is_word(Keyword::KwIf, next)
}

fn begins_pattern(next: Option<&Kind>) -> bool
    ensures { result ≡ spec.begins_pattern (option_copied next.entry) }
{
    match next {
        Some(Kind::Upper(_) | Kind::Lower(_) | Kind::Number(_)) => true,
        Some(Kind::Word(word)) => matches!(*word, Keyword::KwTrue | Keyword::KwFalse),
        Some(Kind::Mark(mark)) => matches!(*mark, Mark::Underscore),
        None => false,
    }
}
