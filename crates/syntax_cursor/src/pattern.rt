//! Patterns, by recursive descent.

ghost use Rattle.std.specs.Prelude.{◌≡◌, map};
ghost use Rattle.syntax_grammar.specs.Parsing.{GivesBy};
ghost use Rattle.syntax_grammar.specs.Nodes as nodes;
ghost use Rattle.syntax_grammar.specs.Parsing as parsing;
ghost use Rattle.syntax_grammar.specs.Lists as lists;
ghost use Rattle.syntax_grammar.specs.PatternRules as spec;
ghost use Rattle.syntax_grammar.specs.View.{pattern as pattern_view};
ghost use Rattle.syntax_lexer.specs.declared.token.Mark.TheVariants as marks;

use crate::reader::{Reader, hull, pushed};
use std::alloc::Global;
use syntax_grammar::rules::RuleFault;
use syntax_grammar::tree::{Name, Pat, Span};
use syntax_lexer::{Keyword, Kind, Mark};

/// The span of a pattern.
pub fn pattern_span(pat: &Pat) -> Span
    ensures { result ≡ nodes.pattern_span (pattern_view pat.now) }
{
    match pat {
        Pat::Any { span }
        | Pat::Word { span, .. }
        | Pat::Flag { span, .. }
        | Pat::Make { span, .. } => *span,
        Pat::Var(name) => name.span,
    }
}

/// pattern_any = "_" .
#[tactic(auto, unfolding(syntax_grammar::specs::PatternRules::pattern_any))]
fn pattern_any(tokens: &mut Reader<'_>) -> Result<Pat, RuleFault>
    ensures { GivesBy pattern_view (spec.pattern_any tokens.old) result tokens.new }
{
    Ok(Pat::Any {
        span: tokens.expect(Mark::Underscore)?,
    })
}

/// pattern_variable = Lower .
#[tactic(auto, unfolding(syntax_grammar::specs::PatternRules::pattern_variable))]
fn pattern_variable(alloc: Global, tokens: &mut Reader<'_>) -> Result<Pat, RuleFault>
    ensures { GivesBy pattern_view (spec.pattern_variable tokens.old) result tokens.new }
{
    Ok(Pat::Var(tokens.lower(alloc)?))
}

/// pattern_word = Number ":" Number .
#[tactic(auto, unfolding(syntax_grammar::specs::PatternRules::pattern_word))]
fn pattern_word(tokens: &mut Reader<'_>) -> Result<Pat, RuleFault>
    ensures { GivesBy pattern_view (spec.pattern_word tokens.old) result tokens.new }
{
    let found = tokens.literal()?;
    Ok(Pat::Word {
        v: found.v,
        w: found.w,
        span: found.span,
    })
}

/// pattern_flag = "true" | "false" .
/// The keyword that must come is `word`; it means `v`.
#[tactic(auto, unfolding(syntax_grammar::specs::PatternRules::pattern_flag))]
fn pattern_flag(tokens: &mut Reader<'_>, word: Keyword, v: bool) -> Result<Pat, RuleFault>
    ensures { GivesBy pattern_view (spec.pattern_flag word v tokens.old) result tokens.new }
{
    let span = tokens.expect_word(word)?;
    Ok(Pat::Flag { v, span })
}

/// patterns = pat { "," pat } .
#[cycle(pattern)]
#[tactic(auto, using(crate::proofs::Turns::turn, crate::proofs::Turns::over, crate::proofs::Turns::map_more), unfolding(syntax_grammar::specs::Lists::separated, syntax_grammar::specs::Lists::separated_from))]
fn patterns(alloc: Global, tokens: &mut Reader<'_>, depth: usize) -> Result<Vec<Pat>, RuleFault>
    ensures { GivesBy (λ v. map pattern_view v.items) (lists.separated (spec.pattern depth) marks.Comma tokens.old) result tokens.new }
{
    let mut found = Vec::new(alloc);
    for _turn in 0..tokens.left() {
        let next = or_drop!(pattern(alloc, tokens, depth), found);
        found = pushed(found, next)?;
        if !tokens.eat(Mark::Comma) {
            return Ok(found);
        }
    }
    drop(found);
    Err(RuleFault::Syntax)
}

/// The rest of a constructor behind its "(": pat { "," pat } ")" .
#[cycle(pattern)]
#[tactic(auto, unfolding(syntax_grammar::specs::PatternRules::pattern_parts))]
fn pattern_parts(
    alloc: Global,
    tokens: &mut Reader<'_>,
    depth: usize,
    name: Name,
) -> Result<Pat, RuleFault>
    ensures { GivesBy pattern_view (spec.pattern_parts (spec.pattern depth) name tokens.old) result tokens.new }
{
    let parts = or_drop!(patterns(alloc, tokens, depth), name);
    let end = or_drop!(tokens.expect(Mark::RParen), name, parts);
    let span = hull(name.span, end);
    Ok(Pat::Make { name, parts, span })
}

/// pattern_make = Upper [ "(" pat { "," pat } ")" ] .
#[cycle(pattern)]
#[tactic(auto, unfolding(syntax_grammar::specs::PatternRules::pattern_make))]
fn pattern_make(alloc: Global, tokens: &mut Reader<'_>, depth: usize) -> Result<Pat, RuleFault>
    ensures { GivesBy pattern_view (spec.pattern_make (spec.pattern depth) tokens.old) result tokens.new }
{
    let name = tokens.upper(alloc)?;
    if tokens.eat(Mark::LParen) {
        return pattern_parts(alloc, tokens, depth, name);
    }
    let span = name.span;
    Ok(Pat::Make {
        name,
        parts: Vec::new(alloc),
        span,
    })
}

/// The choices of pat: "_" | Lower | Number ":" Number | "true" | "false" | Upper [ "(" pat { "," pat } ")" ] .
#[cycle(pattern)]
#[tactic(auto, unfolding(syntax_grammar::specs::PatternRules::pattern_body))]
fn pattern_body(alloc: Global, tokens: &mut Reader<'_>, depth: usize) -> Result<Pat, RuleFault>
    ensures { GivesBy pattern_view (spec.pattern_body (spec.pattern depth) tokens.old) result tokens.new }
{
    match tokens.next() {
        Some(Kind::Mark(Mark::Underscore)) => pattern_any(tokens),
        Some(Kind::Lower(_)) => pattern_variable(alloc, tokens),
        Some(Kind::Number(_)) => pattern_word(tokens),
        Some(Kind::Word(Keyword::KwTrue)) => pattern_flag(tokens, Keyword::KwTrue, true),
        Some(Kind::Word(Keyword::KwFalse)) => pattern_flag(tokens, Keyword::KwFalse, false),
        Some(Kind::Upper(_)) => pattern_make(alloc, tokens, depth),
        _ => Err(RuleFault::Syntax),
    }
}

/// pat = "_" | Lower | Number ":" Number | "true" | "false" | Upper [ "(" pat { "," pat } ")" ] .
/// Patterns nest no deeper than `depth`.
#[cycle(pattern)]
#[tactic(auto, unfolding(syntax_grammar::specs::PatternRules::pattern))]
pub fn pattern(alloc: Global, tokens: &mut Reader<'_>, depth: usize) -> Result<Pat, RuleFault>
    ensures { GivesBy pattern_view (spec.pattern depth tokens.old) result tokens.new }
{
    let outer = tokens.enter_pattern()?;
    if depth == 0 {
        return Err(RuleFault::TooDeep);
    }
    let found = pattern_body(alloc, tokens, depth - 1)?;
    tokens.leave(outer);
    Ok(found)
}
