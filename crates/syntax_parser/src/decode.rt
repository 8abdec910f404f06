//! Decode sections: rows of bit patterns, guards and arguments.

ghost use Rattle.std.specs.Prelude.{◌≡◌, map};
ghost use Rattle.syntax_grammar.specs.Parsing.{Gives, GivesBy};
ghost use Rattle.syntax_grammar.specs.Lists as lists;
ghost use Rattle.syntax_grammar.specs.Nodes as nodes;
ghost use Rattle.syntax_grammar.specs.ItemRules as spec;
ghost use Rattle.syntax_grammar.specs.View.{row as row_view, section_ as section_view};
ghost use Rattle.syntax_lexer.specs.declared.token.Mark.TheVariants as marks;

use std::alloc::Global;
use syntax_cursor::or_drop;
use syntax_cursor::reader::{Reader, hull, pushed};
use syntax_grammar::rules::RuleFault;
use syntax_grammar::tree::{
    ArgDecl, DecodeDecl, GuardArg, GuardDecl, GuardOp, PartDecl, RowDecl, Span,
};
use syntax_lexer::{Keyword, Kind, Mark};

/// part_fixed = Number ":" Number .
#[tactic(auto, unfolding(syntax_grammar::specs::ItemRules::part_fixed))]
fn part_fixed(tokens: &mut Reader<'_>) -> Result<PartDecl, RuleFault>
    ensures { Gives (spec.part_fixed tokens.old) result tokens.new }
{
    let found = tokens.literal()?;
    Ok(PartDecl::Fixed {
        v: found.v,
        w: found.w,
        span: found.span,
    })
}

/// part_named = Lower ":" Number .
#[tactic(auto, unfolding(syntax_grammar::specs::ItemRules::part_named))]
fn part_named(alloc: Global, tokens: &mut Reader<'_>) -> Result<PartDecl, RuleFault>
    ensures { Gives (spec.part_named tokens.old) result tokens.new }
{
    let name = tokens.lower(alloc)?;
    or_drop!(tokens.expect(Mark::Colon), name);
    let w = or_drop!(tokens.number(), name);
    let span = hull(name.span, w.span);
    Ok(PartDecl::Named { name, w, span })
}

/// part = ( Number | Lower ) ":" Number .
#[tactic(auto, unfolding(syntax_grammar::specs::ItemRules::part))]
fn part(alloc: Global, tokens: &mut Reader<'_>) -> Result<PartDecl, RuleFault>
    ensures { Gives (spec.part tokens.old) result tokens.new }
{
    match tokens.next() {
        Some(Kind::Number(_)) => part_fixed(tokens),
        Some(Kind::Lower(_)) => part_named(alloc, tokens),
        _ => Err(RuleFault::Syntax),
    }
}

/// parts = part { part } .
/// They end where a `]` comes, which is left.
fn parts(alloc: Global, tokens: &mut Reader<'_>) -> Result<Vec<PartDecl>, RuleFault>
    ensures { GivesBy (λ v. v.items) (lists.many spec.part marks.RBracket tokens.old) result tokens.new }
{
    let first = part(alloc, tokens)?;
    let mut found = pushed(Vec::new(alloc), first)?;
    for _turn in 0..tokens.left() {
        if tokens.sees(Mark::RBracket) {
            return Ok(found);
        }
        let next = or_drop!(part(alloc, tokens), found);
        found = pushed(found, next)?;
    }
    drop(found);
    Err(RuleFault::Syntax)
}

/// guard_op = "==" | "!=" | "<" .
#[tactic(auto, unfolding(syntax_grammar::specs::ItemRules::guard_op))]
fn guard_op(tokens: &mut Reader<'_>) -> Result<GuardOp, RuleFault>
    ensures { Gives (spec.guard_op tokens.old) result tokens.new }
{
    let op = match tokens.next() {
        Some(Kind::Mark(Mark::EqEq)) => GuardOp::Eq,
        Some(Kind::Mark(Mark::NotEq)) => GuardOp::Ne,
        Some(Kind::Mark(Mark::Less)) => GuardOp::Less,
        _ => return Err(RuleFault::Syntax),
    };
    tokens.skip();
    Ok(op)
}

/// other = Lower | Number .
#[tactic(auto, unfolding(syntax_grammar::specs::ItemRules::other))]
fn other(alloc: Global, tokens: &mut Reader<'_>) -> Result<GuardArg, RuleFault>
    ensures { Gives (spec.other tokens.old) result tokens.new }
{
    match tokens.next() {
        Some(Kind::Lower(_)) => Ok(GuardArg::Named(tokens.lower(alloc)?)),
        Some(Kind::Number(_)) => Ok(GuardArg::Number(tokens.number()?)),
        _ => Err(RuleFault::Syntax),
    }
}

fn other_span(other: &GuardArg) -> Span
    ensures { result ≡ nodes.other_span other.now }
{
    match other {
        GuardArg::Named(name) => name.span,
        GuardArg::Number(number) => number.span,
    }
}

/// guard = Lower ( "==" | "!=" | "<" ) ( Lower | Number ) .
#[tactic(auto, unfolding(syntax_grammar::specs::ItemRules::guard))]
fn guard(alloc: Global, tokens: &mut Reader<'_>) -> Result<GuardDecl, RuleFault>
    ensures { Gives (spec.guard tokens.old) result tokens.new }
{
    let field = tokens.lower(alloc)?;
    let op = or_drop!(guard_op(tokens), field);
    let other = or_drop!(other(alloc, tokens), field);
    let span = hull(field.span, other_span(&other));
    Ok(GuardDecl {
        field,
        op,
        other,
        span,
    })
}

/// guard_list = guard { "," guard } .
fn guard_list(alloc: Global, tokens: &mut Reader<'_>) -> Result<Vec<GuardDecl>, RuleFault>
    ensures { GivesBy (λ v. v.items) (lists.separated spec.guard marks.Comma tokens.old) result tokens.new }
{
    let mut found = Vec::new(alloc);
    for _turn in 0..tokens.left() {
        let next = or_drop!(guard(alloc, tokens), found);
        found = pushed(found, next)?;
        if !tokens.eat(Mark::Comma) {
            return Ok(found);
        }
    }
    drop(found);
    Err(RuleFault::Syntax)
}

/// guards = [ "when" guard { "," guard } ] .
#[tactic(auto, unfolding(syntax_grammar::specs::ItemRules::guards))]
fn guards(alloc: Global, tokens: &mut Reader<'_>) -> Result<Vec<GuardDecl>, RuleFault>
    ensures { GivesBy (λ v. v.items) (spec.guards tokens.old) result tokens.new }
{
    if !tokens.sees_word(Keyword::KwWhen) {
        return Ok(Vec::new(alloc));
    }
    tokens.expect_word(Keyword::KwWhen)?;
    guard_list(alloc, tokens)
}

/// arg_word = Number ":" Number .
#[tactic(auto, unfolding(syntax_grammar::specs::ItemRules::arg_word))]
fn arg_word(tokens: &mut Reader<'_>) -> Result<ArgDecl, RuleFault>
    ensures { Gives (spec.arg_word tokens.old) result tokens.new }
{
    let found = tokens.literal()?;
    Ok(ArgDecl::Word {
        v: found.v,
        w: found.w,
        span: found.span,
    })
}

/// arg = Lower | Number ":" Number .
#[tactic(auto, unfolding(syntax_grammar::specs::ItemRules::arg))]
fn arg(alloc: Global, tokens: &mut Reader<'_>) -> Result<ArgDecl, RuleFault>
    ensures { Gives (spec.arg tokens.old) result tokens.new }
{
    match tokens.next() {
        Some(Kind::Lower(_)) => Ok(ArgDecl::Named(tokens.lower(alloc)?)),
        Some(Kind::Number(_)) => arg_word(tokens),
        _ => Err(RuleFault::Syntax),
    }
}

/// arg_items = arg { "," arg } .
fn arg_items(alloc: Global, tokens: &mut Reader<'_>) -> Result<Vec<ArgDecl>, RuleFault>
    ensures { GivesBy (λ v. v.items) (lists.separated spec.arg marks.Comma tokens.old) result tokens.new }
{
    let mut found = Vec::new(alloc);
    for _turn in 0..tokens.left() {
        let next = or_drop!(arg(alloc, tokens), found);
        found = pushed(found, next)?;
        if !tokens.eat(Mark::Comma) {
            return Ok(found);
        }
    }
    drop(found);
    Err(RuleFault::Syntax)
}

/// args = [ "(" arg { "," arg } ")" ] .
#[tactic(auto, unfolding(syntax_grammar::specs::ItemRules::args, syntax_grammar::specs::ItemRules::arg_list))]
fn args(alloc: Global, tokens: &mut Reader<'_>) -> Result<Vec<ArgDecl>, RuleFault>
    ensures { GivesBy (λ v. v.items) (spec.args tokens.old) result tokens.new }
{
    if !tokens.eat(Mark::LParen) {
        return Ok(Vec::new(alloc));
    }
    let found = arg_items(alloc, tokens)?;
    or_drop!(tokens.expect(Mark::RParen), found);
    Ok(found)
}

/// row = "[" part { part } "]" [ "when" guard { "," guard } ] "=>" Upper [ "(" arg { "," arg } ")" ] ";" .
#[tactic(auto, unfolding(syntax_grammar::specs::ItemRules::row))]
fn row(alloc: Global, tokens: &mut Reader<'_>) -> Result<RowDecl, RuleFault>
    ensures { GivesBy row_view (spec.row tokens.old) result tokens.new }
{
    let start = tokens.expect(Mark::LBracket)?;
    let parts = parts(alloc, tokens)?;
    or_drop!(tokens.expect(Mark::RBracket), parts);
    let guards = or_drop!(guards(alloc, tokens), parts);
    or_drop!(tokens.expect(Mark::FatArrow), parts, guards);
    let case = or_drop!(tokens.upper(alloc), parts, guards);
    let args = or_drop!(args(alloc, tokens), parts, guards, case);
    let end = or_drop!(tokens.expect(Mark::Semi), parts, guards, case, args);
    Ok(RowDecl {
        parts,
        guards,
        case,
        args,
        span: hull(start, end),
    })
}

/// rows = { row } .
/// They end where a `}` comes, which is left.
fn rows(alloc: Global, tokens: &mut Reader<'_>) -> Result<Vec<RowDecl>, RuleFault>
    ensures { GivesBy (λ v. map row_view v.items) (lists.until spec.row marks.RBrace tokens.old) result tokens.new }
{
    let mut found = Vec::new(alloc);
    for _turn in 0..tokens.left() {
        if tokens.sees(Mark::RBrace) {
            return Ok(found);
        }
        let next = or_drop!(row(alloc, tokens), found);
        found = pushed(found, next)?;
    }
    drop(found);
    Err(RuleFault::Syntax)
}

/// decode = "decode" "{" { row } "}" .
#[tactic(auto, unfolding(syntax_grammar::specs::ItemRules::decode))]
pub fn decode(alloc: Global, tokens: &mut Reader<'_>) -> Result<DecodeDecl, RuleFault>
    ensures { GivesBy section_view (spec.decode tokens.old) result tokens.new }
{
    let start = tokens.expect_word(Keyword::KwDecode)?;
    tokens.expect(Mark::LBrace)?;
    let rows = rows(alloc, tokens)?;
    let end = or_drop!(tokens.expect(Mark::RBrace), rows);
    Ok(DecodeDecl {
        rows,
        span: hull(start, end),
    })
}
