//! Terms, by recursive descent.

ghost use Rattle.std.specs.Prelude.{◌≡◌, map, Ok, Err, MatchResult};
ghost use Rattle.std.specs.Option.{option_copied};
ghost use Rattle.syntax_grammar.specs.Parsing.{GivesBy};
ghost use Rattle.syntax_grammar.specs.declared.rules.RuleFault.TheVariants.{NoMemory};
ghost use Rattle.syntax_grammar.specs.Lists as lists;
ghost use Rattle.syntax_grammar.specs.PatternRules as patterns;
ghost use Rattle.syntax_grammar.specs.Operators as operators;
ghost use Rattle.syntax_grammar.specs.TermRules as spec;
ghost use Rattle.syntax_grammar.specs.View.{term as term_view, arm as arm_view};
ghost use Rattle.syntax_lexer.specs.declared.token.Mark.TheVariants as marks;

use std::alloc::{AllocError, Global};
use syntax_cursor::make::{
    arm_of, binary_of, cast_of, get_of, if_of, let_of, match_of, operation_of, paren_of, prefix_of,
    put_of,
};
use syntax_cursor::or_drop;
use syntax_cursor::pattern::pattern;
use syntax_cursor::reader::{Reader, hull, is_cast, is_operation, is_prefix, pushed};
use syntax_grammar::rules::RuleFault;
use syntax_grammar::tree::{Arm, BinOp, Expr, Name, PreOp};
use syntax_lexer::{Keyword, Kind, Mark};

/// A turn for each level, and one more.
const MAX_TURNS: usize = 257;

/// The precedence of the operators that bind least.
const LOOSEST: u8 = 8;

/// How tightly a binary operator binds, from 1, the tightest. 0 is none.
fn binds(next: Option<&Kind>) -> u8
    ensures { result ≡ operators.binds (option_copied next.entry) }
{
    match next {
        Some(Kind::Mark(Mark::Star)) => 1,
        Some(Kind::Mark(Mark::Plus | Mark::Minus)) => 2,
        Some(Kind::Mark(Mark::And)) => 3,
        Some(Kind::Mark(Mark::Caret)) => 4,
        Some(Kind::Mark(Mark::Bar)) => 5,
        Some(Kind::Mark(Mark::EqEq | Mark::NotEq)) => 6,
        Some(Kind::Mark(Mark::AndAnd)) => 7,
        Some(Kind::Mark(Mark::BarBar)) => 8,
        _ => 0,
    }
}

/// Whether operators of a precedence may stand in a row, grouped to the left.
fn groups(precedence: u8) -> bool
    ensures { result ≡ operators.groups precedence }
{
    precedence != 6
}

fn operator(next: Option<&Kind>) -> BinOp
    ensures { result ≡ operators.operator (option_copied next.entry) }
{
    match next {
        Some(Kind::Mark(Mark::Star)) => BinOp::Mul,
        Some(Kind::Mark(Mark::Minus)) => BinOp::Sub,
        Some(Kind::Mark(Mark::And)) => BinOp::BitAnd,
        Some(Kind::Mark(Mark::Caret)) => BinOp::BitXor,
        Some(Kind::Mark(Mark::Bar)) => BinOp::BitOr,
        Some(Kind::Mark(Mark::EqEq)) => BinOp::Eq,
        Some(Kind::Mark(Mark::NotEq)) => BinOp::Ne,
        Some(Kind::Mark(Mark::AndAnd)) => BinOp::AndAlso,
        Some(Kind::Mark(Mark::BarBar)) => BinOp::OrElse,
        _ => BinOp::Add,
    }
}

fn prefix_operator(next: Option<&Kind>) -> PreOp
    ensures { result ≡ operators.prefix_operator (option_copied next.entry) }
{
    match next {
        Some(Kind::Mark(Mark::Tilde)) => PreOp::Tilde,
        Some(Kind::Mark(Mark::Minus)) => PreOp::Minus,
        _ => PreOp::Bang,
    }
}

/// The term that was made, unless memory ran out.
fn or_no_memory(made: Result<Expr, AllocError>) -> Result<Expr, RuleFault>
    ensures { MatchResult made (λ e. result ≡ Ok e) (λ _. result ≡ Err NoMemory) }
{
    match made {
        Ok(e) => Ok(e),
        Err(_) => Err(RuleFault::NoMemory),
    }
}

/// word = Number ":" Number .
#[tactic(auto, unfolding(syntax_grammar::specs::TermRules::word))]
fn word(tokens: &mut Reader<'_>) -> Result<Expr, RuleFault>
    ensures { GivesBy term_view (spec.word tokens.old) result tokens.new }
{
    let found = tokens.literal()?;
    Ok(Expr::Word {
        v: found.v,
        w: found.w,
        span: found.span,
    })
}

/// flag = "true" | "false" .
/// The keyword that must come is `word`; it means `v`.
#[tactic(auto, unfolding(syntax_grammar::specs::TermRules::flag))]
fn flag(tokens: &mut Reader<'_>, word: Keyword, v: bool) -> Result<Expr, RuleFault>
    ensures { GivesBy term_view (spec.flag word v tokens.old) result tokens.new }
{
    let span = tokens.expect_word(word)?;
    Ok(Expr::Flag { v, span })
}

/// paren = "(" term ")" .
#[cycle(term)]
fn paren(alloc: Global, tokens: &mut Reader<'_>, depth: usize) -> Result<Expr, RuleFault>
    ensures { GivesBy term_view (spec.paren (spec.term depth) tokens.old) result tokens.new }
{
    let start = tokens.expect(Mark::LParen)?;
    let x = term(alloc, tokens, depth)?;
    let end = or_drop!(tokens.expect(Mark::RParen), x);
    or_no_memory(paren_of(alloc, start, x, end))
}

/// terms = term { "," term } .
#[cycle(term)]
fn terms(alloc: Global, tokens: &mut Reader<'_>, depth: usize) -> Result<Vec<Expr>, RuleFault>
    ensures { GivesBy (λ v. map term_view v.items) (lists.separated (spec.term depth) marks.Comma tokens.old) result tokens.new }
{
    let mut found = Vec::new(alloc);
    for _turn in 0..tokens.left() {
        let next = or_drop!(term(alloc, tokens, depth), found);
        found = pushed(found, next)?;
        if !tokens.eat(Mark::Comma) {
            return Ok(found);
        }
    }
    drop(found);
    Err(RuleFault::Syntax)
}

/// arguments = [ term { "," term } ] .
/// There are none where a `)` comes, which is left.
#[cycle(term)]
fn arguments(alloc: Global, tokens: &mut Reader<'_>, depth: usize) -> Result<Vec<Expr>, RuleFault>
    ensures { GivesBy (λ v. map term_view v.items) (spec.arguments (spec.term depth) tokens.old) result tokens.new }
{
    if tokens.sees(Mark::RParen) {
        return Ok(Vec::new(alloc));
    }
    terms(alloc, tokens, depth)
}

/// The rest of a call behind its "(": [ term { "," term } ] ")" .
#[cycle(term)]
fn call(alloc: Global, tokens: &mut Reader<'_>, depth: usize, name: Name) -> Result<Expr, RuleFault>
    ensures { GivesBy term_view (spec.call (spec.term depth) name tokens.old) result tokens.new }
{
    let args = or_drop!(arguments(alloc, tokens, depth), name);
    let end = or_drop!(tokens.expect(Mark::RParen), name, args);
    let span = hull(name.span, end);
    Ok(Expr::Call { name, args, span })
}

/// named = Lower [ "(" [ term { "," term } ] ")" ] .
#[cycle(term)]
fn named(alloc: Global, tokens: &mut Reader<'_>, depth: usize) -> Result<Expr, RuleFault>
    ensures { GivesBy term_view (spec.named (spec.term depth) tokens.old) result tokens.new }
{
    let name = tokens.lower(alloc)?;
    if tokens.eat(Mark::LParen) {
        return call(alloc, tokens, depth, name);
    }
    Ok(Expr::Var(name))
}

/// The rest of a constructor behind its "(": term { "," term } ")" .
#[cycle(term)]
fn parts(
    alloc: Global,
    tokens: &mut Reader<'_>,
    depth: usize,
    name: Name,
) -> Result<Expr, RuleFault>
    ensures { GivesBy term_view (spec.parts (spec.term depth) name tokens.old) result tokens.new }
{
    let args = or_drop!(terms(alloc, tokens, depth), name);
    let end = or_drop!(tokens.expect(Mark::RParen), name, args);
    let span = hull(name.span, end);
    Ok(Expr::Make { name, args, span })
}

/// made = Upper [ "(" term { "," term } ")" ] .
#[cycle(term)]
fn made(alloc: Global, tokens: &mut Reader<'_>, depth: usize) -> Result<Expr, RuleFault>
    ensures { GivesBy term_view (spec.made (spec.term depth) tokens.old) result tokens.new }
{
    let name = tokens.upper(alloc)?;
    if tokens.eat(Mark::LParen) {
        return parts(alloc, tokens, depth, name);
    }
    let span = name.span;
    Ok(Expr::Make {
        name,
        args: Vec::new(alloc),
        span,
    })
}

/// An operation: op "(" term "," term ")" .
#[cycle(term)]
fn operation(
    alloc: Global,
    tokens: &mut Reader<'_>,
    depth: usize,
    op: Keyword,
) -> Result<Expr, RuleFault>
    ensures { GivesBy term_view (spec.operation (spec.term depth) op tokens.old) result tokens.new }
{
    let start = tokens.expect_word(op)?;
    tokens.expect(Mark::LParen)?;
    let x = term(alloc, tokens, depth)?;
    or_drop!(tokens.expect(Mark::Comma), x);
    let y = or_drop!(term(alloc, tokens, depth), x);
    let end = or_drop!(tokens.expect(Mark::RParen), x, y);
    or_no_memory(operation_of(alloc, op, start, x, y, end))
}

/// A cast: cast "(" term "," Number ")" .
#[cycle(term)]
fn cast(
    alloc: Global,
    tokens: &mut Reader<'_>,
    depth: usize,
    op: Keyword,
) -> Result<Expr, RuleFault>
    ensures { GivesBy term_view (spec.cast (spec.term depth) op tokens.old) result tokens.new }
{
    let start = tokens.expect_word(op)?;
    tokens.expect(Mark::LParen)?;
    let x = term(alloc, tokens, depth)?;
    or_drop!(tokens.expect(Mark::Comma), x);
    let to = or_drop!(tokens.number(), x);
    let end = or_drop!(tokens.expect(Mark::RParen), x);
    or_no_memory(cast_of(alloc, op, start, x, to, end))
}

/// arm = pat "=>" term ";" .
#[cycle(term)]
fn arm(alloc: Global, tokens: &mut Reader<'_>, depth: usize) -> Result<Arm, RuleFault>
    ensures { GivesBy arm_view (spec.arm (patterns.pattern depth) (spec.term depth) tokens.old) result tokens.new }
{
    let pat = pattern(alloc, tokens, depth)?;
    or_drop!(tokens.expect(Mark::FatArrow), pat);
    let body = or_drop!(term(alloc, tokens, depth), pat);
    let end = or_drop!(tokens.expect(Mark::Semi), pat, body);
    Ok(arm_of(pat, body, end))
}

/// arms = arm { arm } .
/// They end where a `}` comes, which is left.
#[cycle(term)]
fn arms(alloc: Global, tokens: &mut Reader<'_>, depth: usize) -> Result<Vec<Arm>, RuleFault>
    ensures { GivesBy (λ v. map arm_view v.items) (lists.many (spec.arm (patterns.pattern depth) (spec.term depth)) marks.RBrace tokens.old) result tokens.new }
{
    let first = arm(alloc, tokens, depth)?;
    let mut found = pushed(Vec::new(alloc), first)?;
    for _turn in 0..tokens.left() {
        if tokens.sees(Mark::RBrace) {
            return Ok(found);
        }
        let next = or_drop!(arm(alloc, tokens, depth), found);
        found = pushed(found, next)?;
    }
    drop(found);
    Err(RuleFault::Syntax)
}

/// match_on = "match" term "with" "{" arm { arm } "}" .
#[cycle(term)]
fn match_on(alloc: Global, tokens: &mut Reader<'_>, depth: usize) -> Result<Expr, RuleFault>
    ensures { GivesBy term_view (spec.match_on (patterns.pattern depth) (spec.term depth) tokens.old) result tokens.new }
{
    let start = tokens.expect_word(Keyword::KwMatch)?;
    let x = term(alloc, tokens, depth)?;
    or_drop!(tokens.expect_word(Keyword::KwWith), x);
    or_drop!(tokens.expect(Mark::LBrace), x);
    let arms = or_drop!(arms(alloc, tokens, depth), x);
    let end = or_drop!(tokens.expect(Mark::RBrace), x, arms);
    or_no_memory(match_of(alloc, start, x, arms, end))
}

/// An atom that begins with this keyword: `flag` | `match_on` | `operation` | `cast` .
#[cycle(term)]
fn atom_by_word(
    alloc: Global,
    tokens: &mut Reader<'_>,
    depth: usize,
    word: Keyword,
) -> Result<Expr, RuleFault>
    ensures { GivesBy term_view (spec.atom_by_word (patterns.pattern depth) (spec.term depth) word tokens.old) result tokens.new }
{
    match word {
        Keyword::KwTrue => flag(tokens, Keyword::KwTrue, true),
        Keyword::KwFalse => flag(tokens, Keyword::KwFalse, false),
        Keyword::KwMatch => match_on(alloc, tokens, depth),
        _ if is_operation(word) => operation(alloc, tokens, depth, word),
        _ if is_cast(word) => cast(alloc, tokens, depth, word),
        _ => Err(RuleFault::Syntax),
    }
}

/// atom = `word` | `named` | `made` | `paren` | `flag` | `match_on` | `operation` | `cast` .
#[cycle(term)]
#[tactic(auto, unfolding(syntax_grammar::specs::TermRules::atom))]
fn atom(alloc: Global, tokens: &mut Reader<'_>, depth: usize) -> Result<Expr, RuleFault>
    ensures { GivesBy term_view (spec.atom (patterns.pattern depth) (spec.term depth) tokens.old) result tokens.new }
{
    match tokens.next() {
        Some(Kind::Number(_)) => word(tokens),
        Some(Kind::Lower(_)) => named(alloc, tokens, depth),
        Some(Kind::Upper(_)) => made(alloc, tokens, depth),
        Some(Kind::Mark(Mark::LParen)) => paren(alloc, tokens, depth),
        Some(Kind::Word(word)) => atom_by_word(alloc, tokens, depth, *word),
        _ => Err(RuleFault::Syntax),
    }
}

/// The rest of a map read or change behind its "[": term [ ":=" term ] "]" .
#[cycle(term)]
fn index(alloc: Global, tokens: &mut Reader<'_>, depth: usize, x: Expr) -> Result<Expr, RuleFault>
    ensures { GivesBy term_view (spec.index (spec.term depth) (term_view x) tokens.old) result tokens.new }
{
    let key = or_drop!(term(alloc, tokens, depth), x);
    if tokens.eat(Mark::Assign) {
        let v = or_drop!(term(alloc, tokens, depth), x, key);
        let end = or_drop!(tokens.expect(Mark::RBracket), x, key, v);
        return or_no_memory(put_of(alloc, x, key, v, end));
    }
    let end = or_drop!(tokens.expect(Mark::RBracket), x, key);
    or_no_memory(get_of(alloc, x, key, end))
}

/// post = atom { "[" term [ ":=" term ] "]" } .
/// Each `[` is one level deeper.
#[cycle(term)]
fn post(alloc: Global, tokens: &mut Reader<'_>, depth: usize) -> Result<Expr, RuleFault>
    ensures { GivesBy term_view (spec.post (patterns.pattern depth) (spec.term depth) tokens.old) result tokens.new }
{
    let mut x = atom(alloc, tokens, depth)?;
    for _turn in 0..MAX_TURNS {
        if !tokens.sees(Mark::LBracket) {
            return Ok(x);
        }
        or_drop!(tokens.rise(), x);
        tokens.skip();
        x = index(alloc, tokens, depth, x)?;
    }
    drop(x);
    Err(RuleFault::TooDeep)
}

/// unary = ( "!" | "~" | "-" ) unary | post .
/// Each operator is one level deeper. It takes one of the turns, and so does the operand.
#[cycle(term)]
fn unary(
    alloc: Global,
    tokens: &mut Reader<'_>,
    depth: usize,
    turns: usize,
) -> Result<Expr, RuleFault>
    ensures { GivesBy term_view (spec.unary_from (patterns.pattern depth) (spec.term depth) turns tokens.old) result tokens.new }
{
    if turns == 0 {
        return Err(RuleFault::TooDeep);
    }
    let next = tokens.next();
    if !is_prefix(next) {
        return post(alloc, tokens, depth);
    }
    let op = prefix_operator(next);
    tokens.rise()?;
    let start = tokens.skip();
    let x = unary(alloc, tokens, depth, turns - 1)?;
    or_no_memory(prefix_of(alloc, op, start, x))
}

/// By precedence from 8 to 0: or | and | eq | bor | xor | band | sum | prod | unary .
/// So `or = and { "||" and } .` is 8, `eq = bor [ ( "==" | "!=" ) bor ] .` is 6, `prod = unary { "*" unary } .` is 1.
/// Each operator is one level deeper.
#[cycle(term)]
fn at_precedence(
    alloc: Global,
    tokens: &mut Reader<'_>,
    depth: usize,
    precedence: u8,
) -> Result<Expr, RuleFault>
    ensures { GivesBy term_view (spec.at_precedence (patterns.pattern depth) (spec.term depth) precedence tokens.old) result tokens.new }
{
    if precedence == 0 {
        return unary(alloc, tokens, depth, MAX_TURNS);
    }
    let mut left = at_precedence(alloc, tokens, depth, precedence - 1)?;
    for _turn in 0..MAX_TURNS {
        let next = tokens.next();
        if binds(next) != precedence {
            return Ok(left);
        }
        let op = operator(next);
        or_drop!(tokens.rise(), left);
        tokens.skip();
        let right = match at_precedence(alloc, tokens, depth, precedence - 1) {
            Ok(right) => right,
            Err(fault) => {
                drop(left);
                return Err(fault);
            }
        };
        left = binary_of(alloc, op, left, right)?;
        if !groups(precedence) {
            return Ok(left);
        }
    }
    drop(left);
    Err(RuleFault::TooDeep)
}

/// let_in = "let" Lower "=" term "in" term .
#[cycle(term)]
fn let_in(alloc: Global, tokens: &mut Reader<'_>, depth: usize) -> Result<Expr, RuleFault>
    ensures { GivesBy term_view (spec.let_in (spec.term depth) tokens.old) result tokens.new }
{
    let start = tokens.expect_word(Keyword::KwLet)?;
    let name = tokens.lower(alloc)?;
    or_drop!(tokens.expect(Mark::Equals), name);
    let x = or_drop!(term(alloc, tokens, depth), name);
    or_drop!(tokens.expect_word(Keyword::KwIn), name, x);
    let then = or_drop!(term(alloc, tokens, depth), name, x);
    or_no_memory(let_of(alloc, start, name, x, then))
}

/// if_else = "if" term "then" term "else" term .
#[cycle(term)]
fn if_else(alloc: Global, tokens: &mut Reader<'_>, depth: usize) -> Result<Expr, RuleFault>
    ensures { GivesBy term_view (spec.if_else (spec.term depth) tokens.old) result tokens.new }
{
    let start = tokens.expect_word(Keyword::KwIf)?;
    let c = term(alloc, tokens, depth)?;
    or_drop!(tokens.expect_word(Keyword::KwThen), c);
    let yes = or_drop!(term(alloc, tokens, depth), c);
    or_drop!(tokens.expect_word(Keyword::KwElse), c, yes);
    let no = or_drop!(term(alloc, tokens, depth), c, yes);
    or_no_memory(if_of(alloc, start, c, yes, no))
}

/// The choices of term: `let_in` | `if_else` | or .
#[cycle(term)]
#[tactic(auto, unfolding(syntax_grammar::specs::TermRules::body))]
fn body(alloc: Global, tokens: &mut Reader<'_>, depth: usize) -> Result<Expr, RuleFault>
    ensures { GivesBy term_view (spec.body (patterns.pattern depth) (spec.term depth) tokens.old) result tokens.new }
{
    match tokens.next() {
        Some(Kind::Word(Keyword::KwLet)) => let_in(alloc, tokens, depth),
        Some(Kind::Word(Keyword::KwIf)) => if_else(alloc, tokens, depth),
        _ => at_precedence(alloc, tokens, depth, LOOSEST),
    }
}

/// term = "let" Lower "=" term "in" term | "if" term "then" term "else" term | or .
/// Terms nest no deeper than `depth`.
#[cycle(term)]
pub fn term(alloc: Global, tokens: &mut Reader<'_>, depth: usize) -> Result<Expr, RuleFault>
    ensures { GivesBy term_view (spec.term depth tokens.old) result tokens.new }
{
    let outer = tokens.enter_term()?;
    if depth == 0 {
        return Err(RuleFault::TooDeep);
    }
    let found = body(alloc, tokens, depth - 1)?;
    tokens.leave(outer);
    Ok(found)
}
