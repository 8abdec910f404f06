//! Declarations of types, maps and functions, and whole specifications.

ghost use Rattle.std.specs.Prelude.{◌≡◌, map};
ghost use Rattle.syntax_grammar.specs.Parsing.{Gives, GivesBy};
ghost use Rattle.syntax_grammar.specs.Lists as lists;
ghost use Rattle.syntax_grammar.specs.ItemRules as spec;
ghost use Rattle.syntax_grammar.specs.View.{constructor as constructor_view, datatype as datatype_view, function as function_view, item as item_view};
ghost use Rattle.syntax_lexer.specs.declared.token.Mark.TheVariants as marks;

use crate::decode::decode;
use std::alloc::Global;
use syntax_cursor::or_drop;
use syntax_cursor::reader::{MAX_LEVEL, Reader, hull, pushed};
use syntax_grammar::rules::RuleFault;
use syntax_grammar::tree::{CaseDecl, DataDecl, FieldDecl, FunDecl, Item, MapDecl, Name};
use syntax_lexer::{Keyword, Kind, Mark};
use syntax_terms::term;

/// field = Lower ":" Upper .
#[tactic(auto, unfolding(syntax_grammar::specs::ItemRules::field))]
fn field(alloc: Global, tokens: &mut Reader<'_>) -> Result<FieldDecl, RuleFault>
    ensures { Gives (spec.field tokens.old) result tokens.new }
{
    let name = tokens.lower(alloc)?;
    or_drop!(tokens.expect(Mark::Colon), name);
    let ty = or_drop!(tokens.upper(alloc), name);
    let span = hull(name.span, ty.span);
    Ok(FieldDecl { name, ty, span })
}

/// fields = field { "," field } .
fn fields(alloc: Global, tokens: &mut Reader<'_>) -> Result<Vec<FieldDecl>, RuleFault>
    ensures { GivesBy (λ v. v.items) (lists.separated spec.field marks.Comma tokens.old) result tokens.new }
{
    let mut found = Vec::new(alloc);
    for _turn in 0..tokens.left() {
        let next = or_drop!(field(alloc, tokens), found);
        found = pushed(found, next)?;
        if !tokens.eat(Mark::Comma) {
            return Ok(found);
        }
    }
    drop(found);
    Err(RuleFault::Syntax)
}

/// The rest of a case behind its "(": field { "," field } ")" .
#[tactic(auto, unfolding(syntax_grammar::specs::ItemRules::case_fields))]
fn case_fields(alloc: Global, tokens: &mut Reader<'_>, name: Name) -> Result<CaseDecl, RuleFault>
    ensures { GivesBy constructor_view (spec.case_fields name tokens.old) result tokens.new }
{
    let fields = or_drop!(fields(alloc, tokens), name);
    let end = or_drop!(tokens.expect(Mark::RParen), name, fields);
    let span = hull(name.span, end);
    Ok(CaseDecl { name, fields, span })
}

/// case = Upper [ "(" field { "," field } ")" ] .
#[tactic(auto, unfolding(syntax_grammar::specs::ItemRules::constructor))]
fn constructor(alloc: Global, tokens: &mut Reader<'_>) -> Result<CaseDecl, RuleFault>
    ensures { GivesBy constructor_view (spec.constructor tokens.old) result tokens.new }
{
    let name = tokens.upper(alloc)?;
    if tokens.eat(Mark::LParen) {
        return case_fields(alloc, tokens, name);
    }
    let span = hull(name.span, name.span);
    Ok(CaseDecl {
        name,
        fields: Vec::new(alloc),
        span,
    })
}

/// constructors = case { "|" case } .
fn constructors(alloc: Global, tokens: &mut Reader<'_>) -> Result<Vec<CaseDecl>, RuleFault>
    ensures { GivesBy (λ v. map constructor_view v.items) (lists.separated spec.constructor marks.Bar tokens.old) result tokens.new }
{
    let mut found = Vec::new(alloc);
    for _turn in 0..tokens.left() {
        let next = or_drop!(constructor(alloc, tokens), found);
        found = pushed(found, next)?;
        if !tokens.eat(Mark::Bar) {
            return Ok(found);
        }
    }
    drop(found);
    Err(RuleFault::Syntax)
}

/// type = "type" Upper "=" case { "|" case } ";" .
#[tactic(auto, unfolding(syntax_grammar::specs::ItemRules::datatype))]
fn datatype(alloc: Global, tokens: &mut Reader<'_>) -> Result<DataDecl, RuleFault>
    ensures { GivesBy datatype_view (spec.datatype tokens.old) result tokens.new }
{
    let start = tokens.expect_word(Keyword::KwType)?;
    let name = tokens.upper(alloc)?;
    or_drop!(tokens.expect(Mark::Equals), name);
    let cases = or_drop!(constructors(alloc, tokens), name);
    let end = or_drop!(tokens.expect(Mark::Semi), name, cases);
    Ok(DataDecl {
        name,
        cases,
        span: hull(start, end),
    })
}

/// map = "map" Upper "[" Upper "->" Upper "]" "default" Number ";" .
#[tactic(auto, unfolding(syntax_grammar::specs::ItemRules::map_type))]
fn map_type(alloc: Global, tokens: &mut Reader<'_>) -> Result<MapDecl, RuleFault>
    ensures { Gives (spec.map_type tokens.old) result tokens.new }
{
    let start = tokens.expect_word(Keyword::KwMap)?;
    let name = tokens.upper(alloc)?;
    or_drop!(tokens.expect(Mark::LBracket), name);
    let key = or_drop!(tokens.upper(alloc), name);
    or_drop!(tokens.expect(Mark::Arrow), name, key);
    let value = or_drop!(tokens.upper(alloc), name, key);
    or_drop!(tokens.expect(Mark::RBracket), name, key, value);
    or_drop!(tokens.expect_word(Keyword::KwDefault), name, key, value);
    let default = or_drop!(tokens.number(), name, key, value);
    let end = or_drop!(tokens.expect(Mark::Semi), name, key, value);
    Ok(MapDecl {
        name,
        key,
        value,
        default,
        span: hull(start, end),
    })
}

/// params = [ field { "," field } ] .
/// There are none where a `)` comes, which is left.
#[tactic(auto, unfolding(syntax_grammar::specs::ItemRules::params, syntax_grammar::specs::Parsing::sees))]
fn params(alloc: Global, tokens: &mut Reader<'_>) -> Result<Vec<FieldDecl>, RuleFault>
    ensures { GivesBy (λ v. v.items) (spec.params tokens.old) result tokens.new }
{
    if tokens.sees(Mark::RParen) {
        return Ok(Vec::new(alloc));
    }
    fields(alloc, tokens)
}

/// fun = "fun" Lower "(" [ field { "," field } ] ")" "->" Upper "=" term ";" .
#[tactic(auto, unfolding(syntax_grammar::specs::ItemRules::function))]
fn function(alloc: Global, tokens: &mut Reader<'_>) -> Result<FunDecl, RuleFault>
    ensures { GivesBy function_view (spec.function tokens.old) result tokens.new }
{
    let start = tokens.expect_word(Keyword::KwFun)?;
    let name = tokens.lower(alloc)?;
    or_drop!(tokens.expect(Mark::LParen), name);
    let params = or_drop!(params(alloc, tokens), name);
    or_drop!(tokens.expect(Mark::RParen), name, params);
    or_drop!(tokens.expect(Mark::Arrow), name, params);
    let result_type = or_drop!(tokens.upper(alloc), name, params);
    or_drop!(tokens.expect(Mark::Equals), name, params, result_type);
    let body = or_drop!(term(alloc, tokens, MAX_LEVEL), name, params, result_type);
    let end = or_drop!(tokens.expect(Mark::Semi), name, params, result_type, body);
    Ok(FunDecl {
        name,
        params,
        result: result_type,
        body,
        span: hull(start, end),
    })
}

/// item = type | map | fun | decode .
#[tactic(auto, unfolding(syntax_grammar::specs::ItemRules::item))]
fn item(alloc: Global, tokens: &mut Reader<'_>) -> Result<Item, RuleFault>
    ensures { GivesBy item_view (spec.item tokens.old) result tokens.new }
{
    match tokens.next() {
        Some(Kind::Word(Keyword::KwType)) => Ok(Item::Data(datatype(alloc, tokens)?)),
        Some(Kind::Word(Keyword::KwMap)) => Ok(Item::Map(map_type(alloc, tokens)?)),
        Some(Kind::Word(Keyword::KwFun)) => Ok(Item::Fun(function(alloc, tokens)?)),
        Some(Kind::Word(Keyword::KwDecode)) => Ok(Item::Decode(decode(alloc, tokens)?)),
        _ => Err(RuleFault::Syntax),
    }
}

/// spec = { type | map | fun | decode } .
/// It ends with the last token.
#[tactic(auto, using(syntax_cursor::proofs::Turns::turn, syntax_cursor::proofs::Turns::over, syntax_cursor::proofs::Turns::map_more), unfolding(syntax_grammar::specs::ItemRules::items, syntax_grammar::specs::ItemRules::items_from))]
pub fn declarations(alloc: Global, tokens: &mut Reader<'_>) -> Result<Vec<Item>, RuleFault>
    ensures { GivesBy (λ v. map item_view v.items) (spec.items tokens.old) result tokens.new }
{
    let mut found = Vec::new(alloc);
    for _turn in 0..tokens.left() {
        if tokens.next().is_none() {
            return Ok(found);
        }
        let next = or_drop!(item(alloc, tokens), found);
        found = pushed(found, next)?;
    }
    Ok(found)
}
