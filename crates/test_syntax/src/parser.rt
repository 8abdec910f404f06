use std::alloc::{AllocError, Global};
use std::test::Fail;
use syntax_lexer::{Keyword, Kind, Token, lex};
use syntax_parser::tree::{Arm, BinOp, DataDecl, Expr, FieldDecl, Item, Name, Pat, PreOp, Span};
use syntax_parser::{ParseError, parse};

/// A machine of three instructions.
const MACHINE: &str = "map Reg [INT2 -> INT32] default 0;
type Instr = Set(d: INT2, v: INT16) | Add(d: INT2, a: INT2, b: INT2) | Jz(a: INT2, t: INT16);
type State = State(pc: INT32, r: Reg);
fun interpInstr(i: Instr, s: State) -> State =
  match s with { State(pc, r) => match i with {
    Set(d, v) => State(pc + 4:32, r[d := zext(v, 32)]);
    Add(d, a, b) => State(pc + 4:32, r[d := r[a] + r[b]]);
    Jz(a, t) => State(if r[a] == 0:32 then zext(t, 32) else pc + 4:32, r);
  }; };
decode {
  [1:8 0:6 d:2 v:16] => Set(d, v);
  [2:8 0:18 d:2 a:2 b:2] => Add(d, a, b);
  [3:8 0:6 a:2 t:16] when a < 3, t != 0 => Jz(a, t);
}
";

/// The tokens of a source, and none where it has a bad one.
fn tokens_of(alloc: Global, source: &str) -> Vec<Token> {
    if source.len() > 262_144 {
        return Vec::new(alloc);
    }
    match lex(alloc, source.as_bytes()) {
        Ok(tokens) => tokens,
        Err(_error) => Vec::new(alloc),
    }
}

/// Whether a source has a tree, of so many declarations.
fn has_items(alloc: Global, source: &str, wanted: usize) -> bool {
    let tokens = tokens_of(alloc, source);
    match parse(alloc, tokens.as_slice(), 0) {
        Ok(tree) => tree.items.len() == wanted,
        Err(_error) => false,
    }
}

/// Sources, and how many declarations they have.
const PLACES: &[(&str, usize)] = &[
    ("", 0),
    (MACHINE, 5),
    ("decode { }", 1),
    ("decode { } decode { }", 2),
    ("type A = Aa | Bb(x: INT1);", 1),
    ("fun f() -> INT32 = f();", 1),
    ("fun f(x: INT32) -> INT32 = (x == x) == x;", 1),
    ("fun f(x: INT32) -> INT32 = x[1:2][2:2 := x] + -~!x;", 1),
];

#[test]
fn places(rt: HostRuntime) {
    for (source, wanted) in PLACES {
        assert!(rt; has_items(rt.alloc(), source, *wanted), "{source}");
    }
}

/// `before`, `n` times `piece`, and `after`.
fn repeated(
    alloc: Global,
    before: &str,
    piece: &str,
    n: u32,
    after: &str,
) -> Result<String, AllocError> {
    let mut text = String::from_str(alloc, before)?;
    for _ in 0..n {
        text.push_str(piece)?;
    }
    text.push_str(after)?;
    Ok(text)
}

/// A text of many levels: what opens one, how often, what stands within, and what closes how many.
type Levels = (&'static str, u32, &'static str, &'static str, u32);

/// Whether it is the body of a function, or the first arm of one.
fn is_read(alloc: Global, levels: Levels, is_pattern: bool) -> Result<bool, AllocError> {
    let (piece, n, within, close, m) = levels;
    let (before, after) = if is_pattern {
        ("fun f(x: INT32) -> INT32 = match x with { ", " => x; };")
    } else {
        ("fun f(x: INT32) -> INT32 = ", ";")
    };
    let opened = repeated(alloc, before, piece, n, within)?;
    let source = repeated(alloc, opened.as_str(), close, m, after)?;
    Ok(has_items(alloc, source.as_str(), 1))
}

/// Texts of levels, and whether they are patterns.
const LEVELS: &[(Levels, bool)] = &[
    (("(", 255, "1:32", ")", 255), false),
    (("~", 255, "x", "", 0), false),
    (("x+", 255, "x", "", 0), false),
    (("x", 1, "", "[x]", 254), false),
    (("let x = x in ", 255, "x", "", 0), false),
    (("match x with { A", 1, "(A", ") => x; }", 1), false),
    (("A(", 254, "x", ")", 254), true),
];

#[test]
fn levels(rt: HostRuntime) -> Result<(), Fail> {
    for (levels, is_pattern) in LEVELS {
        assert!(rt; is_read(rt.alloc(), *levels, *is_pattern)?, "{}", levels.0);
    }
    Ok(())
}

/// How many first parts of the tokens are whole specifications, of 0, 1, 2 .. declarations, where each other part goes wrong at its end.
fn whole_parts(alloc: Global, tokens: &[Token]) -> Option<usize> {
    let mut whole = 0usize;
    for n in 0..tokens.len() {
        match parse(alloc, &tokens[..n], 9999) {
            Ok(tree) => {
                if tree.items.len() != whole {
                    return None;
                }
                whole = whole.saturating_add(1);
            }
            Err(ParseError::Syntax { at: 9999 }) => {}
            Err(_error) => return None,
        }
    }
    Some(whole)
}

/// Whether the tokens go wrong at the one that begins at byte 5555.
fn are_refused(alloc: Global, tokens: &[Token]) -> bool {
    match parse(alloc, tokens, 9999) {
        Err(ParseError::Syntax { at: 5555 }) => true,
        _ => false,
    }
}

/// Whether the tokens go wrong at a word too many, wherever it stands.
fn refuse_a_word(alloc: Global, mut tokens: Vec<Token>) -> Result<bool, AllocError> {
    for n in 0..tokens.len() {
        if n >= tokens.len() {
            return Ok(false);
        }
        let word = Token {
            kind: Kind::Word(Keyword::KwIn),
            from: 5555,
            to: 5557,
        };
        tokens.insert(n, word)?;
        if !are_refused(alloc, tokens.as_slice()) {
            return Ok(false);
        }
        drop(tokens.remove(n));
    }
    Ok(true)
}

/// A specification that is cut off goes wrong at its end, and one with a word too many at that word.
#[test]
fn cuts(rt: HostRuntime) -> Result<(), Fail> {
    let alloc = rt.alloc();
    let tokens = tokens_of(alloc, MACHINE);
    assert!(rt; whole_parts(alloc, tokens.as_slice()) == Some(5));
    assert!(rt; refuse_a_word(alloc, tokens)?);
    Ok(())
}

/// The place after a word, where it stands here, and else a place past all words.
fn after(word: &str, words: &[&str], at: usize) -> usize {
    if at < words.len() && words[at] == word {
        at + 1
    } else {
        usize::MAX
    }
}

fn binary(op: BinOp) -> &'static str {
    match op {
        BinOp::OrElse => "||",
        BinOp::AndAlso => "&&",
        BinOp::Eq => "==",
        BinOp::Ne => "!=",
        BinOp::BitOr => "|",
        BinOp::BitXor => "^",
        BinOp::BitAnd => "&",
        BinOp::Add => "+",
        BinOp::Sub => "-",
        BinOp::Mul => "*",
    }
}

fn prefix(op: PreOp) -> &'static str {
    match op {
        PreOp::Bang => "!",
        PreOp::Tilde => "~",
        PreOp::Minus => "-",
    }
}

/// The keywords that stand in the table of terms.
fn keyword(op: Keyword) -> &'static str {
    match op {
        Keyword::KwRems => "rems",
        Keyword::KwTrunc => "trunc",
        _ => "another",
    }
}

/// The numbers that stand in the table of terms.
fn number(n: u64) -> &'static str {
    match n {
        0 => "0",
        2 => "2",
        8 => "8",
        _ => "another",
    }
}

/// The place after a name and the count of its arguments.
fn after_name(name: &Name, count: u64, words: &[&str], at: usize) -> usize {
    after(number(count), words, after(name.text.as_str(), words, at))
}

/// The place after the words of a term, each operator before its parts.
fn after_term(e: &Expr, words: &[&str], at: usize) -> usize {
    match e {
        Expr::Binary { op, x, y, .. } => {
            let x_end = after_term(x, words, after(binary(*op), words, at));
            after_term(y, words, x_end)
        }
        Expr::Prefix { op, x, .. } => after_term(x, words, after(prefix(*op), words, at)),
        Expr::Get { x, key, .. } => {
            let x_end = after_term(x, words, after("get", words, at));
            after_term(key, words, x_end)
        }
        Expr::Put { x, key, v, .. } => {
            let x_end = after_term(x, words, after("put", words, at));
            let key_end = after_term(key, words, x_end);
            after_term(v, words, key_end)
        }
        Expr::Let { name, x, then, .. } => {
            let name_end = after(name.text.as_str(), words, after("let", words, at));
            let x_end = after_term(x, words, name_end);
            after_term(then, words, x_end)
        }
        Expr::If { c, yes, no, .. } => {
            let c_end = after_term(c, words, after("if", words, at));
            let yes_end = after_term(yes, words, c_end);
            after_term(no, words, yes_end)
        }
        Expr::Op { op, x, y, .. } => {
            let x_end = after_term(x, words, after(keyword(*op), words, at));
            after_term(y, words, x_end)
        }
        Expr::Cast { op, x, to, .. } => {
            let x_end = after_term(x, words, after(keyword(*op), words, at));
            after(number(to.v), words, x_end)
        }
        Expr::Paren { x, .. } => after_term(x, words, after("()", words, at)),
        Expr::Var(name) => after(name.text.as_str(), words, at),
        Expr::Call { name, args, .. } => after_name(name, args.len() as u64, words, at),
        Expr::Make { name, args, .. } => after_name(name, args.len() as u64, words, at),
        Expr::Word { .. } => after("word", words, at),
        Expr::Flag { v, .. } => after(if *v { "true" } else { "false" }, words, at),
        Expr::Match { arms, .. } => {
            after(number(arms.len() as u64), words, after("match", words, at))
        }
    }
}

fn is_span(span: Span, from: usize, to: usize) -> bool {
    span.from as usize == from && span.to as usize == to
}

fn span_of(e: &Expr) -> Span {
    match e {
        Expr::Var(name) => name.span,
        Expr::Binary { span, .. }
        | Expr::Prefix { span, .. }
        | Expr::Get { span, .. }
        | Expr::Put { span, .. }
        | Expr::Let { span, .. }
        | Expr::If { span, .. }
        | Expr::Op { span, .. }
        | Expr::Cast { span, .. }
        | Expr::Paren { span, .. }
        | Expr::Call { span, .. }
        | Expr::Make { span, .. }
        | Expr::Word { span, .. }
        | Expr::Flag { span, .. }
        | Expr::Match { span, .. } => *span,
    }
}

/// Whether the only declaration is a function whose body has these words, and goes from byte 15 to just before the `;`.
fn has_body(items: &[Item], words: &[&str], end: usize) -> bool {
    match items {
        [Item::Fun(f)] => {
            is_span(span_of(&f.body), 15, end) && after_term(&f.body, words, 0) == words.len()
        }
        _ => false,
    }
}

/// Whether a term has these words, each operator before its parts.
fn has_words(alloc: Global, term: &str, words: &[&str]) -> Result<bool, AllocError> {
    let source = format!(in alloc; "fun f() -> A = {term};")?;
    let tokens = tokens_of(alloc, source.as_str());
    match parse(alloc, tokens.as_slice(), 0) {
        Ok(tree) => Ok(has_body(tree.items.as_slice(), words, source.len().saturating_sub(1))),
        Err(_error) => Ok(false),
    }
}

const TERMS: &[(&str, &[&str])] = &[
    ("a + b * c", &["+", "a", "*", "b", "c"]),
    ("a * b + c", &["+", "*", "a", "b", "c"]),
    ("a - b - c", &["-", "-", "a", "b", "c"]),
    ("a - (b - c)", &["-", "a", "()", "-", "b", "c"]),
    (
        "a || b && c == d | e ^ f & g + h",
        &[
            "||", "a", "&&", "b", "==", "c", "|", "d", "^", "e", "&", "f", "+", "g", "h",
        ],
    ),
    ("a != b && c || d", &["||", "&&", "!=", "a", "b", "c", "d"]),
    ("-a * !b", &["*", "-", "a", "!", "b"]),
    ("~-a[b]", &["~", "-", "get", "a", "b"]),
    (
        "a[b][c := d + e]",
        &["put", "get", "a", "b", "c", "+", "d", "e"],
    ),
    ("let a = b in c + d", &["let", "a", "b", "+", "c", "d"]),
    ("if a then b else c + d", &["if", "a", "b", "+", "c", "d"]),
    ("rems(a, trunc(b, 8))", &["rems", "a", "trunc", "b", "8"]),
    ("true == false", &["==", "true", "false"]),
    (
        "F + g() + H(a, 1:2)",
        &["+", "+", "F", "0", "g", "0", "H", "2"],
    ),
    (
        "match a with { _ => b; A(x, 1:2, true) => c; }",
        &["match", "2"],
    ),
    ("(a)", &["()", "a"]),
    ("a[b]", &["get", "a", "b"]),
    ("trunc(b, 8)", &["trunc", "b", "8"]),
    ("g()", &["g", "0"]),
    ("H(a, 1:2)", &["H", "2"]),
    ("1:2", &["word"]),
    ("true", &["true"]),
    ("a", &["a"]),
];

#[test]
fn terms(rt: HostRuntime) -> Result<(), Fail> {
    for (term, words) in TERMS {
        assert!(rt; has_words(rt.alloc(), term, words)?, "{term}");
    }
    Ok(())
}

fn are_spans_of_data(data: &DataDecl) -> bool {
    is_span(data.span, 0, 27)
        && match data.cases.as_slice() {
            [a, b] => {
                is_span(a.span, 9, 10) && is_span(b.span, 13, 26) && are_spans_of_fields(&b.fields)
            }
            _ => false,
        }
}

fn are_spans_of_fields(fields: &[FieldDecl]) -> bool {
    match fields {
        [x, y] => x.name.text.as_str() == "x" && is_span(y.span, 21, 25),
        _ => false,
    }
}

fn are_spans_of_arms(arms: &[Arm]) -> bool {
    match arms {
        [arm] => is_span(arm.span, 61, 76) && is_span_of_pattern(&arm.pat),
        _ => false,
    }
}

fn is_span_of_pattern(pat: &Pat) -> bool {
    match pat {
        Pat::Make { parts, span, .. } => is_span(*span, 61, 68) && parts.len() == 2,
        _ => false,
    }
}

fn are_spans_of_match(body: &Expr) -> bool {
    match body {
        Expr::Match { arms, span, .. } => is_span(*span, 43, 78) && are_spans_of_arms(arms),
        _ => false,
    }
}

fn are_spans(items: &[Item]) -> bool {
    match items {
        [Item::Data(data), Item::Fun(f)] => {
            are_spans_of_data(data) && is_span(f.span, 28, 79) && are_spans_of_match(&f.body)
        }
        _ => false,
    }
}

/// Whether a source of 79 bytes has the spans that were counted by hand.
fn has_spans(alloc: Global, source: &str) -> bool {
    let tokens = tokens_of(alloc, source);
    match parse(alloc, tokens.as_slice(), 79) {
        Ok(tree) => tree.end == 79 && are_spans(tree.items.as_slice()),
        Err(_error) => false,
    }
}

/// Whether the only declaration goes from the first byte to the last one.
fn is_whole(items: &[Item], end: usize) -> bool {
    match items {
        [Item::Data(data)] => is_span(data.span, 0, end),
        [Item::Map(map)] => is_span(map.span, 0, end),
        [Item::Fun(f)] => is_span(f.span, 0, end),
        [Item::Decode(decode)] => is_span(decode.span, 0, end),
        _ => false,
    }
}

fn is_one_declaration(alloc: Global, source: &str) -> bool {
    let tokens = tokens_of(alloc, source);
    match parse(alloc, tokens.as_slice(), 0) {
        Ok(tree) => is_whole(tree.items.as_slice(), source.len()),
        Err(_error) => false,
    }
}

const DECLARATIONS: &[&str] = &[
    "type T = A | B(x: C);",
    "map M [K -> V] default 0;",
    "fun f(x: A) -> B = x;",
    "decode { [1:8 d:2] when d < 2, d != 0 => A(d, 1:2); }",
];

#[test]
fn declarations(rt: HostRuntime) {
    for source in DECLARATIONS {
        assert!(rt; is_one_declaration(rt.alloc(), source), "{source}");
    }
}

/// Spans go from a form's first byte to just after its last, and lists keep their order.
#[test]
fn spans(rt: HostRuntime) {
    let source = "type T = A | B(x: C, y: D); fun f() -> T = match g(h) with { B(_, z) => (z); };";
    assert!(rt; has_spans(rt.alloc(), source));
}
