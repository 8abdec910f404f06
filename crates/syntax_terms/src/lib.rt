//! Terms of specifications, read from a cursor over tokens: exactly what their rule gives.
//!
//! `term` reads one term by recursive descent. Operators go by precedence, from 1 for `*` to 8 for `||`: `at_precedence` reads
//! operands of the precedence below, and groups them to the left. So `a - b - c` is read as `(a - b) - c`. Of `a == b == c` it
//! reads `a == b`. The cursor then stands at the second `==`, which no rule takes there.
//!
//! Each term, each operator and each `[` of a key goes one level deeper, and a token past level 256 is refused. So a loop over
//! operators takes at most 257 turns, and recursion has a bound.
//!
//! What is proved: unless memory runs out, the term, seen as plain data, and the cursor after it are those of the rule. The rule is
//! `term` in specs/TermRules of `syntax_grammar`. The crate stands on `syntax_cursor`, `syntax_grammar` and `syntax_lexer`.
//!
//! The comment of a function that reads tells its production, in the notation of docs/LANGUAGE.md. The name of a function in
//! backticks stands for what that one reads.
#![tactic(auto)]

mod terms;

pub use terms::term;
