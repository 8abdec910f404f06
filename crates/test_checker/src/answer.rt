//! What checking a text answers.

use spec_checker::{SpecUse, check};
use std::alloc::{AllocError, Global};
use syntax_lexer::lex;
use syntax_parser::parse;

/// The line of the first fault of a text, without its line end, or `accepted`.
pub fn answer(alloc: Global, wanted: SpecUse, source: &[u8]) -> Result<String, AllocError> {
    if source.len() > 262_144 {
        return format!(in alloc; "too long");
    }
    let Ok(tokens) = lex(alloc, source) else {
        return format!(in alloc; "no tokens");
    };
    let Ok(tree) = parse(alloc, &tokens, source.len() as u32) else {
        return format!(in alloc; "no tree");
    };
    match check(alloc, &tree, wanted) {
        Ok(_spec) => format!(in alloc; "accepted"),
        Err(fault) => {
            let line = fault.fault_line(alloc)?;
            format!(in alloc; "{}", line.as_str().trim_end())
        }
    }
}
