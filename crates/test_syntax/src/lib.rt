//! Tests of the lexer over texts, and of the parser over tokens of real texts. They stand apart, since a crate with tests is proved a second
//! time with them.
#![tactic(auto)]

#[cfg(test)]
mod lexer;
#[cfg(test)]
mod parser;
