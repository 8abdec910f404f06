//! What holds of each list of tokens. These functions do nothing: their contracts are laws.

ghost use Rattle.syntax_grammar.specs.Laws.{NoTwo, OneDeep, OneOfThree, OneSyntax, OneTree};

/// A list of tokens has one tree at most.
pub fn one_tree()
    ensures { OneTree }
{}

/// It has one first token that is wrong at most.
pub fn one_syntax()
    ensures { OneSyntax }
{}

/// It has one first token that is too deep at most.
pub fn one_deep()
    ensures { OneDeep }
{}

/// No list has two of the three.
pub fn no_two()
    ensures { NoTwo }
{}

/// Each list has one of the three.
pub fn one_of_three()
    ensures { OneOfThree }
{}
