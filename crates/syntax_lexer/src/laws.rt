//! What holds of each source and its tokens. These functions do nothing: their contracts are laws.

ghost use Rattle.syntax_lexer.specs.Laws.{OneList, OneFault, NoFaultWithList, ListOrFault, EachInPlace, InOrder};

/// A source has one list of tokens at most.
pub fn one_list()
    ensures { OneList }
{}

/// A source has one first fault at most.
pub fn one_fault()
    ensures { OneFault }
{}

/// A source with a list of tokens has no fault.
pub fn no_fault_with_list()
    ensures { NoFaultWithList }
{}

/// Each source has a list of tokens or a first fault.
pub fn list_or_fault()
    ensures { ListOrFault }
{}

/// The bytes of each token's span spell it.
pub fn each_in_place()
    ensures { EachInPlace }
{}

/// No token begins before an earlier one ends.
pub fn in_order()
    ensures { InOrder }
{}
