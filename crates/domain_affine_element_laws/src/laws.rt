//! Laws of elements: each contract is a law, stated in specs/Laws.antt, and nothing runs.

ghost use Rattle.domain_affine_element_laws.specs.Laws.{AbsorbsWithin, ClosesSame, ClosesSoundly, ClosesToImage, EntersSoundly, FewAreTracked, HasRank, JoinIsLeast, MembersAreTold, OneIsOpened, OpensSame, OpensSoundly, OpensToLeast, OpensToWords, SubmodulesHold, SubmodulesKeepTheLaws, ValuationsAreWhole};

/// The test tells the members.
pub fn members_are_told()
    ensures { MembersAreTold }
{}

/// A submodule absorbs another exactly where it holds each of its members.
pub fn absorbs_within()
    ensures { AbsorbsWithin }
{}

/// The rank of an element is that of its rows.
pub fn has_rank()
    ensures { HasRank }
{}

/// States of any kind, and the numbers that their tracked cells have.
pub trait Tracking {
    ghost use Rattle.std.specs.Prelude.{ℕ, List};

    ghost State: { Type 0 };

    ghost valuation: { State → List ℕ };
}

/// Submodules keep the laws of elements.
pub fn submodules_keep_the_laws<T: Tracking>()
    ensures { SubmodulesKeepTheLaws T.valuation }
{}

/// What absorbs both sides absorbs their join: it is the least submodule that holds both.
pub fn join_is_least<T: Tracking>()
    ensures { JoinIsLeast T.valuation }
{}

/// Joins and widening hold of what either side holds of, and elements that are the same hold of the same states.
pub fn submodules_hold<T: Tracking>()
    ensures { SubmodulesHold T.valuation }
{}

/// The word of a cell is the least constant c such that in each member its number is c times the first, or the cell's
/// form where there is none.
pub fn opens_to_least()
    ensures { OpensToLeast }
{}

/// No other word is.
pub fn one_is_opened()
    ensures { OneIsOpened }
{}

/// The word of a cell is one of 32 bits.
pub fn opens_to_words()
    ensures { OpensToWords }
{}

/// Where an element holds of a valuation, the word of a cell stands there for the cell's number.
pub fn opens_soundly()
    ensures { OpensSoundly }
{}

/// Elements that are the same open to one word.
pub fn opens_same()
    ensures { OpensSame }
{}

/// The members of the element behind an instruction are the values of the words over the members of the one before it.
pub fn closes_to_image()
    ensures { ClosesToImage }
{}

/// Where an element holds of a valuation, and there the words stand for the numbers of the next, the element behind holds
/// of the next.
pub fn closes_soundly()
    ensures { ClosesSoundly }
{}

/// Elements that are the same close to elements that are the same.
pub fn closes_same()
    ensures { ClosesSame }
{}

/// At most 64 cells are tracked.
pub fn few_are_tracked()
    ensures { FewAreTracked }
{}

/// A valuation has a number for each tracked cell.
pub fn valuations_are_whole()
    ensures { ValuationsAreWhole }
{}

/// Where the words stand for the numbers, the entry's element holds of them.
pub fn enters_soundly()
    ensures { EntersSoundly }
{}
