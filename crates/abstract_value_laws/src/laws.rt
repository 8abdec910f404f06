//! Laws of values, stated in specs/Laws.antt. Nothing runs.

ghost use Rattle.abstract_value_laws.specs.Laws.{AbsorbsDescribes, AbsorbsItself, AbsorbsOn, JoinAbsorbs, JoinDescribes, JoinFits, JoinLists, JoinShapes, RankHeight, WidenAbsorbs, WidenDescribes, WidenFalls, WidenFits, WidenKeeps, WidenLists, WidenShapes};
ghost use Rattle.abstract_value_laws.specs.TypeLaws.{JoinIsTyped, JoinKeysFit, LeafRanks, NotesAdd, TypedFits, TypesAreShapes, ValueDescribes, ValueIsFit, ValueIsTyped, ValueKeysFit, ValueLists, WidenIsTyped, WidenKeysFit};

use base_trait::Base;

/// What absorbs describes all that the other describes.
pub fn absorbs_describes<B: Base>()
    ensures { AbsorbsDescribes B.algebra }
{}

/// A join of two values of one shape describes what either side describes.
pub fn join_describes<B: Base>()
    ensures { JoinDescribes B.algebra }
{}

/// A value that is widened by one of its shape describes what either side describes.
pub fn widen_describes<B: Base>()
    ensures { WidenDescribes B.algebra }
{}

/// Each value absorbs itself.
pub fn absorbs_itself<B: Base>()
    ensures { AbsorbsItself B.algebra }
{}

/// What absorbs a value absorbs what that value absorbs.
pub fn absorbs_on<B: Base>()
    ensures { AbsorbsOn B.algebra }
{}

/// A join of two values of one shape absorbs both sides.
pub fn join_absorbs<B: Base>()
    ensures { JoinAbsorbs B.algebra }
{}

/// A value that is widened by one of its shape absorbs both sides.
pub fn widen_absorbs<B: Base>()
    ensures { WidenAbsorbs B.algebra }
{}

/// Widening gives the old value where it absorbs the new one.
pub fn widen_keeps<B: Base>()
    ensures { WidenKeeps B.algebra }
{}

/// Else the rank falls, by each list of stamps that holds those of both.
pub fn widen_falls<B: Base>()
    ensures { WidenFalls B.algebra }
{}

/// The rank is at most the height of the shape.
pub fn rank_height<B: Base>()
    ensures { RankHeight B.algebra }
{}

/// A join fits.
pub fn join_fits<B: Base>()
    ensures { JoinFits B.algebra }
{}

/// A value that was widened fits.
pub fn widen_fits<B: Base>()
    ensures { WidenFits B.algebra }
{}

/// A join has the shape of both sides.
pub fn join_shapes<B: Base>()
    ensures { JoinShapes B.algebra }
{}

/// A value that was widened has the shape of both sides.
pub fn widen_shapes<B: Base>()
    ensures { WidenShapes B.algebra }
{}

/// A join lists stamps of both sides alone.
pub fn join_lists<B: Base>()
    ensures { JoinLists B.algebra }
{}

/// A value that was widened lists stamps of both sides alone.
pub fn widen_lists<B: Base>()
    ensures { WidenLists B.algebra }
{}

/// A concrete value that has a type has numbers of their widths, and keys below 2^32.
pub fn typed_fits()
    ensures { TypedFits }
{}

/// A value has a type exactly where it has the type's shape.
pub fn types_are_shapes<B: Base>()
    ensures { TypesAreShapes B.algebra }
{}

/// A join of two values of a type has the type.
pub fn join_is_typed<B: Base>()
    ensures { JoinIsTyped B.algebra }
{}

/// So has a value that was widened by one of its type.
pub fn widen_is_typed<B: Base>()
    ensures { WidenIsTyped B.algebra }
{}

/// The value of a concrete one describes it.
pub fn value_describes<B: Base>()
    ensures { ValueDescribes B.algebra }
{}

/// It fits.
pub fn value_is_fit<B: Base>()
    ensures { ValueIsFit B.algebra }
{}

/// It has each type of the concrete one.
pub fn value_is_typed<B: Base>()
    ensures { ValueIsTyped B.algebra }
{}

/// It lists the stamps of the concrete one alone.
pub fn value_lists<B: Base>()
    ensures { ValueLists B.algebra }
{}

/// A join of values whose maps list keys of their map types alone is such a value.
pub fn join_keys_fit<B: Base>()
    ensures { JoinKeysFit B.algebra }
{}

/// So is one of them that was widened by the other.
pub fn widen_keys_fit<B: Base>()
    ensures { WidenKeysFit B.algebra }
{}

/// So is the value of a concrete one that has a type.
pub fn value_keys_fit<B: Base>()
    ensures { ValueKeysFit B.algebra }
{}

/// The rank without notes is at most the rank by each list of stamps.
pub fn notes_add<B: Base>()
    ensures { NotesAdd B.algebra }
{}

/// Of flags, words and maps that rank is the same along each shape that they have.
pub fn leaf_ranks<B: Base>()
    ensures { LeafRanks B.algebra }
{}
