//! Laws of maps, stated in specs/Laws.antt. Nothing runs.

ghost use Rattle.abstract_map_laws.specs.Laws.{AbsorbsDescribes, AbsorbsItself, AbsorbsOn, AccessDescribes, AccessFits, AccessLists, JoinAbsorbs, JoinDescribes, JoinFits, JoinLeast, JoinLists, RankHeight, UpdateDescribes, UpdateFits, UpdateLists, WidenAbsorbs, WidenDescribes, WidenFalls, WidenFits, WidenKeeps, WidenLists};

use base_trait::Base;

/// What is read at a key that may be meant describes the concrete cell.
pub fn access_describes<B: Base>()
    ensures { AccessDescribes B.algebra }
{}

/// A map that was written to describes the concrete map that was written to at a key that may be meant.
pub fn update_describes<B: Base>()
    ensures { UpdateDescribes B.algebra }
{}

/// What absorbs describes all that the other describes.
pub fn absorbs_describes<B: Base>()
    ensures { AbsorbsDescribes B.algebra }
{}

/// A join describes what either side describes.
pub fn join_describes<B: Base>()
    ensures { JoinDescribes B.algebra }
{}

/// A widened map describes what either side describes.
pub fn widen_describes<B: Base>()
    ensures { WidenDescribes B.algebra }
{}

/// Each map absorbs itself.
pub fn absorbs_itself<B: Base>()
    ensures { AbsorbsItself B.algebra }
{}

/// What absorbs a map absorbs what that map absorbs.
pub fn absorbs_on<B: Base>()
    ensures { AbsorbsOn B.algebra }
{}

/// A join absorbs both sides.
pub fn join_absorbs<B: Base>()
    ensures { JoinAbsorbs B.algebra }
{}

/// What absorbs both sides absorbs their join, where nothing is folded.
pub fn join_least<B: Base>()
    ensures { JoinLeast B.algebra }
{}

/// A widened map absorbs both sides.
pub fn widen_absorbs<B: Base>()
    ensures { WidenAbsorbs B.algebra }
{}

/// Widening gives the old map where it absorbs the new one.
pub fn widen_keeps<B: Base>()
    ensures { WidenKeeps B.algebra }
{}

/// Else the rank falls, by each list of stamps that holds those of both.
pub fn widen_falls<B: Base>()
    ensures { WidenFalls B.algebra }
{}

/// The rank is at most the height.
pub fn rank_height<B: Base>()
    ensures { RankHeight B.algebra }
{}

/// What is read fits.
pub fn access_fits<B: Base>()
    ensures { AccessFits B.algebra }
{}

/// What is read lists stamps of the map alone.
pub fn access_lists<B: Base>()
    ensures { AccessLists B.algebra }
{}

/// A map that was written to fits.
pub fn update_fits<B: Base>()
    ensures { UpdateFits B.algebra }
{}

/// A map that was written to lists stamps of the map and the cell alone.
pub fn update_lists<B: Base>()
    ensures { UpdateLists B.algebra }
{}

/// A join fits.
pub fn join_fits<B: Base>()
    ensures { JoinFits B.algebra }
{}

/// A join lists stamps of both sides alone.
pub fn join_lists<B: Base>()
    ensures { JoinLists B.algebra }
{}

/// A widened map fits.
pub fn widen_fits<B: Base>()
    ensures { WidenFits B.algebra }
{}

/// A widened map lists stamps of both sides alone.
pub fn widen_lists<B: Base>()
    ensures { WidenLists B.algebra }
{}
