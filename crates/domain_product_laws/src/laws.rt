//! Laws of values over pairs of bases, stated in specs/Laws.antt and specs/Domain.antt. Nothing runs.

ghost use Rattle.std.specs.Prelude.{ℕ, max, IsTrue};
ghost use Rattle.spec_ir.specs.Specification as plain;
ghost use Rattle.fixpoint_theory.specs.Pairs.{paired as paired_elements};
ghost use Rattle.base_product.specs.Meaning.{paired};
ghost use Rattle.domain_laws.specs.Domain.{DomainLaws};
ghost use Rattle.domain_product_laws.specs.Domain.{PairsKeepTheLaws, may_pair, pair_meaning};
ghost use Rattle.domain_product_laws.specs.Laws.{MapPartsDescribe, MapPartsFit, PartsAreStates, PartsDescribe, PartsFit, PartsList, PartsShape, ZipDescribes, ZipFits, ZipIsState, ZipLists, ZipMapDescribes, ZipMapFits, ZipShapes};

use base_trait::Base;
use domain_trait::Domain;

/// Two maps put side by side describe what both describe.
pub fn zip_map_describes<A: Base, B: Base>()
    ensures { ZipMapDescribes A.algebra B.algebra }
{}

/// Two maps that fit, put side by side, fit.
pub fn zip_map_fits<A: Base, B: Base>()
    ensures { ZipMapFits A.algebra B.algebra }
{}

/// What a map of pairs describes both parts describe.
pub fn map_parts_describe<A: Base, B: Base>()
    ensures { MapPartsDescribe A.algebra B.algebra }
{}

/// The parts of a map of pairs that fits fit.
pub fn map_parts_fit<A: Base, B: Base>()
    ensures { MapPartsFit A.algebra B.algebra }
{}

/// Two values of one shape put side by side describe what both describe.
pub fn zip_describes<A: Base, B: Base>()
    ensures { ZipDescribes A.algebra B.algebra }
{}

/// Two values of one shape that fit, put side by side, fit.
pub fn zip_fits<A: Base, B: Base>()
    ensures { ZipFits A.algebra B.algebra }
{}

/// Two values of one shape, put side by side, have it.
pub fn zip_shapes<A: Base, B: Base>()
    ensures { ZipShapes A.algebra B.algebra }
{}

/// Two values put side by side list stamps of both alone.
pub fn zip_lists<A: Base, B: Base>()
    ensures { ZipLists A.algebra B.algebra }
{}

/// What a value over pairs describes both parts describe.
pub fn parts_describe<A: Base, B: Base>()
    ensures { PartsDescribe A.algebra B.algebra }
{}

/// The parts of a value over pairs that fits fit.
pub fn parts_fit<A: Base, B: Base>()
    ensures { PartsFit A.algebra B.algebra }
{}

/// The parts of a value over pairs have its shape.
pub fn parts_shape<A: Base, B: Base>()
    ensures { PartsShape A.Word B.Word A.Note B.Note }
{}

/// The parts of a value over pairs list its stamps alone.
pub fn parts_list<A: Base, B: Base>()
    ensures { PartsList A.algebra B.algebra }
{}

/// Two values of states put side by side are a value of states.
pub fn zip_is_state<A: Base, B: Base>()
    ensures { ZipIsState A.algebra B.algebra }
{}

/// The parts of a value of states over pairs are values of states.
pub fn parts_are_states<A: Base, B: Base>()
    ensures { PartsAreStates A.algebra B.algebra }
{}

/// Two domains for a specification are one side by side, where at most one looks at the valuation or both have the same one. Maps
/// list at most `cap` cells.
pub fn pairs_keep_the_laws<A: Domain, B: Domain>(first: &A, second: &B)
    ensures { (cap : ℕ) → PairsKeepTheLaws A.B.algebra B.B.algebra cap (A.meaning first.now) (B.meaning second.now) (A.elements first.now) (B.elements second.now) }
{}

/// Two domains are one side by side, for each specification that both are for, where both bases join and at most one looks
/// at the valuation.
pub fn pairs_are_domains<A: Domain, B: Domain>(first: &A, second: &B)
    ensures { (spec : plain.Spec) → IsTrue (A.is_for first.now spec) → IsTrue (B.is_for second.now spec) → IsTrue (may_pair A.B.algebra B.B.algebra)
        → DomainLaws (paired A.B.algebra B.B.algebra) (max A.B.CAP B.B.CAP) spec (paired_elements (A.elements first.now) (B.elements second.now))
        (pair_meaning A.B.algebra B.B.algebra (max A.B.CAP B.B.CAP) (A.meaning first.now) (B.meaning second.now)) }
{}
