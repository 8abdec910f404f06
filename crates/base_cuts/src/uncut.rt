//! Bases whose words stay uncut.

use super::cut_base::CutBase;
use base_bits::{Bits, Known};
use base_concrete::Concrete;
use base_trait::Base;
use domain_affine_base::{Affine, Tracked, Word};
use std::alloc::{AllocError as NoMemory, Global};

impl CutBase for Bits {
    ghost use Rattle.base_cuts.specs.Cuts.{uncut};
    ghost use Rattle.base_cuts.specs.UncutLaws.{words_may_stay_uncut};
    ghost use Rattle.base_bits.specs.Meaning.{bits};
    ghost use Rattle.base_bits.specs.Instance.{bits_laws};

    ghost cuts = { uncut };

    /// The word itself.
    fn meet(
        alloc: Global,
        ctx: &(),
        _w: u32,
        x: &Known,
        _low: u64,
        _high: u64,
    ) -> Result<Option<Known>, NoMemory> {
        Ok(Some(Bits::copy(alloc, ctx, x)?))
    }

    ghost cut_laws = { words_may_stay_uncut bits bits_laws };
}

impl CutBase for Concrete {
    ghost use Rattle.base_cuts.specs.Cuts.{uncut};
    ghost use Rattle.base_cuts.specs.UncutLaws.{words_may_stay_uncut};
    ghost use Rattle.base_concrete.specs.Meaning.{concrete};
    ghost use Rattle.base_concrete.specs.Instance.{concrete_laws};

    ghost cuts = { uncut };

    /// The number itself.
    fn meet(
        _alloc: Global,
        _ctx: &(),
        _w: u32,
        x: &u64,
        _low: u64,
        _high: u64,
    ) -> Result<Option<u64>, NoMemory> {
        Ok(Some(*x))
    }

    ghost cut_laws = { words_may_stay_uncut concrete concrete_laws };
}

impl CutBase for Affine {
    ghost use Rattle.base_cuts.specs.Cuts.{uncut};
    ghost use Rattle.base_cuts.specs.UncutLaws.{words_may_stay_uncut};
    ghost use Rattle.domain_affine_base.specs.Meaning.{affine};
    ghost use Rattle.domain_affine_base.specs.Instance.{affine_laws};

    ghost cuts = { uncut };

    /// The word itself.
    fn meet(
        alloc: Global,
        ctx: &Tracked,
        _w: u32,
        x: &Word,
        _low: u64,
        _high: u64,
    ) -> Result<Option<Word>, NoMemory> {
        Ok(Some(Affine::copy(alloc, ctx, x)?))
    }

    ghost cut_laws = { words_may_stay_uncut affine affine_laws };
}
