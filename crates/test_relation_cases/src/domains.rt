//! Domains that cases name: how they are made, and texts of their elements.

ghost use Rattle.std.specs.Prelude.{IfOk, IsTrue};
ghost use Rattle.spec_ir.specs.Views.{specification};

use crate::least::least;
use crate::rows::push_rows;
use abstract_value::AbstractValue;
use domain_affine::AffineDomain;
use domain_cells::StateDomain;
use domain_product::PairDomain;
use domain_trait::Domain;
use program_domains::NamedDomain;
use spec_ir::Spec;
use std::alloc::{AllocError as NoMemory, Global};
use support_modular_rows::Rows;
use test_analysis_cases::{Unread, push_cells};
use text_elements::NamedBase;

/// A domain of the program whose elements are read from texts and written here, each submodule in one way.
pub trait ShownDomain: NamedDomain {
    /// Appends the parts of an element, each behind its name.
    fn push_shown(
        alloc: Global,
        out: &mut String,
        spec: &Spec,
        x: &Self::Element,
    ) -> Result<(), NoMemory>;

    /// The element of a text.
    fn element(&self, alloc: Global, spec: &Spec, text: &str) -> Result<Self::Element, Unread>
        requires made { IsTrue (Self.is_for self.now (specification spec.now)) }
        ensures { IfOk result (λ x. (Self.elements self.now).fits (Self.view x)) };
}

impl<B: NamedBase> ShownDomain for StateDomain<B> {
    fn push_shown(
        _alloc: Global,
        out: &mut String,
        spec: &Spec,
        x: &Vec<AbstractValue<B>>,
    ) -> Result<(), NoMemory> {
        writeln!(out, "    part {}", B::name())?;
        push_cells::<B>(out, spec, x)
    }

    fn element(
        &self,
        alloc: Global,
        spec: &Spec,
        text: &str,
    ) -> Result<Vec<AbstractValue<B>>, Unread> {
        least(alloc, spec, self, text)
    }
}

impl ShownDomain for AffineDomain {
    fn push_shown(alloc: Global, out: &mut String, _spec: &Spec, x: &Rows) -> Result<(), NoMemory> {
        out.push_str("    part affine\n")?;
        push_rows(alloc, out, x)
    }

    fn element(&self, alloc: Global, spec: &Spec, text: &str) -> Result<Rows, Unread> {
        least(alloc, spec, self, text)
    }
}

impl<A: ShownDomain, B: ShownDomain> ShownDomain for PairDomain<A, B> {
    fn push_shown(
        alloc: Global,
        out: &mut String,
        spec: &Spec,
        x: &(A::Element, B::Element),
    ) -> Result<(), NoMemory> {
        A::push_shown(alloc, out, spec, &x.0)?;
        B::push_shown(alloc, out, spec, &x.1)
    }

    /// The elements of both texts, with a ` & ` between.
    fn element(
        &self,
        alloc: Global,
        spec: &Spec,
        text: &str,
    ) -> Result<(A::Element, B::Element), Unread> {
        let Some((left, right)) = text.split_once(" & ") else {
            return Err(Unread::No("element"));
        };
        let first = self.first.element(alloc, spec, left)?;
        match self.second.element(alloc, spec, right) {
            Ok(second) => Ok((first, second)),
            Err(error) => Err(error),
        }
    }
}
