//! The domains that cases name.

use base_defuse::DefUse;
use base_interval::Interval;
use base_kset::KSet;
use domain_affine::AffineDomain;
use domain_cells::StateDomain;
use domain_product::PairDomain;
use domain_product_states::PairedStates;
use std::alloc::{AllocError as NoMemory, Global};
use test_analysis_cases::{Case, Program, Subject, no};
use test_relation_cases::{Replacement, over, over_both};

type Sets = StateDomain<KSet<16>>;

type Sources = StateDomain<DefUse>;

/// The domains that cases name.
pub(crate) struct Domains;

impl Program for Domains {
    fn analysed(alloc: Global, case: Case<'_>, it: &Subject) -> Result<String, NoMemory> {
        let by = replacement(case.more);
        match case.domain {
            "affine" => over::<AffineDomain>(alloc, it, by),
            "affine+kset" => over_both::<AffineDomain, Sets>(alloc, it, by),
            "kset+affine" => over_both::<Sets, AffineDomain>(alloc, it, by),
            "affine+defuse" => over_both::<AffineDomain, Sources>(alloc, it, by),
            "kset+interval" => over::<PairedStates<KSet<16>, Interval>>(alloc, it, by),
            "kset+defuse" => over::<PairedStates<KSet<16>, DefUse>>(alloc, it, by),
            "kset+defuse+affine" => {
                over_both::<Sets, PairDomain<Sources, AffineDomain>>(alloc, it, by)
            }
            _ => no(alloc, "domain"),
        }
    }
}

/// The address and the element behind an entry, if any.
fn replacement(more: Option<&str>) -> Option<Replacement<'_>> {
    let (address, text) = more?.split_once(" ")?;
    let at = u32::from_str_radix(address, 16).ok()?;
    Some(Replacement { at, text })
}
