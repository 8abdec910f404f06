//! What a case speaks of.

use domain_affine::AffineDomain;
use domain_affine_base::Tracked;
use spec_ir::Spec;

/// A specification, the domain for it, and the cells that are tracked.
#[derive(Drop)]
pub struct Setting<'a> {
    pub spec: &'a Spec,
    pub domain: &'a AffineDomain,
    pub ctx: &'a Tracked,
}
