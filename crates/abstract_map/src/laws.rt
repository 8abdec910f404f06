//! Laws of the type of maps. Those of its values are in `abstract_map_laws`. Nothing runs.

ghost use Rattle.base_trait.specs.Identity.{IsIdentity};

use super::abstract_maps::AbstractMap;
use base_trait::Base;

/// Equal maps are the same map.
pub fn equal_maps_are_the_same<B: Base>()
    ensures { IsIdentity ⟦<AbstractMap<B> as PartialEq>⟧.eq }
{}
