//! What a table is of.

use code_image::Image;
use domain_laws::Field;
use spec_ir::Spec;

/// A specification, the fields of its states behind the counter, and an image of code.
#[derive(Clone, Copy)]
pub(crate) struct Setting<'a> {
    pub(crate) spec: &'a Spec,
    pub(crate) fields: &'a [Field],
    pub(crate) image: &'a Image,
}
