//! A machine with its code, as every step of a run reads them.

use code_image::{Decoder, Image};
use eval_code::EvaluatorCode;
use spec_ir::{Machine, Spec};

/// What is run: the machine of a specification with its code, and an image with its decoder; and how many turns each activation of a
/// step has.
#[derive(Drop)]
pub(crate) struct Emulator<'a> {
    pub(crate) spec: &'a Spec,
    pub(crate) cir: &'a EvaluatorCode,
    pub(crate) machine: Machine,
    pub(crate) decoder: &'a Decoder,
    pub(crate) image: &'a Image,
    pub(crate) turns: u32,
}
