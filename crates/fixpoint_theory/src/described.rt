//! When an analysis is sound.

ghost use Rattle.fixpoint_theory.specs.Runs.{IsSound};

use crate::analyser::Analyser;

/// An analysis that is sound for its machine, where the analyser is ready.
pub trait Described: Analyser {
    ghost sound: { (it : Self) → Self.IsReady it → IsSound (Self.analysis it) (Self.machine it) };
}
