//! What holds of what is read. Nothing runs.

ghost use Rattle.semantics_values.specs.States.{State};
ghost use Rattle.fixpoint_theory.specs.Elements.{Elements};
ghost use Rattle.text_element_readers.specs.Laws.{CellsAreRead, PairsAreRead, RelationsAreRead};
ghost use Rattle.text_element_readers.specs.Reading.{ElementReading};

use text_elements::NamedBase;

/// The definitions of elements that are read.
pub trait PlainReading {
    /// What elements are as plain data.
    ghost Plain: { Type 0 };

    /// What is read of lines.
    ghost Reads: { ElementReading Plain };

    ghost elements: { Elements Plain State };
}

/// Of cells one element is read, or none, and it fits.
pub fn cells_are_read<B: NamedBase>()
    ensures { CellsAreRead B.algebra B.readings B.CAP }
{}

/// Of affine relations one submodule is read, or none, and it fits.
pub fn relations_are_read()
    ensures { RelationsAreRead }
{}

/// Of pairs one element is read, or none, and it fits, where that is so of both parts.
pub fn pairs_are_read<A: PlainReading, B: PlainReading>()
    ensures { PairsAreRead A.Reads B.Reads A.elements B.elements }
{}
