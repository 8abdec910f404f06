//! Laws, stated in specs/Laws.antt. Nothing runs.

ghost use Rattle.analysis_problems.specs.Laws.{AcceptedAreKeyed, AcceptedHaveStates, ReadEntriesFit};
ghost use Rattle.analysis_problems.specs.CheckedStateLaws.{FieldsHaveNumbers, StatesHaveFewFields};
ghost use Rattle.analysis_problems.specs.ProblemLaws.{ReadProblemsAreWellPosed};

use code_image::laws::addresses_are_those_of_words;

/// Map types of accepted specifications have at most 2^32 keys.
pub fn accepted_are_keyed()
    ensures { AcceptedAreKeyed }
{}

/// Accepted machines have states that a domain can be made for.
pub fn accepted_have_states()
    ensures { AcceptedHaveStates }
{}

/// The lines of an entry that is read fit the fields of states.
pub fn read_entries_fit()
    ensures { ReadEntriesFit }
{}

/// The states of a specification that was checked have fewer fields behind the counter than a constructor may have.
pub fn states_have_few_fields()
    ensures { StatesHaveFewFields }
{}

/// The fields behind the counter of a specification that was checked have 32-bit numbers.
pub fn fields_have_numbers()
    ensures { FieldsHaveNumbers }
{}

/// An accepted specification, an image without faults and an entry that is read are a well-posed problem.
pub fn read_problems_are_well_posed()
    ensures { ReadProblemsAreWellPosed }
{
    addresses_are_those_of_words();
}
