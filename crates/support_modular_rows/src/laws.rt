//! Laws of the definitions: each contract is a law, stated in specs/Laws.antt, and nothing runs.

ghost use Rattle.support_modular_rows.specs.Laws.{AppendJoins, ClosedUnderMultiples, ClosedUnderSums, EqualFormsAreTheSame, HasOneRank, HoldsZero, ImageGrows, MembersAreLeast, RankFalls, RankIsBounded, RelationsHold, RowsAreMembers, RowsWithin};

use super::forms::Form;

/// Equal forms are the same list of numbers, and each form is equal to itself.
pub fn equal_forms_are_the_same()
    ensures { EqualFormsAreTheSame ⟦<Form as PartialEq>⟧.eq }
{}

/// The sum of two members is a member.
pub fn sums_are_members()
    ensures { ClosedUnderSums }
{}

/// A multiple of a member is a member.
pub fn multiples_are_members()
    ensures { ClosedUnderMultiples }
{}

/// The zero vector is a member.
pub fn zero_is_a_member()
    ensures { HoldsZero }
{}

/// A row is a member of what it generates with others.
pub fn rows_are_members()
    ensures { RowsAreMembers }
{}

/// A property of vectors, of any kind.
pub trait Property {
    ghost use Rattle.std.specs.Prelude.{ℕ, List};

    ghost holds: { List ℕ → Type 0 };
}

/// The members are the least closed set that holds the rows: a closed property of all rows is one of all members.
pub fn members_are_least<P: Property>()
    ensures { MembersAreLeast P.holds }
{}

/// Rows that are members of what others generate generate no more.
pub fn rows_within()
    ensures { RowsWithin }
{}

/// A linear relation over the columns that holds on all rows holds on all members.
pub fn relations_hold()
    ensures { RelationsHold }
{}

/// Two lists of rows generate together the least submodule that holds what each generates.
pub fn rows_together_join()
    ensures { AppendJoins }
{}

/// The values of forms over a larger submodule hold those over the smaller one.
pub fn image_grows()
    ensures { ImageGrows }
{}

/// A larger submodule has no greater rank, and a lesser one where it has a new member.
pub fn rank_falls()
    ensures { RankFalls }
{}

/// A rank is at most 32 for each column.
pub fn rank_is_bounded()
    ensures { RankIsBounded }
{}

/// Each list of rows has a rank, and no other.
pub fn has_one_rank()
    ensures { HasOneRank }
{}
