//! Which element is at least another.

ghost use Rattle.std.specs.Prelude.{◌≡◌};
ghost use Rattle.domain_affine_element_laws.specs.Ranks.{rank_of};
ghost use Rattle.domain_affine_element_laws.specs.Membership.{are_members};

use support_modular_rows::Rows;

/// Whether the old element holds each member of the new one.
pub fn absorbs(old: &Rows, new: &Rows) -> bool
    requires { new.now.k ≡ old.now.k }
    ensures { result ≡ are_members old.now.k old.now.rows new.now.rows }
{
    for i in 0..new.len() {
        if !old.contains(new.row(i)) {
            return false;
        }
    }
    true
}

/// What falls with each new member; at most 32 for each cell and 32 more.
pub fn rank(x: &Rows) -> u64
    ensures { result ≡ rank_of x.now.k x.now.rows }
{
    x.rank()
}
