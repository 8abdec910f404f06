//! Lists of stamps: the entry, then addresses, ascending.

ghost use Rattle.std.specs.Prelude.{◌≡◌, ◌≤◌, length, IfSome, MatchOption, OnOk};
ghost use Rattle.std.specs.List.{insert};
ghost use Rattle.analysis_transfer_laws.specs.Uses.{either_stamp, with_stamp};

use base_trait::Stamp;
use std::alloc::AllocError as NoMemory;

/// Before which stamp this one comes; none where it is listed.
fn place_of(stamps: &[Stamp], stamp: Stamp) -> Option<usize>
    ensures within { IfSome result (λ i. i ≤ length stamps.now) }
    ensures place { MatchOption result (with_stamp stamp stamps.now ≡ stamps.now) (λ i. with_stamp stamp stamps.now ≡ insert stamps.now i stamp) }
{
    for i in 0..stamps.len() {
        if stamp.is_same(stamps[i]) {
            return None;
        }
        if stamp.is_before(stamps[i]) {
            return Some(i);
        }
    }
    Some(stamps.len())
}

/// Adds a stamp at its place, unless it is listed.
fn add_stamp(stamps: &mut Vec<Stamp>, stamp: Stamp) -> Result<(), NoMemory>
    ensures { OnOk result (stamps.new.items ≡ with_stamp stamp stamps.old.items) }
{
    if let Some(place) = place_of(stamps, stamp) {
        stamps.insert(place, stamp)?;
    }
    Ok(())
}

/// Adds each stamp of a list.
pub(crate) fn add_stamps(stamps: &mut Vec<Stamp>, more: &[Stamp]) -> Result<(), NoMemory>
    ensures { OnOk result (stamps.new.items ≡ either_stamp more.now stamps.old.items) }
{
    for stamp in more.iter().rev() {
        add_stamp(stamps, *stamp)?;
    }
    Ok(())
}
