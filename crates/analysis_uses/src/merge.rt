//! Lists of uses: by their cells, one use each.

ghost use Rattle.std.specs.Prelude.{◌≡◌, ◌≤◌, ◌<◌, [], length, map, IfOk, MatchResult, OnOk};
ghost use Rattle.base_trait.specs.Uses.{seen, uses_of};
ghost use Rattle.analysis_transfer_laws.specs.Uses.{merged_uses, with_stamps, with_use};
ghost use Rattle.analysis_uses.specs.Places.{put};

use crate::cells::{is_cell_before, is_same_cell};
use crate::stamps::add_stamps;
use base_trait::{Log, Use};
use domain_laws::Field;
use std::alloc::{AllocError as NoMemory, Global};

/// The use of the same cell, or else the use before which this one comes.
fn place_of(fields: &[Field], uses: &[Use], one: &Use) -> Result<usize, usize>
    ensures within { MatchResult result (λ i. i < length uses.now) (λ i. i ≤ length uses.now) }
    ensures place { with_use fields.now (seen one.now) (map seen uses.now) ≡ put (seen one.now) (map seen uses.now) result }
{
    for i in 0..uses.len() {
        let other = &uses[i];
        if is_same_cell(one, other) {
            return Ok(i);
        }
        if is_cell_before(fields, one, other) {
            return Err(i);
        }
    }
    Err(uses.len())
}

/// A use of the same cell, with its stamps ascending.
fn order_stamps(alloc: Global, one: &Use) -> Result<Use, NoMemory>
    ensures { IfOk result (λ r. seen r ≡ with_stamps (seen one.now) []) }
{
    let mut from = Vec::new(alloc);
    add_stamps(&mut from, &one.from)?;
    Ok(Use {
        map: one.map,
        key: one.key,
        from,
    })
}

/// Adds a use at its place.
fn add_use(alloc: Global, fields: &[Field], uses: &mut Vec<Use>, one: &Use) -> Result<(), NoMemory>
    ensures { OnOk result (map seen uses.new.items ≡ with_use fields.now (seen one.now) (map seen uses.old.items)) }
{
    match place_of(fields, uses, one) {
        Ok(i) => add_stamps(&mut uses[i].from, &one.from)?,
        Err(i) => uses.insert(i, order_stamps(alloc, one)?)?,
    }
    Ok(())
}

/// The uses of a log of reads: those of one cell are merged, with the stamps of all, ascending. They come in the order of the
/// fields, a use of any key before those of a key, which ascend; maps that are no fields come last, by their numbers.
///
/// The only error is want of memory.
pub fn merged_uses(alloc: Global, fields: &[Field], log: &Log) -> Result<Vec<Use>, NoMemory>
    ensures { IfOk result (λ r. map seen r.items ≡ merged_uses fields.now (uses_of log.now)) }
{
    let mut uses = Vec::new(alloc);
    for one in log.uses.iter().rev() {
        add_use(alloc, fields, &mut uses, one)?;
    }
    Ok(uses)
}
