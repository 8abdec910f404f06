//! The tracked cells.

ghost use Rattle.std.specs.Prelude.{◌≡◌, IfOk};

use base_trait::Context;
use semantics_values::KeyAt;
use std::alloc::{AllocError as NoMemory, Global};
use std::marker::Model;

/// The cells whose numbers before an instruction forms speak of, in their order: each is a field of the state, by its
/// number, and a key. They are at most 64.
#[derive(Drop)]
pub struct Tracked {
    pub cells: Vec<(u32, KeyAt)>,
}

impl Model for Tracked {
    ghost use Rattle.std.specs.Prelude.{ℕ, List, ◌≤◌, length};
    ghost use Rattle.semantics_values.specs.declared.entry.KeyAt.{KeyAt};

    ghost Value = { List (ℕ × KeyAt) };

    ghost view = { λ t. t.cells.items };

    ghost invariant = { λ t. length t.cells.items ≤ 64 };
}

impl Context for Tracked {
    /// The same cells once more, in their order: of r and s it is r and s.
    fn copy(alloc: Global, ctx: &Tracked) -> Result<Tracked, NoMemory> {
        let mut cells = Vec::new(alloc);
        for cell in &ctx.cells {
            cells.push(*cell)?;
        }
        Ok(Tracked { cells })
    }
}
