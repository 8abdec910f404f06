//! Tables with a block taken out or put in.

ghost use Rattle.std.specs.Prelude.{IfOk, IfSome, IsTrue};
ghost use Rattle.fixpoint_theory.specs.Code.{is_code};
ghost use Rattle.fixpoint_theory.specs.Table.{TableFits};
ghost use Rattle.fixpoint_theory.specs.Views.{listings};
ghost use Rattle.test_analysis_cases.specs.Cuts.{IsCut};

use fixpoint_theory::{Analyser, Block, Table};
use std::alloc::AllocError as NoMemory;

/// A table without a block, and that block.
#[derive(Drop)]
pub struct Cut<E> {
    pub table: Table<E>,
    pub at: u32,
    pub block: Block<E>,
}

/// A table without the block at an address, and that block; none, where there is none.
pub fn without<A: Analyser>(
    analyser: &A,
    mut table: Table<A::Element>,
    at: u32,
) -> Option<Cut<A::Element>>
    requires { TableFits (A.analysis analyser.now) (listings A.view table) }
    ensures { IfSome result (λ c. IsCut A.view (A.analysis analyser.now) c) }
{
    let _analyser = analyser;
    let block = table.blocks.remove(&at)?;
    Some(Cut { table, at, block })
}

/// A table without its last block, and that block; none of an empty table.
pub(crate) fn without_last<A: Analyser>(
    analyser: &A,
    table: Table<A::Element>,
) -> Option<Cut<A::Element>>
    requires { TableFits (A.analysis analyser.now) (listings A.view table) }
    ensures { IfSome result (λ c. IsCut A.view (A.analysis analyser.now) c) }
{
    let (at, _block) = table.blocks.last_key_value()?;
    let at = *at;
    without(analyser, table, at)
}

/// The table with this block at an address.
pub fn with_block<A: Analyser>(
    analyser: &A,
    mut table: Table<A::Element>,
    at: u32,
    block: Block<A::Element>,
) -> Result<Table<A::Element>, NoMemory>
    requires fits { TableFits (A.analysis analyser.now) (listings A.view table) }
    requires code { IsTrue (is_code (A.analysis analyser.now).code at) }
    requires elem { (A.analysis analyser.now).elements.fits (A.view block.elem) }
    ensures { IfOk result (λ t. TableFits (A.analysis analyser.now) (listings A.view t)) }
{
    let _analyser = analyser;
    table.blocks.insert(at, block)?;
    Ok(table)
}
