//! Elements as text.

ghost use Rattle.std.specs.Prelude.{◌≡◌, IfOk};
ghost use Rattle.spec_ir.specs.Views.{specification};
ghost use Rattle.domain_laws.specs.States.{state_type};
ghost use Rattle.domain_laws.specs.Values.{IsStateValue};
ghost use Rattle.domain_affine_base.specs.Meaning.{affine};
ghost use Rattle.domain_affine_laws.specs.Calls.{cell_count};
ghost use Rattle.domain_affine_laws.specs.Tracked.{tracked_cells};
ghost use Rattle.abstract_value.specs.View.{abs};
ghost use Rattle.test_affine_text.specs.Settings.{IsSetting};

use crate::rows::rows_of;
use abstract_value::AbstractValue;
use analysis_problems::laws::read_entries_fit;
use domain_affine_base::Affine;
use domain_trait::Domain;
use state_text::{EntryError, read_entry};
use std::alloc::{AllocError as NoMemory, Global};
use support_modular_rows::Rows;
use test_affine_text::{Setting, changed_state};
use test_case_lines::{Read, Unread, both, given};

/// The lines of an entry at the counter 1000, with a `;` for each line end.
fn lines_of(alloc: Global, text: &str) -> Result<String, NoMemory> {
    let mut lines = String::from_str(alloc, "pc 1000\n")?;
    for line in text.split(';') {
        writeln!(lines, "{line}")?;
    }
    Ok(lines)
}

/// The element of an entry.
fn entered(alloc: Global, setting: &Setting<'_>, text: &str) -> Read<Rows>
    requires { IsSetting setting.now }
    ensures { IfOk result (λ x. x.k ≡ cell_count setting.now.domain.now) }
{
    read_entries_fit();
    let lines = lines_of(alloc, text)?;
    if lines.len() > 65_536 {
        return Err(Unread::No);
    }
    match read_entry(alloc, setting.spec, lines.as_bytes()) {
        Ok(entry) => given(setting.domain.entry(alloc, setting.spec, &entry)),
        Err(EntryError::NoMemory) => Err(Unread::NoMemory),
        Err(_fault) => Err(Unread::No),
    }
}

/// An entry's element, or rows.
pub(crate) fn operand(alloc: Global, setting: &Setting<'_>, text: &str) -> Read<Rows>
    requires { IsSetting setting.now }
    ensures { IfOk result (λ x. x.k ≡ cell_count setting.now.domain.now) }
{
    match text.strip_prefix("entry ") {
        Some(lines) => entered(alloc, setting, lines),
        None => {
            let ctx = setting.ctx;
            rows_of(alloc, ctx.cells.len() as u32, text)
        }
    }
}

/// Two operands with a word between them.
pub(crate) fn operands(
    alloc: Global,
    setting: &Setting<'_>,
    text: &str,
    between: &str,
) -> Read<(Rows, Rows)>
    requires { IsSetting setting.now }
    ensures { IfOk result (λ p. (p.0.k ≡ cell_count setting.now.domain.now) × (p.1.k ≡ cell_count setting.now.domain.now)) }
{
    let Some((first, second)) = text.split_once(between) else {
        return Err(Unread::No);
    };
    let x = operand(alloc, setting, first)?;
    both(x, operand(alloc, setting, second))
}

/// An operand, and its state value with changes.
pub(crate) fn with_changes(
    alloc: Global,
    setting: &Setting<'_>,
    text: &str,
) -> Read<(Rows, AbstractValue<Affine>)>
    requires { IsSetting setting.now }
    ensures { IfOk result (λ p. (p.0.k ≡ cell_count setting.now.domain.now) × IsStateValue affine (tracked_cells setting.now.domain.now) 256 (state_type (specification setting.now.spec.now)) (abs p.1)) }
{
    let Some((from, changes)) = text.split_once(" with ") else {
        return Err(Unread::No);
    };
    let before = operand(alloc, setting, from)?;
    let value = changed_state(alloc, setting, &before, changes);
    both(before, value)
}

/// The join of two operands.
fn joined(alloc: Global, setting: &Setting<'_>, text: &str) -> Read<Rows>
    requires { IsSetting setting.now }
    ensures { IfOk result (λ x. x.k ≡ cell_count setting.now.domain.now) }
{
    let (x, y) = operands(alloc, setting, text, " and ")?;
    given(setting.domain.join(alloc, &x, &y))
}

/// An operand widened by another.
fn widened(alloc: Global, setting: &Setting<'_>, text: &str) -> Read<Rows>
    requires { IsSetting setting.now }
    ensures { IfOk result (λ x. x.k ≡ cell_count setting.now.domain.now) }
{
    let (old, new) = operands(alloc, setting, text, " by ")?;
    given(setting.domain.widen(alloc, &old, &new))
}

/// A copy of an operand.
fn copied(alloc: Global, setting: &Setting<'_>, text: &str) -> Read<Rows>
    requires { IsSetting setting.now }
    ensures { IfOk result (λ x. x.k ≡ cell_count setting.now.domain.now) }
{
    let x = operand(alloc, setting, text)?;
    given(setting.domain.copy(alloc, &x))
}

/// What the state value of an operand closes to, with changes.
fn closed(alloc: Global, setting: &Setting<'_>, text: &str) -> Read<Rows>
    requires { IsSetting setting.now }
    ensures { IfOk result (λ x. x.k ≡ cell_count setting.now.domain.now) }
{
    let (before, value) = with_changes(alloc, setting, text)?;
    given(setting.domain.close(alloc, setting.spec, &before, &value))
}

/// The element of a text.
pub(crate) fn element(alloc: Global, setting: &Setting<'_>, text: &str) -> Read<Rows>
    requires { IsSetting setting.now }
    ensures { IfOk result (λ x. x.k ≡ cell_count setting.now.domain.now) }
{
    if let Some(rest) = text.strip_prefix("join ") {
        return joined(alloc, setting, rest);
    }
    if let Some(rest) = text.strip_prefix("widen ") {
        return widened(alloc, setting, rest);
    }
    if let Some(rest) = text.strip_prefix("copy ") {
        return copied(alloc, setting, rest);
    }
    if let Some(rest) = text.strip_prefix("close ") {
        return closed(alloc, setting, rest);
    }
    operand(alloc, setting, text)
}
