//! Trees as text.

use spec_match_compiler::{Decision, Path};
use std::alloc::{AllocError, Global};
use std::fmt::Write;

/// A place, as `/0.1/2.0` for field 1 of constructor 0 and then field 0 of constructor 2.
fn write_place(out: &mut String, at: &Path) -> Result<(), AllocError> {
    for (case, field) in &at.steps {
        write!(out, "/{case}.{field}")?;
    }
    Ok(())
}

fn write_question(out: &mut String, asked: &str, at: &Path) -> Result<(), AllocError> {
    out.push_str(asked)?;
    write_place(out, at)
}

fn write_word(out: &mut String, at: &Path, value: u64) -> Result<(), AllocError> {
    write_question(out, "(", at)?;
    write!(out, "={value}")
}

fn write_variable(out: &mut String, variable: u32, at: &Path) -> Result<(), AllocError> {
    write!(out, " {variable}@")?;
    write_place(out, at)
}

fn write_row(out: &mut String, row: u32, binds: &[(u32, Path)]) -> Result<(), AllocError> {
    write!(out, "{row}")?;
    for (variable, at) in binds {
        write_variable(out, *variable, at)?;
    }
    Ok(())
}

/// A row, or a test without what follows it.
fn write_head(out: &mut String, decision: &Decision) -> Result<(), AllocError> {
    match decision {
        Decision::Row { row, binds } => write_row(out, *row, binds),
        Decision::OnCase { at, .. } => write_question(out, "(case ", at),
        Decision::OnWord { at, value, .. } => write_word(out, at, *value),
        Decision::OnFlag { at, .. } => write_question(out, "(flag ", at),
    }
}

fn write_ends(out: &mut String, count: usize) -> Result<(), AllocError> {
    for _ in 0..count {
        out.push(')')?;
    }
    Ok(())
}

/// Goes on in a loop where an answer is no, and calls itself for the others.
#[cycle(tree)]
fn write_tree(out: &mut String, decision: &Decision) -> Result<(), AllocError> {
    let mut rest = decision;
    let mut depth = 0usize;
    loop {
        write_head(out, rest)?;
        match rest {
            Decision::Row { .. } => return write_ends(out, depth),
            Decision::OnCase { arms, .. } => {
                write_arms(out, arms)?;
                return write_ends(out, depth.wrapping_add(1));
            }
            Decision::OnWord { yes, no, .. } | Decision::OnFlag { yes, no, .. } => {
                write_answer(out, yes)?;
                rest = no;
            }
        }
        out.push(' ')?;
        depth = depth.wrapping_add(1);
    }
}

#[cycle(tree)]
fn write_answer(out: &mut String, answer: &Decision) -> Result<(), AllocError> {
    out.push(' ')?;
    write_tree(out, answer)
}

#[cycle(tree)]
fn write_arms(out: &mut String, arms: &[Decision]) -> Result<(), AllocError> {
    for arm in arms {
        write_answer(out, arm)?;
    }
    Ok(())
}

/// A tree, as `(flag /0.0 YES NO)`, `(/0.0=5 YES NO)`, `(case /0.0 ARM ARM)`, or a row with its variables and their places, as
/// `2 3@/0.1`.
pub(crate) fn tree_text(alloc: Global, decision: &Decision) -> Result<String, AllocError> {
    let mut out = String::new(alloc);
    write_tree(&mut out, decision)?;
    Ok(out)
}
