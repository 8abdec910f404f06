//! Analyses, and the checks of their tables.

ghost use Rattle.std.specs.Prelude.{◌≡◌, ◌<◌, IfOk, IfSome, IsTrue, true};
ghost use Rattle.spec_ir.specs.Views.{specification};
ghost use Rattle.domain_laws.specs.States.{has_states, state_type};
ghost use Rattle.fixpoint_theory.specs.Table.{TableFits};
ghost use Rattle.fixpoint_theory.specs.Views.{listings};
ghost use Rattle.test_analysis_cases.specs.Cuts.{IsCut};
ghost use Rattle.test_analysis_cases.specs.Subjects.{IsSubject};

use crate::cut::{Cut, without_last};
use crate::reporter::{Notation, Reporter};
use crate::subject::Subject;
use crate::text::{push_addresses, push_stop, push_table, push_verdict};
use analysis_images::{analyse, check};
use analysis_problems::laws::{accepted_have_states, read_problems_are_well_posed};
use analysis_transfer::ImageAnalysis;
use code_image::Decoder;
use domain_cells::fields_of;
use domain_laws::Field;
use domain_trait::Domain;
use eval_code_lowering::lower;
use fixpoint_theory::{Analyser, Table};
use fixpoint_worklist::Report;
use spec_ir::Spec;
use std::alloc::{AllocError as NoMemory, Global};
use std::marker::Brand;
use std::sync::ledger::{Blank, Ledger};
use support_step_counter::Steps;

/// Appends the verdict on a table behind what was done to it.
pub fn push_checked<'a, D: Domain, N: Notation<D>, L: Ledger>(
    alloc: Global,
    out: &mut String,
    what: &str,
    it: &ImageAnalysis<'a, D>,
    table: &Table<D::Element>,
    steps: &mut Steps<L>,
) -> Result<(), NoMemory>
    requires ready { ⟦<ImageAnalysis<'a, D> as Analyser>⟧.IsReady it.now }
    requires fits { TableFits (⟦<ImageAnalysis<'a, D> as Analyser>⟧.analysis it.now) (listings ⟦<ImageAnalysis<'a, D> as Analyser>⟧.view table.now) }
{
    let verdict = check(alloc, it, table, steps)?;
    out.push_str("  ")?;
    out.push_str(what)?;
    push_verdict::<D, N>(out, &verdict)
}

/// Appends a table, and the verdicts on it and on it without its last block; answers that block and the rest, if there is one.
pub fn push_cut<'a, D: Domain, N: Notation<D>, L: Ledger>(
    alloc: Global,
    out: &mut String,
    it: &ImageAnalysis<'a, D>,
    table: Table<D::Element>,
    steps: &mut Steps<L>,
) -> Result<Option<Cut<D::Element>>, NoMemory>
    requires ready { ⟦<ImageAnalysis<'a, D> as Analyser>⟧.IsReady it.now }
    requires fits { TableFits (⟦<ImageAnalysis<'a, D> as Analyser>⟧.analysis it.now) (listings ⟦<ImageAnalysis<'a, D> as Analyser>⟧.view table) }
    ensures { IfOk result (λ o. IfSome o (λ c. IsCut ⟦<ImageAnalysis<'a, D> as Analyser>⟧.view (⟦<ImageAnalysis<'a, D> as Analyser>⟧.analysis it.now) c)) }
{
    push_table::<D, N>(alloc, out, it.spec, &table)?;
    push_checked::<D, N, L>(alloc, out, "whole: ", it, &table, steps)?;
    let Some(cut) = without_last(it, table) else {
        return Ok(None);
    };
    let what = "without the last block: ";
    push_checked::<D, N, L>(alloc, out, what, it, &cut.table, steps)?;
    Ok(Some(cut))
}

/// Appends the trace of an analysis and what is to be said of its table, or how it stopped.
fn push_analysis<'a, D: Domain, R: Reporter<D>, L: Ledger>(
    alloc: Global,
    out: &mut String,
    reporter: &R,
    it: &ImageAnalysis<'a, D>,
    steps: &mut Steps<L>,
) -> Result<(), NoMemory>
    requires { ⟦<ImageAnalysis<'a, D> as Analyser>⟧.IsReady it.now }
{
    match analyse(alloc, it, steps) {
        Ok(Report { trace, table }) => {
            push_addresses(out, "trace", &trace)?;
            reporter.push_results(alloc, out, it, table, steps)
        }
        Err(error) => push_stop::<D, R>(out, &error),
    }
}

/// What an analysis gives, where the counter is of this blank.
fn told<'a, D: Domain, R: Reporter<D>, L: Ledger>(
    alloc: Global,
    reporter: &R,
    it: &ImageAnalysis<'a, D>,
    blank: Blank,
) -> Result<String, NoMemory>
    requires ready { ⟦<ImageAnalysis<'a, D> as Analyser>⟧.IsReady it.now }
    requires name { blank.name ≡ L.name }
    requires parts { blank.parts ≡ L.parts }
    requires some { 0 < blank.parts }
{
    let mut steps: Steps<L> = Steps::new(blank);
    let mut out = String::new(alloc);
    push_analysis(alloc, &mut out, reporter, it, &mut steps)?;
    Ok(out)
}

/// The same, on a counter of its own.
fn begun<'a, D: Domain, R: Reporter<D>>(
    alloc: Global,
    reporter: &R,
    it: &ImageAnalysis<'a, D>,
) -> Result<String, NoMemory>
    requires { ⟦<ImageAnalysis<'a, D> as Analyser>⟧.IsReady it.now }
{
    told::<D, R, Brand>(alloc, reporter, it, Blank::new(1))
}

/// The fields of the states of a specification.
fn fields(alloc: Global, spec: &Spec) -> Result<Vec<Field>, NoMemory>
    requires { has_states (specification spec.now) ≡ true }
    ensures { IfOk result (λ r. r.items ≡ (state_type (specification spec.now)).fields) }
{
    fields_of(alloc, spec)
}

/// What the analysis of a case in a domain gives, where an instruction has at most so many targets.
pub fn analysed<D: Domain, R: Reporter<D>>(
    alloc: Global,
    reporter: &R,
    domain: &D,
    subject: &Subject,
    limit: u32,
) -> Result<String, NoMemory>
    requires joins { IsTrue D.B.algebra.joins }
    requires made { IsTrue (D.is_for domain.now (specification subject.now.spec)) }
    requires subject { IsSubject subject.now }
{
    accepted_have_states();
    read_problems_are_well_posed();
    subject.image.is_kept();
    let fields = fields(alloc, &subject.spec)?;
    let decoder = Decoder::new(alloc, &subject.spec)?;
    let cir = lower(alloc, &subject.spec)?;
    let it = ImageAnalysis {
        domain,
        spec: &subject.spec,
        cir: &cir,
        machine: subject.machine,
        fields: &fields,
        decoder: &decoder,
        image: &subject.image,
        entry: &subject.entry,
        limit,
        joins: 3,
        cases: 0,
    };
    begun(alloc, reporter, &it)
}
