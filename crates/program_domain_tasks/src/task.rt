//! What is asked of a domain.

use code_image::Image;
use semantics_values::Entry;
use spec_ir::{Machine, Spec};
use text_slices::SliceCell;

/// Where an analysis begins: a machine, an entry of its states, how many targets an instruction may have, how many changes of an
/// element join before later ones widen, and how often over an element is split before its instruction is evaluated.
#[derive(Clone, Copy)]
pub struct AnalysisStart<'a> {
    pub machine: Machine,
    pub entry: &'a Entry,
    pub limit: u32,
    pub joins: u32,
    pub cases: u32,
}

/// What a slice is of: the reads of a cell by the instruction at an address.
#[derive(Clone, Copy)]
pub struct SliceCriterion {
    pub at: u32,
    pub cell: SliceCell,
}

/// What is asked.
#[derive(Clone, Copy)]
pub enum DomainTask<'a> {
    /// The table of the analysis.
    Analyse(AnalysisStart<'a>),
    /// The same, where what has no decoding or too many targets is left open.
    AnalyseOpen(AnalysisStart<'a>),
    /// How long the trace of the analysis is, how many elements its table has, and the verdict on it.
    Measure(AnalysisStart<'a>),
    /// The verdict on the table that a text is.
    Check(AnalysisStart<'a>, &'a [u8]),
    /// The same, where blocks may be left open.
    CheckOpen(AnalysisStart<'a>, &'a [u8]),
    /// The table that a text is, written in format 2.
    Convert(&'a [u8]),
    /// The slice of the table that a text is, for a criterion.
    Slice(AnalysisStart<'a>, &'a [u8], SliceCriterion),
    /// The same, where blocks may be left open.
    SliceOpen(AnalysisStart<'a>, &'a [u8], SliceCriterion),
    /// The answers of the table that a text is to the claims that another is.
    Claims(AnalysisStart<'a>, &'a [u8], &'a [u8]),
    /// The same, where blocks may be left open.
    ClaimsOpen(AnalysisStart<'a>, &'a [u8], &'a [u8]),
}

/// Of which machine and code it is asked.
#[derive(Clone, Copy)]
pub struct Subject<'a> {
    pub spec: &'a Spec,
    pub image: &'a Image,
    pub task: DomainTask<'a>,
}
