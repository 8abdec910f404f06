//! What a command is asked for: its words, and the values of its options.

use crate::bases::BaseName;
use crate::code_word::Code;
use crate::spec_word::SpecName;

/// The value of a function on numbers.
#[derive(Drop)]
pub struct CallRequest<'a> {
    pub spec: SpecName<'a>,
    pub fun: &'a str,
    /// The numbers as they are written: what they have to be is the function's to say.
    pub numbers: Vec<&'a str>,
    /// How many turns an activation has.
    pub calls: u32,
}

/// A run from an entry.
#[derive(Drop)]
pub struct EmulateRequest<'a> {
    pub spec: SpecName<'a>,
    pub code: Code<'a>,
    pub entry: &'a str,
    /// How many steps it has at most.
    pub steps: u32,
    /// How many turns an activation has.
    pub calls: u32,
}

/// An analysis over a base.
#[derive(Drop)]
pub struct AnalyseRequest<'a> {
    pub spec: SpecName<'a>,
    pub code: Code<'a>,
    pub entry: &'a str,
    pub base: BaseName,
    /// How many values a counter has at most.
    pub limit: u32,
    /// How many changes of an element join before later ones widen.
    pub joins: u32,
    /// How often over an element is split before its instruction is evaluated.
    pub cases: u32,
    /// Whether an address of which the analysis can not say what comes next ends no analysis; of a table, whether it may leave
    /// such addresses open.
    pub open: bool,
}

/// Whether a table is closed.
#[derive(Drop)]
pub struct CheckRequest<'a> {
    pub analysis: AnalyseRequest<'a>,
    pub table: &'a str,
}

/// A table in the format that is printed.
#[derive(Drop)]
pub struct ConvertRequest<'a> {
    pub spec: SpecName<'a>,
    pub code: Code<'a>,
    pub table: &'a str,
    pub base: BaseName,
}

/// The instructions of code.
#[derive(Drop)]
pub struct ListRequest<'a> {
    pub spec: SpecName<'a>,
    pub code: Code<'a>,
}

/// The definitions that a read of a cell at an address may depend on, by a table over a stamped base.
#[derive(Drop)]
pub struct SliceRequest<'a> {
    pub check: CheckRequest<'a>,
    pub address: u32,
    /// The cell as it is written: what it has to be is the specification's to say.
    pub cell: &'a str,
}

/// Which claims follow from a table.
#[derive(Drop)]
pub struct ClaimsRequest<'a> {
    pub check: CheckRequest<'a>,
    pub claims: &'a str,
}

/// Code of so many words, made from a number.
#[derive(Clone, Copy)]
pub struct StressRequest {
    pub number: u32,
    pub count: u32,
    pub base: BaseName,
}

/// What the words ask for.
#[derive(Drop)]
pub enum Request<'a> {
    Call(CallRequest<'a>),
    Emulate(EmulateRequest<'a>),
    Analyse(AnalyseRequest<'a>),
    Check(CheckRequest<'a>),
    Convert(ConvertRequest<'a>),
    List(ListRequest<'a>),
    Slice(SliceRequest<'a>),
    Claims(ClaimsRequest<'a>),
    Stress(StressRequest),
}
