//! The request of each command, from its positional words and its options.

ghost use Rattle.std.specs.Prelude.{option_map};
ghost use Rattle.support_command_line.specs.Giving.{Gives};
ghost use Rattle.support_command_line.specs.Requests as asked;
ghost use Rattle.support_command_line.specs.declared.commands.CommandName.TheVariants as named;
ghost use Rattle.support_command_line.specs.Views as seen;
ghost use Rattle.support_command_line.specs.Views.{borrowed, given_of};
ghost use Rattle.support_command_line.specs.Words.{analyse_of, check_of, code_of, request_of, slice_from};

use crate::code_word::{Code, code_parts};
use crate::commands::CommandName;
use crate::given_words::GivenWords;
use crate::numbers::{DecimalForm, address, decimal};
use crate::option_values::{base, base_address, calls, cases, joins, limit, order, steps};
use crate::requests::{
    AnalyseRequest, CallRequest, CheckRequest, ClaimsRequest, ConvertRequest, EmulateRequest,
    ListRequest, Request, SliceRequest, StressRequest,
};
use crate::spec_word::SpecName;
use crate::words_error::WordsError;
use std::alloc::Global;

/// How the number of `stress` is written.
const NUMBER_FORM: DecimalForm = DecimalForm {
    most_digits: 10,
    least: 0,
    greatest: u32::MAX,
};

/// How its count of words is written.
const COUNT_FORM: DecimalForm = DecimalForm {
    most_digits: 5,
    least: 1,
    greatest: 16_384,
};

/// The request of a command.
pub fn request<'a>(
    alloc: Global,
    command: CommandName,
    given: &GivenWords<'a>,
) -> Result<Request<'a>, WordsError>
    ensures { Gives (request_of command (given_of given.now)) seen.request_of result }
{
    match command {
        CommandName::Call => call(alloc, given),
        CommandName::Emulate => emulate(alloc, given),
        CommandName::Analyse => analysis(alloc, given, &given.words).map(Request::Analyse),
        CommandName::Check => table(alloc, given, &given.words).map(Request::Check),
        CommandName::Convert => convert(alloc, given),
        CommandName::List => list(alloc, given),
        CommandName::Slice => slice(alloc, given),
        CommandName::Claims => claims(alloc, given),
        CommandName::Stress => stress(given),
    }
}

/// The code of a word CODE.
#[tactic(auto, unfolding(crate::specs::Words::code_of))]
fn code<'a>(alloc: Global, given: &GivenWords<'a>, word: &'a str) -> Result<Code<'a>, WordsError>
    ensures { Gives (code_of (given_of given.now) word.entry.now) seen.code_of result }
{
    let Some(base) = base_address(given) else {
        return Err(WordsError::BadWords);
    };
    let Some(order) = order(given) else {
        return Err(WordsError::BadWords);
    };
    let parts = code_parts(alloc, word, base)?;
    Ok(Code { parts, order })
}

/// `call SPEC FUN NUMBER ..`
#[tactic(auto, unfolding(crate::specs::Words::call_of))]
fn call<'a>(alloc: Global, given: &GivenWords<'a>) -> Result<Request<'a>, WordsError>
    ensures { Gives (request_of named.Call (given_of given.now)) seen.request_of result }
{
    let [spec, fun, numbers @ ..] = given.words.as_slice() else {
        return Err(WordsError::BadWords);
    };
    let Some(calls) = calls(given) else {
        return Err(WordsError::BadWords);
    };
    let numbers = Vec::from_slice(alloc, numbers)?;
    Ok(Request::Call(CallRequest {
        spec: SpecName::of(spec),
        fun,
        numbers,
        calls,
    }))
}

/// `emulate SPEC CODE ENTRY`
#[tactic(auto, unfolding(crate::specs::Words::emulate_of))]
fn emulate<'a>(alloc: Global, given: &GivenWords<'a>) -> Result<Request<'a>, WordsError>
    ensures { Gives (request_of named.Emulate (given_of given.now)) seen.request_of result }
{
    let [spec, word, entry] = given.words.as_slice() else {
        return Err(WordsError::BadWords);
    };
    let Some(steps) = steps(given) else {
        return Err(WordsError::BadWords);
    };
    let Some(calls) = calls(given) else {
        return Err(WordsError::BadWords);
    };
    let code = code(alloc, given, word)?;
    Ok(Request::Emulate(EmulateRequest {
        spec: SpecName::of(spec),
        code,
        entry,
        steps,
        calls,
    }))
}

/// The analysis of the words `SPEC CODE ENTRY`.
#[tactic(auto, unfolding(crate::specs::Words::analyse_of, crate::specs::Words::analysis_of))]
fn analysis<'a>(
    alloc: Global,
    given: &GivenWords<'a>,
    words: &[&'a str],
) -> Result<AnalyseRequest<'a>, WordsError>
    ensures { Gives (analyse_of (given_of given.now) (borrowed words.now)) seen.analyse_of result }
{
    let [spec, word, entry] = words else {
        return Err(WordsError::BadWords);
    };
    let Some(base) = base(given) else {
        return Err(WordsError::BadWords);
    };
    let Some(limit) = limit(given) else {
        return Err(WordsError::BadWords);
    };
    let Some(joins) = joins(given) else {
        return Err(WordsError::BadWords);
    };
    let Some(cases) = cases(given) else {
        return Err(WordsError::BadWords);
    };
    let code = code(alloc, given, word)?;
    Ok(AnalyseRequest {
        spec: SpecName::of(spec),
        code,
        entry,
        base,
        limit,
        joins,
        cases,
        open: given.open,
    })
}

/// The table of the words `SPEC CODE ENTRY TABLE`, with what it should be a table of.
fn table<'a>(
    alloc: Global,
    given: &GivenWords<'a>,
    words: &[&'a str],
) -> Result<CheckRequest<'a>, WordsError>
    ensures { Gives (check_of (given_of given.now) (borrowed words.now)) seen.check_of result }
{
    let [others @ .., table] = words else {
        return Err(WordsError::BadWords);
    };
    let analysis = analysis(alloc, given, others)?;
    Ok(CheckRequest { analysis, table })
}

/// `convert SPEC CODE TABLE`
#[tactic(auto, unfolding(crate::specs::Words::convert_of))]
fn convert<'a>(alloc: Global, given: &GivenWords<'a>) -> Result<Request<'a>, WordsError>
    ensures { Gives (request_of named.Convert (given_of given.now)) seen.request_of result }
{
    let [spec, word, table] = given.words.as_slice() else {
        return Err(WordsError::BadWords);
    };
    let Some(base) = base(given) else {
        return Err(WordsError::BadWords);
    };
    let code = code(alloc, given, word)?;
    Ok(Request::Convert(ConvertRequest {
        spec: SpecName::of(spec),
        code,
        table,
        base,
    }))
}

/// `list SPEC CODE`
#[tactic(auto, unfolding(crate::specs::Words::list_of))]
fn list<'a>(alloc: Global, given: &GivenWords<'a>) -> Result<Request<'a>, WordsError>
    ensures { Gives (request_of named.List (given_of given.now)) seen.request_of result }
{
    let [spec, word] = given.words.as_slice() else {
        return Err(WordsError::BadWords);
    };
    let code = code(alloc, given, word)?;
    Ok(Request::List(ListRequest {
        spec: SpecName::of(spec),
        code,
    }))
}

/// The slice of the words ADDRESS and CELL, by a table over a base with stamps.
#[tactic(auto, unfolding(crate::specs::Words::slice_from))]
fn slice_from<'a>(
    check: CheckRequest<'a>,
    place: &str,
    cell: &'a str,
) -> Result<Request<'a>, WordsError>
    ensures { Gives (option_map asked.slice (slice_from (seen.check_of check.entry) place.now cell.entry.now)) seen.request_of result }
{
    let Some(address) = address(place) else {
        drop(check);
        return Err(WordsError::BadWords);
    };
    if !check.analysis.base.is_stamped() {
        drop(check);
        return Err(WordsError::BadWords);
    }
    Ok(Request::Slice(SliceRequest {
        check,
        address,
        cell,
    }))
}

/// `slice SPEC CODE ENTRY TABLE ADDRESS CELL`
fn slice<'a>(alloc: Global, given: &GivenWords<'a>) -> Result<Request<'a>, WordsError>
    ensures { Gives (request_of named.Slice (given_of given.now)) seen.request_of result }
{
    let [others @ .., place, cell] = given.words.as_slice() else {
        return Err(WordsError::BadWords);
    };
    let check = table(alloc, given, others)?;
    slice_from(check, place, cell)
}

/// `claims SPEC CODE ENTRY TABLE CLAIMS`
fn claims<'a>(alloc: Global, given: &GivenWords<'a>) -> Result<Request<'a>, WordsError>
    ensures { Gives (request_of named.Claims (given_of given.now)) seen.request_of result }
{
    let [others @ .., claims] = given.words.as_slice() else {
        return Err(WordsError::BadWords);
    };
    let check = table(alloc, given, others)?;
    Ok(Request::Claims(ClaimsRequest { check, claims }))
}

/// `stress NUMBER COUNT`
#[tactic(auto, unfolding(crate::specs::Words::stress_of))]
fn stress<'a>(given: &GivenWords<'a>) -> Result<Request<'a>, WordsError>
    ensures { Gives (request_of named.Stress (given_of given.now)) seen.request_of result }
{
    let [number, count] = given.words.as_slice() else {
        return Err(WordsError::BadWords);
    };
    let Some(number) = decimal(number, NUMBER_FORM) else {
        return Err(WordsError::BadWords);
    };
    let Some(count) = decimal(count, COUNT_FORM) else {
        return Err(WordsError::BadWords);
    };
    let Some(base) = base(given) else {
        return Err(WordsError::BadWords);
    };
    Ok(Request::Stress(StressRequest {
        number,
        count,
        base,
    }))
}
