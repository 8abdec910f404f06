//! What terms are, by their form.

ghost use Rattle.std.specs.Prelude.{◌≡◌, Some, map, slice_get, unwrap_or};
ghost use Rattle.analysis_choices.specs.declared.symbol.Symbol.TheVariants as Symbol;
ghost use Rattle.spec_ir.specs.Views.{core};
ghost use Rattle.spec_ir.specs.CoreTerms.{cores};
ghost use Rattle.analysis_choices.specs.Symbols as of;

use semantics_values::KeyAt;
use spec_ir::{CastKind, Core};
use word_operations::{BinaryOperation, WordComparison};

/// A cell of the state plus a number of 32 bits.
#[derive(Clone, Copy, Debug, PartialEq, Eq)]
pub struct ShiftedCell {
    /// Its field, counted from 1.
    pub place: u32,
    pub key: KeyAt,
    /// The number that is added, modulo 2^32.
    pub plus: u32,
}

/// What a term is, as far as its form tells.
#[derive(Clone, Copy, Debug, PartialEq, Eq)]
pub enum Symbol {
    /// Nothing is known of it.
    Other,
    /// The instruction.
    Instruction,
    /// The state before it.
    State,
    /// This number.
    Number(u64),
    /// This field of the state, counted from 1.
    Field(u32),
    /// A cell of the state, plus a number.
    Cell(ShiftedCell),
}

/// The cell that it is, if it is one: a field is the cell of a word.
pub(crate) fn as_cell(x: Symbol) -> Option<ShiftedCell>
    ensures { result ≡ of.as_cell x }
{
    match x {
        Symbol::Field(place) => Some(ShiftedCell {
            place,
            key: KeyAt::Whole,
            plus: 0,
        }),
        Symbol::Cell(cell) => Some(cell),
        _ => None,
    }
}

/// A cell plus a number more.
fn more(cell: ShiftedCell, number: u64) -> Symbol
    ensures { result ≡ of.shifted (Some cell) number }
{
    let ShiftedCell { place, key, plus } = cell;
    let sum = plus as u64 + number % 0x1_0000_0000;
    let plus = (sum % 0x1_0000_0000) as u32;
    Symbol::Cell(ShiftedCell { place, key, plus })
}

/// A cell plus a number more, if it is one.
fn shifted(x: Symbol, number: u64) -> Symbol
    ensures { result ≡ of.shifted (of.as_cell x) number }
{
    match as_cell(x) {
        Some(cell) => more(cell, number),
        None => Symbol::Other,
    }
}

/// A sum or a difference of 32 bits of a cell and a number.
fn computed_of(op: BinaryOperation, x: Symbol, y: Symbol) -> Symbol
    ensures { result ≡ of.computed_of op x y }
{
    match (op, x, y) {
        (BinaryOperation::Add, x, Symbol::Number(n)) => shifted(x, n),
        (BinaryOperation::Add, Symbol::Number(n), y) => shifted(y, n),
        (BinaryOperation::Sub, x, Symbol::Number(n)) => {
            shifted(x, 0x1_0000_0000 - n % 0x1_0000_0000)
        }
        _ => Symbol::Other,
    }
}

/// What an operation on words of a width is.
fn computed(op: BinaryOperation, w: u32, x: Symbol, y: Symbol) -> Symbol
    ensures { result ≡ of.computed op w x y }
{
    if w == 32 {
        computed_of(op, x, y)
    } else {
        Symbol::Other
    }
}

/// Zeros in front leave a number.
fn widened(kind: CastKind, x: Symbol) -> Symbol
    ensures { result ≡ of.widened kind x }
{
    match (kind, x) {
        (CastKind::Zero, Symbol::Number(n)) => Symbol::Number(n),
        _ => Symbol::Other,
    }
}

/// The cell of a map of the state.
fn looked_up(x: Symbol, key: Symbol) -> Symbol
    ensures { result ≡ of.looked_up x key }
{
    match (x, key) {
        (Symbol::Field(place), Symbol::Number(key)) => Symbol::Cell(ShiftedCell {
            place,
            key: KeyAt::At(key),
            plus: 0,
        }),
        _ => Symbol::Other,
    }
}

/// Whether two numbers are the same.
fn compared_numbers(op: WordComparison, x: Symbol, y: Symbol) -> Option<bool>
    ensures { result ≡ of.compared_numbers op x y }
{
    match (op, x, y) {
        (WordComparison::Eq, Symbol::Number(m), Symbol::Number(n)) => Some(m == n),
        (WordComparison::Ne, Symbol::Number(m), Symbol::Number(n)) => Some(m != n),
        _ => None,
    }
}

/// The branch that is taken, where that is known.
fn taken(truth: Option<bool>, x: Symbol, y: Symbol) -> Symbol
    ensures { result ≡ of.taken truth x y }
{
    match truth {
        Some(true) => x,
        Some(false) => y,
        None => Symbol::Other,
    }
}

/// A constructor without fields, as a key of an enumeration.
fn constructor(case: u32, args: &[Core]) -> Symbol
    ensures { result ≡ of.constructor case (cores (map core args.now)) }
{
    match args {
        [] => Symbol::Number(case as u64),
        _ => Symbol::Other,
    }
}

/// What a variable is.
fn variable(env: &[Symbol], n: u32) -> Symbol
    ensures { result ≡ unwrap_or (slice_get env.now n) Symbol.Other }
{
    match env.get(n as usize) {
        Some(x) => *x,
        None => Symbol::Other,
    }
}

/// What a term is, where the variables are these.
#[cycle(symbols)]
pub(crate) fn symbol_of(env: &[Symbol], t: &Core) -> Symbol
    ensures { result ≡ of.symbol_of env.now (core t.now) }
{
    match t {
        Core::Var(n) => variable(env, *n),
        Core::Word { v, .. } => Symbol::Number(*v),
        Core::Bin { op, w, x, y } => computed(*op, *w, symbol_of(env, x), symbol_of(env, y)),
        Core::Cast { kind, x, .. } => widened(*kind, symbol_of(env, x)),
        Core::If { c, yes, no } => {
            taken(decided(env, c), symbol_of(env, yes), symbol_of(env, no))
        }
        Core::Make { case, args, .. } => constructor(*case, args),
        Core::Get { x, key, .. } => looked_up(symbol_of(env, x), symbol_of(env, key)),
        _ => Symbol::Other,
    }
}

/// The truth value of a condition, where it is known.
#[cycle(symbols)]
pub(crate) fn decided(env: &[Symbol], t: &Core) -> Option<bool>
    ensures { result ≡ of.decided env.now (core t.now) }
{
    match t {
        Core::Flag(b) => Some(*b),
        Core::Test { c, x, y, .. } => compared_numbers(*c, symbol_of(env, x), symbol_of(env, y)),
        _ => None,
    }
}
