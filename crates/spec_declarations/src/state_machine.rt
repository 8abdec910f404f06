//! The third pass: what makes a specification a machine.

ghost use Rattle.std.specs.Prelude.{◌≡◌, ◌==◌, ◌+◌, ◌<◌, ◌^◌, IfOk, None, [], ◌&&◌, bytes_eq, codes, drop, map, option_map, slice_get};
ghost use Rattle.std.specs.List.{list_all, list_any};
ghost use Rattle.syntax_parser.specs.View as view;
ghost use Rattle.spec_ir.specs.Answers.{Agrees};
ghost use Rattle.spec_declarations.specs.Declarations.{type_in};
ghost use Rattle.spec_declarations.specs.MachineRules as spec;
ghost use Rattle.spec_declarations.specs.TypeNames.{types_of};

use crate::declare::type_in;
use crate::type_names::TypeNames;
use spec_ir::{Machine, SpecError, SpecUse, Ty, number};
use std::alloc::{AllocError, Global};
use syntax_parser::tree::{CaseDecl, DataDecl, FieldDecl, FunDecl, Item, Span, Tree};

/// The machine of a tree, where one is wanted. Its condition is a tree without faults of types.
pub fn machine(alloc: Global, tree: &Tree, wanted: SpecUse) -> Result<Option<Machine>, SpecError>
    ensures answer { Agrees result (spec.machine_fault wanted (view.tree tree.now)) }
    ensures machine { IfOk result (λ m. m ≡ spec.machine_of wanted (view.tree tree.now)) }
{
    match wanted {
        SpecUse::Library => Ok(None),
        SpecUse::Machine => {
            machine_fault(alloc, tree)?;
            numbers(tree)
        }
    }
}

/// The first fault of a machine.
fn machine_fault(alloc: Global, tree: &Tree) -> Result<(), SpecError>
    ensures { Agrees result (spec.first_fault (view.tree tree.now)) }
{
    let names = TypeNames::new(alloc, &tree.items)?;
    let state = state_fault(alloc, &names, &tree.items, tree.end)?;
    let interp = interp_fault(&tree.items, tree.end);
    earlier(state, interp)
}

/// The fault that stands first, and that of states at the same place.
fn earlier(state: Option<Span>, interp: Option<Span>) -> Result<(), SpecError>
    ensures { Agrees result (spec.earlier state interp) }
{
    match (state, interp) {
        (None, None) => Ok(()),
        (Some(span), None) => Err(SpecError::BadState { span }),
        (None, Some(span)) => Err(SpecError::BadInterp { span }),
        (Some(a), Some(b)) => {
            if a.from <= b.from {
                Err(SpecError::BadState { span: a })
            } else {
                Err(SpecError::BadInterp { span: b })
            }
        }
    }
}

/// The numbers of the types and the function of a machine.
fn numbers(tree: &Tree) -> Result<Option<Machine>, SpecError>
    ensures answer { Agrees result None }
    ensures machine { IfOk result (λ m. m ≡ spec.machine_by (spec.instr_in (view.tree tree.now)) (spec.state_in (view.tree tree.now))
        (spec.interp_in (view.tree tree.now))) }
{
    let instr = datatype_named(&tree.items, "Instr");
    let state = datatype_named(&tree.items, "State");
    let interp = function_named(&tree.items, "interpInstr");
    match (instr, state, interp) {
        (Some(i), Some(s), Some(f)) => Ok(Some(Machine {
            instr: number(i.0)?,
            state: number(s.0)?,
            interp: number(f.0)?,
        })),
        _ => Ok(None),
    }
}

/// The number of the type of instructions.
pub fn instr_of(tree: &Tree) -> Result<Option<u32>, SpecError>
    ensures answer { Agrees result None }
    ensures number { IfOk result (λ n. n ≡ spec.instr_of (view.tree tree.now)) }
{
    match datatype_named(&tree.items, "Instr") {
        Some(d) => Ok(Some(number(d.0)?)),
        None => Ok(None),
    }
}

/// The datatype of a name, with its number.
fn datatype_named<'a>(items: &'a [Item], name: &str) -> Option<(usize, &'a DataDecl)>
    ensures { option_map (λ d. (d.0, view.datatype d.1.now)) result ≡ spec.datatype_from 0 (map view.item items.now) name.now }
{
    let mut n = 0;
    for item in items {
        match item {
            Item::Data(d) => {
                if d.name.text.as_str() == name {
                    return Some((n, d));
                }
                n += 1;
            }
            Item::Map(_) => {}
            Item::Fun(_) => {}
            Item::Decode(_) => {}
        }
    }
    None
}

/// The function of a name, with its number.
fn function_named<'a>(items: &'a [Item], name: &str) -> Option<(usize, &'a FunDecl)>
    ensures { option_map (λ f. (f.0, view.function f.1.now)) result ≡ spec.function_from 0 (map view.item items.now) name.now }
{
    let mut n = 0;
    for item in items {
        match item {
            Item::Fun(f) => {
                if f.name.text.as_str() == name {
                    return Some((n, f));
                }
                n += 1;
            }
            Item::Data(_) => {}
            Item::Map(_) => {}
            Item::Decode(_) => {}
        }
    }
    None
}

/// The end of the source.
fn at_end(end: u32) -> Span
    ensures { result ≡ spec.at_end end }
{
    Span { from: end, to: end }
}

/// Where the type of states is at fault.
fn state_fault(
    alloc: Global,
    names: &TypeNames,
    items: &[Item],
    end: u32,
) -> Result<Option<Span>, AllocError>
    ensures { IfOk result (λ r. r ≡ spec.state_fault names.now end (spec.datatype_from 0 (map view.item items.now) (codes "State"))) }
{
    match datatype_named(items, "State") {
        None => Ok(Some(at_end(end))),
        Some(d) => {
            if is_state(alloc, names, d.1)? {
                Ok(None)
            } else {
                Ok(Some(d.1.name.span))
            }
        }
    }
}

/// Whether a datatype may be that of states: one constructor, of a counter, words and maps.
fn is_state(alloc: Global, names: &TypeNames, d: &DataDecl) -> Result<bool, AllocError>
    ensures { IfOk result (λ r. r ≡ spec.is_state names.now (view.datatype d.now)) }
{
    if d.cases.len() == 1 {
        are_state_cases(alloc, names, &d.cases)
    } else {
        Ok(false)
    }
}

fn are_state_cases(alloc: Global, names: &TypeNames, cases: &[CaseDecl]) -> Result<bool, AllocError>
    ensures { IfOk result (λ r. r ≡ list_all (spec.is_state_case names.now) (map view.constructor cases.now)) }
{
    for c in cases {
        if !is_state_case(alloc, names, &c.fields)? {
            return Ok(false);
        }
    }
    Ok(true)
}

/// Whether the first field is the counter, and the others may follow it.
fn is_state_case(alloc: Global, names: &TypeNames, fields: &[FieldDecl]) -> Result<bool, AllocError>
    ensures { IfOk result (λ r. r ≡ (spec.is_counter_field names.now (slice_get fields.now 0) && spec.are_state_fields []
        (map (λ f. type_in names.now f.ty) (drop 1 fields.now)))) }
{
    match fields.first() {
        None => Ok(false),
        Some(f) => {
            if is_counter(type_in(names, &f.ty)) {
                are_state_fields(alloc, names, &fields[1..])
            } else {
                Ok(false)
            }
        }
    }
}

/// Whether a type is that of the counter.
fn is_counter(ty: Ty) -> bool
    ensures { result ≡ spec.is_counter ty }
{
    match ty {
        Ty::Word(w) => w == 32,
        Ty::Bool => false,
        Ty::Data(_) => false,
        Ty::Map(_) => false,
    }
}

/// Whether fields are words and maps, and no map type stands twice.
fn are_state_fields(
    alloc: Global,
    names: &TypeNames,
    fields: &[FieldDecl],
) -> Result<bool, AllocError>
    ensures { IfOk result (λ r. r ≡ spec.are_state_fields [] (map (λ f. type_in names.now f.ty) fields.now)) }
{
    let mut maps = Vec::new(alloc);
    for f in fields {
        match type_in(names, &f.ty) {
            Ty::Word(_) => {}
            Ty::Map(m) => {
                if has(&maps, m) {
                    return Ok(false);
                }
                maps.push(m)?;
            }
            Ty::Bool => return Ok(false),
            Ty::Data(_) => return Ok(false),
        }
    }
    Ok(true)
}

/// Whether a number is among others.
fn has(numbers: &[u32], n: u32) -> bool
    ensures { result ≡ list_any (λ k. k == n) numbers.now }
{
    for k in numbers {
        if *k == n {
            return true;
        }
    }
    false
}

/// Where the function of instructions is at fault.
fn interp_fault(items: &[Item], end: u32) -> Option<Span>
    ensures { result ≡ spec.interp_fault (spec.datatype_from 0 (map view.item items.now) (codes "Instr")) end
        (spec.function_from 0 (map view.item items.now) (codes "interpInstr")) }
{
    match function_named(items, "interpInstr") {
        None => Some(at_end(end)),
        Some(f) => {
            if is_interp(items, f.1) {
                None
            } else {
                Some(f.1.name.span)
            }
        }
    }
}

/// Whether a function takes an instruction and a state, and gives a state.
fn is_interp(items: &[Item], f: &FunDecl) -> bool
    ensures { result ≡ spec.is_interp (spec.datatype_from 0 (map view.item items.now) (codes "Instr")) (view.function f.now) }
{
    match datatype_named(items, "Instr") {
        None => false,
        Some(_) => are_instr_and_state(&f.params) && f.result.text.as_str() == "State",
    }
}

/// Whether there are two parameters, an instruction and a state.
fn are_instr_and_state(params: &[FieldDecl]) -> bool
    ensures { result ≡ spec.are_instr_and_state params.now }
{
    params.len() == 2 && is_named(params, 0, "Instr") && is_named(params, 1, "State")
}

/// Whether the type of a parameter has a name.
fn is_named(params: &[FieldDecl], n: usize, name: &str) -> bool
    ensures { result ≡ spec.is_named name.now (slice_get params.now n) }
{
    match params.get(n) {
        Some(f) => f.ty.text.as_str() == name,
        None => false,
    }
}
