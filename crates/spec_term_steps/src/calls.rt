//! What a name with arguments calls or makes.

ghost use Rattle.std.specs.Prelude.{◌≡◌, IfOk, Some, length, map, option_map};
ghost use Rattle.syntax_parser.specs.Tree.{terms as exprs};
ghost use Rattle.syntax_parser.specs.View.{term as expr};
ghost use Rattle.spec_ir.specs.Answers.{Agrees};
ghost use Rattle.spec_ir.specs.Environment.{constructor_named, function_named};
ghost use Rattle.spec_patterns.specs.Patterns as pattern;
ghost use Rattle.spec_typing.specs.Terms as spec;

use spec_ir::{Environment, SpecError, Ty, field_types, number};
use spec_patterns::{count_fault, unknown};
use std::alloc::Global;
use syntax_parser::tree::{Expr, Name};

/// A function that is called: its number, the types of its parameters and of its result.
#[derive(Clone, Copy, Drop)]
pub struct Callee<'e> {
    pub fun: u32,
    pub params: &'e [Ty],
    pub result: Ty,
}

/// A constructor that is applied: the numbers of its datatype and its own, the types of its fields.
#[derive(Drop)]
pub struct Maker {
    pub ty: u32,
    pub case: u32,
    pub fields: Vec<Ty>,
}

/// How many arguments there are.
#[tactic(auto, using(crate::proofs::Lists::terms_len_map))]
pub fn count_of(args: &[Expr]) -> usize
    ensures length { result ≡ length args.now }
    ensures terms { result ≡ spec.terms_len (exprs (map expr args.now)) }
{
    args.len()
}

/// The function of a name, which takes so many arguments.
pub fn callee_of<'e>(
    alloc: Global,
    environment: &Environment<'e>,
    name: &Name,
    count: usize,
) -> Result<Callee<'e>, SpecError>
    ensures answer { Agrees result (spec.callee_fault environment.now name.now count) }
    ensures count { IfOk result (λ f. length f.params.now ≡ count) }
    ensures fun { IfOk result (λ f. spec.number_of (function_named environment.now name.now.text) ≡ f.fun) }
    ensures params { IfOk result (λ f. spec.params_of (function_named environment.now name.now.text) ≡ f.params.now) }
    ensures ty { IfOk result (λ f. option_map (λ g. g.signature.result_type) (function_named environment.now name.now.text) ≡ Some f.result) }
{
    let Some(f) = environment.function(&name.text) else {
        return Err(unknown(alloc, name));
    };
    let params = f.signature.params.as_slice();
    count_fault(name, params.len(), count)?;
    Ok(Callee {
        fun: number(f.fun)?,
        params,
        result: f.signature.result,
    })
}

/// The constructor of a name, which has so many fields.
pub fn maker_of(
    alloc: Global,
    environment: &Environment,
    name: &Name,
    count: usize,
) -> Result<Maker, SpecError>
    ensures answer { Agrees result (spec.maker_fault environment.now name.now count) }
    ensures count { IfOk result (λ c. length c.fields.items ≡ count) }
    ensures fields { IfOk result (λ c. pattern.fields_of (constructor_named environment.now name.now.text) ≡ c.fields.items) }
    ensures datatype { IfOk result (λ c. spec.datatype_of (constructor_named environment.now name.now.text) ≡ c.ty) }
    ensures case { IfOk result (λ c. pattern.case_number (constructor_named environment.now name.now.text) ≡ c.case) }
    ensures ty { IfOk result (λ c. option_map (λ k. Ty.Data k.ty) (constructor_named environment.now name.now.text) ≡ Some (Ty.Data c.ty)) }
{
    let Some(c) = environment.constructor(&name.text) else {
        return Err(unknown(alloc, name));
    };
    let fields = field_types(alloc, c.fields)?;
    count_fault(name, fields.len(), count)?;
    Ok(Maker {
        ty: number(c.ty)?,
        case: number(c.case)?,
        fields,
    })
}
