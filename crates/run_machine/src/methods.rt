// The effective contract of a method, and the locals of its body.

ghost use Rattle.std.specs.Prelude.{◌≡◌, length, IfOk};
ghost use Rattle.std.specs.Option.{option_copied};
ghost use Rattle.cil_semantics.specs.Contracted.{effective_of};
ghost use Rattle.cil_semantics.specs.Lookups.{method_of};
ghost use Rattle.cil_semantics.specs.Tokens.{locals_in, meaning_of};
ghost use Rattle.cil_semantics.specs.Unwind.{body_of, count_locals, plan_at};

use crate::plan::{Plan, plan_of};
use cil_base::Token;
use cil_model::{Contracts, Effective, Meaning, Program, Ty};
use look_ups::is_visible;
use std::alloc::{AllocError, Global};

/// The effective contract that a call of a method has: one of the first assembly's, where there are contracts.
#[tactic(auto, unfolding(cil_semantics::specs::Lookups::no_method))]
fn effective_of<'a>(
    contracts: &'a Contracts,
    program: &Program,
    method: u32,
) -> Option<&'a Effective>
    ensures { option_copied result ≡ effective_of contracts.entry.now program.now method }
{
    let Some(desc) = program.methods.get(method as usize) else {
        return None;
    };
    if desc.outside || desc.assembly != contracts.target {
        return None;
    }
    contracts.by_method.get(method as usize)
}

#[tactic(auto, unfolding(cil_semantics::specs::Tokens::meaning_of))]
fn locals_named(program: &Program, assembly: u32, token: Token) -> &[Ty]
    ensures { result.now ≡ locals_in (meaning_of program.now assembly token) }
{
    match program.tokens.meaning(assembly, token) {
        Some(Meaning::OfLocals(tys)) => tys.as_slice(),
        _ => &[],
    }
}

/// How many locals the body of a method has.
#[tactic(auto, unfolding(cil_semantics::specs::Lookups::no_method, cil_semantics::specs::Unwind::no_body))]
fn count_locals(program: &Program, method: u32) -> usize
    ensures { result ≡ count_locals program.now method (body_of program.now method).locals }
{
    let Some(desc) = program.methods.get(method as usize) else {
        return 0;
    };
    let Some(body) = &desc.body else {
        return 0;
    };
    let Some(token) = body.locals else {
        return 0;
    };
    locals_named(program, desc.assembly, token).len()
}

/// The plan of a method, where its calls go by a contract.
#[tactic(auto, unfolding(cil_semantics::specs::Contracted::plan_for))]
pub(crate) fn method_plan<'a>(
    alloc: Global,
    program: &Program,
    contracts: &'a Contracts,
    method: u32,
) -> Result<Option<Plan<'a>>, AllocError>
    ensures { IfOk result (λ plan. plan ≡ plan_at contracts.entry.now program.now method) }
{
    let Some(effective) = effective_of(contracts, program, method) else {
        return Ok(None);
    };
    let visible = is_visible(program, method);
    let locals = count_locals(program, method) as u64;
    let plan = plan_of(alloc, contracts.settings, visible, locals, effective)?;
    Ok(Some(plan))
}
