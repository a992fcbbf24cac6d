// Facts of methods and of their types.

ghost use Rattle.std.specs.Prelude.{◌≡◌, ◌&&◌, ◌||◌, is_some, not};
ghost use Rattle.cil_semantics.specs.Dispatch.{is_public};
ghost use Rattle.cil_semantics.specs.Lookups.{method_of, type_of};
ghost use Rattle.cil_semantics.specs.Types.{is_empty};
ghost use Rattle.effective_contracts.specs.Invariants.{checks_invariants, disposes, is_bare, is_of, speaks_for_others};

use crate::disposal::disposes;
use cil_model::{MethodDesc, Program, Ty};

pub(crate) fn is_public(method: &MethodDesc) -> bool
    ensures { result ≡ is_public method.now }
{
    method.flags % 8 == 6
}

fn is_empty(types: &[Ty]) -> bool
    ensures { result ≡ is_empty types.now }
{
    matches!(types, [])
}

/// A method of the name that has no parameters.
pub(crate) fn is_bare(name: &[u8], method: &MethodDesc) -> bool
    ensures { result ≡ is_bare name.now method.now }
{
    method.name.as_slice() == name && is_empty(method.params.as_slice())
}

#[tactic(auto, unfolding(cil_semantics::specs::Lookups::contract_exception))]
fn is_of_contract_class(program: &Program, k: u32) -> bool
    ensures { result ≡ is_some (type_of program.now k).contract_class_for }
{
    match program.types.get(k as usize) {
        Some(desc) => desc.contract_class_for.is_some(),
        None => false,
    }
}

/// Whether a method is an invariant method, an abbreviator, or a member of a contract class.
#[tactic(auto, unfolding(cil_semantics::specs::Lookups::no_method))]
pub(crate) fn speaks_for_others(program: &Program, m: u32) -> bool
    ensures { result ≡ speaks_for_others program.now m }
{
    match program.methods.get(m as usize) {
        Some(method) => {
            method.invariant || method.abbreviator || is_of_contract_class(program, method.owner)
        }
        None => is_of_contract_class(program, 0),
    }
}

fn is_instance_with_body(method: &MethodDesc) -> bool
    ensures { result ≡ (is_public method.now && (not method.now.is_static && is_some method.now.body)) }
{
    is_public(method) && !method.is_static && method.body.is_some()
}

/// Whether a method checks the invariants of its type.
#[tactic(auto, unfolding(cil_semantics::specs::Lookups::no_method))]
pub(crate) fn checks_invariants(program: &Program, m: u32) -> bool
    ensures { result ≡ checks_invariants program.now m }
{
    match program.methods.get(m as usize) {
        Some(method) => {
            is_instance_with_body(method)
                && !(is_bare(b"Finalize", method) || disposes(program, m, method))
        }
        None => false,
    }
}

#[tactic(auto, unfolding(cil_semantics::specs::Lookups::contract_exception))]
pub(crate) fn is_of(program: &Program, assembly: u32, k: u32) -> bool
    ensures { result ≡ is_of program.now assembly k }
{
    match program.types.get(k as usize) {
        Some(desc) => desc.assembly == assembly && !desc.outside,
        None => assembly == 0,
    }
}
