// What a clause's call says of it.

ghost use Rattle.std.specs.Prelude.{◌≡◌, length};
ghost use Rattle.cil_semantics.specs.ContractCalls.{has_message};
ghost use Rattle.cil_semantics.specs.Lookups.{method_of};
ghost use Rattle.contract_extract.specs.Clauses.{argument_type, has_exception, exception_of};

use cil_model::{ClauseKind, Instr, Meaning, Operand, Program, TyRef};
use contract_parts::{count_params, own_meaning};

/// The type argument of a generic call.
pub fn argument_type(operand: &Operand) -> Option<TyRef>
    ensures { result ≡ argument_type operand.now }
{
    match operand {
        Operand::Tok { assembly, token } => Some(TyRef {
            assembly: *assembly,
            token: *token,
            index: 0,
            under: None,
        }),
        _ => None,
    }
}

pub(crate) fn has_exception(kind: ClauseKind) -> bool
    ensures { result ≡ has_exception kind }
{
    matches!(kind, ClauseKind::RequiresOf | ClauseKind::Throws)
}

/// The type of the exception that a Requires or EnsuresOnThrow with one names.
pub fn exception_of(kind: ClauseKind, operand: &Operand) -> Option<TyRef>
    ensures { result ≡ exception_of kind operand.now }
{
    if has_exception(kind) {
        argument_type(operand)
    } else {
        None
    }
}

/// Whether a call has a message besides its condition.
pub fn has_message(p: &Program, instr: &Instr) -> bool
    ensures { result ≡ has_message p.now instr.now }
{
    match own_meaning(p, &instr.operand) {
        Some(Meaning::OfMethod { method, .. }) => count_params(p, *method) == 2,
        _ => false,
    }
}
