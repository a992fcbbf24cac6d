// Preconditions of methods that have earlier sources.

ghost use Rattle.std.specs.Prelude.{◌≡◌, ◌==◌, not, IfOk};
ghost use Rattle.cil_model.specs.declared.contract.Clause.{Clause};
ghost use Rattle.cil_model.specs.declared.program.Source.{Source};
ghost use Rattle.cil_semantics.specs.Words.{any};
ghost use Rattle.effective_contracts.specs.Effective.{adds_precondition, is_precondition};

use crate::lent::own_clauses;
use cil_model::{Clause, ClauseKind, OwnContracts, Program, Source};
use look_ups::sources_of;
use std::alloc::{AllocError, Global};

fn is_precondition(kind: ClauseKind) -> bool
    ensures { result ≡ is_precondition kind }
{
    matches!(kind, ClauseKind::Requires | ClauseKind::RequiresOf)
}

fn has_precondition(clauses: &[Clause]) -> bool
    ensures { result ≡ any (λ (x : Clause). is_precondition x.kind) clauses.now }
{
    for clause in clauses {
        if is_precondition(clause.kind) {
            return true;
        }
    }
    false
}

fn has_other(m: u32, sources: &[Source]) -> bool
    ensures { result ≡ any (λ (s : Source). not (s.method == m)) sources.now }
{
    for source in sources {
        if source.method != m {
            return true;
        }
    }
    false
}

/// Whether a method that has sources before itself has preconditions of its own.
#[tactic(auto, unfolding(crate::specs::Effective::adds_precondition))]
pub fn adds_precondition(
    alloc: Global,
    program: &Program,
    own: &OwnContracts,
    m: u32,
) -> Result<bool, AllocError>
    ensures { IfOk result (λ late. late ≡ adds_precondition program.now own.now m) }
{
    if !has_precondition(own_clauses(program, own, m)) {
        return Ok(false);
    }
    let sources = sources_of(alloc, program, m)?;
    Ok(has_other(m, sources.as_slice()))
}
