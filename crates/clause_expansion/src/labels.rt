// Labels of clauses after expansion.

ghost use Rattle.std.specs.Prelude.{◌≡◌, ◌+◌, ◌<◌, ◌^◌, ◌++◌, IfOk, OnOk};
ghost use Rattle.contract_extract.specs.Clauses.{number_of, one_more, label};
ghost use Rattle.clause_expansion.specs.Labels.{checks, labels_from, all_more, labelled, numbers_behind};

use cil_base::Name;
use cil_model::{Clause, ClauseKind, Instr, Names, Program};
use contract_extract::{Numbers, label};
use contract_parts::{checked_kind, contract_call};
use std::alloc::{AllocError, Global};

fn number_of(numbers: &Numbers, kind: ClauseKind) -> usize
    ensures { result ≡ number_of numbers.now kind }
{
    match kind {
        ClauseKind::Requires | ClauseKind::RequiresOf => numbers.preconditions,
        ClauseKind::Ensures => numbers.postconditions,
        ClauseKind::Throws => numbers.throws,
        ClauseKind::Invariant => numbers.invariants,
        ClauseKind::Assert => numbers.asserts,
        ClauseKind::Assume => numbers.assumes,
    }
}

/// Counts one more; `n` is the number that its kind has.
fn put_number(numbers: &mut Numbers, kind: ClauseKind, n: usize)
    requires fits { n + 1 < 2 ^ 64 }
    requires number { n ≡ number_of numbers.old kind }
    ensures { numbers.new ≡ one_more numbers.old kind }
{
    match kind {
        ClauseKind::Requires | ClauseKind::RequiresOf => numbers.preconditions = n + 1,
        ClauseKind::Ensures => numbers.postconditions = n + 1,
        ClauseKind::Throws => numbers.throws = n + 1,
        ClauseKind::Invariant => numbers.invariants = n + 1,
        ClauseKind::Assert => numbers.asserts = n + 1,
        ClauseKind::Assume => numbers.assumes = n + 1,
    }
}

/// The number of one more, which is counted; want of memory past 2^64, since so many would not be held.
fn count(numbers: &mut Numbers, kind: ClauseKind) -> Result<usize, AllocError>
    ensures number { IfOk result (λ n. n ≡ number_of numbers.old kind) }
    ensures more { OnOk result (numbers.new ≡ one_more numbers.old kind) }
{
    let n = number_of(numbers, kind);
    if n == usize::MAX {
        return Err(AllocError);
    }
    put_number(numbers, kind, n);
    Ok(n)
}

/// The label of one more.
fn next_label(
    alloc: Global,
    program: &Program,
    method: u32,
    numbers: &mut Numbers,
    kind: ClauseKind,
) -> Result<Name, AllocError>
    ensures label { IfOk result (λ name. name ≡ label program.now method kind (number_of numbers.old kind)) }
    ensures more { OnOk result (numbers.new ≡ one_more numbers.old kind) }
{
    let n = count(numbers, kind)?;
    label(alloc, program, method, kind, n)
}

fn checks(alloc: Global, program: &Program, instrs: &[Instr]) -> Result<Vec<ClauseKind>, AllocError>
    ensures { IfOk result (λ kinds. kinds.items ≡ checks program.now instrs.now) }
{
    let mut kinds = Vec::new(alloc);
    for instr in instrs {
        if let Some(kind) = checked_kind(contract_call(program, instr)) {
            kinds.push(kind)?;
        }
    }
    Ok(kinds)
}

/// The labels of asserts that follow one another.
fn labels_from(
    alloc: Global,
    program: &Program,
    method: u32,
    numbers: &mut Numbers,
    kinds: &[ClauseKind],
) -> Result<Names, AllocError>
    ensures labels { IfOk result (λ names. names ≡ labels_from program.now method numbers.old kinds.now) }
    ensures more { OnOk result (numbers.new ≡ all_more numbers.old kinds.now) }
{
    let mut names = Names::new(alloc);
    for kind in kinds {
        names.push(next_label(alloc, program, method, numbers, *kind)?)?;
    }
    Ok(names)
}

/// Gives a clause of a method its label and those of the asserts in it, behind so many others.
pub fn put_labels(
    alloc: Global,
    program: &Program,
    method: u32,
    numbers: &mut Numbers,
    clause: &mut Clause,
) -> Result<(), AllocError>
    ensures clause { OnOk result (clause.new ≡ labelled program.now method numbers.old clause.old) }
    ensures more { OnOk result (numbers.new ≡ numbers_behind program.now numbers.old clause.old) }
{
    let kinds = checks(alloc, program, clause.instrs.as_slice())?;
    let own = number_of(numbers, clause.kind);
    clause.label = label(alloc, program, method, clause.kind, own)?;
    clause.inline = labels_from(alloc, program, method, numbers, &kinds)?;
    count(numbers, clause.kind)?;
    clause.home = method;
    Ok(())
}
