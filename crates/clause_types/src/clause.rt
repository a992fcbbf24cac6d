// Clauses under what stands for the type parameters in them.

ghost use Rattle.std.specs.Prelude.{◌≡◌, ◌++◌, map, option_map, IfOk, OnOk};
ghost use Rattle.clause_types.specs.ClauseTypes.{clause_under, instr_under, old_under, ref_under};

use crate::arguments::joined;
use cil_base::Bytes;
use cil_model::{Clause, Clauses, Instr, Instrs, Names, Old, Olds, TyRef, TyRefs, Under};
use sqlite_items::Boxed;
use std::alloc::{AllocError, Global};

/// A copy of an instruction under what stands for the type parameters in its tokens.
pub fn instr_under(
    alloc: Global,
    under: &Option<Boxed<Under>>,
    instr: &Instr,
) -> Result<Instr, AllocError>
    ensures { IfOk result (λ it. it ≡ instr_under under.now instr.now) }
{
    Ok(Instr {
        op: instr.op,
        operand: instr.operand.copied(alloc)?,
        constrained: instr.constrained,
        prefixes: instr.prefixes,
        under: joined(alloc, under, &instr.under)?,
    })
}

/// A copy of a reference to a type under what stands for the type parameters in its tokens.
pub fn ref_under(
    alloc: Global,
    under: &Option<Boxed<Under>>,
    ty: &TyRef,
) -> Result<TyRef, AllocError>
    ensures { IfOk result (λ it. it ≡ ref_under under.now ty.now) }
{
    Ok(TyRef {
        assembly: ty.assembly,
        token: ty.token,
        index: ty.index,
        under: joined(alloc, under, &ty.under)?,
    })
}

/// A copy of an old range with its type under what stands for type parameters.
pub fn old_under(alloc: Global, under: &Option<Boxed<Under>>, old: &Old) -> Result<Old, AllocError>
    ensures { IfOk result (λ it. it ≡ old_under under.now old.now) }
{
    Ok(Old {
        from: old.from,
        to: old.to,
        ty: ref_under(alloc, under, &old.ty)?,
    })
}

/// Copies of instructions under what stands for the type parameters in their tokens.
fn instrs_under(
    alloc: Global,
    under: &Option<Boxed<Under>>,
    instrs: &[Instr],
) -> Result<Instrs, AllocError>
    ensures { IfOk result (λ it. it ≡ map (instr_under under.now) instrs.now) }
{
    let mut out = Instrs::new(alloc);
    for instr in instrs {
        out.push(instr_under(alloc, under, instr)?)?;
    }
    Ok(out)
}

/// Appends copies of references to types under what stands for the type parameters in their tokens.
pub fn push_refs_under(
    alloc: Global,
    out: &mut TyRefs,
    under: &Option<Boxed<Under>>,
    types: &[TyRef],
) -> Result<(), AllocError>
    ensures { OnOk result (out.new ≡ out.old ++ map (ref_under under.now) types.now) }
{
    for ty in types {
        out.push(ref_under(alloc, under, ty)?)?;
    }
    Ok(())
}

/// Appends copies of references to types.
pub fn push_refs(alloc: Global, out: &mut TyRefs, types: &[TyRef]) -> Result<(), AllocError>
    ensures { OnOk result (out.new ≡ out.old ++ types.now) }
{
    for ty in types {
        out.push(ref_under(alloc, &None, ty)?)?;
    }
    Ok(())
}

fn refs_under(
    alloc: Global,
    under: &Option<Boxed<Under>>,
    types: &[TyRef],
) -> Result<TyRefs, AllocError>
    ensures { IfOk result (λ it. it ≡ map (ref_under under.now) types.now) }
{
    let mut out = TyRefs::new(alloc);
    push_refs_under(alloc, &mut out, under, types)?;
    Ok(out)
}

fn olds_under(alloc: Global, under: &Option<Boxed<Under>>, olds: &[Old]) -> Result<Olds, AllocError>
    ensures { IfOk result (λ it. it ≡ map (old_under under.now) olds.now) }
{
    let mut out = Olds::new(alloc);
    for old in olds {
        out.push(old_under(alloc, under, old)?)?;
    }
    Ok(out)
}

/// A copy of the type that a clause may name.
pub fn exception_under(
    alloc: Global,
    under: &Option<Boxed<Under>>,
    ty: &Option<TyRef>,
) -> Result<Option<TyRef>, AllocError>
    ensures { IfOk result (λ it. it ≡ option_map (ref_under under.now) ty.now) }
{
    match ty {
        Some(ty) => Ok(Some(ref_under(alloc, under, ty)?)),
        None => Ok(None),
    }
}

/// Equal names of their own.
pub fn copied_names(alloc: Global, names: &Names) -> Result<Names, AllocError>
    ensures { IfOk result (λ it. it ≡ names.now) }
{
    let mut out = Names::new(alloc);
    for name in names.as_slice() {
        out.push(Bytes::from_slice(alloc, name.as_slice())?)?;
    }
    Ok(out)
}

/// A copy of a clause under what stands for the type parameters of its method's type and of its method.
pub fn clause_under(
    alloc: Global,
    under: &Option<Boxed<Under>>,
    clause: &Clause,
) -> Result<Clause, AllocError>
    ensures { IfOk result (λ it. it ≡ clause_under under.now clause.now) }
{
    Ok(Clause {
        kind: clause.kind,
        home: clause.home,
        instrs: instrs_under(alloc, under, clause.instrs.as_slice())?,
        locals: refs_under(alloc, under, clause.locals.as_slice())?,
        olds: olds_under(alloc, under, clause.olds.as_slice())?,
        exception: exception_under(alloc, under, &clause.exception)?,
        user: clause.user,
        label: Bytes::from_slice(alloc, clause.label.as_slice())?,
        inline: copied_names(alloc, &clause.inline)?,
    })
}

/// Appends copies of clauses under what stands for type parameters.
pub fn push_clauses_under(
    alloc: Global,
    out: &mut Clauses,
    under: &Option<Boxed<Under>>,
    clauses: &[Clause],
) -> Result<(), AllocError>
    ensures { OnOk result (out.new ≡ out.old ++ map (clause_under under.now) clauses.now) }
{
    for clause in clauses {
        out.push(clause_under(alloc, under, clause)?)?;
    }
    Ok(())
}

/// An equal clause of its own.
#[tactic(auto, using(crate::proofs::CopyLaws::clause_as_it_is))]
fn copied_clause(alloc: Global, clause: &Clause) -> Result<Clause, AllocError>
    ensures { IfOk result (λ it. it ≡ clause.now) }
{
    clause_under(alloc, &None, clause)
}

/// Appends equal clauses.
pub fn push_clauses(alloc: Global, out: &mut Clauses, clauses: &[Clause]) -> Result<(), AllocError>
    ensures { OnOk result (out.new ≡ out.old ++ clauses.now) }
{
    for clause in clauses {
        out.push(copied_clause(alloc, clause)?)?;
    }
    Ok(())
}
