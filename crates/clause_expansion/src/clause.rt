// A clause that a call of an abbreviator stands for.

ghost use Rattle.std.specs.Prelude.{◌≡◌, ◌++◌, map, IfOk, OnOk};
ghost use Rattle.clause_types.specs.ClauseTypes.{ref_under};
ghost use Rattle.clause_expansion.specs.Expansion.{starts, expanded_old, expanded};
ghost use Rattle.clause_expansion.specs.Labels.{labelled, labelled_from, numbers_behind, numbers_behind_all};

use crate::instrs::expanded_instrs;
use crate::labels::put_labels;
use crate::places::{place_in, starts};
use crate::site::Site;
use cil_base::Bytes;
use cil_model::{Clause, Clauses, Old, Olds, Program, TyRefs};
use clause_types::{copied_names, exception_under, push_refs, push_refs_under, ref_under};
use contract_extract::Numbers;
use std::alloc::{AllocError, Global};

fn expanded_locals(alloc: Global, site: &Site, locals: &TyRefs) -> Result<TyRefs, AllocError>
    ensures { IfOk result (λ out. out ≡ map (ref_under site.now.under) locals.now ++ site.now.locals) }
{
    let mut out = TyRefs::new(alloc);
    push_refs_under(alloc, &mut out, &site.under, locals.as_slice())?;
    push_refs(alloc, &mut out, site.locals.as_slice())?;
    Ok(out)
}

fn expanded_old(alloc: Global, site: &Site, starts: &[u32], old: &Old) -> Result<Old, AllocError>
    ensures { IfOk result (λ it. it ≡ expanded_old site.now starts.now old.now) }
{
    Ok(Old {
        from: place_in(starts, old.from as usize),
        to: place_in(starts, old.to as usize),
        ty: ref_under(alloc, &site.under, &old.ty)?,
    })
}

fn expanded_olds(
    alloc: Global,
    site: &Site,
    starts: &[u32],
    olds: &[Old],
) -> Result<Olds, AllocError>
    ensures { IfOk result (λ out. out ≡ map (expanded_old site.now starts.now) olds.now) }
{
    let mut out = Olds::new(alloc);
    for old in olds {
        out.push(expanded_old(alloc, site, starts, old)?)?;
    }
    Ok(out)
}

/// The clause that a call of its abbreviator stands for, with the abbreviator's labels.
#[tactic(auto, unfolding(crate::specs::Expansion::expanded))]
pub fn expanded(alloc: Global, site: &Site, clause: &Clause) -> Result<Clause, AllocError>
    ensures { IfOk result (λ it. it ≡ expanded site.now clause.now) }
{
    let starts = starts(alloc, site, clause.instrs.as_slice())?;
    Ok(Clause {
        kind: clause.kind,
        home: clause.home,
        instrs: expanded_instrs(alloc, site, clause, &starts)?,
        locals: expanded_locals(alloc, site, &clause.locals)?,
        olds: expanded_olds(alloc, site, &starts, clause.olds.as_slice())?,
        exception: exception_under(alloc, &site.under, &clause.exception)?,
        user: clause.user,
        label: Bytes::from_slice(alloc, clause.label.as_slice())?,
        inline: copied_names(alloc, &clause.inline)?,
    })
}

fn labelled(
    alloc: Global,
    program: &Program,
    method: u32,
    numbers: &mut Numbers,
    site: &Site,
    clause: &Clause,
) -> Result<Clause, AllocError>
    ensures clause { IfOk result (λ it. it ≡ labelled program.now method numbers.old (expanded site.now clause.now)) }
    ensures more { OnOk result (numbers.new ≡ numbers_behind program.now numbers.old (expanded site.now clause.now)) }
{
    let mut copy = expanded(alloc, site, clause)?;
    put_labels(alloc, program, method, numbers, &mut copy)?;
    Ok(copy)
}

/// Appends the clauses that a call of their abbreviator in a method stands for, with labels behind those of
/// so many others.
pub fn push_expanded(
    alloc: Global,
    program: &Program,
    method: u32,
    out: &mut Clauses,
    numbers: &mut Numbers,
    site: &Site,
    clauses: &[Clause],
) -> Result<(), AllocError>
    ensures clauses { OnOk result (out.new ≡ out.old ++ labelled_from program.now method numbers.old (map (expanded site.now) clauses.now)) }
    ensures more { OnOk result (numbers.new ≡ numbers_behind_all program.now numbers.old (map (expanded site.now) clauses.now)) }
{
    for clause in clauses {
        out.push(labelled(alloc, program, method, numbers, site, clause)?)?;
    }
    Ok(())
}
