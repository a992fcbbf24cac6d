// Instructions of a clause that a call of an abbreviator stands for.

ghost use Rattle.std.specs.Prelude.{◌≡◌, ◌++◌, map, length, IfOk, OnOk};
ghost use Rattle.std.specs.List.{enumerate_from, flat_map};
ghost use Rattle.contract_parts.specs.Parts.{named};
ghost use Rattle.clause_expansion.specs.Expansion.{starts, place_in, retargeted, behind, copied_operand, copied, kept, part, expanded_instrs};

use crate::places::{argument_for, behind, place_in};
use crate::site::Site;
use cil_base::U32s;
use cil_model::{Clause, Instr, Instrs, Operand};
use clause_types::instr_under;
use contract_parts::named;
use std::alloc::{AllocError, Global};

fn all_behind(alloc: Global, n: u32, targets: &[u32]) -> Result<U32s, AllocError>
    ensures { IfOk result (λ out. out ≡ map (behind n) targets.now) }
{
    let mut out = U32s::new(alloc);
    for target in targets {
        out.push(behind(n as usize, *target))?;
    }
    Ok(out)
}

fn places_in(alloc: Global, starts: &[u32], targets: &[u32]) -> Result<U32s, AllocError>
    ensures { IfOk result (λ out. out ≡ map (place_in starts.now) targets.now) }
{
    let mut out = U32s::new(alloc);
    for target in targets {
        out.push(place_in(starts, *target as usize))?;
    }
    Ok(out)
}

/// An operand whose targets lie behind a place.
fn moved_operand(alloc: Global, at: u32, operand: &Operand) -> Result<Operand, AllocError>
    ensures { IfOk result (λ it. it ≡ retargeted (behind at) operand.now) }
{
    match operand {
        Operand::Target(t) => Ok(Operand::Target(behind(at as usize, *t))),
        Operand::Targets(ts) => Ok(Operand::Targets(all_behind(alloc, at, ts.as_slice())?)),
        _ => operand.copied(alloc),
    }
}

/// An operand whose targets lie where these places are now.
fn placed_operand(alloc: Global, starts: &[u32], operand: &Operand) -> Result<Operand, AllocError>
    ensures { IfOk result (λ it. it ≡ retargeted (place_in starts.now) operand.now) }
{
    match operand {
        Operand::Target(t) => Ok(Operand::Target(place_in(starts, *t as usize))),
        Operand::Targets(ts) => Ok(Operand::Targets(places_in(alloc, starts, ts.as_slice())?)),
        _ => operand.copied(alloc),
    }
}

/// A caller's instruction in a copy that begins at a place, with the caller's locals behind so many.
fn copied(alloc: Global, at: u32, locals: usize, instr: &Instr) -> Result<Instr, AllocError>
    ensures { IfOk result (λ it. it ≡ copied at locals instr.now) }
{
    let mut copy = instr.copied(alloc)?;
    copy.operand = match named(instr) {
        Some(k) => Operand::Index(behind(locals, k)),
        None => moved_operand(alloc, at, &instr.operand)?,
    };
    Ok(copy)
}

fn push_copies(
    alloc: Global,
    out: &mut Instrs,
    at: u32,
    locals: usize,
    instrs: &[Instr],
) -> Result<(), AllocError>
    ensures { OnOk result (out.new ≡ out.old ++ map (copied at locals) instrs.now) }
{
    for instr in instrs {
        out.push(copied(alloc, at, locals, instr)?)?;
    }
    Ok(())
}

/// An abbreviator's instruction.
fn kept(alloc: Global, site: &Site, starts: &[u32], instr: &Instr) -> Result<Instr, AllocError>
    ensures { IfOk result (λ it. it ≡ kept site.now starts.now instr.now) }
{
    let mut copy = instr_under(alloc, &site.under, instr)?;
    copy.operand = placed_operand(alloc, starts, &instr.operand)?;
    Ok(copy)
}

/// Appends what stands for the instruction at a place.
fn push_part(
    alloc: Global,
    out: &mut Instrs,
    site: &Site,
    starts: &[u32],
    locals: usize,
    at: usize,
    instr: &Instr,
) -> Result<(), AllocError>
    ensures { OnOk result (out.new ≡ out.old ++ part site.now starts.now locals (at, instr.now)) }
{
    match argument_for(site.args.as_slice(), instr) {
        Some(arg) => push_copies(alloc, out, place_in(starts, at), locals, arg.as_slice()),
        None => out.push(kept(alloc, site, starts, instr)?),
    }
}

fn push_parts(
    alloc: Global,
    out: &mut Instrs,
    site: &Site,
    starts: &[u32],
    locals: usize,
    instrs: &[Instr],
) -> Result<(), AllocError>
    ensures { OnOk result (out.new ≡ out.old ++ flat_map (part site.now starts.now locals) (enumerate_from 0 instrs.now)) }
{
    let mut at = 0;
    for instr in instrs {
        push_part(alloc, out, site, starts, locals, at, instr)?;
        at += 1;
    }
    Ok(())
}

/// The instructions before the arguments, and what stands for the clause's.
pub(crate) fn expanded_instrs(
    alloc: Global,
    site: &Site,
    clause: &Clause,
    places: &[u32],
) -> Result<Instrs, AllocError>
    requires { places.now ≡ starts site.now clause.now.instrs }
    ensures { IfOk result (λ out. out ≡ expanded_instrs site.now clause.now) }
{
    let locals = clause.locals.len();
    let mut out = Instrs::new(alloc);
    push_copies(alloc, &mut out, 0, locals, site.lead.as_slice())?;
    push_parts(
        alloc,
        &mut out,
        site,
        places,
        locals,
        clause.instrs.as_slice(),
    )?;
    Ok(out)
}
