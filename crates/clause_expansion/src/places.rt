// Where what stands for each instruction of an abbreviator's clause begins.

ghost use Rattle.std.specs.Prelude.{◌≡◌, ◌+◌, length, option_copied, IfOk};
ghost use Rattle.contract_extract.specs.Clauses.{in_32_bits};
ghost use Rattle.contract_parts.specs.Parts.{index_of, index_if};
ghost use Rattle.clause_expansion.specs.Expansion.{parameter, argument_for, width, starts_from, starts, place_in, behind};

use crate::site::Site;
use cil_model::{Instr, Instrs, Operand};
use std::alloc::{AllocError, Global};

/// A number that 32 bits hold.
fn in_32_bits(n: usize) -> u32
    ensures { result ≡ in_32_bits n }
{
    n.min(u32::MAX as usize) as u32
}

/// A number behind so many others.
pub(crate) fn behind(n: usize, k: u32) -> u32
    ensures { result ≡ behind n k }
{
    in_32_bits((k as usize).saturating_add(n))
}

fn parameter(instr: &Instr) -> Option<u32>
    ensures { result ≡ parameter instr.now }
{
    match &instr.operand {
        Operand::Index(k) if instr.op == 0xFE09 => Some(*k),
        _ => None,
    }
}

/// The argument that stands in the place of an instruction.
pub(crate) fn argument_for<'a>(args: &'a [Instrs], instr: &Instr) -> Option<&'a Instrs>
    ensures { option_copied result ≡ argument_for args.now instr.now }
{
    match parameter(instr) {
        Some(k) => args.get(k as usize),
        None => None,
    }
}

fn width(args: &[Instrs], instr: &Instr) -> usize
    ensures { result ≡ width args.now instr.now }
{
    match argument_for(args, instr) {
        Some(arg) => arg.len(),
        None => 1,
    }
}

/// Where what stands for each instruction begins, and where the last one's ends.
pub(crate) fn starts(alloc: Global, site: &Site, instrs: &[Instr]) -> Result<Vec<u32>, AllocError>
    ensures { IfOk result (λ out. out.items ≡ starts site.now instrs.now) }
{
    let args = site.args.as_slice();
    let mut out = Vec::new(alloc);
    let mut at = in_32_bits(site.lead.len());
    for instr in instrs {
        out.push(at)?;
        at = behind(width(args, instr), at);
    }
    out.push(at)?;
    Ok(out)
}

/// Where a place lies now.
pub(crate) fn place_in(starts: &[u32], place: usize) -> u32
    ensures { result ≡ place_in starts.now place }
{
    match starts.get(place.min(starts.len().saturating_sub(1))) {
        Some(start) => *start,
        None => 0,
    }
}
