// The locals that the parts of a body store.

ghost use Rattle.std.specs.Prelude.{◌≡◌, IfOk};
ghost use Rattle.std.specs.List.{filter_map};
ghost use Rattle.contract_parts.specs.Parts.{lead_end, rest_from};
ghost use Rattle.contract_extract.specs.Clauses.{distinct_behind};
ghost use Rattle.contract_extract.specs.Locals.{used, locals_used};
ghost use Rattle.contract_extract.specs.Marks.{AreLocals};
ghost use Rattle.contract_extract.specs.declared.locals.Use.TheVariants as how;

use crate::locals::{Locals, Use};
use cil_model::Instr;
use contract_parts::{Code, part};
use std::alloc::{AllocError, Global};

/// The locals that the lead-in and the contract block store or whose address they take, and those
/// that the lead-in or the rest stores.
#[derive(Drop)]
pub struct PartLocals {
    pub(crate) lead_written: Locals,
    pub(crate) block_written: Locals,
    pub(crate) stored_outside: Locals,
}

/// The locals that two parts store.
fn stored_in_both(alloc: Global, first: &[Instr], other: &[Instr]) -> Result<Locals, AllocError>
    ensures { IfOk result (λ locals. locals ≡ distinct_behind (locals_used how.Stores first.now) (filter_map (used how.Stores) other.now)) }
{
    let mut locals = Locals::used(alloc, Use::Stores, first)?;
    locals.add_used(Use::Stores, other)?;
    Ok(locals)
}

impl PartLocals {
    /// Those of a body whose lead-in ends and whose rest begins at these places.
    pub fn new(alloc: Global, code: &Code, lead: u32, rest: u32) -> Result<PartLocals, AllocError>
        requires lead { lead ≡ lead_end code.now }
        requires rest { rest ≡ rest_from code.now }
        ensures { IfOk result (AreLocals code.now) }
    {
        let instrs = code.instrs();
        let before = part(instrs, 0, lead as usize);
        let block = part(instrs, lead as usize, rest as usize);
        let behind = part(instrs, rest as usize, instrs.len());
        Ok(PartLocals {
            lead_written: Locals::used(alloc, Use::Writes, before)?,
            block_written: Locals::used(alloc, Use::Writes, block)?,
            stored_outside: stored_in_both(alloc, before, behind)?,
        })
    }
}
