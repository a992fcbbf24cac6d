// Parts of the code.

ghost use Rattle.std.specs.Prelude.{◌≡◌, ◌≤◌, ◌-◌, length};
ghost use Rattle.std.specs.List.{slice_range};

use cil_model::Instr;

/// The instructions from a place up to another, as many as there are.
pub fn part(instrs: &[Instr], from: usize, to: usize) -> &[Instr]
    ensures list { result.now ≡ slice_range instrs.now from to }
    ensures within { length result.now ≤ length instrs.now - from }
{
    let rest = &instrs[from.min(instrs.len())..];
    &rest[..to.saturating_sub(from).min(rest.len())]
}
