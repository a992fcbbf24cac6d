// Indexes of instructions for offsets.
ghost use Rattle.std.specs.Prelude.{◌≡◌, ◌<◌, ◌≤◌, ◌^◌, ◌+◌, ◌++◌, ◌∷◌, [], length, drop, take, Some, None, true, false, MatchOption, IfSome, position, is_none};
ghost use Rattle.cil_model.specs.BodyOf.{map_all, index_of, with_indexes};
ghost use Rattle.il_code.specs.Answers.{Rise};

use cil_base::U32s;
use cil_model::{Instr, Operand};

/// The index of the instruction at an offset.
pub(crate) fn index_in(offsets: &[u32], at: u64) -> Option<u32>
    requires rise { Rise offsets.now }
    requires few { length offsets.now < 2 ^ 32 }
    ensures { result ≡ index_of offsets.now at }
{
    if at > 0xFFFF_FFFF {
        return None;
    }
    match offsets.binary_search(&(at as u32)) {
        Ok(k) => Some(k as u32),
        Err(_) => None,
    }
}

/// The same for the end of a region, which may be the code's end.
pub(crate) fn end_index_in(offsets: &[u32], size: u32, at: u64) -> Option<u32>
    requires rise { Rise offsets.now }
    requires few { length offsets.now < 2 ^ 32 }
    ensures { result ≡ index_of (offsets.now ++ size ∷ []) at }
{
    match index_in(offsets, at) {
        Some(k) => Some(k),
        None => {
            if at == size as u64 {
                Some(offsets.len() as u32)
            } else {
                None
            }
        }
    }
}

/// Puts indexes for the targets of a switch, or answers false where one is no instruction's offset.
fn put_cases(offsets: &[u32], targets: &mut U32s) -> bool
    requires rise { Rise offsets.now }
    requires few { length offsets.now < 2 ^ 32 }
    ensures { MatchOption (map_all (index_of offsets.now) targets.old) (result ≡ false) (λ indexes. (result ≡ true) × (targets.new ≡ indexes)) }
{
    for k in 0..targets.len() {
        let at = targets.as_slice()[k];
        let Some(index) = index_in(offsets, at as u64) else {
            return false;
        };
        targets.set(k, index);
    }
    true
}

/// Puts indexes for an instruction's targets, or answers false where one is no instruction's offset.
fn put_indexes(offsets: &[u32], i: &mut Instr) -> bool
    requires rise { Rise offsets.now }
    requires few { length offsets.now < 2 ^ 32 }
    ensures { MatchOption (with_indexes offsets.now i.old) (result ≡ false) (λ j. (result ≡ true) × (i.new ≡ j)) }
{
    match &mut i.operand {
        Operand::Target(at) => {
            let Some(index) = index_in(offsets, *at as u64) else {
                return false;
            };
            *at = index;
            true
        }
        Operand::Targets(targets) => put_cases(offsets, targets),
        _ => true,
    }
}

/// Puts indexes for all targets, or answers the first instruction with a target that is no
/// instruction's offset.
pub(crate) fn put_all(offsets: &[u32], instrs: &mut Vec<Instr>) -> Option<usize>
    requires rise { Rise offsets.now }
    requires few { length offsets.now < 2 ^ 32 }
    ensures within { IfSome result (λ k. k < length instrs.old.items) }
    ensures all { MatchOption result (map_all (with_indexes offsets.now) instrs.old.items ≡ Some instrs.new.items) (λ k. position (λ i. is_none (with_indexes offsets.now i)) instrs.old.items ≡ Some k) }
{
    for (k, i) in instrs.iter_mut().enumerate() {
        if !put_indexes(offsets, i) {
            return Some(k);
        }
    }
    None
}
