// The numbers of the types of a set.
ghost use Rattle.std.specs.Prelude.{◌≡◌, ◌<◌, ◌^◌, ◌+◌, ◌-◌, length, map, IfOk};
ghost use Rattle.std.specs.List.{range_with_len};
ghost use Rattle.set_rows.specs.Sets.{assembly_at};
ghost use Rattle.set_program.specs.Numbering.{type_cut};
ghost use Rattle.type_table.specs.Table.{types_before};

use cil_base::tables::TYPE_DEF;
use set_program::Part;
use std::alloc::{AllocError, Global};

/// A sum of numbers of types; want of memory where it passes 2^32, since so many types would not be held.
fn sum(a: u32, b: u32) -> Result<u32, AllocError>
    ensures is { IfOk result (λ n. n ≡ a + b) }
    ensures fits { IfOk result (λ n. n < 2 ^ 32) }
{
    match a.checked_add(b) {
        Some(n) => Ok(n),
        None => Err(AllocError),
    }
}

/// By assembly from the first other one: how many types stand before its own; TARGET's are last.
pub fn starts(alloc: Global, set: &[Part<'_>]) -> Result<Vec<u32>, AllocError>
    requires { 0 < length set.now }
    ensures { IfOk result (λ v. v.items ≡ map (types_before set.now) (range_with_len 1 (length set.now))) }
{
    let mut starts = Vec::new(alloc);
    let mut total = 0;
    for a in 1..set.len() {
        starts.push(total)?;
        total = sum(total, set[a].count(TYPE_DEF))?;
    }
    starts.push(total)?;
    Ok(starts)
}

/// How many of TARGET's types stand before its runtime class.
pub fn old_types(target: &Part<'_>) -> u32
    ensures { result ≡ type_cut target.now - 1 }
{
    match target.type_named(b"__ContractsRuntime") {
        Some(row) => row.saturating_sub(1),
        None => target.count(TYPE_DEF),
    }
}

/// How many types there are, where so many of other assemblies stand before TARGET's.
pub fn all_types(before: u32, own: u32, names: usize) -> Result<u32, AllocError>
    ensures is { IfOk result (λ n. n ≡ before + own + names) }
    ensures fits { IfOk result (λ n. n < 2 ^ 32) }
{
    if names > 0xFFFF_FFFF {
        return Err(AllocError);
    }
    sum(sum(before, own)?, names as u32)
}
