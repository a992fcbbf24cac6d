// How many rows of a table stand before those of each assembly.
ghost use Rattle.std.specs.Prelude.{◌≡◌, ◌<◌, ◌^◌, ◌+◌, ◌-◌, length, get_or, map, IfOk};
ghost use Rattle.std.specs.List.{range_with_len};
ghost use Rattle.member_numbers.specs.Kept.{rows_before};

use set_program::Part;
use std::alloc::{AllocError, Global};

/// A sum of numbers of rows; want of memory where it passes 2^32, since so many would not be held.
fn sum(a: u32, b: u32) -> Result<u32, AllocError>
    ensures is { IfOk result (λ n. n ≡ a + b) }
    ensures fits { IfOk result (λ n. n < 2 ^ 32) }
{
    match a.checked_add(b) {
        Some(n) => Ok(n),
        None => Err(AllocError),
    }
}

/// By assembly from the first other one: how many rows stand before its own; TARGET's are last.
pub fn starts(alloc: Global, set: &[Part<'_>], table: u8) -> Result<Vec<u32>, AllocError>
    requires { 0 < length set.now }
    ensures { IfOk result (λ v. v.items ≡ map (rows_before set.now table) (range_with_len 1 (length set.now))) }
{
    let mut starts = Vec::new(alloc);
    let mut total = 0;
    for a in 1..set.len() {
        starts.push(total)?;
        total = sum(total, set[a].count(table))?;
    }
    starts.push(total)?;
    Ok(starts)
}

/// How many rows stand before those of an assembly, where `starts` has them.
pub fn start_at(starts: &[u32], a: usize) -> u32
    ensures { result ≡ get_or starts.now (a - 1) 0 }
{
    match starts.get(a.saturating_sub(1)) {
        Some(start) => *start,
        None => 0,
    }
}

/// How many members there are, where so many rows of other assemblies stand before TARGET's.
pub fn total(before: u32, old: u32, outside: usize, own: u32) -> Result<u32, AllocError>
    ensures is { IfOk result (λ n. n ≡ before + old + outside + (own - old)) }
    ensures fits { IfOk result (λ n. n < 2 ^ 32) }
{
    if outside > 0xFFFF_FFFF {
        return Err(AllocError);
    }
    let front = sum(before, old)?;
    let front = sum(front, outside as u32)?;
    sum(front, own.saturating_sub(old))
}
