// Where a column holds a value.
ghost use Rattle.std.specs.Prelude.{◌≡◌, ◌+◌, ◌<◌, ◌≤◌, ◌^◌, ◌++◌, ◌==◌, length, IfOk, OnOk, count_by, slice_range};
ghost use Rattle.lane_cols.specs.Places.{places, places_from};

use crate::LANES;
use cil_base::U32s;
use std::alloc::{AllocError, Global};
use std::simd::prelude::*;

/// How many entries of a block equal the value.
fn count_in(col: &[u32], at: usize, v: u32) -> u32
    requires { at + 8 ≤ length col.now }
    ensures { result ≡ count_by (λ x. x == v) (slice_range col.now at (at + 8)) }
{
    let lanes = u32x8::from_slice(&col[at..]);
    lanes.simd_eq(u32x8::splat(v)).to_bitmask().count_ones()
}

/// Appends the places from one on up to another.
fn push_places(
    out: &mut U32s,
    col: &[u32],
    from: usize,
    to: usize,
    v: u32,
) -> Result<(), AllocError>
    requires order { from ≤ to }
    requires within { to ≤ length col.now }
    requires small { length col.now < 2 ^ 32 }
    ensures { OnOk result (out.new ≡ out.old ++ places_from from v (slice_range col.now from to)) }
{
    for i in from..to {
        if col[i] == v {
            out.push(i as u32)?;
        }
    }
    Ok(())
}

/// Appends the places within a block.
fn push_block(out: &mut U32s, col: &[u32], at: usize, v: u32) -> Result<(), AllocError>
    requires within { at + 8 ≤ length col.now }
    requires small { length col.now < 2 ^ 32 }
    ensures { OnOk result (out.new ≡ out.old ++ places_from at v (slice_range col.now at (at + 8))) }
{
    if count_in(col, at, v) == 0 {
        return Ok(());
    }
    push_places(out, col, at, at + LANES, v)
}

/// The places that hold the value, rising from 0. The only error is want of memory.
pub fn places_of(alloc: Global, col: &[u32], v: u32) -> Result<U32s, AllocError>
    requires { length col.now < 2 ^ 32 }
    ensures { IfOk result (λ out. out ≡ places v col.now) }
{
    let mut out = U32s::new(alloc);
    let mut at = 0;
    while col.len() - at >= LANES {
        push_block(&mut out, col, at, v)?;
        at += LANES;
    }
    push_places(&mut out, col, at, col.len(), v)?;
    Ok(out)
}
