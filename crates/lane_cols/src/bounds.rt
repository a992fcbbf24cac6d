// Whether a column stays under a bound.
ghost use Rattle.std.specs.Prelude.{◌≡◌, ◌+◌, ◌<◌, ◌≤◌, ◌^◌, length, count_by, nat_lt, nat_le, slice_range, drop};
ghost use Rattle.std.specs.List.{list_all};

use crate::LANES;
use std::simd::prelude::*;

/// How many entries of a block are not above the bound.
fn count_below(col: &[u32], at: usize, bound: u32) -> u32
    requires { at + 8 ≤ length col.now }
    ensures { result ≡ count_by (λ x. nat_le x bound) (slice_range col.now at (at + 8)) }
{
    let lanes = u32x8::from_slice(&col[at..]);
    lanes.simd_le(u32x8::splat(bound)).to_bitmask().count_ones()
}

fn each_at_most(col: &[u32], bound: u32) -> bool
    ensures { result ≡ list_all (λ x. nat_le x bound) col.now }
{
    col.iter().all(|x| *x <= bound)
}

/// Whether no entry is above the bound. It takes no memory.
pub fn all_at_most(col: &[u32], bound: u32) -> bool
    ensures { result ≡ list_all (λ x. nat_le x bound) col.now }
{
    let mut at = 0;
    while col.len() - at >= LANES {
        if count_below(col, at, bound) != 8 {
            return false;
        }
        at += LANES;
    }
    each_at_most(&col[at..], bound)
}
