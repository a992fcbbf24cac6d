// What a `leave` goes through (ECMA-335, III.3.46).

ghost use Rattle.std.specs.Prelude.{◌≡◌, ◌&&◌, not, option_map};
ghost use Rattle.cil_semantics.specs.Unwind.{in_try, is_finally, left_from};

use crate::regions::is_in_try;
use cil_model::{Region, RegionKind};

fn is_finally(kind: &RegionKind) -> bool
    ensures { result ≡ is_finally kind.now }
{
    match kind {
        RegionKind::Finally => true,
        _ => false,
    }
}

fn is_left(region: &Region, q: u32, t: u32) -> bool
    ensures { result ≡ (is_finally region.now.kind && (in_try region.now q && not (in_try region.now t))) }
{
    is_finally(&region.kind) && (is_in_try(region, q) && !is_in_try(region, t))
}

/// The first finally from a number on whose try block holds the place `q` and not the target `t`, with its number.
pub fn find_finally(regions: &[Region], skip: usize, q: u32, t: u32) -> Option<(usize, &Region)>
    ensures { option_map (λ x. (x.0, x.1.now)) result ≡ left_from skip 0 q t regions.now }
{
    for k in skip..regions.len() {
        if is_left(&regions[k], q, t) {
            return Some((k, &regions[k]));
        }
    }
    None
}
