// How the regions of a table lie to each other.
ghost use Rattle.std.specs.Prelude.{◌≡◌, ◌<◌, ◌≤◌, ◌&&◌, ◌||◌, length, IfOk};
ghost use Rattle.std.specs.List.{list_any};
ghost use Rattle.region_tree.specs.Nesting.{are_apart, breaks_nesting, deepest_around, depths_of, handler_start, handlers_meet, has_parts, have_same_try, is_misplaced, is_nested, lies_in, parts_meet, ranges_meet};

use cil_base::limits::NESTING_LIMIT;
use cil_model::Region;
use std::alloc::{AllocError, Global};

fn lies_in(from: u32, to: u32, outer_from: u32, outer_to: u32) -> bool
    ensures { result ≡ lies_in from to outer_from outer_to }
{
    outer_from <= from && to <= outer_to
}

fn ranges_meet(from: u32, to: u32, other_from: u32, other_to: u32) -> bool
    ensures { result ≡ ranges_meet from to other_from other_to }
{
    from.max(other_from) < to.min(other_to)
}

fn have_same_try(region: &Region, other: &Region) -> bool
    ensures { result ≡ have_same_try region.now other.now }
{
    region.try_from == other.try_from && region.try_to == other.try_to
}

fn both_lie_in(region: &Region, from: u32, to: u32) -> bool
    ensures { result ≡ (lies_in region.now.try_from region.now.try_to from to && lies_in region.now.handler_from region.now.handler_to from to) }
{
    lies_in(region.try_from, region.try_to, from, to)
        && lies_in(region.handler_from, region.handler_to, from, to)
}

fn is_nested(region: &Region, outer: &Region) -> bool
    ensures { result ≡ is_nested region.now outer.now }
{
    both_lie_in(region, outer.try_from, outer.try_to)
        || both_lie_in(region, outer.handler_from, outer.handler_to)
}

fn part_meets(from: u32, to: u32, other: &Region) -> bool
    ensures { result ≡ (ranges_meet from to other.now.try_from other.now.try_to || ranges_meet from to other.now.handler_from other.now.handler_to) }
{
    ranges_meet(from, to, other.try_from, other.try_to)
        || ranges_meet(from, to, other.handler_from, other.handler_to)
}

fn parts_meet(region: &Region, other: &Region) -> bool
    ensures { result ≡ parts_meet region.now other.now }
{
    part_meets(region.try_from, region.try_to, other)
        || part_meets(region.handler_from, region.handler_to, other)
}

fn handlers_meet(region: &Region, other: &Region) -> bool
    ensures { result ≡ handlers_meet region.now other.now }
{
    ranges_meet(
        region.handler_from,
        region.handler_to,
        other.handler_from,
        other.handler_to,
    )
}

fn are_apart(region: &Region, other: &Region) -> bool
    ensures { result ≡ are_apart region.now other.now }
{
    !parts_meet(region, other) || (have_same_try(region, other) && !handlers_meet(region, other))
}

fn is_misplaced(earlier: &Region, later: &Region) -> bool
    ensures { result ≡ is_misplaced earlier.now later.now }
{
    is_nested(later, earlier) || !(is_nested(earlier, later) || are_apart(earlier, later))
}

fn is_misplaced_behind(earlier: &[Region], region: &Region) -> bool
    ensures { result ≡ list_any (λ r. is_misplaced r region.now) earlier.now }
{
    for other in earlier {
        if is_misplaced(other, region) {
            return true;
        }
    }
    false
}

fn handler_start(earlier: &[Region], region: &Region) -> u32
    ensures { result ≡ handler_start earlier.now region.now }
{
    let mut start = region.try_to;
    for other in earlier {
        if have_same_try(other, region) {
            start = other.handler_to;
        }
    }
    start
}

fn has_parts(region: &Region) -> bool
    ensures { result ≡ has_parts region.now }
{
    region.try_from < region.try_to && region.handler_from < region.handler_to
}

/// Whether a region may not lie so to those before it in the table, lies too deep, or has no code in its
/// try or its handler.
pub(crate) fn breaks_nesting(earlier: &[Region], region: &Region, depth: usize) -> bool
    ensures { result ≡ breaks_nesting earlier.now region.now depth }
{
    is_misplaced_behind(earlier, region)
        || region.handler_from != handler_start(earlier, region)
        || depth > NESTING_LIMIT as usize
        || !has_parts(region)
}

/// The greatest depth of those regions in which one is nested.
fn deepest_around(region: &Region, others: &[Region], depths: &[usize]) -> usize
    requires { length depths.now ≡ length others.now }
    ensures value { result ≡ deepest_around region.now others.now depths.now }
    ensures within { depths.now ≡ depths_of others.now → result ≤ length others.now }
{
    let mut deepest = 0;
    for k in 0..others.len() {
        if is_nested(region, &others[k]) {
            deepest = depths[k].max(deepest);
        }
    }
    deepest
}

fn fill_depths(depths: &mut [usize], regions: &[Region])
    requires { length depths.old ≡ length regions.now }
    ensures { depths.new ≡ depths_of regions.now }
{
    let mut left = regions.len();
    while 0 < left {
        let around = deepest_around(&regions[left - 1], &regions[left..], &depths[left..]);
        left -= 1;
        depths[left] = around + 1;
    }
}

/// How deep each region of a table lies.
pub(crate) fn depths_of(alloc: Global, regions: &[Region]) -> Result<Vec<usize>, AllocError>
    ensures { IfOk result (λ depths. depths.items ≡ depths_of regions.now) }
{
    let mut depths = vec![in alloc; 0usize; regions.len()]?;
    fill_depths(&mut depths, regions);
    Ok(depths)
}
