// Tables whose rows stand as compilers write them: inner ones first, and others by their places.
ghost use Rattle.std.specs.Prelude.{◌≡◌, ◌+◌, ◌≤◌, ◌<◌, true, length, IfOk, IfSome};
ghost use Rattle.region_tree.specs.Extents.{PlacesRow, StandInOrder, Takes};
ghost use Rattle.region_tree.specs.Order.{HasParts};

use cil_model::Region;
use std::alloc::{AllocError, Global};

/// A protected block: its try, where its last handler so far ends, and how deep the regions are nested
/// in its try and in all of it.
#[derive(Clone, Copy)]
pub struct Extent {
    pub from: u32,
    pub to: u32,
    pub end: u32,
    pub inner: u32,
    pub height: u32,
}

/// How many blocks are left, and how deep the regions are nested in those that were taken.
#[derive(Clone, Copy)]
pub struct Taken {
    pub top: usize,
    pub height: u32,
}

/// Takes the last blocks down to one that begins before a place. None where one that is taken ends
/// behind another place, or where the last one that is left ends behind the first.
fn take_within(extents: &[Extent], top: usize, from: u32, to: u32) -> Option<Taken>
    requires { top ≤ length extents.now }
    ensures { IfSome result (Takes extents.now top from to) }
{
    let mut left = top;
    let mut height = 0;
    while 0 < left && from <= extents[left - 1].from {
        let last = extents[left - 1];
        if to < last.end {
            return None;
        }
        height = last.height.max(height);
        left -= 1;
    }
    if 0 < left && from < extents[left - 1].end {
        return None;
    }
    Some(Taken { top: left, height })
}

fn is_proper(region: &Region) -> bool
    ensures { result ≡ true → HasParts region.now }
{
    region.try_from < region.try_to
        && region.try_to <= region.handler_from
        && region.handler_from < region.handler_to
}

/// Makes one block of a try and its first handler.
fn begin_block(extents: &mut [Extent], top: usize, region: &Region, own: Taken) -> Option<usize>
    requires top { top < length extents.old }
    requires proper { HasParts region.now }
    requires first { region.now.handler_from ≡ region.now.try_to }
    requires own { Takes extents.old top region.now.handler_from region.now.handler_to own }
    ensures added { IfSome result (λ new_top. PlacesRow region.now extents.old extents.new top new_top) }
    ensures few { IfSome result (λ new_top. new_top ≤ top + 1) }
    ensures size { length extents.new ≡ length extents.old }
{
    let inner = take_within(extents, own.top, region.try_from, region.try_to)?;
    let below = own.height.max(inner.height);
    if below >= 1000 {
        return None;
    }
    extents[inner.top] = Extent {
        from: region.try_from,
        to: region.try_to,
        end: region.handler_to,
        inner: inner.height,
        height: below + 1,
    };
    Some(inner.top + 1)
}

/// Gives the last block one more handler.
fn extend_block(extents: &mut [Extent], top: usize, region: &Region, own: Taken) -> Option<usize>
    requires top { top < length extents.old }
    requires proper { HasParts region.now }
    requires own { Takes extents.old top region.now.handler_from region.now.handler_to own }
    ensures added { IfSome result (λ new_top. PlacesRow region.now extents.old extents.new top new_top) }
    ensures few { IfSome result (λ new_top. new_top ≤ top + 1) }
    ensures size { length extents.new ≡ length extents.old }
{
    if own.top == 0 {
        return None;
    }
    let last = extents[own.top - 1];
    let below = own.height.max(last.inner);
    if last.from != region.try_from
        || last.to != region.try_to
        || last.end != region.handler_from
        || below >= 1000
    {
        return None;
    }
    extents[own.top - 1] = Extent {
        from: last.from,
        to: last.to,
        end: region.handler_to,
        inner: last.inner,
        height: last.height.max(below + 1),
    };
    Some(own.top)
}

/// Adds the next row of a table to the blocks of those before it. None where it doesn't stand in order.
fn add_row(extents: &mut [Extent], top: usize, region: &Region) -> Option<usize>
    requires { top < length extents.old }
    ensures added { IfSome result (λ new_top. PlacesRow region.now extents.old extents.new top new_top) }
    ensures few { IfSome result (λ new_top. new_top ≤ top + 1) }
    ensures size { length extents.new ≡ length extents.old }
{
    if !is_proper(region) {
        return None;
    }
    let own = take_within(extents, top, region.handler_from, region.handler_to)?;
    if region.handler_from == region.try_to {
        return begin_block(extents, top, region, own);
    }
    extend_block(extents, top, region, own)
}

fn rows_stand_in_order(extents: &mut [Extent], regions: &[Region]) -> bool
    requires { length extents.old ≡ length regions.now }
    ensures { result ≡ true → StandInOrder regions.now }
{
    let mut top = 0;
    for k in 0..regions.len() {
        match add_row(extents, top, &regions[k]) {
            Some(next) => top = next,
            None => return false,
        }
    }
    true
}

/// Whether the rows of a table stand as compilers write them, and so break no rule on nesting. A table
/// in another order may break none either.
pub(crate) fn stand_in_order(alloc: Global, regions: &[Region]) -> Result<bool, AllocError>
    ensures { IfOk result (λ b. b ≡ true → StandInOrder regions.now) }
{
    let blank = Extent {
        from: 0,
        to: 0,
        end: 0,
        inner: 0,
        height: 0,
    };
    let mut extents = vec![in alloc; blank; regions.len()]?;
    let answer = rows_stand_in_order(&mut extents, regions);
    Ok(answer)
}
