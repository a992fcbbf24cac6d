// Rows of a table that are added to finished blocks, one after another.
ghost use Rattle.std.specs.Prelude.{◌≡◌, ◌++◌, [], reverse, OnOk};
ghost use Rattle.tree_building.specs.Building.{AddsRow};
ghost use Rattle.tree_building.specs.Spans.{BeginsTry, EndsLonger};

use crate::moving::{move_back, move_front, take_blocks};
use crate::span::{Span, Spans};
use cil_model::{Blocks, Handler, Handlers, Region};
use region_tree::same_kind;
use std::alloc::{AllocError, Global};

/// Makes one span of the last ones, from the region's try on, with its first handler. `within` is a list
/// to use.
fn begin_try(
    alloc: Global,
    region: &Region,
    blocks: Blocks,
    front: &mut Spans,
    within: &mut Spans,
) -> Result<(), AllocError>
    requires { within.old ≡ [] }
    ensures begun { OnOk result (BeginsTry region.now blocks front.old front.new) }
    ensures emptied { OnOk result (within.new ≡ []) }
{
    move_back(region.try_from, front, within)?;
    let inner = take_blocks(alloc, within)?;
    let mut handlers = Handlers::new(alloc);
    let kind = same_kind(&region.kind);
    handlers.push(Handler { kind, blocks })?;
    front.push(Span {
        from: region.try_from,
        to: region.try_to,
        end: region.handler_to,
        inner,
        handlers,
    })
}

/// Gives the last span one more handler.
fn add_handler(region: &Region, blocks: Blocks, front: &mut Spans) -> Result<(), AllocError>
    ensures { OnOk result (EndsLonger region.now blocks front.old front.new) }
{
    match front.pop() {
        Some(span) => {
            let mut longer = span;
            let kind = same_kind(&region.kind);
            longer.handlers.push(Handler { kind, blocks })?;
            longer.end = region.handler_to;
            front.push(longer)
        }
        None => Ok(()),
    }
}

/// Adds the handler of a region to its try, or begins the try with it. What stands in the handler, and
/// in a try that begins, becomes the block's own. `own` is a list to use.
pub(crate) fn add_row(
    alloc: Global,
    region: &Region,
    front: &mut Spans,
    back: &mut Spans,
    own: &mut Spans,
) -> Result<(), AllocError>
    requires { own.old ≡ [] }
    ensures emptied { OnOk result (own.new ≡ []) }
    ensures added { OnOk result (AddsRow region.now (front.old ++ reverse back.old) (front.new ++ reverse back.new)) }
{
    move_front(region.handler_to, front, back)?;
    move_back(region.handler_to, front, back)?;
    move_back(region.handler_from, front, own)?;
    let blocks = take_blocks(alloc, own)?;
    if region.handler_from == region.try_to {
        return begin_try(alloc, region, blocks, front, own);
    }
    add_handler(region, blocks, front)
}
