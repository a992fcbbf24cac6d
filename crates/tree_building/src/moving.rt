// Spans that are moved from one list to another, and spans as blocks. A list of spans that stand behind
// others has its first span last.
ghost use Rattle.std.specs.Prelude.{◌≡◌, ◌≤◌, ◌<◌, ◌++◌, [], reverse, OnOk, IfOk};
ghost use Rattle.tree_building.specs.Spans.{LastIs, blocks_of, with_handlers};

use crate::span::{Span, Spans};
use cil_model::{Block, Blocks};
use std::alloc::{AllocError, Global};

/// Moves the last spans that don't begin before a place behind the others.
pub(crate) fn move_back(place: u32, front: &mut Spans, back: &mut Spans) -> Result<(), AllocError>
    ensures all { OnOk result (front.new ++ reverse back.new ≡ front.old ++ reverse back.old) }
    ensures front { OnOk result (LastIs (λ s. s.from < place) front.new) }
    ensures back { OnOk result (LastIs (λ s. place ≤ s.from) back.old → LastIs (λ s. place ≤ s.from) back.new) }
{
    while let Some(span) = front.pop() {
        if span.from < place {
            return front.push(span);
        }
        back.push(span)?;
    }
    Ok(())
}

/// Moves the spans that begin before a place to the front.
pub(crate) fn move_front(place: u32, front: &mut Spans, back: &mut Spans) -> Result<(), AllocError>
    ensures all { OnOk result (front.new ++ reverse back.new ≡ front.old ++ reverse back.old) }
    ensures back { OnOk result (LastIs (λ s. place ≤ s.from) back.new) }
{
    while let Some(span) = back.pop() {
        if place <= span.from {
            return back.push(span);
        }
        front.push(span)?;
    }
    Ok(())
}

/// Puts blocks behind others, in whose place they come where there are none yet.
fn put_blocks(blocks: Blocks, out: &mut Blocks) -> Result<(), AllocError>
    ensures { OnOk result (out.new ≡ out.old ++ blocks) }
{
    if out.is_empty() {
        *out = blocks;
        return Ok(());
    }
    out.append(blocks)
}

fn put_span(span: Span, out: &mut Blocks) -> Result<(), AllocError>
    ensures { OnOk result (out.new ≡ out.old ++ with_handlers span.inner span.handlers) }
{
    let inner = span.inner;
    let handlers = span.handlers;
    if handlers.is_empty() {
        return put_blocks(inner, out);
    }
    out.push(Block::Guarded { inner, handlers })
}

/// The blocks of spans of which the first stands last. No span is left.
pub(crate) fn take_blocks(alloc: Global, spans: &mut Spans) -> Result<Blocks, AllocError>
    ensures blocks { IfOk result (λ blocks. blocks ≡ blocks_of (reverse spans.old)) }
    ensures emptied { OnOk result (spans.new ≡ []) }
{
    let mut out = Blocks::new(alloc);
    while let Some(span) = spans.pop() {
        put_span(span, &mut out)?;
    }
    Ok(out)
}
