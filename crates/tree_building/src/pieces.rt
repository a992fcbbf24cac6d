// Straight code, divided where a region's try or handler begins or ends.
ghost use Rattle.std.specs.Prelude.{◌≡◌, ◌<◌, ◌^◌, [], ◌∷◌, length, IfOk};
ghost use Rattle.cil_model.specs.declared.tree.Block.TheVariants.{Code};
ghost use Rattle.tree_building.specs.Building.{IsBuilt};

use crate::marks::next_mark;
use crate::span::{Span, Spans};
use cil_model::{Block, Blocks, Handlers, Instr, Instrs, Region};
use region_tree::marks_of;
use sqlite_items::Items;
use std::alloc::{AllocError, Global};

fn copied(alloc: Global, instrs: &[Instr]) -> Result<Instrs, AllocError>
    ensures { IfOk result (λ copies. copies ≡ instrs.now) }
{
    let mut copies = Items::from_vec(Vec::with_capacity(alloc, instrs.len())?);
    for i in instrs {
        copies.push(i.copied(alloc)?)?;
    }
    Ok(copies)
}

fn piece(alloc: Global, instrs: &[Instr], from: u32, to: u32) -> Result<Span, AllocError>
    ensures { IfOk result (λ s. s ≡ record { from = from; to = to; end = to; inner = Code instrs.now ∷ []; handlers = [] }) }
{
    let mut inner: Blocks = Items::from_vec(Vec::with_capacity(alloc, 1)?);
    inner.push(Block::Code(copied(alloc, instrs)?))?;
    Ok(Span {
        from,
        to,
        end: to,
        inner,
        handlers: Handlers::new(alloc),
    })
}

/// The code of a body as spans that no region of its table cuts.
pub(crate) fn pieces(
    alloc: Global,
    instrs: &[Instr],
    regions: &[Region],
) -> Result<Spans, AllocError>
    requires { length instrs.now < 2 ^ 32 }
    ensures { IfOk result (IsBuilt instrs.now regions.now []) }
{
    let marks = marks_of(alloc, regions, instrs.len())?;
    let mut spans = Spans::new(alloc);
    let mut at = 0;
    while at < instrs.len() {
        let end = next_mark(&marks, at);
        spans.push(piece(alloc, &instrs[at..end], at as u32, end as u32)?)?;
        at = end;
    }
    Ok(spans)
}
