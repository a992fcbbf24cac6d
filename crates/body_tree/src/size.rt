// Where the parts of a tree end.
ghost use Rattle.std.specs.Prelude.{◌≡◌, ◌+◌, ◌<◌, ◌^◌, length, IfOk};
ghost use Rattle.region_tree.specs.Trees.{code, handler_parts, handlers_code, part};

use cil_model::{Block, Handler};
use std::alloc::AllocError;

/// The place behind so many instructions. One that is no `u32` counts as out of memory.
pub(crate) fn behind(at: u32, count: usize) -> Result<u32, AllocError>
    ensures { IfOk result (λ end. end ≡ at + count) }
{
    if count <= (u32::MAX - at) as usize {
        Ok(at + count as u32)
    } else {
        Err(AllocError)
    }
}

/// Where a block ends that begins at a place.
#[cycle(ends)]
pub(crate) fn block_end(block: &Block, at: u32) -> Result<u32, AllocError>
    ensures { IfOk result (λ end. end ≡ at + length (part block.now).code) }
{
    match block {
        Block::Code(instrs) => behind(at, instrs.len()),
        Block::Guarded { inner, handlers } => {
            let to = blocks_end(inner.as_slice(), at)?;
            handlers_end(handlers.as_slice(), to)
        }
    }
}

#[cycle(ends)]
pub(crate) fn blocks_end(blocks: &[Block], at: u32) -> Result<u32, AllocError>
    ensures { IfOk result (λ end. end ≡ at + length (code blocks.now)) }
{
    let mut end = at;
    for block in blocks {
        end = block_end(block, end)?;
    }
    Ok(end)
}

#[cycle(ends)]
fn handlers_end(handlers: &[Handler], at: u32) -> Result<u32, AllocError>
    ensures { IfOk result (λ end. end ≡ at + length (handlers_code (handler_parts handlers.now))) }
{
    let mut end = at;
    for handler in handlers {
        end = blocks_end(handler.blocks.as_slice(), end)?;
    }
    Ok(end)
}
