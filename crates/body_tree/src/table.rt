// Trees as tables of clauses.
ghost use Rattle.std.specs.Prelude.{◌≡◌, ◌++◌, ◌+◌, ◌<◌, ◌^◌, [], length, OnOk, IfOk};
ghost use Rattle.region_tree.specs.Handlers.{SearchesLike};
ghost use Rattle.region_tree.specs.Trees.{body_of_tree, clauses, code, handler_parts, handlers_clauses, handlers_code, own_clauses, part};

use crate::size::behind;
use cil_base::U32s;
use cil_model::{Block, Body, Handler, Region, Regions, Tree};
use region_tree::{code_of, same_kind};
use std::alloc::{AllocError, Global};

/// Appends the clauses of a block that begins at a place, and answers where it ends.
#[cycle(table)]
fn put_block(alloc: Global, block: &Block, at: u32, table: &mut Regions) -> Result<u32, AllocError>
    ensures end { IfOk result (λ end. end ≡ at + length (part block.now).code) }
    ensures clauses { OnOk result (table.new ≡ table.old ++ (part block.now).clauses at) }
{
    match block {
        Block::Code(instrs) => behind(at, instrs.len()),
        Block::Guarded { inner, handlers } => {
            let to = put_blocks(alloc, inner.as_slice(), at, table)?;
            let mut own = Regions::new(alloc);
            let end = put_handlers(alloc, handlers.as_slice(), at, to, table, &mut own)?;
            table.append(own)?;
            Ok(end)
        }
    }
}

#[cycle(table)]
pub(crate) fn put_blocks(
    alloc: Global,
    blocks: &[Block],
    at: u32,
    table: &mut Regions,
) -> Result<u32, AllocError>
    ensures end { IfOk result (λ end. end ≡ at + length (code blocks.now)) }
    ensures clauses { OnOk result (table.new ≡ table.old ++ clauses at blocks.now) }
{
    let mut end = at;
    for block in blocks {
        end = put_block(alloc, block, end, table)?;
    }
    Ok(end)
}

/// Appends the clauses in the handlers of a try to the table, and those of the try itself to `own`.
#[cycle(table)]
fn put_handlers(
    alloc: Global,
    handlers: &[Handler],
    from: u32,
    to: u32,
    table: &mut Regions,
    own: &mut Regions,
) -> Result<u32, AllocError>
    ensures end { IfOk result (λ end. end ≡ to + length (handlers_code (handler_parts handlers.now))) }
    ensures clauses { OnOk result (table.new ≡ table.old ++ handlers_clauses to (handler_parts handlers.now)) }
    ensures own { OnOk result (own.new ≡ own.old ++ own_clauses from to to (handler_parts handlers.now)) }
{
    let mut end = to;
    for handler in handlers {
        let start = end;
        end = put_blocks(alloc, handler.blocks.as_slice(), start, table)?;
        own.push(Region {
            kind: same_kind(&handler.kind),
            try_from: from,
            try_to: to,
            handler_from: start,
            handler_to: end,
        })?;
    }
    Ok(end)
}

/// The body that a tree stands for (ECMA-335, II.25.4.6). Inner clauses come first, and no offsets are
/// given. For a tree of 2^32 instructions and more the answer is out of memory.
#[tactic(auto, using(crate::proofs::GuardLaws::searches_like))]
pub fn to_clauses(alloc: Global, tree: &Tree) -> Result<Body, AllocError>
    ensures body { IfOk result (λ body. body ≡ body_of_tree tree.now) }
    ensures search { IfOk result (λ body. SearchesLike tree.now.blocks body.regions) }
{
    let mut regions = Regions::new(alloc);
    put_blocks(alloc, tree.blocks.as_slice(), 0, &mut regions)?;
    Ok(Body {
        instrs: code_of(alloc, tree.blocks.as_slice())?,
        offsets: U32s::new(alloc),
        regions,
        locals: tree.locals,
        max_stack: tree.max_stack,
        init: tree.init,
    })
}
