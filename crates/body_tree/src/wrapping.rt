// One more block around the code from a place on.
ghost use Rattle.std.specs.Prelude.{◌≡◌, ◌≤◌, ◌+◌, [], ◌∷◌, length, take, OnOk, IfOk};
ghost use Rattle.region_tree.specs.Trees.{code};
ghost use Rattle.region_tree.specs.Wrapping.{Wraps, exit_of};
ghost use Rattle.body_tree.specs.Division.{IsDivided, RetsLeave, WrapsSearch};

use crate::copies::{put_copies, turned_code};
use crate::size::{block_end, blocks_end};
use cil_model::{Block, Blocks, Handler, Handlers, Tree};
use std::alloc::{AllocError, Global};

/// A block by its number, and a place by how far it stands behind the block's beginning.
#[derive(Clone, Copy)]
struct Division {
    block: usize,
    within: usize,
}

fn division_at(blocks: &[Block], from: u32) -> Result<Division, AllocError>
    ensures { IfOk result (λ d. (d.block ≤ length blocks.now) × (length (code (take d.block blocks.now)) + d.within ≡ from)) }
{
    let mut at = 0;
    for k in 0..blocks.len() {
        let end = block_end(&blocks[k], at)?;
        if from < end {
            return Ok(Division {
                block: k,
                within: (from - at) as usize,
            });
        }
        at = end;
    }
    Ok(Division {
        block: blocks.len(),
        within: (from - at) as usize,
    })
}

/// Divides straight code. No place in a protected block divides it: that counts as out of memory.
fn divide_code(
    alloc: Global,
    block: &Block,
    within: usize,
    exit: u32,
    front: &mut Blocks,
    inner: &mut Blocks,
) -> Result<(), AllocError>
    requires front { front.old ≡ [] }
    requires inner { inner.old ≡ [] }
    ensures { OnOk result (IsDivided within exit (block.now ∷ []) front.new inner.new) }
{
    match block {
        Block::Guarded { .. } => Err(AllocError),
        Block::Code(instrs) => {
            if instrs.len() < within {
                return Err(AllocError);
            }
            let all = instrs.as_slice();
            front.push(Block::Code(turned_code(alloc, &all[..within], None)?))?;
            inner.push(Block::Code(turned_code(alloc, &all[within..], Some(exit))?))?;
            Ok(())
        }
    }
}

fn divide_rest(
    alloc: Global,
    blocks: &[Block],
    within: usize,
    exit: u32,
    front: &mut Blocks,
    inner: &mut Blocks,
) -> Result<(), AllocError>
    requires front { front.old ≡ [] }
    requires inner { inner.old ≡ [] }
    ensures { OnOk result (IsDivided within exit blocks.now front.new inner.new) }
{
    if within == 0 {
        return put_copies(alloc, blocks, Some(exit), inner);
    }
    if blocks.is_empty() {
        return Err(AllocError);
    }
    divide_code(alloc, &blocks[0], within, exit, front, inner)?;
    put_copies(alloc, &blocks[1..], Some(exit), inner)
}

fn divide(
    alloc: Global,
    blocks: &[Block],
    from: u32,
    exit: u32,
    front: &mut Blocks,
    inner: &mut Blocks,
) -> Result<(), AllocError>
    requires front { front.old ≡ [] }
    requires inner { inner.old ≡ [] }
    ensures { OnOk result (IsDivided from exit blocks.now front.new inner.new) }
{
    let at = division_at(blocks, from)?;
    let mut code = Blocks::new(alloc);
    divide_rest(
        alloc,
        &blocks[at.block..],
        at.within,
        exit,
        &mut code,
        inner,
    )?;
    put_copies(alloc, &blocks[..at.block], None, front)?;
    front.append(code)
}

/// Where control leaves to from the wrapped part: the end of all code.
fn exit_place(tree: &Tree, handler: &Handler) -> Result<u32, AllocError>
    ensures { IfOk result (λ exit. exit ≡ exit_of tree.now handler.now) }
{
    let end = blocks_end(tree.blocks.as_slice(), 0)?;
    blocks_end(handler.blocks.as_slice(), end)
}

fn wrapped(alloc: Global, tree: &Tree, from: u32, handler: Handler) -> Result<Tree, AllocError>
    ensures { IfOk result (λ new. Wraps tree.now from handler new × (from ≤ length (code tree.now.blocks))) }
{
    let exit = exit_place(tree, &handler)?;
    let mut handlers = Handlers::new(alloc);
    handlers.push(handler)?;
    let mut blocks = Blocks::new(alloc);
    let mut inner = Blocks::new(alloc);
    divide(
        alloc,
        tree.blocks.as_slice(),
        from,
        exit,
        &mut blocks,
        &mut inner,
    )?;
    blocks.push(Block::Guarded { inner, handlers })?;
    Ok(Tree {
        blocks,
        locals: tree.locals,
        max_stack: tree.max_stack,
        init: tree.init,
    })
}

/// The tree of which the part from an instruction on is one protected block, with a handler behind it.
/// Each `ret` of the part leaves to the end of the code (ECMA-335, III.3.46). The place is where a block
/// begins or stands in straight code, and tree and handler together have under 2^32 - 1 instructions;
/// for others the answer is out of memory.
pub fn wrap(alloc: Global, tree: Tree, from: u32, handler: Handler) -> Result<Tree, AllocError>
    ensures tree { IfOk result (λ new. Wraps tree from handler new) }
    ensures search { IfOk result (λ new. WrapsSearch tree from handler new) }
    ensures rets { IfOk result (λ new. RetsLeave tree from handler new) }
{
    wrapped(alloc, &tree, from, handler)
}
