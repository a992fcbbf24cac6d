// Copies of blocks.
ghost use Rattle.std.specs.Prelude.{◌≡◌, map, OnOk, IfOk};
ghost use Rattle.body_tree.specs.Copies.{turned, AddsCopies, AddsHandlers, IsCopy};

use cil_model::{Block, Blocks, Handler, Handlers, Instr, Instrs, Operand};
use region_tree::same_kind;
use std::alloc::{AllocError, Global};

/// An instruction of its own. A `ret` becomes a `leave` to the exit, where there is one.
fn turned(alloc: Global, i: &Instr, exit: Option<u32>) -> Result<Instr, AllocError>
    ensures { IfOk result (λ copy. copy ≡ turned exit i.now) }
{
    let mut copy = i.copied(alloc)?;
    if let Some(to) = exit {
        if copy.op == 0x2A {
            copy.op = 0xDD;
            copy.operand = Operand::Target(to);
        }
    }
    Ok(copy)
}

pub(crate) fn turned_code(
    alloc: Global,
    instrs: &[Instr],
    exit: Option<u32>,
) -> Result<Instrs, AllocError>
    ensures { IfOk result (λ copies. copies ≡ map (turned exit) instrs.now) }
{
    let mut copies = Instrs::new(alloc);
    for i in instrs {
        copies.push(turned(alloc, i, exit)?)?;
    }
    Ok(copies)
}

#[cycle(copies)]
fn copy_of(alloc: Global, block: &Block, exit: Option<u32>) -> Result<Block, AllocError>
    ensures { IfOk result (IsCopy exit block.now) }
{
    match block {
        Block::Code(instrs) => Ok(Block::Code(turned_code(alloc, instrs.as_slice(), exit)?)),
        Block::Guarded { inner, handlers } => {
            let mut blocks = Blocks::new(alloc);
            put_copies(alloc, inner.as_slice(), exit, &mut blocks)?;
            let mut own = Handlers::new(alloc);
            put_handlers(alloc, handlers.as_slice(), exit, &mut own)?;
            Ok(Block::Guarded {
                inner: blocks,
                handlers: own,
            })
        }
    }
}

/// Appends copies of blocks.
#[cycle(copies)]
pub(crate) fn put_copies(
    alloc: Global,
    blocks: &[Block],
    exit: Option<u32>,
    out: &mut Blocks,
) -> Result<(), AllocError>
    ensures { OnOk result (AddsCopies exit out.old blocks.now out.new) }
{
    for block in blocks {
        out.push(copy_of(alloc, block, exit)?)?;
    }
    Ok(())
}

#[cycle(copies)]
fn put_handlers(
    alloc: Global,
    handlers: &[Handler],
    exit: Option<u32>,
    out: &mut Handlers,
) -> Result<(), AllocError>
    ensures { OnOk result (AddsHandlers exit out.old handlers.now out.new) }
{
    for handler in handlers {
        let mut blocks = Blocks::new(alloc);
        put_copies(alloc, handler.blocks.as_slice(), exit, &mut blocks)?;
        out.push(Handler {
            kind: same_kind(&handler.kind),
            blocks,
        })?;
    }
    Ok(())
}
