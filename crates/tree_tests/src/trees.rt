// Trees, their tables, and one more block around a part.

use crate::bodies::{first_row, has_rows, nop_like};
use body_tree::{to_clauses, wrap};
use cil_model::{Block, Blocks, Body, Handler, Handlers, Instrs, Operand, RegionKind, Tree};
use region_tree::code_of;
use std::alloc::{AllocError, Global};

fn code(alloc: Global, ops: &[u16]) -> Result<Block, AllocError> {
    let mut instrs = Instrs::new(alloc);
    for op in ops {
        instrs.push(nop_like(*op))?;
    }
    Ok(Block::Code(instrs))
}

fn put_code(alloc: Global, ops: &[u16], out: &mut Blocks) -> Result<(), AllocError> {
    out.push(code(alloc, ops)?)
}

fn handler(alloc: Global, kind: RegionKind, ops: &[u16]) -> Result<Handler, AllocError> {
    let mut blocks = Blocks::new(alloc);
    put_code(alloc, ops, &mut blocks)?;
    Ok(Handler { kind, blocks })
}

fn caught(alloc: Global, inner: Blocks, ops: &[u16]) -> Result<Block, AllocError> {
    let mut handlers = Handlers::new(alloc);
    handlers.push(handler(alloc, RegionKind::Catch(first_row(1)), ops)?)?;
    Ok(Block::Guarded { inner, handlers })
}

/// A try at 1 with a handler at 2, in a try at 1 with a handler at 3, between other code.
fn put_blocks(alloc: Global, blocks: &mut Blocks) -> Result<(), AllocError> {
    let mut inmost = Blocks::new(alloc);
    put_code(alloc, &[0], &mut inmost)?;
    let mut inner = Blocks::new(alloc);
    inner.push(caught(alloc, inmost, &[0x26])?)?;
    put_code(alloc, &[0], blocks)?;
    blocks.push(caught(alloc, inner, &[0x26, 0])?)?;
    put_code(alloc, &[0, 0x2A], blocks)
}

fn sample(alloc: Global) -> Result<Tree, AllocError> {
    let mut blocks = Blocks::new(alloc);
    put_blocks(alloc, &mut blocks)?;
    Ok(Tree {
        blocks,
        locals: None,
        max_stack: 8,
        init: false,
    })
}

fn leaves_to(body: &Body, at: usize, to: u32) -> bool {
    match body.instrs.get(at) {
        Some(i) => i.op == 0xDD && matches!(&i.operand, Operand::Target(t) if *t == to),
        None => false,
    }
}

fn table_is(alloc: Global, rows: &[[u32; 4]]) -> Result<bool, AllocError> {
    let tree = sample(alloc)?;
    let body = to_clauses(alloc, &tree)?;
    let code = code_of(alloc, tree.blocks.as_slice())?;
    Ok(body.instrs.len() == 7 && code.len() == 7 && has_rows(&body, rows))
}

#[test]
fn a_tree_gives_inner_clauses_first(rt: HostRuntime) {
    let found = table_is(rt.alloc(), &[[1, 2, 2, 3], [1, 3, 3, 5]]);
    assert!(rt; matches!(found, Ok(true)));
}

/// The table of the sample that is wrapped from a place on, and whether its `ret` leaves.
fn wrapped_is(alloc: Global, from: u32, rows: &[[u32; 4]]) -> Result<bool, AllocError> {
    let finally = handler(alloc, RegionKind::Finally, &[0, 0xDC])?;
    let tree = wrap(alloc, sample(alloc)?, from, finally)?;
    let body = to_clauses(alloc, &tree)?;
    Ok(body.instrs.len() == 9 && leaves_to(&body, 6, 9) && has_rows(&body, rows))
}

#[test]
fn a_wrapped_part_has_the_new_handler_last(rt: HostRuntime) {
    let alloc = rt.alloc();
    let inner = [[1, 2, 2, 3], [1, 3, 3, 5]];
    let all = wrapped_is(alloc, 0, &[inner[0], inner[1], [0, 7, 7, 9]]);
    let from_a_try = wrapped_is(alloc, 1, &[inner[0], inner[1], [1, 7, 7, 9]]);
    let in_code = wrapped_is(alloc, 6, &[inner[0], inner[1], [6, 7, 7, 9]]);
    assert!(rt; matches!(all, Ok(true)) && matches!(from_a_try, Ok(true)));
    assert!(rt; matches!(in_code, Ok(true)));
}

#[test]
fn a_place_in_a_try_wraps_nothing(rt: HostRuntime) {
    let alloc = rt.alloc();
    assert!(rt; wrapped_is(alloc, 2, &[]).is_err() && wrapped_is(alloc, 8, &[]).is_err());
}
