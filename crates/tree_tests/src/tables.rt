// The trees of tables.

use crate::bodies::{body_that_leaves, has_rows, here};
use body_tree::to_clauses;
use cil_base::{Fault, Rule};
use cil_model::{Block, Blocks, Tree};
use std::alloc::{AllocError, Global};
use tree_building::to_tree;

/// The tree of thirteen instructions with catches.
fn tree_of(alloc: Global, rows: &[[u32; 4]]) -> Result<Tree, Fault> {
    let body = body_that_leaves(alloc, 13, rows)?;
    if body.instrs.len() != 13 {
        return Err(Fault::Memory(AllocError));
    }
    to_tree(alloc, &body, here())
}

/// Whether the tree has so many blocks, and this table.
fn is_tree(
    alloc: Global,
    tree: &Tree,
    table: &[[u32; 4]],
    blocks: usize,
) -> Result<bool, AllocError> {
    let body = to_clauses(alloc, tree)?;
    Ok(tree.blocks.len() == blocks && has_rows(&body, table) && body.instrs.len() == 13)
}

/// A table has a tree with so many blocks, whose own table is this one.
fn has_tree(alloc: Global, rows: &[[u32; 4]], table: &[[u32; 4]], blocks: usize) -> bool {
    match tree_of(alloc, rows) {
        Ok(tree) => matches!(is_tree(alloc, &tree, table, blocks), Ok(true)),
        Err(_) => false,
    }
}

fn keeps_table(alloc: Global, rows: &[[u32; 4]], blocks: usize) -> bool {
    has_tree(alloc, rows, rows, blocks)
}

fn is_refused(alloc: Global, rows: &[[u32; 4]]) -> bool {
    match tree_of(alloc, rows) {
        Err(Fault::Refused(refusal)) => refusal.rule == Rule::X2,
        _ => false,
    }
}

/// The handlers of the first block of some, and how many blocks the last of them has.
fn shape_of(blocks: &Blocks) -> (usize, usize) {
    match blocks.get(0) {
        Some(Block::Guarded { inner: _, handlers }) => match handlers.as_slice().last() {
            Some(last) => (handlers.len(), last.blocks.len()),
            None => (0, 0),
        },
        _ => (0, 0),
    }
}

fn shape(alloc: Global, rows: &[[u32; 4]]) -> (usize, usize) {
    match tree_of(alloc, rows) {
        Ok(tree) => shape_of(&tree.blocks),
        Err(_) => (0, 0),
    }
}

#[test]
fn a_try_in_a_try_has_a_tree(rt: HostRuntime) {
    let alloc = rt.alloc();
    let none = keeps_table(alloc, &[], 1);
    let of_one_beginning = keeps_table(alloc, &[[1, 2, 2, 3], [1, 3, 3, 5]], 3);
    let at_the_edges = keeps_table(alloc, &[[2, 3, 3, 6], [0, 6, 6, 12]], 2);
    let all = none && of_one_beginning && at_the_edges;
    assert!(rt; all);
}

/// A try from 0 to 3 with handlers from 3 to 6 and from 6 to 10, and clauses in both handlers.
const TWO_HANDLERS: [[u32; 4]; 4] = [[3, 4, 4, 5], [7, 8, 8, 9], [0, 3, 3, 6], [0, 3, 6, 10]];

#[test]
fn handlers_with_clauses_in_them_have_a_tree(rt: HostRuntime) {
    let alloc = rt.alloc();
    let has = keeps_table(alloc, &TWO_HANDLERS, 2);
    let (handlers, blocks_of_last) = shape(alloc, &TWO_HANDLERS);
    assert!(rt; has && handlers == 2 && blocks_of_last == 3);
}

/// Clauses that lie apart may stand in any order, and a try's second handler behind what is nested in it.
#[test]
fn tables_in_another_order_have_a_tree(rt: HostRuntime) {
    let alloc = rt.alloc();
    let apart = has_tree(
        alloc,
        &[[5, 6, 6, 7], [1, 2, 2, 3]],
        &[[1, 2, 2, 3], [5, 6, 6, 7]],
        5,
    );
    let in_handlers = has_tree(
        alloc,
        &[[7, 8, 8, 9], [3, 4, 4, 5], [0, 3, 3, 6], [0, 3, 6, 10]],
        &TWO_HANDLERS,
        2,
    );
    let between_handlers = has_tree(
        alloc,
        &[[0, 3, 3, 6], [7, 8, 8, 9], [0, 3, 6, 10]],
        &[[7, 8, 8, 9], [0, 3, 3, 6], [0, 3, 6, 10]],
        2,
    );
    assert!(rt; apart && in_handlers && between_handlers);
}

/// Of the first table the outer clause stands first; of the others the trys cross, a handler stands behind
/// a gap, and handlers meet.
#[test]
fn badly_nested_tables_have_no_tree(rt: HostRuntime) {
    let alloc = rt.alloc();
    let outer_first = is_refused(alloc, &[[0, 6, 6, 10], [2, 3, 3, 5]]);
    let crossing = is_refused(alloc, &[[0, 4, 4, 6], [1, 6, 6, 8]]);
    let behind_a_gap = is_refused(alloc, &[[1, 4, 5, 8]]);
    let handlers_that_meet = is_refused(alloc, &[[1, 4, 4, 6], [1, 4, 4, 7]]);
    let all = outer_first && crossing && behind_a_gap && handlers_that_meet;
    assert!(rt; all);
}

/// The outer try ends where the first handler of the empty try does, so it would cut the empty try's block.
#[test]
fn an_empty_try_has_no_tree(rt: HostRuntime) {
    let alloc = rt.alloc();
    let empty_try = is_refused(alloc, &[[3, 3, 3, 5], [3, 3, 5, 7], [2, 5, 5, 5]]);
    let empty_handler = is_refused(alloc, &[[2, 5, 5, 5]]);
    assert!(rt; empty_try && empty_handler);
}
