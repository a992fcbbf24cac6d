// The order in which a depth-first search leaves the nodes.

use cil_base::U32s;
use std::alloc::{AllocError, Global};

#[derive(Clone, Copy)]
enum Mark {
    Unseen,
    Open,
    Done,
}

/// Opens a node: it waits until those are done that it leads to.
fn open_node(
    graph: &[U32s],
    marks: &mut [Mark],
    waiting: &mut Vec<u32>,
    node: u32,
) -> Result<(), AllocError> {
    let at = node as usize;
    if at >= graph.len() || at >= marks.len() {
        return Ok(());
    }
    marks[at] = Mark::Open;
    waiting.push(node)?;
    for next in graph[at].as_slice() {
        if let Some(Mark::Unseen) = marks.get(*next as usize) {
            waiting.push(*next)?;
        }
    }
    Ok(())
}

fn close_node(marks: &mut [Mark], order: &mut Vec<u32>, node: u32) -> Result<(), AllocError> {
    let at = node as usize;
    if at < marks.len() {
        marks[at] = Mark::Done;
        order.push(node)?;
    }
    Ok(())
}

/// What is to be done with the node that waits last.
fn pass_node(
    graph: &[U32s],
    marks: &mut [Mark],
    waiting: &mut Vec<u32>,
    order: &mut Vec<u32>,
    node: u32,
) -> Result<(), AllocError> {
    match marks.get(node as usize).copied() {
        Some(Mark::Unseen) => open_node(graph, marks, waiting, node),
        Some(Mark::Open) => close_node(marks, order, node),
        _ => Ok(()),
    }
}

/// The nodes, each behind those that it leads to but for circles.
pub(crate) fn postorder(alloc: Global, graph: &[U32s]) -> Result<Vec<u32>, AllocError> {
    let mut marks = vec![in alloc; Mark::Unseen; graph.len()]?;
    let mut waiting = Vec::new(alloc);
    let mut order = Vec::new(alloc);
    let mut node = 0u32;
    for _list in graph {
        waiting.push(node)?;
        node = node.saturating_add(1);
    }
    for _turn in 0..u64::MAX {
        match waiting.pop() {
            None => return Ok(order),
            Some(node) => pass_node(graph, &mut marks, &mut waiting, &mut order, node)?,
        }
    }
    Ok(order)
}
