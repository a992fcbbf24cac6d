// Which nodes lead back to themselves.
ghost use Rattle.std.specs.Prelude.{◌≡◌, ◌<◌, ◌^◌, ℕ, length, map, get_or, false, IfOk, OnOk};
ghost use Rattle.std.specs.List.{range_with_len};
ghost use Rattle.set_names.specs.Cycles.{reaches};
ghost use Rattle.type_graphs.specs.Graphs.{next_of};
ghost use Rattle.type_graphs.specs.Ranks.{AreRanks};
ghost use Rattle.type_graphs.specs.Searches.{with_next, with_node, with_nodes};

use crate::ranking::{rank_in, ranks_of};
use cil_base::U32s;
use std::alloc::{AllocError, Global};

/// Notes a node that isn't seen yet.
fn note_node(seen: &mut Vec<bool>, found: &mut Vec<u32>, node: u32) -> Result<(), AllocError>
    ensures { OnOk result ((seen.new.items, found.new.items) ≡ with_node (seen.old.items, found.old.items) node) }
{
    let at = node as usize;
    if at < seen.len() && !seen[at] {
        seen[at] = true;
        found.push(node)?;
    }
    Ok(())
}

fn note_nodes(seen: &mut Vec<bool>, found: &mut Vec<u32>, nodes: &[u32]) -> Result<(), AllocError>
    ensures { OnOk result ((seen.new.items, found.new.items) ≡ with_nodes (seen.old.items, found.old.items) nodes.now) }
{
    for node in nodes {
        note_node(seen, found, *node)?;
    }
    Ok(())
}

/// Notes the nodes that the one at a place of those found leads to.
fn note_next(
    graph: &[U32s],
    seen: &mut Vec<bool>,
    found: &mut Vec<u32>,
    place: usize,
) -> Result<(), AllocError>
    ensures { OnOk result ((seen.new.items, found.new.items) ≡ with_next graph.now (seen.old.items, found.old.items) place) }
{
    if place >= found.len() {
        return Ok(());
    }
    let node = found[place] as usize;
    if node >= graph.len() {
        return Ok(());
    }
    note_nodes(seen, found, graph[node].as_slice())
}

/// Which nodes one leads to, in any number of steps.
fn seen_from(alloc: Global, graph: &[U32s], from: u32) -> Result<Vec<bool>, AllocError>
    requires { from < length graph.now }
    ensures seen { IfOk result (λ seen. (to : ℕ) → to < length graph.now → get_or seen.items to false ≡ reaches (next_of graph.now) (length graph.now) from to) }
    ensures size { IfOk result (λ seen. length seen.items ≡ length graph.now) }
{
    let mut seen = vec![in alloc; false; graph.len()]?;
    let mut found = Vec::new(alloc);
    note_nodes(&mut seen, &mut found, graph[from as usize].as_slice())?;
    for place in 0..graph.len() {
        note_next(graph, &mut seen, &mut found, place)?;
    }
    Ok(seen)
}

fn is_on_circle(alloc: Global, graph: &[U32s], ranks: &[u32], node: u32) -> Result<bool, AllocError>
    requires within { node < length graph.now }
    requires ranked { AreRanks graph.now ranks.now }
    ensures { IfOk result (λ is. is ≡ reaches (next_of graph.now) (length graph.now) node node) }
{
    if rank_in(ranks, node) != 0 {
        return Ok(false);
    }
    let seen = seen_from(alloc, graph, node)?;
    Ok(seen[node as usize])
}

/// Of each node whether it leads back to itself.
pub fn nodes_on_circles(alloc: Global, graph: &[U32s]) -> Result<Vec<bool>, AllocError>
    requires { length graph.now < 2 ^ 32 }
    ensures { IfOk result (λ circles. circles.items ≡ map (λ k. reaches (next_of graph.now) (length graph.now) k k) (range_with_len 0 (length graph.now))) }
{
    let ranks = ranks_of(alloc, graph)?;
    let mut circles = Vec::new(alloc);
    for k in 0..graph.len() {
        circles.push(is_on_circle(alloc, graph, &ranks, k as u32)?)?;
    }
    Ok(circles)
}
