// From which nodes so many steps lead.
ghost use Rattle.std.specs.Prelude.{◌≡◌, ◌+◌, ◌<◌, ◌^◌, ◌==◌, ℕ, suc, length, map, get_or, IfOk};
ghost use Rattle.std.specs.List.{range_with_len};
ghost use Rattle.set_names.specs.Cycles.{any, is_deep};
ghost use Rattle.type_graphs.specs.Graphs.{next_of};
ghost use Rattle.type_graphs.specs.Ranks.{AreRanks, LeadOn};
ghost use Rattle.type_graphs.specs.Levels.{level_of, is_in};

use crate::ranking::{all_lead_on, rank_in, ranks_of};
use cil_base::U32s;
use std::alloc::{AllocError, Global};

fn is_deep(graph: &[U32s], ranks: &[u32], deepest: u32, node: u32) -> bool
    requires ranked { AreRanks graph.now ranks.now }
    requires whole { LeadOn graph.now ranks.now }
    ensures { result ≡ is_deep (next_of graph.now) deepest node }
{
    let rank = rank_in(ranks, node);
    rank == 0 || deepest < rank
}

fn deep_by_ranks(
    alloc: Global,
    graph: &[U32s],
    ranks: &[u32],
    deepest: u32,
) -> Result<Vec<bool>, AllocError>
    requires few { length graph.now < 2 ^ 32 }
    requires ranked { AreRanks graph.now ranks.now }
    requires whole { LeadOn graph.now ranks.now }
    ensures { IfOk result (λ deep. deep.items ≡ level_of graph.now deepest) }
{
    let mut deep = Vec::new(alloc);
    for k in 0..graph.len() {
        deep.push(is_deep(graph, ranks, deepest, k as u32))?;
    }
    Ok(deep)
}

/// Whether one of some nodes is in a level; `past` holds of numbers past the end.
fn any_in(level: &[bool], past: bool, nodes: &[u32]) -> bool
    ensures { result ≡ any (is_in level.now past) nodes.now }
{
    for node in nodes {
        let is_there = match level.get(*node as usize) {
            None => past,
            Some(is_there) => *is_there,
        };
        if is_there {
            return true;
        }
    }
    false
}

/// From which nodes one step more leads.
fn next_level(
    alloc: Global,
    graph: &[U32s],
    level: &[bool],
    past: bool,
) -> Result<Vec<bool>, AllocError>
    ensures { IfOk result (λ next. next.items ≡ map (λ k. any (is_in level.now past) (next_of graph.now k)) (range_with_len 0 (length graph.now))) }
{
    let mut next = Vec::new(alloc);
    for k in 0..graph.len() {
        next.push(any_in(level, past, graph[k].as_slice()))?;
    }
    Ok(next)
}

fn deep_by_levels(alloc: Global, graph: &[U32s], deepest: u32) -> Result<Vec<bool>, AllocError>
    ensures { IfOk result (λ deep. deep.items ≡ level_of graph.now deepest) }
{
    let mut level = vec![in alloc; true; graph.len()]?;
    for steps in 0..deepest {
        level = next_level(alloc, graph, &level, steps == 0)?;
    }
    Ok(level)
}

/// Of each node whether so many steps lead from it, as from one that leads to a circle.
pub fn deep_nodes(alloc: Global, graph: &[U32s], deepest: u32) -> Result<Vec<bool>, AllocError>
    requires { length graph.now < 2 ^ 32 }
    ensures { IfOk result (λ deep. deep.items ≡ map (is_deep (next_of graph.now) deepest) (range_with_len 0 (length graph.now))) }
{
    let ranks = ranks_of(alloc, graph)?;
    if all_lead_on(graph, &ranks) {
        return deep_by_ranks(alloc, graph, &ranks, deepest);
    }
    deep_by_levels(alloc, graph, deepest)
}
