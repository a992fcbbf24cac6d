// Ranks: the number of nodes on the longest chain from a node.
ghost use Rattle.std.specs.Prelude.{◌≡◌, ◌≢◌, ◌==◌, ℕ, suc, nat_lt, true, false, IfOk, IfSome};
ghost use Rattle.set_names.specs.Cycles.{any};
ghost use Rattle.type_graphs.specs.Ranks.{AreRanks, LeadOn, has_no_rank, is_above, rank_in};

use crate::order::postorder;
use cil_base::U32s;
use std::alloc::{AllocError, Global};

/// The rank of a node, 0 where none is known. Nothing follows a number past the end.
pub(crate) fn rank_in(ranks: &[u32], node: u32) -> u32
    ensures { result ≡ rank_in ranks.now node }
{
    match ranks.get(node as usize) {
        None => 1,
        Some(rank) => *rank,
    }
}

/// The highest rank of some nodes that all have one.
fn highest_rank(ranks: &[u32], nodes: &[u32]) -> Option<u32>
    ensures ranked { IfSome result (λ best. any (has_no_rank ranks.now) nodes.now ≡ false) }
    ensures best { IfSome result (λ best. (d : ℕ) → any (is_above ranks.now d) nodes.now ≡ nat_lt d best) }
{
    let mut best = 0u32;
    for node in nodes {
        let rank = rank_in(ranks, *node);
        if rank == 0 {
            return None;
        }
        best = best.max(rank);
    }
    Some(best)
}

/// The rank of a node that leads to these, if all of them have one.
fn rank_over(ranks: &[u32], nodes: &[u32]) -> Option<u32>
    ensures ranked { IfSome result (λ rank. any (has_no_rank ranks.now) nodes.now ≡ false) }
    ensures above { IfSome result (λ rank. (d : ℕ) → any (is_above ranks.now d) nodes.now ≡ nat_lt (suc d) rank) }
    ensures some { IfSome result (λ rank. nat_lt 0 rank ≡ true) }
{
    match highest_rank(ranks, nodes) {
        None => None,
        Some(best) => {
            if best == u32::MAX {
                return None;
            }
            Some(best + 1)
        }
    }
}

/// Gives a node its rank, if those that it leads to have theirs.
fn rank_node(graph: &[U32s], ranks: &mut [u32], node: u32)
    requires { AreRanks graph.now ranks.old }
    ensures { AreRanks graph.now ranks.new }
{
    let at = node as usize;
    if at < graph.len() && at < ranks.len() {
        if let Some(rank) = rank_over(ranks, graph[at].as_slice()) {
            ranks[at] = rank;
        }
    }
}

fn rank_each(graph: &[U32s], ranks: &mut [u32], nodes: &[u32])
    requires { AreRanks graph.now ranks.old }
    ensures { AreRanks graph.now ranks.new }
{
    for node in nodes {
        rank_node(graph, ranks, *node);
    }
}

/// The ranks of the nodes; those that lead to a circle have none.
pub(crate) fn ranks_of(alloc: Global, graph: &[U32s]) -> Result<Vec<u32>, AllocError>
    ensures { IfOk result (λ ranks. AreRanks graph.now ranks.items) }
{
    let order = postorder(alloc, graph)?;
    let mut ranks = vec![in alloc; 0u32; graph.len()]?;
    rank_each(graph, &mut ranks, &order);
    Ok(ranks)
}

fn leads_on(ranks: &[u32], nodes: &[u32]) -> bool
    ensures { result ≡ any (has_no_rank ranks.now) nodes.now }
{
    for node in nodes {
        if rank_in(ranks, *node) == 0 {
            return true;
        }
    }
    false
}

/// Whether each node without a rank leads to one without.
pub(crate) fn all_lead_on(graph: &[U32s], ranks: &[u32]) -> bool
    requires { AreRanks graph.now ranks.now }
    ensures { result ≡ true → LeadOn graph.now ranks.now }
{
    for k in 0..ranks.len() {
        if ranks[k] == 0 && !leads_on(ranks, graph[k].as_slice()) {
            return false;
        }
    }
    true
}
