//! An order of the nodes in which what a node leads to comes first.

ghost use Rattle.std.specs.Prelude.{◌≡◌, map, length, IfOk, IfErr, IfSome, IfNone};
ghost use Rattle.std.specs.List.Sorted.{IsPermutation, IsNonDecreasingBy};
ghost use Rattle.cedar_schema_resolver.specs.Graphs.{IsWithin, IsOrder, TellsCycle};
ghost use Rattle.cedar_schema_resolver.specs.Ranks.{LeadsToItself, LeadToOthers, ranks_from, AreByRank};

use crate::closure_err::CycleError;
use crate::closures::closure;
use crate::search::row;
use std::alloc::{AllocError, Global};

// A node, and how many nodes it leads to.
#[derive(Drop)]
struct Rank {
    count: usize,
    node: usize,
}

// The first node from which an edge leads to itself.
fn first_on_cycle(rows: &[Vec<usize>]) -> Option<usize>
    ensures found { IfSome result (LeadsToItself rows.now) }
    ensures none { IfNone result (LeadToOthers rows.now) }
{
    for node in 0..rows.len() {
        if row(rows, node).contains(&node) {
            return Some(node);
        }
    }
    None
}

// The nodes with the lengths of their rows. Fails only when out of memory.
fn ranks(alloc: Global, rows: &[Vec<usize>]) -> Result<Vec<Rank>, AllocError>
    ensures { IfOk result (λ r. r.items ≡ ranks_from rows.now 0) }
{
    let mut ranks = Vec::with_capacity(alloc, rows.len())?;
    for node in 0..rows.len() {
        let count = rows[node].len();
        ranks.push(Rank { count, node })?;
    }
    Ok(ranks)
}

// The ranks in the order of their counts, those of a lesser count first.
fn sorted(ranks: Vec<Rank>) -> Vec<Rank>
    ensures same { IsPermutation ranks.items result.items }
    ensures rise { IsNonDecreasingBy (λ r. r.count) result.items }
{
    let mut sorted = ranks;
    sorted.sort_unstable_by_key(|rank| rank.count);
    sorted
}

// The nodes alone. Fails only when out of memory.
fn nodes(alloc: Global, ranks: &[Rank]) -> Result<Vec<usize>, AllocError>
    ensures { IfOk result (λ ns. ns.items ≡ map (λ r. r.node) ranks.now) }
{
    let mut nodes = Vec::with_capacity(alloc, ranks.len())?;
    for rank in ranks {
        nodes.push(rank.node)?;
    }
    Ok(nodes)
}

// The nodes, those that lead to fewer first. Fails only when out of memory.
fn by_rank(alloc: Global, rows: &[Vec<usize>]) -> Result<Vec<usize>, AllocError>
    ensures { IfOk result (λ ns. AreByRank rows.now ns.items) }
{
    let ranks = sorted(ranks(alloc, rows)?);
    let ordered = nodes(alloc, &ranks)?;
    Ok(ordered)
}

/// The nodes in an order in which each stands after all that one or more edges lead to from it. Refuses a graph in which a node
/// leads to itself, and fails when out of memory.
pub fn in_order(alloc: Global, graph: &[Vec<usize>]) -> Result<Vec<usize>, CycleError>
    requires { IsWithin graph.now }
    ensures order { IfOk result (λ ns. IsOrder graph.now ns.items) }
    ensures cycle { IfErr result (TellsCycle graph.now) }
{
    let rows = closure(alloc, graph)?;
    match first_on_cycle(&rows) {
        Some(node) => Err(CycleError::Cycle { node }),
        None => Ok(by_rank(alloc, &rows)?),
    }
}
