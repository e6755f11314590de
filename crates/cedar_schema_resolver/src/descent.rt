//! What descends from each node.

ghost use Rattle.std.specs.Prelude.{◌≡◌, map, length, IfOk, IfErr};
ghost use Rattle.cedar_schema_resolver.specs.Graphs.{IsWithin};
ghost use Rattle.cedar_schema_resolver.specs.Numbers.{names_in, AreOnce, TellsRepeated, AreSetsAt, seen_nodes};
ghost use Rattle.cedar_schema_resolver.specs.Descent.{IsGraphOf, AreDescendants};

use crate::hierarchy_err::RepeatedError;
use crate::node::Node;
use crate::numbers::{names_at, numbers, rows};
use crate::{closure, turned};
use std::alloc::{AllocError, Global};
use std::collections::BTreeSet;

/// The graph of the numbers of nodes, with an edge from each to each of its parents that is a node. Refuses a node that is repeated,
/// and fails when out of memory.
pub fn graph<N: Node>(
    alloc: Global,
    nodes: &[(N, Vec<N>)],
) -> Result<Vec<Vec<usize>>, RepeatedError>
    ensures graph { IfOk result (λ g. IsGraphOf (seen_nodes N.seen nodes.now) g.items) }
    ensures once { IfOk result (λ g. AreOnce (names_in N.seen nodes.now)) }
    ensures repeated { IfErr result (TellsRepeated (names_in N.seen nodes.now)) }
{
    let numbers = numbers(alloc, nodes)?;
    let graph = rows(alloc, &numbers, nodes)?;
    Ok(graph)
}

// The nodes that the edges of each lead to, as sets. Fails only when out of memory.
fn sets<N: Node>(
    alloc: Global,
    nodes: &[(N, Vec<N>)],
    graph: &[Vec<usize>],
) -> Result<Vec<BTreeSet<N>>, AllocError>
    requires within { IsWithin graph.now }
    requires size { length graph.now ≡ length nodes.now }
    ensures { IfOk result (λ ss. AreSetsAt (names_in N.seen nodes.now) graph.now (map (λ s. map N.seen s.keys) ss.items)) }
{
    let mut sets = Vec::with_capacity(alloc, graph.len())?;
    for row in graph {
        sets.push(names_at(alloc, nodes, row)?)?;
    }
    Ok(sets)
}

/// For each of these nodes, which stand with their parents, the set of those that descend from it by one or more parents. Refuses a
/// node that is repeated, and fails when out of memory.
pub fn descendants<N: Node>(
    alloc: Global,
    nodes: &[(N, Vec<N>)],
) -> Result<Vec<BTreeSet<N>>, RepeatedError>
    ensures descendants { IfOk result (λ ss. AreDescendants (seen_nodes N.seen nodes.now) (map (λ s. map N.seen s.keys) ss.items)) }
    ensures repeated { IfErr result (TellsRepeated (names_in N.seen nodes.now)) }
{
    let graph = graph(alloc, nodes)?;
    let above = closure(alloc, &graph)?;
    let below = turned(alloc, &above)?;
    let sets = sets(alloc, nodes, &below)?;
    Ok(sets)
}
