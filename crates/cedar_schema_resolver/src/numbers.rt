//! Nodes by their numbers.

ghost use Rattle.std.specs.Prelude.{◌≡◌, ◌<◌, map, length, IfOk, IfErr};
ghost use Rattle.std.specs.BTreeMap.{get};
ghost use Rattle.std.specs.List.{filter_map};
ghost use Rattle.cedar_schema_resolver.specs.Found.{AreBelow};
ghost use Rattle.cedar_schema_resolver.specs.Numbers.{names_in, IsAt, AreNumbers, AreOnce, TellsRepeated, rows_of, AreNamesAt};

use crate::hierarchy_err::RepeatedError;
use crate::node::Node;
use std::alloc::{AllocError, Global};
use std::collections::{BTreeMap, BTreeSet};

// The node of this number.
fn name_at<N: Node>(nodes: &[(N, Vec<N>)], number: usize) -> &N
    requires { number < length nodes.now }
    ensures { IsAt (names_in N.seen nodes.now) number (N.seen result.now) }
{
    &nodes[number].0
}

/// The numbers of the nodes, each of which stands with its parents. Refuses a node that is repeated, and fails when out of memory.
pub fn numbers<N: Node>(
    alloc: Global,
    nodes: &[(N, Vec<N>)],
) -> Result<BTreeMap<N, usize>, RepeatedError>
    ensures numbers { IfOk result (λ m. AreNumbers N.seen (names_in N.seen nodes.now) (get N.cmp m)) }
    ensures once { IfOk result (λ m. AreOnce (names_in N.seen nodes.now)) }
    ensures repeated { IfErr result (TellsRepeated (names_in N.seen nodes.now)) }
{
    let mut numbers = BTreeMap::new(alloc);
    for number in 0..nodes.len() {
        let name = name_at(nodes, number).copy()?;
        if numbers.insert(name, number)?.is_some() {
            return Err(RepeatedError::Repeated { number });
        }
    }
    Ok(numbers)
}

// The numbers of these nodes; one without a number is passed over. Fails only when out of memory.
fn numbers_of<N: Node>(
    alloc: Global,
    numbers: &BTreeMap<N, usize>,
    names: &[N],
) -> Result<Vec<usize>, AllocError>
    ensures { IfOk result (λ ns. ns.items ≡ filter_map (get N.cmp numbers.now) names.now) }
{
    let mut found = Vec::with_capacity(alloc, names.len())?;
    for name in names {
        match numbers.get(name) {
            Some(number) => found.push(*number)?,
            None => {}
        }
    }
    Ok(found)
}

/// The numbers of the parents of each node. Fails only when out of memory.
pub fn rows<N: Node>(
    alloc: Global,
    numbers: &BTreeMap<N, usize>,
    nodes: &[(N, Vec<N>)],
) -> Result<Vec<Vec<usize>>, AllocError>
    ensures { IfOk result (λ rows. map (λ r. r.items) rows.items ≡ rows_of (get N.cmp numbers.now) nodes.now) }
{
    let mut rows = Vec::with_capacity(alloc, nodes.len())?;
    for node in nodes {
        rows.push(numbers_of(alloc, numbers, &node.1)?)?;
    }
    Ok(rows)
}

/// The nodes of these numbers, as a set. Fails only when out of memory.
pub fn names_at<N: Node>(
    alloc: Global,
    nodes: &[(N, Vec<N>)],
    numbers: &[usize],
) -> Result<BTreeSet<N>, AllocError>
    requires { AreBelow (length nodes.now) numbers.now }
    ensures { IfOk result (λ s. AreNamesAt (names_in N.seen nodes.now) numbers.now (map N.seen s.keys)) }
{
    let mut names = BTreeSet::new(alloc);
    for number in numbers.iter().rev() {
        let name = name_at(nodes, *number).copy()?;
        names.insert(name)?;
    }
    Ok(names)
}
