//! Graphs with their edges turned round.

ghost use Rattle.std.specs.Prelude.{◌≡◌, ◌<◌, [], ◌∷◌, length, OnOk, IfOk};
ghost use Rattle.cedar_schema_resolver.specs.Graphs.{IsWithin, IsTurned};
ghost use Rattle.cedar_schema_resolver.specs.Found.{AreBelow};
ghost use Rattle.cedar_schema_resolver.specs.Rows.{HasEmptyRows, HasAdded};

use crate::search::row;
use std::alloc::{AllocError, Global};

// So many rows without a node. Fails only when out of memory.
fn empty_rows(alloc: Global, count: usize) -> Result<Vec<Vec<usize>>, AllocError>
    ensures size { IfOk result (λ rows. length rows.items ≡ count) }
    ensures empty { IfOk result (λ rows. HasEmptyRows rows.items) }
{
    let mut rows = Vec::with_capacity(alloc, count)?;
    for _ in 0..count {
        rows.push(Vec::new(alloc))?;
    }
    Ok(rows)
}

// Puts a node at the end of a row. Fails only when out of memory.
fn add_to_row(rows: &mut Vec<Vec<usize>>, at: usize, node: usize) -> Result<(), AllocError>
    requires { at < length rows.old.items }
    ensures size { OnOk result (length rows.new.items ≡ length rows.old.items) }
    ensures added { OnOk result (HasAdded rows.old.items rows.new.items (at ∷ []) node) }
{
    rows[at].push(node)?;
    Ok(())
}

// Puts a node at the ends of these rows. Fails only when out of memory.
fn add_to_rows(rows: &mut Vec<Vec<usize>>, at: &[usize], node: usize) -> Result<(), AllocError>
    requires { AreBelow (length rows.old.items) at.now }
    ensures size { OnOk result (length rows.new.items ≡ length rows.old.items) }
    ensures added { OnOk result (HasAdded rows.old.items rows.new.items at.now node) }
{
    for target in at {
        add_to_row(rows, *target, node)?;
    }
    Ok(())
}

/// The graph with an edge from one node to another for each edge from the other to the one. Fails only when out of memory.
pub fn turned(alloc: Global, graph: &[Vec<usize>]) -> Result<Vec<Vec<usize>>, AllocError>
    requires { IsWithin graph.now }
    ensures { IfOk result (λ rows. IsTurned graph.now rows.items) }
{
    let mut rows = empty_rows(alloc, graph.len())?;
    for node in 0..graph.len() {
        add_to_rows(&mut rows, row(graph, node), node)?;
    }
    Ok(rows)
}
