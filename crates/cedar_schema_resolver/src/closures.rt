//! What each node leads to.

ghost use Rattle.std.specs.Prelude.{IfOk};
ghost use Rattle.cedar_schema_resolver.specs.Graphs.{IsWithin, IsClosure};

use crate::search::reached_from;
use std::alloc::{AllocError, Global};

/// For each node those that one or more edges lead to from it, each once. It takes no more steps than there are nodes, and nodes
/// times edges. Fails only when out of memory.
pub fn closure(alloc: Global, graph: &[Vec<usize>]) -> Result<Vec<Vec<usize>>, AllocError>
    requires { IsWithin graph.now }
    ensures { IfOk result (λ c. IsClosure graph.now c.items) }
{
    let mut marks = vec![in alloc; false; graph.len()]?;
    let mut rows = Vec::with_capacity(alloc, graph.len())?;
    for start in 0..graph.len() {
        rows.push(reached_from(alloc, &mut marks, graph, start)?)?;
    }
    Ok(rows)
}
