//! What one node leads to.

ghost use Rattle.std.specs.Prelude.{◌≡◌, ◌<◌, [], length, OnOk, IfOk};
ghost use Rattle.cedar_schema_resolver.specs.Graphs.{targets, IsWithin, AreReached};
ghost use Rattle.cedar_schema_resolver.specs.Found.{AreMarks, AreBelow, with_node, with_nodes};

use std::alloc::{AllocError, Global};

// Takes a node as found, if it isn't yet. The marks tell which are. Fails only when out of memory.
fn add(marks: &mut Vec<bool>, found: &mut Vec<usize>, node: usize) -> Result<(), AllocError>
    requires within { node < length marks.old.items }
    requires marks { AreMarks marks.old.items found.old.items }
    ensures found { OnOk result (found.new.items ≡ with_node node found.old.items) }
    ensures marks { OnOk result (AreMarks marks.new.items found.new.items) }
    ensures size { length marks.new.items ≡ length marks.old.items }
{
    if marks[node] {
        return Ok(());
    }
    marks[node] = true;
    found.push(node)?;
    Ok(())
}

// Takes these nodes as found. Fails only when out of memory.
fn add_all(marks: &mut Vec<bool>, found: &mut Vec<usize>, nodes: &[usize]) -> Result<(), AllocError>
    requires within { AreBelow (length marks.old.items) nodes.now }
    requires marks { AreMarks marks.old.items found.old.items }
    ensures found { OnOk result (found.new.items ≡ with_nodes nodes.now found.old.items) }
    ensures marks { OnOk result (AreMarks marks.new.items found.new.items) }
    ensures size { length marks.new.items ≡ length marks.old.items }
{
    for node in nodes {
        add(marks, found, *node)?;
    }
    Ok(())
}

/// The nodes that an edge leads to from this one.
#[tactic(auto, using(crate::proofs::Searching::targets_at))]
pub fn row(graph: &[Vec<usize>], node: usize) -> &[usize]
    requires { node < length graph.now }
    ensures { result.now ≡ targets graph.now node }
{
    &graph[node]
}

// Takes these nodes as not found.
fn unmark(marks: &mut Vec<bool>, found: &[usize])
    requires marks { AreMarks marks.old.items found.now }
    requires within { AreBelow (length marks.old.items) found.now }
    ensures none { AreMarks marks.new.items [] }
    ensures size { length marks.new.items ≡ length marks.old.items }
{
    for node in found {
        marks[*node] = false;
    }
}

/// The nodes that one or more edges lead to from this one, each once. The marks tell that no node is found, before and after. It
/// takes no more steps than there are nodes to find, and edges from these. Fails only when out of memory.
pub fn reached_from(
    alloc: Global,
    marks: &mut Vec<bool>,
    graph: &[Vec<usize>],
    start: usize,
) -> Result<Vec<usize>, AllocError>
    requires within { IsWithin graph.now }
    requires start { start < length graph.now }
    requires size { length marks.old.items ≡ length graph.now }
    requires marks { AreMarks marks.old.items [] }
    ensures found { IfOk result (λ found. AreReached graph.now start found.items) }
    ensures marks { OnOk result (AreMarks marks.new.items []) }
    ensures size { OnOk result (length marks.new.items ≡ length graph.now) }
{
    let mut found = Vec::new(alloc);
    add_all(marks, &mut found, row(graph, start))?;
    for step in 0..graph.len() {
        if step >= found.len() {
            break;
        }
        let node = found[step];
        add_all(marks, &mut found, row(graph, node))?;
    }
    unmark(marks, &found);
    Ok(found)
}
