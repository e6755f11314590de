//! Sets of names, and names that are repeated.

ghost use Rattle.std.specs.Prelude.{◌≡◌, map, option_map, Contains, IfOk};
ghost use Rattle.std.specs.Bool.{Decides};
ghost use Rattle.std.specs.BTreeMap.{is_at};
ghost use Rattle.std.specs.Rc.{rc_str_bytes};
ghost use Rattle.cedar_expr_model.specs.Name.{Name as ModelName, Text};
ghost use Rattle.cedar_expr_names.specs.Views.{plain_name_of, type_name_of};
ghost use Rattle.cedar_schema_resolver.specs.Descent.{AreDescendants};
ghost use Rattle.cedar_schema_resolver.specs.Numbers.{names_in, seen_nodes};
ghost use Rattle.cedar_schema_assembly.specs.Lists.{IsSetOf, StandOnce, TellsRepeat, sets_seen};
ghost use Rattle.cedar_schema_assembly.specs.Nodes.{types_told, plain_names_told, texts_told};

use cedar_expr_names::{EntityType, Name};
use cedar_schema_resolver::{Node, RepeatedError, descendants};
use std::alloc::{AllocError, Global};
use std::collections::BTreeSet;
use std::rc::RcStr;

/// What may stand in a set: a type or a text. Places don't count.
pub trait Part: Ord + Drop {
    /// What it is in the model.
    ghost Seen: { Type 0 };

    ghost seen: { Self → Seen };

    /// A copy of the part.
    fn copy(&self) -> Result<Self, AllocError>
        ensures { IfOk result (λ c. seen c ≡ seen self.now) };

    ghost told: { (a b : Self) → Decides (is_at (Self.cmp a) b) (seen a ≡ seen b) };
}

impl Part for EntityType {
    ghost Seen = { ModelName };

    ghost seen = { type_name_of };

    ghost told = { types_told };

    fn copy(&self) -> Result<EntityType, AllocError> {
        self.clone()
    }
}

impl Part for RcStr {
    ghost Seen = { Text };

    ghost seen = { rc_str_bytes };

    ghost told = { texts_told };

    fn copy(&self) -> Result<RcStr, AllocError> {
        self.clone()
    }
}

impl Part for Name {
    ghost Seen = { ModelName };

    ghost seen = { plain_name_of };

    ghost told = { plain_names_told };

    fn copy(&self) -> Result<Name, AllocError> {
        self.clone()
    }
}

/// These parts as a set. Fails only when out of memory.
pub fn set_of<P: Part>(alloc: Global, parts: &[P]) -> Result<BTreeSet<P>, AllocError>
    ensures { IfOk result (λ s. IsSetOf (map P.seen parts.now) (map P.seen s.keys)) }
{
    let mut set = BTreeSet::new(alloc);
    for part in parts.iter().rev() {
        set.insert(part.copy()?)?;
    }
    Ok(set)
}

/// Whether this node is in the set.
pub fn has<N: Node>(set: &BTreeSet<N>, node: &N) -> bool
    ensures { Decides result (Contains (map N.seen set.now.keys) (N.seen node.now)) }
{
    set.contains(node)
}

/// The first node that is repeated, in its second place, if there is one. Fails only when out of memory.
pub fn first_repeated<'a, N: Node>(
    alloc: Global,
    nodes: &'a [(N, Vec<N>)],
) -> Result<Option<&'a N>, AllocError>
    ensures { IfOk result (λ f. TellsRepeat (names_in N.seen nodes.now) (option_map (λ n. N.seen n.now) f)) }
{
    let mut met = BTreeSet::new(alloc);
    for node in nodes {
        if !met.insert(node.0.copy()?)? {
            return Ok(Some(&node.0));
        }
    }
    Ok(None)
}

/// What descends from each of these nodes, none of which is repeated. Fails only when out of memory.
pub fn below<N: Node>(alloc: Global, nodes: &[(N, Vec<N>)]) -> Result<Vec<BTreeSet<N>>, AllocError>
    requires { StandOnce (names_in N.seen nodes.now) }
    ensures { IfOk result (λ ss. AreDescendants (seen_nodes N.seen nodes.now) (sets_seen N.seen ss.items)) }
{
    match descendants(alloc, nodes) {
        Ok(sets) => Ok(sets),
        Err(RepeatedError::OutOfMemory) => Err(AllocError),
        Err(RepeatedError::Repeated { number: _ }) => unreachable!(),
    }
}

/// These names again. Fails only when out of memory.
pub fn copies<N: Node>(alloc: Global, names: &[N]) -> Result<Vec<N>, AllocError>
    ensures { IfOk result (λ ns. map N.seen ns.items ≡ map N.seen names.now) }
{
    let mut copies = Vec::with_capacity(alloc, names.len())?;
    for name in names {
        copies.push(name.copy()?)?;
    }
    Ok(copies)
}
