//! The groups of a partial response.

ghost use Rattle.std.specs.Prelude.{◌≡◌, IfOk};
ghost use Rattle.cedar_expr_model.specs.Lists.{is_nil};
ghost use Rattle.cedar_evaluator_requests.specs.Groups.{each_once};

use cedar_store_parts::PolicyID;
use indexmap::IndexMap;
use std::alloc::{AllocError, Global};

/// Whether a policy that isn't satisfied erred.
#[derive(Clone, Copy, Debug, PartialEq, Eq, PartialOrd, Ord, Hash)]
pub enum ErrorState {
    /// It didn't.
    NoError,
    /// It did.
    Error,
}

/// The group of these entries: an id that is repeated keeps its place, with what stands last under it.
pub fn group_of<V: Drop>(
    alloc: Global,
    entries: Vec<(PolicyID, V)>,
) -> Result<IndexMap<PolicyID, V>, AllocError>
    ensures { IfOk result (λ m. m.entries ≡ each_once entries.items) }
{
    let mut group = IndexMap::new(alloc);
    for (id, value) in entries {
        group.insert(id, value)?;
    }
    Ok(group)
}

/// Whether there is no policy in the group.
pub fn is_empty<V>(group: &IndexMap<PolicyID, V>) -> bool
    ensures { result ≡ is_nil group.now.entries }
{
    group.is_empty()
}
