//! The ids of policies in groups.

ghost use Rattle.std.specs.Prelude.{◌≡◌, ◌++◌, map, filter_map, IfOk, OnOk};
ghost use Rattle.cedar_store_parts.specs.Parts.{id_text};
ghost use Rattle.indexmap.specs.IndexMap.{keys};
ghost use Rattle.cedar_evaluator_model.specs.Members.{id_if_erred};
ghost use Rattle.cedar_evaluator_requests.specs.Groups.{false_seen, residual_seen};

use crate::groups::ErrorState;
use cedar_expr_trees::Expr;
use cedar_store_parts::{Annotations, PolicyID};
use indexmap::{IndexMap, IndexSet};
use std::alloc::{AllocError, Global};
use std::rc::Rc;

/// The ids of the group, in order.
pub fn ids_of<V>(
    alloc: Global,
    group: &IndexMap<PolicyID, V>,
) -> Result<IndexSet<PolicyID>, AllocError>
    ensures { IfOk result (λ ids. map id_text ids.keys ≡ map id_text (keys group.now)) }
{
    let mut ids = IndexSet::new(alloc);
    for id in group.keys() {
        ids.insert(id.clone()?)?;
    }
    Ok(ids)
}

/// Puts the ids of a group of residual policies at the end.
pub fn push_ids<'a>(
    ids: &mut Vec<&'a PolicyID>,
    group: &'a IndexMap<PolicyID, (Rc<Expr>, Rc<Annotations>)>,
) -> Result<(), AllocError>
    ensures { OnOk result (map (λ i. id_text i.now) ids.new.items ≡ map (λ i. id_text i.now) ids.old.items ++ map (λ n. (n.0).id) (map residual_seen group.now.entries)) }
{
    for (id, _kept) in group {
        ids.push(id)?;
    }
    Ok(())
}

/// Puts the ids of those policies of a group at the end that erred.
pub fn push_erred<'a>(
    ids: &mut Vec<&'a PolicyID>,
    group: &'a IndexMap<PolicyID, (ErrorState, Rc<Annotations>)>,
) -> Result<(), AllocError>
    ensures { OnOk result (map (λ i. id_text i.now) ids.new.items ≡ map (λ i. id_text i.now) ids.old.items ++ filter_map id_if_erred (map false_seen group.now.entries)) }
{
    for (id, kept) in group {
        match kept.0 {
            ErrorState::Error => ids.push(id)?,
            ErrorState::NoError => continue,
        }
    }
    Ok(())
}
