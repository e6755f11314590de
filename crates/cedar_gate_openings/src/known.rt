//! The roots of a request.

ghost use Rattle.std.specs.Prelude.{◌≡◌, ◌++◌, IfOk, OnOk, option_to_list};
ghost use Rattle.cedar_evaluator_model.specs.Known.{known_entry};
ghost use Rattle.cedar_evaluator_requests.specs.Views.{entry_of, request_of};
ghost use Rattle.cedar_gate_openings.specs.Bound.{context_in};
ghost use Rattle.cedar_gate_openings.specs.Mentions.{uids};
ghost use Rattle.cedar_gate_openings.specs.Roots.{known_roots, mentioned_by_context};

use crate::add_mentioned_in;
use cedar_evaluator_requests::{Context, EntityUIDEntry, Request};
use cedar_expr_names::EntityUID;
use std::alloc::{AllocError, Global};

/// The roots of a request: its principal, its resource and what its context mentions, as far as they are known. Fails only when out of memory.
#[tactic(auto, using(crate::proofs::Rooted::in_a_row))]
pub fn roots(alloc: Global, request: &Request) -> Result<Vec<EntityUID>, AllocError>
    ensures { IfOk result (λ us. uids us.items ≡ known_roots (request_of request.now)) }
{
    let mut roots = Vec::new(alloc);
    add_entry(request.principal(), &mut roots)?;
    add_entry(request.resource(), &mut roots)?;
    add_by_context(request.context(), &mut roots)?;
    Ok(roots)
}

// Adds the uid of the entry, where it is known.
fn add_entry(entry: &EntityUIDEntry, to: &mut Vec<EntityUID>) -> Result<(), AllocError>
    ensures { OnOk result (uids to.new.items ≡ uids to.old.items ++ option_to_list (known_entry (entry_of entry.now))) }
{
    match entry {
        EntityUIDEntry::Known { euid, .. } => {
            to.push(euid.as_ref().clone()?)?;
            Ok(())
        }
        EntityUIDEntry::Unknown { .. } => Ok(()),
    }
}

// Adds what the context mentions, where it is known.
fn add_by_context(context: Option<&Context>, to: &mut Vec<EntityUID>) -> Result<(), AllocError>
    ensures { OnOk result (uids to.new.items ≡ uids to.old.items ++ mentioned_by_context (context_in context.entry)) }
{
    match context {
        Some(Context::Value(fields)) => add_mentioned_in(fields.as_map(), to),
        Some(Context::RestrictedResidual(_)) => Ok(()),
        None => Ok(()),
    }
}
