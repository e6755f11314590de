//! Which policies may decide a request of given types.

ghost use Rattle.std.specs.Prelude.{◌≡◌, ◌++◌, ◌∷◌, [], not, map, IfOk, OnOk};
ghost use Rattle.std.specs.List.{filter};
ghost use Rattle.cedar_gate_rules.specs.Policies.{policies_of};
ghost use Rattle.cedar_gate_accepted.specs.Checked.{relevant_ids, AddsIds};
ghost use Rattle.cedar_gate_accepted.specs.Checks.{kind_asked};
ghost use Rattle.cedar_store_parts.specs.Parts.{id_text};
ghost use Rattle.cedar_store_policies.specs.Policies.{policy_of};

use crate::is_irrelevant_for;
use cedar_store_parts::{PolicyID, RequestType};
use cedar_store_policies::Policy;
use cedar_typechecker_scopes::SchemaEnvironments;
use std::alloc::{AllocError, Global};

// Appends the policy's id to those that were found, unless it is irrelevant for requests of these types.
fn add_relevant<S: SchemaEnvironments>(
    alloc: Global,
    schema: &S,
    kind: &RequestType,
    policy: &Policy,
    found: &mut Vec<PolicyID>,
) -> Result<(), AllocError>
    ensures { OnOk result (AddsIds found.old found.new (relevant_ids (S.schema schema.now) (S.table schema.now) (kind_asked kind.now) (policy_of policy.now ∷ []))) }
{
    if !is_irrelevant_for(alloc, schema, kind, policy)? {
        let id = policy.id().clone()?;
        found.push(id)?;
    }
    Ok(())
}

/// The ids of those of these policies that aren't irrelevant for requests of these types, in their order. Fails only when out of memory.
pub fn relevant<S: SchemaEnvironments>(
    alloc: Global,
    schema: &S,
    kind: &RequestType,
    policies: &[Policy],
) -> Result<Vec<PolicyID>, AllocError>
    ensures { IfOk result (λ ids. map id_text ids.items ≡ relevant_ids (S.schema schema.now) (S.table schema.now) (kind_asked kind.now) (policies_of policies.now)) }
{
    let mut found = Vec::new(alloc);
    for policy in policies {
        add_relevant(alloc, schema, kind, policy, &mut found)?;
    }
    Ok(found)
}
