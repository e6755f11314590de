//! The scope rules, for each policy and for all.

ghost use Rattle.std.specs.Prelude.{◌≡◌, IfOk, true};
ghost use Rattle.std.specs.List.{list_all};
ghost use Rattle.std.specs.Option.{option_map_or};
ghost use Rattle.cedar_expr_leaves.specs.Slots.{slot_of};
ghost use Rattle.cedar_expr_model.specs.Parts.{subexpressions};
ghost use Rattle.cedar_expr_trees.specs.Trees.{tree_of};
ghost use Rattle.cedar_gate_rules.specs.Policies.{policies_of};
ghost use Rattle.cedar_gate_rules.specs.Rules.{keeps_uid, keeps_here, names_known};
ghost use Rattle.cedar_store_model.specs.Policy.{binding_of};
ghost use Rattle.cedar_store_parts.specs.Parts.{bindings_of};
ghost use Rattle.cedar_store_policies.specs.Policies.{policy_of};
ghost use Rattle.cedar_typechecker_model.specs.ScopeRules.{names_known_types, names_known_actions, names_known_members};

use crate::rules::{ScopeRule, keeps_here, keeps_uid};
use cedar_expr_leaves::SlotId;
use cedar_expr_trees::Expr;
use cedar_store_parts::SlotEnv;
use cedar_store_policies::Policy;
use cedar_typechecker_scopes::ScopeSchema;
use std::alloc::{AllocError, Global};

// Whether each part of the expression keeps the rule.
fn keeps_within<S: ScopeSchema>(
    alloc: Global,
    schema: &S,
    rule: ScopeRule,
    expr: &Expr,
) -> Result<bool, AllocError>
    ensures { IfOk result (λ b. b ≡ list_all (keeps_here (S.schema schema.now) rule) (subexpressions (tree_of expr.now))) }
{
    for part in expr.subexpressions(alloc)? {
        if !keeps_here(schema, rule, part) {
            return Ok(false);
        }
    }
    Ok(true)
}

// Whether the uid that the slot is bound to, if it is bound, keeps the rule.
fn keeps_bound<S: ScopeSchema>(schema: &S, rule: ScopeRule, bound: &SlotEnv, slot: SlotId) -> bool
    ensures { result ≡ option_map_or (keeps_uid (S.schema schema.now) rule) (binding_of (bindings_of bound.now) (slot_of slot)) true }
{
    match bound.get(slot) {
        Some(uid) => keeps_uid(schema, rule, uid),
        None => true,
    }
}

// Whether the policy keeps the rule.
#[tactic(auto, using(crate::proofs::Named::rule_kept))]
fn policy_keeps<S: ScopeSchema>(
    alloc: Global,
    schema: &S,
    rule: ScopeRule,
    policy: &Policy,
) -> Result<bool, AllocError>
    ensures { IfOk result (λ b. b ≡ names_known rule (S.schema schema.now) (policy_of policy.now)) }
{
    if !keeps_within(alloc, schema, rule, policy.condition())? {
        return Ok(false);
    }
    let bound = policy.env();
    Ok(
        keeps_bound(schema, rule, bound, SlotId::principal())
            && keeps_bound(schema, rule, bound, SlotId::resource()),
    )
}

// Whether each of these policies keeps the rule.
fn policies_keep<S: ScopeSchema>(
    alloc: Global,
    schema: &S,
    rule: ScopeRule,
    policies: &[Policy],
) -> Result<bool, AllocError>
    ensures { IfOk result (λ b. b ≡ list_all (names_known rule (S.schema schema.now)) (policies_of policies.now)) }
{
    for policy in policies {
        if !policy_keeps(alloc, schema, rule, policy)? {
            return Ok(false);
        }
    }
    Ok(true)
}

/// Whether the entity types that these policies name are declared, or those of declared actions. Fails only when out of memory.
pub fn name_known_types<S: ScopeSchema>(
    alloc: Global,
    schema: &S,
    policies: &[Policy],
) -> Result<bool, AllocError>
    ensures { IfOk result (λ b. b ≡ list_all (names_known_types (S.schema schema.now)) (policies_of policies.now)) }
{
    policies_keep(alloc, schema, ScopeRule::KnownTypes, policies)
}

/// Whether the uids of an action's type that these policies name are declared actions. Fails only when out of memory.
pub fn name_known_actions<S: ScopeSchema>(
    alloc: Global,
    schema: &S,
    policies: &[Policy],
) -> Result<bool, AllocError>
    ensures { IfOk result (λ b. b ≡ list_all (names_known_actions (S.schema schema.now)) (policies_of policies.now)) }
{
    policies_keep(alloc, schema, ScopeRule::KnownActions, policies)
}

/// Whether the uids of enumerated types that these policies name are declared members. Fails only when out of memory.
pub fn name_known_members<S: ScopeSchema>(
    alloc: Global,
    schema: &S,
    policies: &[Policy],
) -> Result<bool, AllocError>
    ensures { IfOk result (λ b. b ≡ list_all (names_known_members (S.schema schema.now)) (policies_of policies.now)) }
{
    policies_keep(alloc, schema, ScopeRule::KnownMembers, policies)
}
