//! The passes of the scope rules.

ghost use Rattle.std.specs.Prelude.{IfOk, OnOk};
ghost use Rattle.cedar_expr_names.specs.Views.{uid_of};
ghost use Rattle.cedar_store_parts.specs.Parts.{id_text, bindings_of};
ghost use Rattle.cedar_store_policies.specs.Templates.{template_of};
ghost use Rattle.cedar_typechecker_scopes.specs.Faults.{known_types, known_actions, known_members, wrong_within, wrong_by, wrong_bound, Reports, AddsReport, ReportsRule};
ghost use Rattle.cedar_typechecker_scopes.specs.Rules.{rule_of};

use crate::schema::ScopeSchema;
use crate::uids::{ScopeRule, add_expr, add_uid};
use cedar_expr_leaves::SlotId;
use cedar_expr_names::EntityUID;
use cedar_store_parts::{PolicyID, SlotEnv, ValidationError};
use cedar_store_policies::Template;
use std::alloc::{AllocError, Global};

/// Reports each literal of an enumerated type that isn't a member of it, wherever it stands in the scope or the body.
pub fn validate_enum_entity<S: ScopeSchema>(
    alloc: Global,
    schema: &S,
    template: &Template,
) -> Result<Vec<ValidationError>, AllocError>
    ensures { IfOk result (ReportsRule (S.schema schema.now) known_members (template_of template.now)) }
{
    wrong_within(alloc, schema, ScopeRule::KnownMembers, template)
}

/// Reports each entity type that is neither declared nor that of a declared action, of each literal and each `is` test, wherever they
/// stand in the scope or the body.
pub fn validate_entity_types<S: ScopeSchema>(
    alloc: Global,
    schema: &S,
    template: &Template,
) -> Result<Vec<ValidationError>, AllocError>
    ensures { IfOk result (ReportsRule (S.schema schema.now) known_types (template_of template.now)) }
{
    wrong_within(alloc, schema, ScopeRule::KnownTypes, template)
}

/// Reports each literal of the type of a declared action that isn't a declared action, wherever it stands in the scope or the body.
pub fn validate_action_ids<S: ScopeSchema>(
    alloc: Global,
    schema: &S,
    template: &Template,
) -> Result<Vec<ValidationError>, AllocError>
    ensures { IfOk result (ReportsRule (S.schema schema.now) known_actions (template_of template.now)) }
{
    wrong_within(alloc, schema, ScopeRule::KnownActions, template)
}

/// Reports what the three rules say of the uids that the slots of a policy are bound to: a type that isn't known, an action that isn't
/// declared, and one that isn't a member of its enumerated type.
pub fn validate_entity_types_in_slots<S: ScopeSchema>(
    alloc: Global,
    schema: &S,
    policy_id: &PolicyID,
    slots: &SlotEnv,
) -> Result<Vec<ValidationError>, AllocError>
    ensures { IfOk result (Reports (id_text policy_id.now) (wrong_bound (S.schema schema.now) (bindings_of slots.now))) }
{
    let mut found = Vec::new(alloc);
    if let Some(uid) = slots.get(SlotId::principal()) {
        add_bound(schema, policy_id, &mut found, uid)?;
    }
    if let Some(uid) = slots.get(SlotId::resource()) {
        add_bound(schema, policy_id, &mut found, uid)?;
    }
    Ok(found)
}

// What is wrong with the parts of the policy's condition by the rule.
fn wrong_within<S: ScopeSchema>(
    alloc: Global,
    schema: &S,
    rule: ScopeRule,
    template: &Template,
) -> Result<Vec<ValidationError>, AllocError>
    ensures { IfOk result (ReportsRule (S.schema schema.now) (rule_of rule) (template_of template.now)) }
{
    let mut found = Vec::new(alloc);
    for expr in template.condition().subexpressions(alloc)? {
        add_expr(schema, rule, template.id(), &mut found, expr)?;
    }
    Ok(found)
}

// Appends what the three rules say of the uid to what was found.
fn add_bound<S: ScopeSchema>(
    schema: &S,
    policy_id: &PolicyID,
    found: &mut Vec<ValidationError>,
    uid: &EntityUID,
) -> Result<(), AllocError>
    ensures { OnOk result (AddsReport (id_text policy_id.now) (wrong_by (S.schema schema.now) (uid_of uid.now)) found.old found.new) }
{
    add_uid(schema, ScopeRule::KnownTypes, policy_id, found, uid)?;
    add_uid(schema, ScopeRule::KnownActions, policy_id, found, uid)?;
    add_uid(schema, ScopeRule::KnownMembers, policy_id, found, uid)
}
