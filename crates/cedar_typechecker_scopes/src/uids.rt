//! What is wrong with entity types and uids.

ghost use Rattle.std.specs.Prelude.{◌∷◌, [], OnOk};
ghost use Rattle.cedar_expr_names.specs.Views.{type_name_of, uid_of};
ghost use Rattle.cedar_expr_leaves.specs.Literals.{literal_of};
ghost use Rattle.cedar_expr_trees.specs.Trees.{tree_of};
ghost use Rattle.cedar_store_parts.specs.Parts.{id_text};
ghost use Rattle.cedar_store_parts.specs.Views.{wrong_of};
ghost use Rattle.cedar_typechecker_scopes.specs.Faults.{known_types, known_actions, known_members, wrong_type, wrong_uid, wrong_literal, wrong_here, AddsReport};
ghost use Rattle.cedar_typechecker_scopes.specs.Rules.{rule_of};

use crate::schema::ScopeSchema;
use cedar_expr_leaves::Literal;
use cedar_expr_names::{EntityType, EntityUID, Loc};
use cedar_expr_trees::{Expr, ExprKind};
use cedar_store_parts::{PolicyID, ValidationError, ValidationErrorKind};
use std::alloc::AllocError;

// The scope rules.
#[derive(Clone, Copy)]
pub(crate) enum ScopeRule {
    // Entity types are declared, or those of declared actions.
    KnownTypes,
    // Uids of an action's type are declared actions.
    KnownActions,
    // Uids of an enumerated type are its members.
    KnownMembers,
}

// Appends what is wrong with the expression itself to what was found.
pub(crate) fn add_expr<S: ScopeSchema>(
    schema: &S,
    rule: ScopeRule,
    policy_id: &PolicyID,
    found: &mut Vec<ValidationError>,
    expr: &Expr,
) -> Result<(), AllocError>
    ensures { OnOk result (AddsReport (id_text policy_id.now) (wrong_here (S.schema schema.now) (rule_of rule) (tree_of expr.now)) found.old found.new) }
{
    match expr.expr_kind() {
        ExprKind::Lit(literal) => add_literal(schema, rule, policy_id, found, literal),
        ExprKind::Is { entity_type, .. } => add_type(schema, rule, policy_id, found, entity_type),
        ExprKind::Var(_) | ExprKind::Slot(_) | ExprKind::Unknown(_) => Ok(()),
        ExprKind::If { .. } | ExprKind::And { .. } | ExprKind::Or { .. } => Ok(()),
        ExprKind::UnaryApp { .. } | ExprKind::BinaryApp { .. } => Ok(()),
        ExprKind::ExtensionFunctionApp { .. } | ExprKind::Like { .. } => Ok(()),
        ExprKind::GetAttr { .. } | ExprKind::HasAttr { .. } | ExprKind::ExtHasAttr { .. } => Ok(()),
        ExprKind::Set(_) | ExprKind::Record(_) => Ok(()),
    }
}

// Appends what is wrong with a literal, if it is a uid, to what was found.
fn add_literal<S: ScopeSchema>(
    schema: &S,
    rule: ScopeRule,
    policy_id: &PolicyID,
    found: &mut Vec<ValidationError>,
    literal: &Literal,
) -> Result<(), AllocError>
    ensures { OnOk result (AddsReport (id_text policy_id.now) (wrong_literal (S.schema schema.now) (rule_of rule) (literal_of literal.now)) found.old found.new) }
{
    match literal {
        Literal::EntityUID(uid) => add_uid(schema, rule, policy_id, found, uid),
        Literal::Bool(_) | Literal::Long(_) | Literal::String(_) => Ok(()),
    }
}

// Appends what is wrong with the entity type by the rule to what was found.
fn add_type<S: ScopeSchema>(
    schema: &S,
    rule: ScopeRule,
    policy_id: &PolicyID,
    found: &mut Vec<ValidationError>,
    ty: &EntityType,
) -> Result<(), AllocError>
    ensures { OnOk result (AddsReport (id_text policy_id.now) (wrong_type (S.schema schema.now) (rule_of rule) (type_name_of ty.now)) found.old found.new) }
{
    match rule {
        ScopeRule::KnownTypes => add_unknown_type(schema, policy_id, found, ty),
        ScopeRule::KnownActions | ScopeRule::KnownMembers => Ok(()),
    }
}

// Appends what is wrong with the uid by the rule to what was found.
pub(crate) fn add_uid<S: ScopeSchema>(
    schema: &S,
    rule: ScopeRule,
    policy_id: &PolicyID,
    found: &mut Vec<ValidationError>,
    uid: &EntityUID,
) -> Result<(), AllocError>
    ensures { OnOk result (AddsReport (id_text policy_id.now) (wrong_uid (S.schema schema.now) (rule_of rule) (uid_of uid.now)) found.old found.new) }
{
    match rule {
        ScopeRule::KnownTypes => add_unknown_type(schema, policy_id, found, uid.entity_type()),
        ScopeRule::KnownActions => add_unknown_action(schema, policy_id, found, uid),
        ScopeRule::KnownMembers => add_unknown_member(schema, policy_id, found, uid),
    }
}

// Reports the entity type, if it is neither declared nor that of a declared action.
fn add_unknown_type<S: ScopeSchema>(
    schema: &S,
    policy_id: &PolicyID,
    found: &mut Vec<ValidationError>,
    ty: &EntityType,
) -> Result<(), AllocError>
    ensures { OnOk result (AddsReport (id_text policy_id.now) (wrong_type (S.schema schema.now) known_types (type_name_of ty.now)) found.old found.new) }
{
    if schema.declares_type(ty) || schema.is_action_type(ty) {
        Ok(())
    } else {
        let kind = ValidationErrorKind::UnrecognizedEntityType(ty.clone()?);
        add(policy_id, found, ty.name().loc(), kind)
    }
}

// Reports the uid, if it is of an action's type and no declared action.
fn add_unknown_action<S: ScopeSchema>(
    schema: &S,
    policy_id: &PolicyID,
    found: &mut Vec<ValidationError>,
    uid: &EntityUID,
) -> Result<(), AllocError>
    ensures { OnOk result (AddsReport (id_text policy_id.now) (wrong_uid (S.schema schema.now) known_actions (uid_of uid.now)) found.old found.new) }
{
    if !schema.is_action_type(uid.entity_type()) || schema.declares_action(uid) {
        Ok(())
    } else {
        let kind = ValidationErrorKind::UnrecognizedActionId(uid.clone()?);
        add(policy_id, found, uid.loc(), kind)
    }
}

// Reports the uid, if it is of an enumerated type and no member of it.
fn add_unknown_member<S: ScopeSchema>(
    schema: &S,
    policy_id: &PolicyID,
    found: &mut Vec<ValidationError>,
    uid: &EntityUID,
) -> Result<(), AllocError>
    ensures { OnOk result (AddsReport (id_text policy_id.now) (wrong_uid (S.schema schema.now) known_members (uid_of uid.now)) found.old found.new) }
{
    if schema.is_no_unknown_member(uid) {
        Ok(())
    } else {
        let kind = ValidationErrorKind::InvalidEnumEntity(uid.clone()?);
        add(policy_id, found, uid.loc(), kind)
    }
}

// Reports this of the policy, at this place.
fn add(
    policy_id: &PolicyID,
    found: &mut Vec<ValidationError>,
    source_loc: Option<Loc>,
    kind: ValidationErrorKind,
) -> Result<(), AllocError>
    ensures { OnOk result (AddsReport (id_text policy_id.now) (wrong_of kind ∷ []) found.old found.new) }
{
    let policy_id = policy_id.clone()?;
    found.push(ValidationError {
        policy_id,
        source_loc,
        kind,
    })?;
    Ok(())
}
