//! What one entity type, one uid and one expression keep of the scope rules.

ghost use Rattle.std.specs.Prelude.{◌≡◌};
ghost use Rattle.cedar_expr_leaves.specs.Literals.{literal_of};
ghost use Rattle.cedar_expr_names.specs.Views.{type_name_of, uid_of};
ghost use Rattle.cedar_expr_trees.specs.Trees.{tree_of};
ghost use Rattle.cedar_gate_rules.specs.Rules.{keeps_type, keeps_uid, keeps_literal, keeps_here};
ghost use Rattle.cedar_typechecker_model.specs.ScopeRules.{is_known_type, is_no_unknown_action};

use cedar_expr_leaves::Literal;
use cedar_expr_names::{EntityType, EntityUID};
use cedar_expr_trees::{Expr, ExprKind};
use cedar_typechecker_scopes::ScopeSchema;

// The scope rules.
#[derive(Clone, Copy)]
pub(crate) enum ScopeRule {
    // Entity types are declared, or those of declared actions.
    KnownTypes,
    // Uids of an action's type are declared actions.
    KnownActions,
    // Uids of an enumerated type are its members.
    KnownMembers,
}

// Whether the entity type is declared, or is that of a declared action.
fn is_known_type<S: ScopeSchema>(schema: &S, ty: &EntityType) -> bool
    ensures { result ≡ is_known_type (S.schema schema.now) (type_name_of ty.now) }
{
    schema.declares_type(ty) || schema.is_action_type(ty)
}

// Whether the uid, if it is of the type of a declared action, is one.
fn is_no_unknown_action<S: ScopeSchema>(schema: &S, uid: &EntityUID) -> bool
    ensures { result ≡ is_no_unknown_action (S.schema schema.now) (uid_of uid.now) }
{
    !schema.is_action_type(uid.entity_type()) || schema.declares_action(uid)
}

// Whether an `is` test for the entity type keeps the rule.
fn keeps_type<S: ScopeSchema>(schema: &S, rule: ScopeRule, ty: &EntityType) -> bool
    ensures { result ≡ keeps_type (S.schema schema.now) rule (type_name_of ty.now) }
{
    match rule {
        ScopeRule::KnownTypes => is_known_type(schema, ty),
        ScopeRule::KnownActions | ScopeRule::KnownMembers => true,
    }
}

// Whether the uid keeps the rule.
pub(crate) fn keeps_uid<S: ScopeSchema>(schema: &S, rule: ScopeRule, uid: &EntityUID) -> bool
    ensures { result ≡ keeps_uid (S.schema schema.now) rule (uid_of uid.now) }
{
    match rule {
        ScopeRule::KnownTypes => is_known_type(schema, uid.entity_type()),
        ScopeRule::KnownActions => is_no_unknown_action(schema, uid),
        ScopeRule::KnownMembers => schema.is_no_unknown_member(uid),
    }
}

// Whether the literal keeps the rule.
fn keeps_literal<S: ScopeSchema>(schema: &S, rule: ScopeRule, literal: &Literal) -> bool
    ensures { result ≡ keeps_literal (keeps_uid (S.schema schema.now) rule) (literal_of literal.now) }
{
    match literal {
        Literal::EntityUID(uid) => keeps_uid(schema, rule, uid),
        Literal::Bool(_) | Literal::Long(_) | Literal::String(_) => true,
    }
}

// Whether the expression itself keeps the rule.
pub(crate) fn keeps_here<S: ScopeSchema>(schema: &S, rule: ScopeRule, expr: &Expr) -> bool
    ensures { result ≡ keeps_here (S.schema schema.now) rule (tree_of expr.now) }
{
    match expr.expr_kind() {
        ExprKind::Lit(literal) => keeps_literal(schema, rule, literal),
        ExprKind::Is { entity_type, .. } => keeps_type(schema, rule, entity_type),
        ExprKind::Var(_) | ExprKind::Slot(_) | ExprKind::Unknown(_) => true,
        ExprKind::If { .. } | ExprKind::And { .. } | ExprKind::Or { .. } => true,
        ExprKind::UnaryApp { .. } | ExprKind::BinaryApp { .. } => true,
        ExprKind::ExtensionFunctionApp { .. } | ExprKind::Like { .. } => true,
        ExprKind::GetAttr { .. } | ExprKind::HasAttr { .. } | ExprKind::ExtHasAttr { .. } => true,
        ExprKind::Set(_) | ExprKind::Record(_) => true,
    }
}
