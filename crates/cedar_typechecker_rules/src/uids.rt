//! The uids and actions that expressions write.

ghost use Rattle.std.specs.Prelude.{◌≡◌, ◌&&◌, map, option_map};
ghost use Rattle.cedar_expr_names.specs.Views.{uid_of};
ghost use Rattle.cedar_expr_leaves.specs.Literals.{literal_of};
ghost use Rattle.cedar_expr_leaves.specs.Variables.{var_of};
ghost use Rattle.cedar_expr_model.specs.Builder.{trees};
ghost use Rattle.cedar_expr_model.specs.Parts.{uid_here};
ghost use Rattle.cedar_expr_model.specs.Tree.{lit, var};
ghost use Rattle.cedar_expr_trees.specs.Trees.{tree_of};
ghost use Rattle.cedar_typechecker_model.specs.Rules.{written_uid, written_action, action_literal, is_text_literal};
ghost use Rattle.cedar_typechecker_environments.specs.Settings.{setting_of};
ghost use Rattle.cedar_typechecker_rules.specs.Uids.{is_action_variable, set_here, is_text};

use cedar_expr_leaves::{Literal, Var};
use cedar_expr_names::EntityUID;
use cedar_expr_trees::{Expr, ExprKind};
use cedar_typechecker_environments::{TypingSchema, World};

/// The uid that an expression writes, if any; the variable of the action writes that of the environment.
#[tactic(auto, using(crate::proofs::Written::written_uid_is))]
pub fn written_uid<'a, S: TypingSchema>(
    world: &World<'a, S>,
    expr: &'a Expr,
) -> Option<&'a EntityUID>
    ensures { option_map (λ u. uid_of u.now) result ≡ written_uid (setting_of S.schema S.table world.now) (tree_of expr.entry.now) }
{
    if is_action_variable(expr) {
        Some(&world.env.action)
    } else {
        uid_literal(expr)
    }
}

// The declared action that an expression writes, if any; the variable of the action writes that of the environment.
#[tactic(auto, using(crate::proofs::Written::written_action_is))]
pub(crate) fn written_action<'a, S: TypingSchema>(
    world: &World<'a, S>,
    expr: &'a Expr,
) -> Option<&'a EntityUID>
    ensures { option_map (λ u. uid_of u.now) result ≡ written_action (setting_of S.schema S.table world.now) (tree_of expr.entry.now) }
{
    if is_action_variable(expr) {
        Some(&world.env.action)
    } else {
        action_literal(world, expr)
    }
}

// The declared action that an expression is as a literal, if it is one.
pub(crate) fn action_literal<'a, S: TypingSchema>(
    world: &World<'_, S>,
    expr: &'a Expr,
) -> Option<&'a EntityUID>
    ensures { option_map (λ u. uid_of u.now) result ≡ action_literal (setting_of S.schema S.table world.now) (tree_of expr.entry.now) }
{
    match uid_literal(expr) {
        Some(uid) if world.schema.declares_action(uid) => Some(uid),
        Some(_) => None,
        None => None,
    }
}

// The uid that an expression is as a literal, if it is one.
fn uid_literal(expr: &Expr) -> Option<&EntityUID>
    ensures { option_map (λ u. uid_of u.now) result ≡ uid_here (tree_of expr.entry.now) }
{
    match expr.expr_kind() {
        ExprKind::Lit(literal) => uid_in(literal),
        ExprKind::Var(_) | ExprKind::Slot(_) | ExprKind::Unknown(_) => None,
        ExprKind::If { .. } | ExprKind::And { .. } | ExprKind::Or { .. } => None,
        ExprKind::UnaryApp { .. } | ExprKind::BinaryApp { .. } => None,
        ExprKind::ExtensionFunctionApp { .. } => None,
        ExprKind::GetAttr { .. } | ExprKind::HasAttr { .. } => None,
        ExprKind::ExtHasAttr { .. } | ExprKind::Like { .. } | ExprKind::Is { .. } => None,
        ExprKind::Set(_) | ExprKind::Record(_) => None,
    }
}

// The uid that a literal is, if it is one.
fn uid_in(literal: &Literal) -> Option<&EntityUID>
    ensures { option_map (λ u. uid_of u.now) result ≡ uid_here (lit (literal_of literal.entry.now)) }
{
    match literal {
        Literal::EntityUID(uid) => Some(uid),
        Literal::Bool(_) | Literal::Long(_) | Literal::String(_) => None,
    }
}

// Whether the expression is the variable of the action.
fn is_action_variable(expr: &Expr) -> bool
    ensures { result ≡ is_action_variable (tree_of expr.now) }
{
    match expr.expr_kind() {
        ExprKind::Var(v) => is_action(*v),
        ExprKind::Lit(_) | ExprKind::Slot(_) | ExprKind::Unknown(_) => false,
        ExprKind::If { .. } | ExprKind::And { .. } | ExprKind::Or { .. } => false,
        ExprKind::UnaryApp { .. } | ExprKind::BinaryApp { .. } => false,
        ExprKind::ExtensionFunctionApp { .. } => false,
        ExprKind::GetAttr { .. } | ExprKind::HasAttr { .. } => false,
        ExprKind::ExtHasAttr { .. } | ExprKind::Like { .. } | ExprKind::Is { .. } => false,
        ExprKind::Set(_) | ExprKind::Record(_) => false,
    }
}

// Whether the variable is that of the action.
fn is_action(v: Var) -> bool
    ensures { result ≡ is_action_variable (var (var_of v)) }
{
    match v {
        Var::Action => true,
        Var::Principal | Var::Resource | Var::Context => false,
    }
}

// The members of a set literal.
#[tactic(auto, using(cedar_expr_trees::proofs::Trees::set_tree))]
pub(crate) fn set_members(expr: &Expr) -> Option<&[Expr]>
    ensures { option_map (λ es. trees (map tree_of es.now)) result ≡ set_here (tree_of expr.entry.now) }
{
    match expr.expr_kind() {
        ExprKind::Set(members) => Some(members.as_slice()),
        ExprKind::Lit(_) | ExprKind::Var(_) => None,
        ExprKind::Slot(_) | ExprKind::Unknown(_) => None,
        ExprKind::If { .. } | ExprKind::And { .. } | ExprKind::Or { .. } => None,
        ExprKind::UnaryApp { .. } | ExprKind::BinaryApp { .. } => None,
        ExprKind::ExtensionFunctionApp { .. } => None,
        ExprKind::GetAttr { .. } | ExprKind::HasAttr { .. } => None,
        ExprKind::ExtHasAttr { .. } | ExprKind::Like { .. } | ExprKind::Is { .. } => None,
        ExprKind::Record(_) => None,
    }
}

/// Whether these arguments are one literal text.
#[tactic(auto, using(crate::proofs::Written::text_alone))]
pub fn is_text_literal(args: &[Expr]) -> bool
    ensures { result ≡ is_text_literal (trees (map tree_of args.now)) }
{
    match args {
        [only] => is_text(only),
        _ => false,
    }
}

// Whether the expression is a literal text.
fn is_text(expr: &Expr) -> bool
    ensures { result ≡ is_text (tree_of expr.now) }
{
    match expr.expr_kind() {
        ExprKind::Lit(literal) => is_text_in(literal),
        ExprKind::Var(_) | ExprKind::Slot(_) | ExprKind::Unknown(_) => false,
        ExprKind::If { .. } | ExprKind::And { .. } | ExprKind::Or { .. } => false,
        ExprKind::UnaryApp { .. } | ExprKind::BinaryApp { .. } => false,
        ExprKind::ExtensionFunctionApp { .. } => false,
        ExprKind::GetAttr { .. } | ExprKind::HasAttr { .. } => false,
        ExprKind::ExtHasAttr { .. } | ExprKind::Like { .. } | ExprKind::Is { .. } => false,
        ExprKind::Set(_) | ExprKind::Record(_) => false,
    }
}

// Whether the literal is a text.
fn is_text_in(literal: &Literal) -> bool
    ensures { result ≡ is_text (lit (literal_of literal.now)) }
{
    match literal {
        Literal::String(_) => true,
        Literal::Bool(_) | Literal::Long(_) | Literal::EntityUID(_) => false,
    }
}
