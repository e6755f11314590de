//! Restricted expressions that are borrowed.

ghost use Rattle.std.specs.Prelude.{◌≡◌, true};
ghost use Rattle.cedar_expr_model.specs.Restricted.{is_restricted};
ghost use Rattle.cedar_expr_trees.specs.Trees.{tree_of};

use crate::check::refuse_unrestricted;
use crate::parts::{RestrictedElements, RestrictedPairs};
use crate::restricted::RestrictedExpr;
use cedar_evaluator_errors::RestrictedExpressionError;
use cedar_expr_functions::{CheckExpr, Extensions};
use cedar_expr_leaves::Literal;
use cedar_expr_names::{EntityUID, Name};
use cedar_expr_trees::{Expr, ExprKind, Type, Unknown};
use std::alloc::{AllocError, Global};
use std::convert::AsRef;
use std::ops::Deref;
use std::rc::RcStr;

/// A restricted expression that is borrowed: a literal, an unknown, or a call, a set or a record of such expressions.
#[derive(Clone, Copy, Debug, PartialEq, Eq, Hash)]
pub struct BorrowedRestrictedExpr<'a> {
    expr: &'a Expr,
    ghost restricted: { is_restricted (tree_of expr.now) ≡ true },
}

impl<'a> BorrowedRestrictedExpr<'a> {
    ghost use Rattle.std.specs.Prelude.{IfOk, IfErr, option_map, option_and_then, List};
    ghost use Rattle.std.specs.Rc.{rc_str_bytes};
    ghost use Rattle.cedar_expr_model.specs.Name.{Name as ModelName};
    ghost use Rattle.cedar_expr_model.specs.Evident.{evident_type};
    ghost use Rattle.cedar_expr_model.specs.Parts.{unknown_here};
    ghost use Rattle.cedar_expr_model.specs.Table.{Called};
    ghost use Rattle.cedar_expr_model.specs.Value.{V};
    ghost use Rattle.cedar_expr_functions.specs.Tables.{table_of};
    ghost use Rattle.cedar_expr_leaves.specs.Literals.{literal_of};
    ghost use Rattle.cedar_expr_names.specs.Views.{uid_of, plain_name_of};
    ghost use Rattle.cedar_expr_trees.specs.Trees.{place_of};
    ghost use Rattle.cedar_expr_trees.specs.Unknowns.{unknown_of};
    ghost use Rattle.cedar_expr_values.specs.Types.{core_of};
    ghost use Rattle.cedar_evaluator_restricted_exprs.specs.Read.{literal_read, truth_held, long_held, text_held, uid_held, members_read, fields_read, call_read};
    ghost use Rattle.cedar_evaluator_restricted_exprs.specs.Refused.{Refuses};
    ghost use Rattle.cedar_evaluator_restricted_exprs.specs.Views.{borrowed_of, borrowed_place, restricted_of, restricted_place, elements_left, pairs_left};

    /// The restricted expression that this one is.
    ///
    /// # Errors
    /// `InvalidRestrictedExpression` with the first part that mustn't stand in a restricted expression, a node before its children and
    /// children in order, and what it is; `OutOfMemory`.
    pub fn new(
        alloc: Global,
        expr: &'a Expr,
    ) -> Result<BorrowedRestrictedExpr<'a>, RestrictedExpressionError>
        ensures tree { IfOk result (λ r. borrowed_of r ≡ tree_of expr.entry.now) }
        ensures place { IfOk result (λ r. borrowed_place r ≡ place_of expr.entry.now) }
        ensures refused { IfErr result (Refuses (tree_of expr.entry.now)) }
    {
        refuse_unrestricted(alloc, expr)?;
        Ok(BorrowedRestrictedExpr { expr })
    }

    /// The restricted expression that this one is, which isn't asked again.
    pub fn new_unchecked(expr: &'a Expr) -> BorrowedRestrictedExpr<'a>
        requires { is_restricted (tree_of expr.now) ≡ true }
        ensures tree { borrowed_of result ≡ tree_of expr.entry.now }
        ensures place { borrowed_place result ≡ place_of expr.entry.now }
    {
        BorrowedRestrictedExpr { expr }
    }

    /// A copy, whose parts are shared.
    pub fn to_owned(self) -> Result<RestrictedExpr, AllocError>
        ensures tree { IfOk result (λ r. restricted_of r ≡ borrowed_of self.entry) }
        ensures place { IfOk result (λ r. restricted_place r ≡ borrowed_place self.entry) }
    {
        let expr = self.expr.clone()?;
        Ok(RestrictedExpr::new_unchecked(expr))
    }

    /// The expression.
    pub fn expr(&self) -> &'a Expr
        ensures tree { tree_of result.now ≡ borrowed_of self.entry.now }
        ensures restricted { is_restricted (tree_of result.now) ≡ true }
        ensures place { place_of result.now ≡ borrowed_place self.entry.now }
    {
        self.expr
    }

    /// The truth value, where the expression is one.
    pub fn as_bool(&self) -> Option<bool>
        ensures { result ≡ option_and_then truth_held (literal_read (borrowed_of self.now)) }
    {
        match literal(self.expr)? {
            Literal::Bool(b) => Some(*b),
            Literal::Long(_) | Literal::String(_) | Literal::EntityUID(_) => None,
        }
    }

    /// The whole number, where the expression is one.
    pub fn as_long(&self) -> Option<i64>
        ensures { result ≡ option_and_then long_held (literal_read (borrowed_of self.now)) }
    {
        match literal(self.expr)? {
            Literal::Long(n) => Some(*n),
            Literal::Bool(_) | Literal::String(_) | Literal::EntityUID(_) => None,
        }
    }

    /// The text, where the expression is one.
    pub fn as_string(&self) -> Option<&'a RcStr>
        ensures { option_map (λ s. rc_str_bytes s.now) result ≡ option_and_then text_held (literal_read (borrowed_of self.entry.now)) }
    {
        match literal(self.expr)? {
            Literal::String(s) => Some(s),
            Literal::Bool(_) | Literal::Long(_) | Literal::EntityUID(_) => None,
        }
    }

    /// The uid, where the expression is one.
    pub fn as_euid(&self) -> Option<&'a EntityUID>
        ensures { option_map (λ u. uid_of u.now) result ≡ option_and_then uid_held (literal_read (borrowed_of self.entry.now)) }
    {
        match literal(self.expr)? {
            Literal::EntityUID(uid) => Some(uid),
            Literal::Bool(_) | Literal::Long(_) | Literal::String(_) => None,
        }
    }

    /// The unknown, where the expression is one.
    pub fn as_unknown(&self) -> Option<&'a Unknown>
        ensures { option_map (λ u. unknown_of u.now) result ≡ unknown_here (borrowed_of self.entry.now) }
    {
        match self.expr.expr_kind() {
            ExprKind::Unknown(unknown) => Some(unknown),
            ExprKind::Lit(_) | ExprKind::Var(_) | ExprKind::Slot(_) => None,
            ExprKind::If { .. } | ExprKind::And { .. } | ExprKind::Or { .. } => None,
            ExprKind::UnaryApp { .. } | ExprKind::BinaryApp { .. } => None,
            ExprKind::ExtensionFunctionApp { .. } => None,
            ExprKind::GetAttr { .. } | ExprKind::HasAttr { .. } => None,
            ExprKind::ExtHasAttr { .. } | ExprKind::Like { .. } | ExprKind::Is { .. } => None,
            ExprKind::Set(_) | ExprKind::Record(_) => None,
        }
    }

    /// The members, where the expression is a set.
    #[tactic(auto, using(crate::proofs::Parted::members_all, cedar_expr_trees::proofs::Trees::set_tree))]
    pub fn as_set_elements(&self) -> Option<RestrictedElements<'a>>
        ensures { option_map elements_left result ≡ members_read (borrowed_of self.entry.now) }
    {
        match self.expr.expr_kind() {
            ExprKind::Set(members) => Some(RestrictedElements::new(members.as_slice())),
            ExprKind::Lit(_) | ExprKind::Var(_) => None,
            ExprKind::Slot(_) | ExprKind::Unknown(_) => None,
            ExprKind::If { .. } | ExprKind::And { .. } | ExprKind::Or { .. } => None,
            ExprKind::UnaryApp { .. } | ExprKind::BinaryApp { .. } => None,
            ExprKind::ExtensionFunctionApp { .. } => None,
            ExprKind::GetAttr { .. } | ExprKind::HasAttr { .. } => None,
            ExprKind::ExtHasAttr { .. } | ExprKind::Like { .. } | ExprKind::Is { .. } => None,
            ExprKind::Record(_) => None,
        }
    }

    /// The fields, where the expression is a record.
    #[tactic(auto, using(crate::proofs::Parted::fields_all, crate::proofs::Parted::of_fields, cedar_expr_trees::proofs::Trees::record_tree))]
    pub fn as_record_pairs(&self) -> Option<RestrictedPairs<'a>>
        ensures { option_map pairs_left result ≡ fields_read (borrowed_of self.entry.now) }
    {
        match self.expr.expr_kind() {
            ExprKind::Record(fields) => Some(RestrictedPairs::new(fields.iter())),
            ExprKind::Lit(_) | ExprKind::Var(_) => None,
            ExprKind::Slot(_) | ExprKind::Unknown(_) => None,
            ExprKind::If { .. } | ExprKind::And { .. } | ExprKind::Or { .. } => None,
            ExprKind::UnaryApp { .. } | ExprKind::BinaryApp { .. } => None,
            ExprKind::ExtensionFunctionApp { .. } => None,
            ExprKind::GetAttr { .. } | ExprKind::HasAttr { .. } => None,
            ExprKind::ExtHasAttr { .. } | ExprKind::Like { .. } | ExprKind::Is { .. } => None,
            ExprKind::Set(_) => None,
        }
    }

    /// The name of the function and the arguments, where the expression is a call.
    pub fn as_extn_fn_call(&self) -> Option<(&'a Name, RestrictedElements<'a>)>
        ensures { option_map (λ p. (plain_name_of p.0.now, elements_left p.1)) result ≡ call_read (borrowed_of self.entry.now) }
    {
        match self.expr.expr_kind() {
            ExprKind::ExtensionFunctionApp { fn_name, args } => {
                Some((fn_name, RestrictedElements::new(args.as_slice())))
            }
            ExprKind::Lit(_) | ExprKind::Var(_) => None,
            ExprKind::Slot(_) | ExprKind::Unknown(_) => None,
            ExprKind::If { .. } | ExprKind::And { .. } | ExprKind::Or { .. } => None,
            ExprKind::UnaryApp { .. } | ExprKind::BinaryApp { .. } => None,
            ExprKind::GetAttr { .. } | ExprKind::HasAttr { .. } => None,
            ExprKind::ExtHasAttr { .. } | ExprKind::Like { .. } | ExprKind::Is { .. } => None,
            ExprKind::Set(_) | ExprKind::Record(_) => None,
        }
    }

    /// The type that the expression shows by itself: of a call the result of its function, of an unknown its annotation.
    pub fn try_type_of(&self, table: &Extensions<'_>) -> Result<Option<Type>, AllocError>
        ensures { (answers : ModelName → List V → Called) → IfOk result (λ t. option_map core_of t ≡ evident_type (table_of table.now answers) (borrowed_of self.now)) }
    {
        self.expr.try_type_of(table)
    }
}

ghost use Rattle.std.specs.Prelude.{option_map};
ghost use Rattle.cedar_expr_leaves.specs.Literals.{literal_of};
ghost use Rattle.cedar_evaluator_restricted_exprs.specs.Read.{literal_read};

// The literal that an expression is.
fn literal(expr: &Expr) -> Option<&Literal>
    ensures { option_map (λ l. literal_of l.now) result ≡ literal_read (tree_of expr.entry.now) }
{
    match expr.expr_kind() {
        ExprKind::Lit(literal) => Some(literal),
        ExprKind::Var(_) | ExprKind::Slot(_) | ExprKind::Unknown(_) => None,
        ExprKind::If { .. } | ExprKind::And { .. } | ExprKind::Or { .. } => None,
        ExprKind::UnaryApp { .. } | ExprKind::BinaryApp { .. } => None,
        ExprKind::ExtensionFunctionApp { .. } => None,
        ExprKind::GetAttr { .. } | ExprKind::HasAttr { .. } => None,
        ExprKind::ExtHasAttr { .. } | ExprKind::Like { .. } | ExprKind::Is { .. } => None,
        ExprKind::Set(_) | ExprKind::Record(_) => None,
    }
}

impl<'a> AsRef<Expr> for BorrowedRestrictedExpr<'a> {
    ghost use Rattle.cedar_evaluator_restricted_exprs.specs.Views.{borrowed_of};

    fn as_ref(&self) -> &Expr
        ensures { tree_of result.now ≡ borrowed_of self.now }
    {
        self.expr
    }
}

impl<'a> Deref for BorrowedRestrictedExpr<'a> {
    type Target = Expr;

    ghost use Rattle.cedar_evaluator_restricted_exprs.specs.Views.{borrowed_of};

    ghost deref_gives = { λ r e. tree_of e ≡ borrowed_of r };

    fn deref(&self) -> &Expr {
        self.expr
    }
}

impl<'a> From<BorrowedRestrictedExpr<'a>> for &'a Expr {
    ghost use Rattle.cedar_evaluator_restricted_exprs.specs.Views.{borrowed_of};

    ghost from_gives = { λ r e. tree_of e.now ≡ borrowed_of r };

    fn from(r: BorrowedRestrictedExpr<'a>) -> &'a Expr {
        r.expr
    }
}
