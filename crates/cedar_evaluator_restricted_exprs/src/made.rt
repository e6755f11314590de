//! Restricted expressions made of their parts, or of values.

ghost use Rattle.std.specs.Prelude.{◌≡◌, true, map, IfOk, IfErr, OnOk, None, Some};
ghost use Rattle.cedar_expr_leaves.specs.Literals.{literal_of};
ghost use Rattle.cedar_expr_model.specs.Builder.{trees, tree_fields};
ghost use Rattle.cedar_expr_model.specs.Made.{written};
ghost use Rattle.cedar_expr_model.specs.Records.{record_tree};
ghost use Rattle.cedar_expr_model.specs.Repeats.{repeated_name};
ghost use Rattle.cedar_expr_model.specs.Tree.{lit, unknown, set_literal, call, record_literal};
ghost use Rattle.cedar_expr_model.specs.ValueParts.{part_tree};
ghost use Rattle.cedar_expr_names.specs.Views.{plain_name_of};
ghost use Rattle.cedar_expr_partial.specs.Parts.{part_of};
ghost use Rattle.cedar_expr_trees.specs.Refusals.{RefusesRecord};
ghost use Rattle.cedar_expr_trees.specs.Trees.{tree_of, named, field_trees};
ghost use Rattle.cedar_expr_trees.specs.Unknowns.{unknown_of};
ghost use Rattle.cedar_expr_values.specs.Extensions.{extension_of};
ghost use Rattle.cedar_expr_values.specs.Values.{made, made_kind};
ghost use Rattle.cedar_evaluator_model.specs.Evaluation.{context_left};
ghost use Rattle.cedar_evaluator_requests.specs.Views.{context_of};
ghost use Rattle.cedar_evaluator_restricted_exprs.specs.Read.{are_restricted, have_restricted, expr_left};
ghost use Rattle.cedar_evaluator_restricted_exprs.specs.Refused.{RefusesResidual};
ghost use Rattle.cedar_evaluator_restricted_exprs.specs.Views.{restricted_of, restricted_place, restricted_pair};

use crate::restricted::RestrictedExpr;
use cedar_evaluator_errors::{PartialValueToRestrictedExprError, RestrictedExpressionError};
use cedar_evaluator_requests::Context;
use cedar_expr_leaves::Literal;
use cedar_expr_names::Name;
use cedar_expr_partial::{FromValue, PartialValue};
use cedar_expr_trees::{Expr, ExpressionConstructionError, Unknown};
use cedar_expr_values::{ExtValue, ExtensionValue, RepresentableExtensionValue, Value, ValueKind};
use std::alloc::{AllocError, Global};
use std::rc::{Rc, RcStr};

impl RestrictedExpr {
    /// A literal.
    pub fn val(value: Literal) -> RestrictedExpr
        ensures tree { restricted_of result ≡ lit (literal_of value) }
        ensures place { restricted_place result ≡ None }
    {
        RestrictedExpr::new_unchecked(Expr::val(value))
    }

    /// An unknown.
    pub fn unknown(u: Unknown) -> RestrictedExpr
        ensures tree { restricted_of result ≡ unknown (unknown_of u).name (unknown_of u).annotation }
        ensures place { restricted_place result ≡ None }
    {
        RestrictedExpr::new_unchecked(Expr::unknown(u))
    }

    /// A set, by its members.
    #[tactic(auto, using(crate::proofs::Parted::members_all))]
    pub fn set(alloc: Global, exprs: Vec<RestrictedExpr>) -> Result<RestrictedExpr, AllocError>
        ensures tree { IfOk result (λ r. restricted_of r ≡ set_literal (trees (map restricted_of exprs.items))) }
        ensures place { IfOk result (λ r. restricted_place r ≡ None) }
    {
        let exprs = exprs_of(alloc, exprs)?;
        Ok(RestrictedExpr::new_unchecked(Expr::set(alloc, exprs)?))
    }

    /// A record, by pairs of names and expressions.
    ///
    /// # Errors
    /// `DuplicateKey` with a name that is repeated, whatever is given for it; `OutOfMemory`.
    #[tactic(auto, using(crate::proofs::Parted::record_restricted))]
    pub fn record(
        alloc: Global,
        pairs: Vec<(RcStr, RestrictedExpr)>,
    ) -> Result<RestrictedExpr, ExpressionConstructionError>
        ensures tree { IfOk result (λ r. restricted_of r ≡ record_tree (map restricted_pair pairs.items)) }
        ensures place { IfOk result (λ r. restricted_place r ≡ None) }
        ensures distinct { OnOk result (repeated_name (map restricted_pair pairs.items) ≡ None) }
        ensures refused { IfErr result (RefusesRecord (map restricted_pair pairs.items)) }
    {
        let pairs = pairs_of(alloc, pairs)?;
        Ok(RestrictedExpr::new_unchecked(Expr::record(alloc, pairs)?))
    }

    /// A call of a function.
    #[tactic(auto, using(crate::proofs::Parted::members_all))]
    pub fn call_extension_fn(
        alloc: Global,
        function_name: Name,
        args: Vec<RestrictedExpr>,
    ) -> Result<RestrictedExpr, AllocError>
        ensures tree { IfOk result (λ r. restricted_of r ≡ call (plain_name_of function_name) (trees (map restricted_of args.items))) }
        ensures place { IfOk result (λ r. restricted_place r ≡ None) }
    {
        let args = exprs_of(alloc, args)?;
        let call = Expr::call_extension_fn(alloc, function_name, args)?;
        Ok(RestrictedExpr::new_unchecked(call))
    }

    /// The expression that a value is written as: its literal, the set or record of its members or fields so written, or the call that
    /// makes it. It stands at the value's place.
    #[tactic(auto, using(cedar_expr_model::proofs::Restricting::written_restricted))]
    pub fn from_value(alloc: Global, value: &Value<ExtValue>) -> Result<RestrictedExpr, AllocError>
        ensures { IfOk result (λ r. restricted_of r ≡ written (made extension_of value.now)) }
    {
        Ok(RestrictedExpr::new_unchecked(Expr::from_value(alloc, value)?))
    }

    /// The expression that a kind of values is written as, without a place.
    #[tactic(auto, using(cedar_expr_model::proofs::Restricting::written_restricted))]
    pub fn from_value_kind(
        alloc: Global,
        kind: &ValueKind<ExtValue>,
    ) -> Result<RestrictedExpr, AllocError>
        ensures { IfOk result (λ r. restricted_of r ≡ written (made_kind extension_of kind.now)) }
    {
        Ok(RestrictedExpr::new_unchecked(Expr::from_value_kind(alloc, kind)?))
    }

    /// The record that a context is: of its values, or of what stands under its names.
    pub fn from_context(alloc: Global, context: Context) -> Result<RestrictedExpr, AllocError>
        ensures { IfOk result (λ r. expr_left (context_left (context_of context)) ≡ Some (restricted_of r)) }
    {
        match context {
            Context::Value(fields) => {
                let record = Value::record_arc(fields, None);
                Ok(RestrictedExpr::from_value(alloc, &record)?)
            }
            Context::RestrictedResidual(fields) => {
                let record = Expr::record_arc(fields.fields().clone()?);
                Ok(RestrictedExpr::new_unchecked(record))
            }
        }
    }

    /// The call that makes an extension value.
    #[tactic(auto, using(cedar_expr_model::proofs::Restricting::written_restricted))]
    pub fn from_representable<X: ExtensionValue>(
        alloc: Global,
        value: RepresentableExtensionValue<X>,
    ) -> Result<RestrictedExpr, AllocError>
        ensures { IfOk result (λ r. restricted_of r ≡ call (with_call X.seen value).function (trees (map lit (with_call X.seen value).arguments))) }
    {
        let kind = ValueKind::ExtensionValue(Rc::new(alloc, value)?);
        Ok(RestrictedExpr::new_unchecked(Expr::from_value_kind(alloc, &kind)?))
    }

    /// The expression that a value is written as, or what is left of one, where it is restricted.
    ///
    /// # Errors
    /// `NontrivialResidual` with the first part of what is left that mustn't stand in a restricted expression; `OutOfMemory`.
    pub fn try_from_partial_value(
        alloc: Global,
        value: PartialValue<ExtValue>,
    ) -> Result<RestrictedExpr, PartialValueToRestrictedExprError>
        ensures tree { IfOk result (λ r. restricted_of r ≡ part_tree (part_of extension_of value)) }
        ensures refused { IfErr result (RefusesResidual (part_tree (part_of extension_of value))) }
    {
        match value {
            PartialValue::Value(v) => Ok(RestrictedExpr::from_value(alloc, &v)?),
            PartialValue::Residual(expr) => match RestrictedExpr::new(alloc, expr) {
                Ok(r) => Ok(r),
                Err(RestrictedExpressionError::OutOfMemory) => {
                    Err(PartialValueToRestrictedExprError::OutOfMemory)
                }
                Err(RestrictedExpressionError::InvalidRestrictedExpression(e)) => {
                    Err(PartialValueToRestrictedExprError::NontrivialResidual { residual: e.expr })
                }
            },
        }
    }
}

ghost use Rattle.cedar_expr_values.specs.Extensions.{with_call};

// The expressions of these.
#[tactic(auto, using(crate::proofs::Parted::one_more))]
fn exprs_of(alloc: Global, parts: Vec<RestrictedExpr>) -> Result<Vec<Expr>, AllocError>
    ensures trees { IfOk result (λ es. map tree_of es.items ≡ map restricted_of parts.items) }
    ensures restricted { IfOk result (λ es. are_restricted (map tree_of es.items) ≡ true) }
{
    let mut exprs = Vec::with_capacity(alloc, parts.len())?;
    for part in parts {
        exprs.push(part.into_expr())?;
    }
    Ok(exprs)
}

// The pairs with the expressions of these.
#[tactic(auto, using(crate::proofs::Parted::one_field_more))]
fn pairs_of(
    alloc: Global,
    parts: Vec<(RcStr, RestrictedExpr)>,
) -> Result<Vec<(RcStr, Expr)>, AllocError>
    ensures trees { IfOk result (λ es. named (field_trees es.items) ≡ map restricted_pair parts.items) }
    ensures restricted { IfOk result (λ es. have_restricted (named (field_trees es.items)) ≡ true) }
{
    let mut pairs = Vec::with_capacity(alloc, parts.len())?;
    for (name, part) in parts {
        pairs.push((name, part.into_expr()))?;
    }
    Ok(pairs)
}
