//! Contexts with the bound values in the place of their unknowns.

ghost use Rattle.std.specs.Prelude.{◌≡◌, true, IfOk, option_map, is_none};
ghost use Rattle.cedar_expr_model.specs.Restricted.{is_restricted};
ghost use Rattle.cedar_expr_trees.specs.Trees.{tree_of};
ghost use Rattle.cedar_evaluator_model.specs.Reauthorize.{context_from};
ghost use Rattle.cedar_evaluator_requests.specs.Views.{context_of, restricted_tree};
ghost use Rattle.cedar_evaluator_restricted_exprs.specs.Lefts.{is_stopped};
ghost use Rattle.cedar_gate_openings.specs.Bound.{ByFunctions, left_with};
ghost use Rattle.cedar_gate_openings.specs.Names.{bound_in};
ghost use Rattle.cedar_expr_model.specs.Substitution.{substituted};
ghost use Rattle.cedar_evaluator_model.specs.Functions.{left_of_restricted};
ghost use Rattle.cedar_gate_openings.specs.Requests.{IsRecordTree};

use crate::V;
use cedar_evaluator_requests::{Context, RestrictedFields};
use cedar_evaluator_restricted_exprs::{RestrictedFault, context_left, evaluate};
use cedar_expr_functions::Extensions;
use cedar_expr_substitution::Substitute;
use cedar_expr_trees::Expr;
use std::alloc::{AllocError, Global};
use std::collections::HashMap;
use std::rc::RcStr;

/// The context of these fields, with the bound values in the place of its unknowns, evaluated; none where that fails. Errors: out
/// of memory.
pub(crate) fn bound_context(
    alloc: Global,
    table: &Extensions<'_>,
    fields: &RestrictedFields,
    bound: &HashMap<RcStr, V>,
) -> Result<Option<Context>, AllocError>
    ensures made { IfOk result (λ c. ByFunctions table.now (λ x. option_map context_of c ≡ context_from (left_with x bound.now fields.now))) }
    ensures fails { IfOk result (λ c. ByFunctions table.now (λ x. is_none c ≡ is_stopped (left_with x bound.now fields.now))) }
{
    let record = with_values(alloc, fields, bound)?;
    context_evaluated(alloc, table, &record)
}

// The fields with the bound values in the place of their unknowns.
fn with_values(
    alloc: Global,
    fields: &RestrictedFields,
    bound: &HashMap<RcStr, V>,
) -> Result<Expr, AllocError>
    ensures tree { IfOk result (λ e. tree_of e ≡ substituted (bound_in bound.now) (restricted_tree fields.now)) }
    ensures restricted { IfOk result (λ e. is_restricted (tree_of e) ≡ true) }
    ensures of_record { IfOk result (λ e. IsRecordTree (tree_of e)) }
{
    record_of(fields)?.substitute(alloc, bound)
}

// The record of the fields.
fn record_of(fields: &RestrictedFields) -> Result<Expr, AllocError>
    ensures tree { IfOk result (λ e. tree_of e ≡ restricted_tree fields.now) }
    ensures restricted { is_restricted (restricted_tree fields.now) ≡ true }
{
    Ok(Expr::record_arc(fields.fields().clone()?))
}

// The context that the record is once it is evaluated; none where that fails.
#[tactic(auto, using(crate::proofs::Records::no_context))]
fn context_evaluated(
    alloc: Global,
    table: &Extensions<'_>,
    e: &Expr,
) -> Result<Option<Context>, AllocError>
    requires restricted { is_restricted (tree_of e.now) ≡ true }
    requires of_record { IsRecordTree (tree_of e.now) }
    ensures made { IfOk result (λ c. ByFunctions table.now (λ x. option_map context_of c ≡ context_from (left_of_restricted x (tree_of e.now)))) }
    ensures fails { IfOk result (λ c. ByFunctions table.now (λ x. is_none c ≡ is_stopped (left_of_restricted x (tree_of e.now)))) }
{
    match evaluate(alloc, table, e) {
        Ok(left) => context_left(alloc, &left),
        Err(RestrictedFault::Stopped) => Ok(None),
        Err(RestrictedFault::OutOfMemory) => Err(AllocError),
    }
}
