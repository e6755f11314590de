//! Operators of one operand, patterns and tests of an entity's type, at the values of their operands.

ghost use Rattle.std.specs.Prelude.{◌≡◌};
ghost use Rattle.cedar_expr_leaves.specs.Patterns.{pattern_of};
ghost use Rattle.cedar_expr_leaves.specs.Operators.{unary_op_of};
ghost use Rattle.cedar_expr_model.specs.Made.{made_prim};
ghost use Rattle.cedar_expr_model.specs.Value.{long as model_long};
ghost use Rattle.cedar_expr_names.specs.Views.{type_name_of};
ghost use Rattle.cedar_expr_values.specs.Extensions.{extension_of};
ghost use Rattle.cedar_expr_values.specs.Values.{bare, made};
ghost use Rattle.cedar_store_model.specs.Operators.{applied, like_pattern, of_type};
ghost use Rattle.cedar_evaluator_model.specs.Steps.{left_of, truth_wanted};
ghost use Rattle.cedar_evaluator_errors.specs.Outcomes.{Gives};
ghost use Rattle.cedar_evaluator_operators.specs.Truths.{IsTruth};

use cedar_evaluator_errors::evaluation_errors::UnaryOpOverflowError;
use cedar_evaluator_errors::{EvaluationError, IntegerOverflowError};
use cedar_evaluator_reads::V;
use cedar_evaluator_reads::leaves::truth;
use cedar_evaluator_reads::type_errors::{no_entity, type_error_single};
use cedar_expr_leaves::{Literal, Pattern, UnaryOp};
use cedar_expr_names::{EntityType, Loc};
use cedar_expr_values::{Type, Value, ValueKind};
use std::alloc::Global;

/// A whole number.
pub fn long(n: i64) -> V
    ensures { made extension_of result ≡ made_prim (model_long n) }
{
    Value::from(Literal::from(n))
}

/// Which truth value the value is. Errors: `TypeError` where it is none.
pub fn as_bool(alloc: Global, v: &V) -> Result<bool, EvaluationError>
    ensures { IsTruth (made extension_of v.now) result }
{
    match v.value_kind() {
        ValueKind::Lit(Literal::Bool(b)) => Ok(*b),
        _ => Err(type_error_single(alloc, Type::Bool, v)),
    }
}

/// The truth value itself. Errors: `TypeError` where the value is none.
pub fn as_truth(alloc: Global, v: &V) -> Result<V, EvaluationError>
    ensures { Gives (truth_wanted (made extension_of v.now)) result }
{
    match v.value_kind() {
        ValueKind::Lit(Literal::Bool(b)) => Ok(truth(*b)),
        _ => Err(type_error_single(alloc, Type::Bool, v)),
    }
}

/// What an operator of one operand gives; an overflow has this place. Errors: `TypeError` and `IntegerOverflow`.
pub fn unary_app(
    alloc: Global,
    op: UnaryOp,
    arg: &V,
    loc: Option<Loc>,
) -> Result<V, EvaluationError>
    ensures { Gives (left_of (applied (unary_op_of op) (bare extension_of arg.now))) result }
{
    match op {
        UnaryOp::Not => match arg.value_kind() {
            ValueKind::Lit(Literal::Bool(b)) => Ok(truth(!*b)),
            _ => Err(type_error_single(alloc, Type::Bool, arg)),
        },
        UnaryOp::Neg => match arg.value_kind() {
            ValueKind::Lit(Literal::Long(n)) => negated(*n, arg, loc),
            _ => Err(type_error_single(alloc, Type::Long, arg)),
        },
        UnaryOp::IsEmpty => match arg.value_kind() {
            ValueKind::Set(members) => Ok(truth(members.is_empty())),
            _ => Err(type_error_single(alloc, Type::Set, arg)),
        },
    }
}

ghost use Rattle.std.specs.Prelude.{neg_ℤ};
ghost use Rattle.cedar_store_model.specs.Operators.{in_range};

// The negation of a whole number, which is this value.
fn negated(n: i64, arg: &V, loc: Option<Loc>) -> Result<V, EvaluationError>
    ensures { Gives (left_of (in_range (neg_ℤ n))) result }
{
    match n.checked_neg() {
        Some(n) => Ok(long(n)),
        None => {
            let op = UnaryOp::Neg;
            let arg = arg.clone()?;
            let source_loc = loc;
            let error = UnaryOpOverflowError {
                op,
                arg,
                source_loc,
            };
            Err(EvaluationError::IntegerOverflow(IntegerOverflowError::UnaryOp(error)))
        }
    }
}

/// Whether the value matches the pattern. Errors: `TypeError` where it is no text.
pub fn like(alloc: Global, pattern: &Pattern, v: &V) -> Result<V, EvaluationError>
    ensures { Gives (left_of (like_pattern (pattern_of pattern.now) (bare extension_of v.now))) result }
{
    match v.value_kind() {
        ValueKind::Lit(Literal::String(text)) => Ok(truth(pattern.wildcard_match(text.as_str()))),
        _ => Err(type_error_single(alloc, Type::String, v)),
    }
}

/// Whether the value is an entity of the type. Errors: `TypeError` where it is no entity.
pub fn is_of_type(alloc: Global, kind: &EntityType, v: &V) -> Result<V, EvaluationError>
    ensures { Gives (left_of (of_type (type_name_of kind.now) (bare extension_of v.now))) result }
{
    match v.value_kind() {
        ValueKind::Lit(Literal::EntityUID(uid)) => Ok(truth(uid.entity_type().same(kind))),
        _ => Err(no_entity(alloc, v)),
    }
}
