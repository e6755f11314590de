//! Sums, differences, products and remainders of whole numbers.

ghost use Rattle.std.specs.Prelude.{◌≡◌, ◌+ℤ◌, ◌-ℤ◌, ◌*ℤ◌};
ghost use Rattle.cedar_expr_leaves.specs.Operators.{binary_op_of};
ghost use Rattle.cedar_expr_values.specs.Extensions.{extension_of};
ghost use Rattle.cedar_expr_values.specs.Values.{bare};
ghost use Rattle.cedar_store_model.specs.Operators.{in_range, remains};
ghost use Rattle.cedar_store_model.specs.Outcome.{overflow};
ghost use Rattle.cedar_evaluator_model.specs.Steps.{errs, left_of};
ghost use Rattle.cedar_evaluator_errors.specs.Outcomes.{Gives};
ghost use Rattle.cedar_evaluator_operators.specs.Arithmetic.{is_arithmetic, arithmetic};

use crate::unary::long;
use cedar_evaluator_errors::evaluation_errors::{BinaryOpOverflowError, ZeroDivisorError};
use cedar_evaluator_errors::{EvaluationError, IntegerOverflowError};
use cedar_evaluator_reads::V;
use cedar_evaluator_reads::type_errors::type_error_single;
use cedar_expr_leaves::{BinaryOp, Literal};
use cedar_expr_names::Loc;
use cedar_expr_values::{Type, ValueKind};
use std::alloc::Global;

// Why an operator of whole numbers gives no number.
#[derive(Clone, Copy, Drop)]
enum NoNumber {
    Overflow,
    ZeroDivisor,
}

// The refusal of a result that isn't of 64 bits.
fn overflowing(op: BinaryOp, arg1: &V, arg2: &V, loc: Option<Loc>) -> Result<V, EvaluationError>
    ensures { Gives (errs overflow) result }
{
    let arg1 = arg1.clone()?;
    let arg2 = arg2.clone()?;
    let source_loc = loc;
    let error = BinaryOpOverflowError {
        op,
        arg1,
        arg2,
        source_loc,
    };
    Err(EvaluationError::IntegerOverflow(IntegerOverflowError::BinaryOp(error)))
}

/// The sum, the difference or the product of two whole numbers, or what their division leaves, as the operator says; an overflow and a
/// zero divisor have this place. Errors: `TypeError`, of the first operand where both are no whole numbers, `IntegerOverflow` and
/// `ZeroDivisor`.
pub fn binary_arith(
    alloc: Global,
    op: BinaryOp,
    arg1: &V,
    arg2: &V,
    loc: Option<Loc>,
) -> Result<V, EvaluationError>
    requires { is_arithmetic (binary_op_of op) ≡ true }
    ensures { Gives (left_of (arithmetic (binary_op_of op) (bare extension_of arg1.now) (bare extension_of arg2.now))) result }
{
    match (arg1.value_kind(), arg2.value_kind()) {
        (ValueKind::Lit(Literal::Long(m)), ValueKind::Lit(Literal::Long(n))) => {
            match calculated(op, *m, *n) {
                Ok(result) => Ok(long(result)),
                Err(NoNumber::Overflow) => overflowing(op, arg1, arg2, loc),
                Err(NoNumber::ZeroDivisor) => Err(EvaluationError::ZeroDivisor(ZeroDivisorError {
                    source_loc: loc,
                })),
            }
        }
        (ValueKind::Lit(Literal::Long(_)), _) => Err(type_error_single(alloc, Type::Long, arg2)),
        _ => Err(type_error_single(alloc, Type::Long, arg1)),
    }
}

ghost use Rattle.std.specs.Prelude.{true};
ghost use Rattle.cedar_evaluator_operators.specs.Arithmetic.{at_numbers, number_result};

// What an operator gives at these whole numbers.
fn calculated(op: BinaryOp, m: i64, n: i64) -> Result<i64, NoNumber>
    requires { is_arithmetic (binary_op_of op) ≡ true }
    ensures { number_result result ≡ at_numbers (binary_op_of op) m n }
{
    match op {
        BinaryOp::Add => sum(m, n),
        BinaryOp::Sub => difference(m, n),
        BinaryOp::Rem => remainder(m, n),
        _ => product(m, n),
    }
}

// The sum of two whole numbers.
fn sum(m: i64, n: i64) -> Result<i64, NoNumber>
    ensures { number_result result ≡ in_range (m +ℤ n) }
{
    m.checked_add(n).ok_or(NoNumber::Overflow)
}

// The difference of two whole numbers.
fn difference(m: i64, n: i64) -> Result<i64, NoNumber>
    ensures { number_result result ≡ in_range (m -ℤ n) }
{
    m.checked_sub(n).ok_or(NoNumber::Overflow)
}

// The product of two whole numbers.
fn product(m: i64, n: i64) -> Result<i64, NoNumber>
    ensures { number_result result ≡ in_range (m *ℤ n) }
{
    m.checked_mul(n).ok_or(NoNumber::Overflow)
}

// What the division of two whole numbers leaves. By -1 nothing is left, of the least number too.
fn remainder(m: i64, n: i64) -> Result<i64, NoNumber>
    ensures { number_result result ≡ remains m n }
{
    match n {
        0 => Err(NoNumber::ZeroDivisor),
        -1 => Ok(0),
        _ => Ok(m % n),
    }
}
