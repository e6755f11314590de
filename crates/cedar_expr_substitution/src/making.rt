//! What a builder makes of parts that are made: of leaves, and of what was made of the children of an expression.

ghost use Rattle.std.specs.Prelude.{◌≡◌, true, List, [], ◌∷◌, ◌++◌, map, IfOk, IfErr};
ghost use Rattle.std.specs.declared.result.Result.TheVariants.{Ok};
ghost use Rattle.std.specs.Rc.{rc_str_bytes};
ghost use Rattle.cedar_expr_names.specs.Views.{plain_name_of, type_name_of};
ghost use Rattle.cedar_expr_leaves.specs.Literals.{literal_of};
ghost use Rattle.cedar_expr_leaves.specs.Operators.{unary_op_of, binary_op_of};
ghost use Rattle.cedar_expr_leaves.specs.Patterns.{pattern_of};
ghost use Rattle.cedar_expr_leaves.specs.Slots.{slot_of};
ghost use Rattle.cedar_expr_leaves.specs.Variables.{var_of};
ghost use Rattle.cedar_expr_model.specs.Records.{names_rise};
ghost use Rattle.cedar_expr_trees.specs.Trees.{named, place_of};
ghost use Rattle.cedar_expr_trees.specs.Unknowns.{unknown_of};
ghost use Rattle.cedar_expr_builders.specs.Refusing.{refusing, unless, built_or_refused};
ghost use Rattle.cedar_expr_builders.specs.Views.{meant};
ghost use Rattle.cedar_expr_substitution.specs.Steps.{Means, Tells, StepMakes, StepRefuses, of_two, of_three};

use crate::unknowns::BuildUnknown;
use cedar_expr_builders::BuildFault;
use cedar_expr_builders::expr_builder::ExprBuilder;
use cedar_expr_leaves::{Literal, Pattern, SlotId, Var};
use cedar_expr_names::EntityType;
use cedar_expr_trees::{BinaryOp, Expr, Name, NonEmpty, UnaryOp, Unknown};
use cedar_expr_values::fields::field_map;
use std::alloc::{AllocError, Global};
use std::rc::{Rc, RcStr};

// The builder that gives default data, and the place of this expression.
pub(crate) fn builder_at<B: ExprBuilder, T>(e: &Expr<T>) -> B
    ensures { B.placed result ≡ place_of e.now }
{
    B::new().with_maybe_source_loc(e.source_loc())
}

// The literal, at the place of this expression.
pub(crate) fn literal<B: ExprBuilder, T>(
    alloc: Global,
    e: &Expr<T>,
    l: &Literal,
) -> Result<B::Expr, BuildFault<B::BuildError>>
    ensures made { Means B.means ((refusing B.steps B.refuses).of_lit (literal_of l.now)) result }
    ensures refused { Tells B.says ((refusing B.steps B.refuses).of_lit (literal_of l.now)) result }
{
    Ok(builder_at::<B, T>(e).val(alloc, l.clone()?)?)
}

// The variable, at the place of this expression.
pub(crate) fn variable<B: ExprBuilder, T>(
    alloc: Global,
    e: &Expr<T>,
    v: Var,
) -> Result<B::Expr, BuildFault<B::BuildError>>
    ensures made { Means B.means ((refusing B.steps B.refuses).of_var (var_of v)) result }
    ensures refused { Tells B.says ((refusing B.steps B.refuses).of_var (var_of v)) result }
{
    Ok(builder_at::<B, T>(e).var(alloc, v)?)
}

// The slot, at the place of this expression.
pub(crate) fn slot<B: ExprBuilder, T>(
    alloc: Global,
    e: &Expr<T>,
    s: SlotId,
) -> Result<B::Expr, BuildFault<B::BuildError>>
    ensures made { Means B.means ((refusing B.steps B.refuses).of_slot (slot_of s)) result }
    ensures refused { Tells B.says ((refusing B.steps B.refuses).of_slot (slot_of s)) result }
{
    Ok(builder_at::<B, T>(e).slot(alloc, s)?)
}

// What stands in the place of this unknown, at the place of this expression.
pub(crate) fn unknown<B: ExprBuilder, T, U: BuildUnknown>(
    alloc: Global,
    e: &Expr<T>,
    u: &Unknown,
    unknowns: &U,
) -> Result<B::Expr, BuildFault<B::BuildError>>
    ensures made { Means B.means (built_or_refused B.steps B.refuses (U.placed unknowns.now (unknown_of u.now).name (unknown_of u.now).annotation)) result }
    ensures refused { Tells B.says (built_or_refused B.steps B.refuses (U.placed unknowns.now (unknown_of u.now).name (unknown_of u.now).annotation)) result }
{
    unknowns.build_unknown(alloc, builder_at::<B, T>(e), u)
}

// The choice of these three, at the place of this expression.
pub(crate) fn choice<B: ExprBuilder, T>(
    alloc: Global,
    e: &Expr<T>,
    parts: Result<(B::Expr, B::Expr, B::Expr), BuildFault<B::BuildError>>,
) -> Result<B::Expr, BuildFault<B::BuildError>>
    ensures made { StepMakes {R = B.Refusal} (of_three B.means) B.means (λ p. Ok (B.steps.of_choice p.0 p.1 p.2)) parts result }
    ensures refused { StepRefuses (of_three B.means) B.says (λ p. Ok (B.steps.of_choice p.0 p.1 p.2)) parts result }
{
    let (test_expr, then_expr, else_expr) = parts?;
    Ok(builder_at::<B, T>(e).ite(alloc, test_expr, then_expr, else_expr)?)
}

// The conjunction of these two, at the place of this expression.
pub(crate) fn both<B: ExprBuilder, T>(
    alloc: Global,
    e: &Expr<T>,
    parts: Result<(B::Expr, B::Expr), BuildFault<B::BuildError>>,
) -> Result<B::Expr, BuildFault<B::BuildError>>
    ensures made { StepMakes {R = B.Refusal} (of_two B.means) B.means (λ p. Ok (B.steps.of_both p.0 p.1)) parts result }
    ensures refused { StepRefuses (of_two B.means) B.says (λ p. Ok (B.steps.of_both p.0 p.1)) parts result }
{
    let (left, right) = parts?;
    Ok(builder_at::<B, T>(e).and(alloc, left, right)?)
}

// The disjunction of these two, at the place of this expression.
pub(crate) fn either<B: ExprBuilder, T>(
    alloc: Global,
    e: &Expr<T>,
    parts: Result<(B::Expr, B::Expr), BuildFault<B::BuildError>>,
) -> Result<B::Expr, BuildFault<B::BuildError>>
    ensures made { StepMakes {R = B.Refusal} (of_two B.means) B.means (λ p. Ok (B.steps.of_either p.0 p.1)) parts result }
    ensures refused { StepRefuses (of_two B.means) B.says (λ p. Ok (B.steps.of_either p.0 p.1)) parts result }
{
    let (left, right) = parts?;
    Ok(builder_at::<B, T>(e).or(alloc, left, right)?)
}

// The operator on this one, at the place of this expression.
pub(crate) fn unary<B: ExprBuilder, T>(
    alloc: Global,
    e: &Expr<T>,
    op: UnaryOp,
    arg: Result<B::Expr, BuildFault<B::BuildError>>,
) -> Result<B::Expr, BuildFault<B::BuildError>>
    ensures made { StepMakes {R = B.Refusal} B.means B.means (λ x. Ok (B.steps.of_unary (unary_op_of op) x)) arg result }
    ensures refused { StepRefuses B.means B.says (λ x. Ok (B.steps.of_unary (unary_op_of op) x)) arg result }
{
    let arg = arg?;
    Ok(builder_at::<B, T>(e).unary_app(alloc, op, arg)?)
}

// The operator on these two, at the place of this expression.
pub(crate) fn binary<B: ExprBuilder, T>(
    alloc: Global,
    e: &Expr<T>,
    op: BinaryOp,
    parts: Result<(B::Expr, B::Expr), BuildFault<B::BuildError>>,
) -> Result<B::Expr, BuildFault<B::BuildError>>
    ensures made { StepMakes {R = B.Refusal} (of_two B.means) B.means (λ p. Ok (B.steps.of_binary (binary_op_of op) p.0 p.1)) parts result }
    ensures refused { StepRefuses (of_two B.means) B.says (λ p. Ok (B.steps.of_binary (binary_op_of op) p.0 p.1)) parts result }
{
    let (arg1, arg2) = parts?;
    Ok(builder_at::<B, T>(e).binary_app(alloc, op, arg1, arg2)?)
}

// The call of this function on these, at the place of this expression.
pub(crate) fn call<B: ExprBuilder, T>(
    alloc: Global,
    e: &Expr<T>,
    fn_name: &Name,
    args: Result<Vec<B::Expr>, BuildFault<B::BuildError>>,
) -> Result<B::Expr, BuildFault<B::BuildError>>
    ensures made { StepMakes (λ v. map B.means v.items) B.means (λ xs. unless (B.refuses (plain_name_of fn_name.now) xs) (B.steps.of_call (plain_name_of fn_name.now) xs)) args result }
    ensures refused { StepRefuses (λ v. map B.means v.items) B.says (λ xs. unless (B.refuses (plain_name_of fn_name.now) xs) (B.steps.of_call (plain_name_of fn_name.now) xs)) args result }
{
    let args = args?;
    builder_at::<B, T>(e).call_extension_fn(alloc, fn_name.clone()?, args)
}

// The value of this attribute of it, at the place of this expression.
pub(crate) fn attribute<B: ExprBuilder, T>(
    alloc: Global,
    e: &Expr<T>,
    expr: Result<B::Expr, BuildFault<B::BuildError>>,
    attr: &RcStr,
) -> Result<B::Expr, BuildFault<B::BuildError>>
    ensures made { StepMakes {R = B.Refusal} B.means B.means (λ x. Ok (B.steps.of_get x (rc_str_bytes attr.now))) expr result }
    ensures refused { StepRefuses B.means B.says (λ x. Ok (B.steps.of_get x (rc_str_bytes attr.now))) expr result }
{
    let expr = expr?;
    Ok(builder_at::<B, T>(e).get_attr(alloc, expr, attr.clone()?)?)
}

// The test of this attribute of it, at the place of this expression.
pub(crate) fn attribute_test<B: ExprBuilder, T>(
    alloc: Global,
    e: &Expr<T>,
    expr: Result<B::Expr, BuildFault<B::BuildError>>,
    attr: &RcStr,
) -> Result<B::Expr, BuildFault<B::BuildError>>
    ensures made { StepMakes {R = B.Refusal} B.means B.means (λ x. Ok (B.steps.of_has x (rc_str_bytes attr.now))) expr result }
    ensures refused { StepRefuses B.means B.says (λ x. Ok (B.steps.of_has x (rc_str_bytes attr.now))) expr result }
{
    let expr = expr?;
    Ok(builder_at::<B, T>(e).has_attr(alloc, expr, attr.clone()?)?)
}

// The test of these attributes of it, one after the other, at the place of this expression.
pub(crate) fn path_test<B: ExprBuilder, T>(
    alloc: Global,
    e: &Expr<T>,
    expr: Result<B::Expr, BuildFault<B::BuildError>>,
    attrs: &Rc<NonEmpty<RcStr>>,
) -> Result<B::Expr, BuildFault<B::BuildError>>
    ensures made { StepMakes {R = B.Refusal} B.means B.means (λ x. Ok (B.steps.of_path x (rc_str_bytes attrs.now.value.head) (map rc_str_bytes attrs.now.value.tail.items))) expr result }
    ensures refused { StepRefuses B.means B.says (λ x. Ok (B.steps.of_path x (rc_str_bytes attrs.now.value.head) (map rc_str_bytes attrs.now.value.tail.items))) expr result }
{
    let expr = expr?;
    Ok(builder_at::<B, T>(e).extended_has_attr(alloc, expr, attrs.clone()?)?)
}

// The match of it against this pattern, at the place of this expression.
pub(crate) fn pattern_match<B: ExprBuilder, T>(
    alloc: Global,
    e: &Expr<T>,
    expr: Result<B::Expr, BuildFault<B::BuildError>>,
    pattern: &Pattern,
) -> Result<B::Expr, BuildFault<B::BuildError>>
    ensures made { StepMakes {R = B.Refusal} B.means B.means (λ x. Ok (B.steps.of_like x (pattern_of pattern.now))) expr result }
    ensures refused { StepRefuses B.means B.says (λ x. Ok (B.steps.of_like x (pattern_of pattern.now))) expr result }
{
    let expr = expr?;
    Ok(builder_at::<B, T>(e).like(alloc, expr, pattern.clone()?)?)
}

// The test of its entity's type, at the place of this expression.
pub(crate) fn type_test<B: ExprBuilder, T>(
    alloc: Global,
    e: &Expr<T>,
    expr: Result<B::Expr, BuildFault<B::BuildError>>,
    entity_type: &EntityType,
) -> Result<B::Expr, BuildFault<B::BuildError>>
    ensures made { StepMakes {R = B.Refusal} B.means B.means (λ x. Ok (B.steps.of_is x (type_name_of entity_type.now))) expr result }
    ensures refused { StepRefuses B.means B.says (λ x. Ok (B.steps.of_is x (type_name_of entity_type.now))) expr result }
{
    let expr = expr?;
    Ok(builder_at::<B, T>(e).is_entity_type(alloc, expr, entity_type.clone()?)?)
}

// The set of these, at the place of this expression.
pub(crate) fn set<B: ExprBuilder, T>(
    alloc: Global,
    e: &Expr<T>,
    members: Result<Vec<B::Expr>, BuildFault<B::BuildError>>,
) -> Result<B::Expr, BuildFault<B::BuildError>>
    ensures made { StepMakes {R = B.Refusal} (λ v. map B.means v.items) B.means (λ xs. Ok (B.steps.of_set xs)) members result }
    ensures refused { StepRefuses (λ v. map B.means v.items) B.says (λ xs. Ok (B.steps.of_set xs)) members result }
{
    let members = members?;
    Ok(builder_at::<B, T>(e).set(alloc, members)?)
}

// The record of these fields, at the place of this expression.
pub(crate) fn record<B: ExprBuilder, T>(
    alloc: Global,
    e: &Expr<T>,
    fields: Result<Vec<(RcStr, B::Expr)>, BuildFault<B::BuildError>>,
) -> Result<B::Expr, BuildFault<B::BuildError>>
    ensures made { IfOk fields (λ v. names_rise (named v.items) ≡ true) → StepMakes {R = B.Refusal} (λ v. named (meant B.means v.items)) B.means (λ xs. Ok (B.steps.of_record xs)) fields result }
    ensures refused { StepRefuses (λ v. named (meant B.means v.items)) B.says (λ xs. Ok (B.steps.of_record xs)) fields result }
{
    let fields = fields?;
    Ok(shared_record(builder_at::<B, T>(e), alloc, fields)?)
}

// The record of these fields, whose names rise.
fn shared_record<B: ExprBuilder>(
    builder: B,
    alloc: Global,
    fields: Vec<(RcStr, B::Expr)>,
) -> Result<B::Expr, AllocError>
    ensures { names_rise (named fields.items) ≡ true → IfOk result (λ r. B.means r ≡ B.steps.of_record (named (meant B.means fields.items))) }
{
    let fields = field_map(alloc, fields)?;
    let fields = Rc::new(alloc, fields)?;
    builder.record_arc(alloc, fields)
}
