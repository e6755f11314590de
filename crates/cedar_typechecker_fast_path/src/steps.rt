//! How many steps lead from the request to what an expression is.

ghost use Rattle.std.specs.Prelude.{◌≡◌, Some};
ghost use Rattle.cedar_expr_leaves.specs.Literals.{literal_of};
ghost use Rattle.cedar_expr_leaves.specs.Operators.{binary_op_of};
ghost use Rattle.cedar_schema_types.specs.Types.{type_of};
ghost use Rattle.cedar_typechecker_model.specs.Levels.{is_entity};
ghost use Rattle.cedar_typechecker_fast_path.specs.Steps.{one_more, literal_steps, operator_steps, attribute_steps, greater};

use cedar_expr_leaves::{BinaryOp, Literal};
use cedar_schema_types::Type;
use cedar_typechecker_levels::{is_entity_type, is_get_tag, looks_up};

// One step more, where that is within the level.
fn one_more(steps: Option<u32>, level: u32) -> Option<u32>
    ensures { result ≡ one_more level steps }
{
    match steps {
        Some(k) if k < level => Some(k + 1),
        Some(_) | None => None,
    }
}

/// The steps to a literal: no step is allowed from a uid that is written down.
pub(crate) fn literal_steps(literal: &Literal) -> Option<u32>
    ensures { result ≡ literal_steps (literal_of literal.now) }
{
    match literal {
        Literal::EntityUID(_) => None,
        Literal::Bool(_) | Literal::Long(_) | Literal::String(_) => Some(0),
    }
}

/// The steps to what an operator gives, if its own is within the level.
pub(crate) fn operator_steps(op: BinaryOp, first: Option<u32>, level: u32) -> Option<u32>
    ensures { result ≡ operator_steps level (binary_op_of op) first }
{
    if !looks_up(op) {
        return Some(0);
    }
    let steps = one_more(first, level)?;
    if is_get_tag(op) { Some(steps) } else { Some(0) }
}

/// The steps to an attribute of what is of this type, if its own is within the level.
pub(crate) fn attribute_steps(ty: &Type, steps: Option<u32>, level: u32) -> Option<Option<u32>>
    ensures { result ≡ attribute_steps level (is_entity (Some (type_of ty.now))) steps }
{
    if !is_entity_type(ty) {
        return Some(steps);
    }
    let further = one_more(steps, level)?;
    Some(Some(further))
}

/// The greater of both, if both are there.
pub(crate) fn greater(a: Option<u32>, b: Option<u32>) -> Option<u32>
    ensures { result ≡ greater a b }
{
    match (a, b) {
        (Some(a), Some(b)) => Some(a.max(b)),
        _ => None,
    }
}
