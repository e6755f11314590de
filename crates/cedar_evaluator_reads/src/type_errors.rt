//! Refusals of values that aren't of a type that is asked for.

ghost use Rattle.std.specs.Prelude.{◌≡◌, [], ◌∷◌, IfOk, codes};
ghost use Rattle.cedar_expr_model.specs.Names.{unqualified};
ghost use Rattle.cedar_expr_model.specs.Tree.{entity_core, set_core, record_core};
ghost use Rattle.cedar_expr_names.specs.Views.{plain_name_of, type_name_of};
ghost use Rattle.cedar_expr_values.specs.Extensions.{extension_of};
ghost use Rattle.cedar_expr_values.specs.Types.{core_of};
ghost use Rattle.cedar_expr_values.specs.Values.{bare};
ghost use Rattle.cedar_store_model.specs.Outcome.{wrong_type};
ghost use Rattle.cedar_evaluator_reads.specs.Errors.{StopsWith, AsksFor, any_entity};

use crate::knowledge::V;
use cedar_evaluator_errors::EvaluationError;
use cedar_evaluator_errors::evaluation_errors::TypeError;
use cedar_expr_leaves::NonEmpty;
use cedar_expr_names::{Name, NameError};
use cedar_expr_values::{StaticallyTyped, Type};
use std::alloc::{AllocError, Global};

/// The name that stands for the type of any entity where an error says which types are asked for.
pub fn any_entity_type(alloc: Global) -> Result<Name, AllocError>
    ensures { IfOk result (λ n. plain_name_of n ≡ any_entity) }
{
    match Name::parse_unqualified_name(alloc, "any_entity_type") {
        Ok(name) => Ok(name),
        Err(NameError::OutOfMemory) => Err(AllocError),
        Err(NameError::NotNormalized | NameError::Reserved(_)) => unreachable!(),
    }
}

// The type of any entity.
fn any_entity(alloc: Global) -> Result<Type, AllocError>
    ensures { IfOk result (λ t. core_of t ≡ entity_core any_entity) }
{
    let name = any_entity_type(alloc)?;
    Ok(Type::entity_type(name))
}

/// The refusal of a value where one of these types is asked for.
pub fn type_error(expected: NonEmpty<Type>, actual: &V) -> EvaluationError
    ensures stop { StopsWith wrong_type result }
    ensures types { AsksFor (expected_types expected) (bare extension_of actual.now) result }
{
    match actual.type_of() {
        Ok(ty) => EvaluationError::TypeError(TypeError {
            expected,
            actual: ty,
            advice: None,
            source_loc: actual.source_loc(),
        }),
        Err(_) => EvaluationError::OutOfMemory,
    }
}

ghost use Rattle.cedar_evaluator_reads.specs.Errors.{expected_types};

/// The refusal of a value where this type is asked for.
pub fn type_error_single(alloc: Global, expected: Type, actual: &V) -> EvaluationError
    ensures stop { StopsWith wrong_type result }
    ensures types { AsksFor (core_of expected ∷ []) (bare extension_of actual.now) result }
{
    type_error(NonEmpty::singleton(alloc, expected), actual)
}

/// The refusal of a value where an entity is asked for.
pub fn no_entity(alloc: Global, actual: &V) -> EvaluationError
    ensures stop { StopsWith wrong_type result }
    ensures types { AsksFor (entity_core any_entity ∷ []) (bare extension_of actual.now) result }
{
    match any_entity(alloc) {
        Ok(ty) => type_error_single(alloc, ty, actual),
        Err(_) => EvaluationError::OutOfMemory,
    }
}

// The refusal of a value where this type, or an entity, is asked for.
fn no_entity_or(alloc: Global, other: Type, actual: &V) -> Result<EvaluationError, AllocError>
    ensures stop { IfOk result (StopsWith wrong_type) }
    ensures types { IfOk result (AsksFor (core_of other ∷ entity_core any_entity ∷ []) (bare extension_of actual.now)) }
{
    let tail = vec![in alloc; any_entity(alloc)?]?;
    Ok(type_error(NonEmpty { head: other, tail }, actual))
}

/// The refusal of a value where a record or an entity is asked for.
pub fn no_record(alloc: Global, actual: &V) -> EvaluationError
    ensures stop { StopsWith wrong_type result }
    ensures types { AsksFor (record_core ∷ entity_core any_entity ∷ []) (bare extension_of actual.now) result }
{
    match no_entity_or(alloc, Type::Record, actual) {
        Ok(error) => error,
        Err(_) => EvaluationError::OutOfMemory,
    }
}

/// The refusal of a value where a set or an entity is asked for.
pub fn no_set(alloc: Global, actual: &V) -> EvaluationError
    ensures stop { StopsWith wrong_type result }
    ensures types { AsksFor (set_core ∷ entity_core any_entity ∷ []) (bare extension_of actual.now) result }
{
    match no_entity_or(alloc, Type::Set, actual) {
        Ok(error) => error,
        Err(_) => EvaluationError::OutOfMemory,
    }
}
