//! Calls of functions.

ghost use Rattle.std.specs.Prelude.{◌≡◌, map, option_map, option_and_then, IfOk};
ghost use Rattle.cedar_expr_model.specs.Builder.{trees};
ghost use Rattle.cedar_expr_model.specs.Lists.{all_given};
ghost use Rattle.cedar_expr_trees.specs.Trees.{tree_of};
ghost use Rattle.cedar_expr_values.specs.Types.{core_of};
ghost use Rattle.cedar_schema_joins.specs.Modes.{mode_of};
ghost use Rattle.cedar_schema_types.specs.Types.{type_of};
ghost use Rattle.cedar_typechecker_model.specs.Rules.{call_type, core_as_type, arguments_fit};
ghost use Rattle.cedar_typechecker_rules.specs.Arguments.{after_one};
ghost use Rattle.cedar_typechecker_environments.specs.Settings.{setting_of};
ghost use Rattle.cedar_typechecker_environments.specs.Given.{GivesType};
ghost use Rattle.cedar_typechecker_environments.specs.Signatures.{signature_seen};
ghost use Rattle.cedar_typechecker_rules.specs.Signatures.{counts, literal_taken, called_type, types_seen, type_of_call};

use crate::uids::is_text_literal;
use cedar_expr_names::Name;
use cedar_expr_trees::Expr;
use cedar_expr_values::Type as CoreType;
use cedar_schema_joins::{ValidationMode, is_subtype};
use cedar_schema_types::Type;
use cedar_typechecker_environments::{FunctionSignature, TypingSchema, World};
use std::alloc::{AllocError, Global};

/// The type of a call of the function of this name on these arguments, which are of these types: that of its result, if the table
/// has the function, its signature may be typed, and the arguments fit it.
#[tactic(auto, using(crate::proofs::Signed::call_is))]
pub fn call_type<S: TypingSchema>(
    alloc: Global,
    world: &World<'_, S>,
    name: &Name,
    args: &[Expr],
    types: &[&Type],
) -> Result<Option<Type>, AllocError>
    ensures { IfOk result (GivesType (type_of_call (setting_of S.schema S.table world.now) name.now args.now types.now)) }
{
    match world.schema.function(name)? {
        Some(f) => called_type(alloc, world.mode, f, args, types),
        None => Ok(None),
    }
}

// The type of a call of a function of this signature.
fn called_type(
    alloc: Global,
    mode: ValidationMode,
    f: FunctionSignature<'_>,
    args: &[Expr],
    types: &[&Type],
) -> Result<Option<Type>, AllocError>
    ensures { IfOk result (GivesType (called_type (mode_of mode) (trees (map tree_of args.now)) (types_seen types.now) (signature_seen f.entry))) }
{
    let Some(parameters) = all_core_types(alloc, f.arg_types)? else {
        return Ok(None);
    };
    if counts(f, types.len())
        && arguments_fit(parameters.as_slice(), types)
        && literal_taken(mode, f.is_constructor, args)
    {
        result_type(f.return_type)
    } else {
        Ok(None)
    }
}

// Whether the function takes so many arguments.
fn counts(f: FunctionSignature<'_>, count: usize) -> bool
    ensures { result ≡ counts (signature_seen f.entry) count }
{
    if f.is_variadic {
        f.arg_types.len() <= count
    } else {
        count == f.arg_types.len()
    }
}

// The types of parameters, if they all may be typed.
fn all_core_types(alloc: Global, types: &[CoreType]) -> Result<Option<Vec<Type>>, AllocError>
    ensures { IfOk result (λ ts. option_map (λ v. map type_of v.items) ts ≡ all_given core_as_type (map core_of types.now)) }
{
    let mut all = Vec::with_capacity(alloc, types.len())?;
    for ty in types {
        match core_as_type(ty)? {
            Some(ty) => all.push(ty)?,
            None => return Ok(None),
        }
    }
    Ok(Some(all))
}

// The type of a result, if there is one and it may be typed.
fn result_type(ty: Option<&CoreType>) -> Result<Option<Type>, AllocError>
    ensures { IfOk result (λ t. option_map type_of t ≡ option_and_then core_as_type (option_map (λ c. core_of c.now) ty.entry)) }
{
    match ty {
        Some(ty) => core_as_type(ty),
        None => Ok(None),
    }
}

// The type that a parameter or a result has, if it may be typed.
fn core_as_type(ty: &CoreType) -> Result<Option<Type>, AllocError>
    ensures { IfOk result (λ t. option_map type_of t ≡ core_as_type (core_of ty.now)) }
{
    match ty {
        CoreType::Bool => Ok(Some(Type::primitive_boolean())),
        CoreType::Long => Ok(Some(Type::Long)),
        CoreType::String => Ok(Some(Type::String)),
        CoreType::Extension { name } => Ok(Some(Type::extension(name.clone()?))),
        CoreType::Set | CoreType::Record | CoreType::Entity { .. } => Ok(None),
    }
}

// Whether each argument is below the type of its parameter; further ones are below that of the last.
fn arguments_fit(parameters: &[Type], types: &[&Type]) -> bool
    ensures { result ≡ arguments_fit (map type_of parameters.now) (map (λ t. type_of t.now) types.now) }
{
    let mut due = parameters;
    for ty in types {
        let Some(parameter) = due.first() else {
            return true;
        };
        if !is_subtype(ty, parameter, ValidationMode::Strict) {
            return false;
        }
        due = after_one(due);
    }
    true
}

// The parameters that are left for further arguments: the last stays.
fn after_one(parameters: &[Type]) -> &[Type]
    ensures { map type_of result.now ≡ after_one (map type_of parameters.entry.now) }
{
    match parameters.split_first() {
        Some((_, further)) if !further.is_empty() => further,
        _ => parameters,
    }
}

// Whether the arguments are such as a function may be called on that constructs: in strict mode a literal text.
fn literal_taken(mode: ValidationMode, is_constructor: bool, args: &[Expr]) -> bool
    ensures { result ≡ literal_taken (mode_of mode) is_constructor (trees (map tree_of args.now)) }
{
    match mode {
        ValidationMode::Strict => !is_constructor || is_text_literal(args),
        ValidationMode::Permissive => true,
    }
}
