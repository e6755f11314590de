//! The steps of a path of attributes.

ghost use Rattle.std.specs.Prelude.{◌≡◌, map, IfOk, Some, if◌then◌else◌};
ghost use Rattle.std.specs.Rc.{rc_str_bytes};
ghost use Rattle.cedar_schema_types.specs.Types.{type_of};
ghost use Rattle.cedar_typechecker_environments.specs.Settings.{setting_of};
ghost use Rattle.cedar_typechecker_model.specs.Levels.{is_entity, needed, entity_steps, fields_before};
ghost use Rattle.cedar_typechecker_model.specs.Typing.{step_type};
ghost use Rattle.cedar_typechecker_levels.specs.Along.{entity_steps_along, fields_along, path_steps, path_fields};
ghost use Rattle.cedar_typechecker_levels.specs.Marked.{type_in};
ghost use Rattle.cedar_typechecker_levels.specs.Paths.{path_of};

use crate::kinds::{further, is_entity_type};
use crate::path::Path;
use cedar_expr_leaves::NonEmpty;
use cedar_schema_joins::lookup_attribute_type;
use cedar_schema_types::{AttributeType, Type};
use cedar_typechecker_environments::{TypingSchema, World};
use std::alloc::{AllocError, Global};
use std::rc::RcStr;

// The type of the attribute, if the type declares it.
fn step_type<S: TypingSchema>(
    alloc: Global,
    world: &World<'_, S>,
    ty: &Type,
    attr: &RcStr,
) -> Result<Option<Type>, AllocError>
    ensures { IfOk result (λ t. type_in t ≡ step_type (setting_of S.schema S.table world.now) (type_of ty.now) (rc_str_bytes attr.now)) }
{
    match lookup_attribute_type(alloc, world.schema, ty, attr.as_str())? {
        Some(AttributeType { attr_type, .. }) => Ok(Some(attr_type)),
        None => Ok(None),
    }
}

// The step from a value of the type, if it is one on an entity.
fn step_on(ty: &Type) -> u64
    ensures { result ≡ (if is_entity (Some (type_of ty.now)) then 1 else 0) }
{
    if is_entity_type(ty) { 1 } else { 0 }
}

// The steps of the path that stand on an entity, up to the number that stands for any greater one.
pub(crate) fn entity_steps<S: TypingSchema>(
    alloc: Global,
    world: &World<'_, S>,
    ty: &Option<Type>,
    attrs: &NonEmpty<RcStr>,
) -> Result<u64, AllocError>
    ensures { IfOk result (λ k. k ≡ needed (path_steps (setting_of S.schema S.table world.now) attrs.now ty.now)) }
{
    match ty {
        None => Ok(0),
        Some(ty) => {
            let next = step_type(alloc, world, ty, &attrs.head)?;
            let later = steps_along(alloc, world, next, attrs.tail.as_slice())?;
            Ok(further(later, step_on(ty)))
        }
    }
}

// The steps that stand on an entity, of a path that begins at this type, if there is one, up to the number that stands for any greater one.
fn steps_along<S: TypingSchema>(
    alloc: Global,
    world: &World<'_, S>,
    ty: Option<Type>,
    attrs: &[RcStr],
) -> Result<u64, AllocError>
    ensures { IfOk result (λ k. k ≡ needed (entity_steps_along (setting_of S.schema S.table world.now) (map rc_str_bytes attrs.now) (type_in ty))) }
{
    let mut here = ty;
    let mut steps = 0;
    for attr in attrs {
        match &here {
            None => return Ok(steps),
            Some(ty) => {
                steps = further(steps, step_on(ty));
                here = step_type(alloc, world, ty, attr)?;
            }
        }
    }
    Ok(steps)
}

// The fields of records by which the path reaches its first entity.
pub(crate) fn fields_before<'p, S: TypingSchema>(
    alloc: Global,
    world: &World<'_, S>,
    ty: &Option<Type>,
    attrs: &'p NonEmpty<RcStr>,
) -> Result<Path<'p>, AllocError>
    ensures { IfOk result (λ p. path_of p ≡ path_fields (setting_of S.schema S.table world.now) attrs.entry.now ty.now) }
{
    match ty {
        None => Ok(Path::End),
        Some(ty) => {
            if is_entity_type(ty) {
                Ok(Path::End)
            } else {
                let next = step_type(alloc, world, ty, &attrs.head)?;
                let others = fields_along(alloc, world, next, attrs.tail.as_slice())?;
                Ok(Path::Before(&attrs.head, others))
            }
        }
    }
}

// The fields of records by which a path that begins at this type, if there is one, reaches its first entity.
fn fields_along<'p, S: TypingSchema>(
    alloc: Global,
    world: &World<'_, S>,
    ty: Option<Type>,
    attrs: &'p [RcStr],
) -> Result<&'p [RcStr], AllocError>
    ensures { IfOk result (λ names. map rc_str_bytes names.now ≡ fields_along (setting_of S.schema S.table world.now) (map rc_str_bytes attrs.entry.now) (type_in ty)) }
{
    let mut here = ty;
    let mut count = 0;
    for attr in attrs {
        match &here {
            None => return Ok(&attrs[..count]),
            Some(ty) => {
                if is_entity_type(ty) {
                    return Ok(&attrs[..count]);
                }
                here = step_type(alloc, world, ty, attr)?;
                count += 1;
            }
        }
    }
    Ok(attrs)
}
