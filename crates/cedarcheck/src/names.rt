//! The scope rules: the entity types, actions and members that a policy names.

use crate::findings::Finding;
use crate::kinds::fault_of;
use crate::subjects::Subject;
use cedar_expr_leaves::{Literal, SlotId};
use cedar_expr_names::{EntityType, EntityUID, Loc};
use cedar_expr_trees::{Expr, ExprKind};
use cedar_store_parts::{SlotEnv, ValidationErrorKind};
use cedar_typechecker_scopes::{ScopeSchema, validate_entity_types_in_slots};
use std::alloc::{AllocError, Global};
use std::rc::Rc;

/// Adds what the scope rules say of the policy.
pub fn add_named<S: ScopeSchema>(
    alloc: Global,
    schema: &S,
    subject: &Subject<'_>,
    found: &mut Vec<Finding>,
) -> Result<(), AllocError> {
    let parts = subject.parts(alloc)?;
    for (part, expr) in parts.as_slice() {
        add_part(alloc, schema, subject, expr, part, found)?;
    }
    add_bound(alloc, schema, subject, SlotId::principal(), found)?;
    add_bound(alloc, schema, subject, SlotId::resource(), found)
}

// Adds what the scope rules say of this part of the policy.
fn add_part<S: ScopeSchema>(
    alloc: Global,
    schema: &S,
    subject: &Subject<'_>,
    expr: &Expr,
    part: &str,
    found: &mut Vec<Finding>,
) -> Result<(), AllocError> {
    for e in expr.subexpressions(alloc)? {
        let place = e.source_loc();
        match e.expr_kind() {
            ExprKind::Lit(Literal::EntityUID(uid)) => {
                add_uid(alloc, schema, subject, uid, (place, part), found)?;
            }
            ExprKind::Is { entity_type, .. } => {
                add_type(alloc, schema, subject, entity_type, (place, part), found)?;
            }
            _ => {}
        }
    }
    Ok(())
}

// Adds what the scope rules say of the uid that the slot is bound to, if it is.
fn add_bound<S: ScopeSchema>(
    alloc: Global,
    schema: &S,
    subject: &Subject<'_>,
    slot: SlotId,
    found: &mut Vec<Finding>,
) -> Result<(), AllocError> {
    let part = if slot.is_principal() {
        "/link/?principal"
    } else {
        "/link/?resource"
    };
    match subject.policy.env().get(slot) {
        Some(uid) => add_uid(alloc, schema, subject, uid, (None, part), found),
        None => Ok(()),
    }
}

// Adds that the entity type isn't known, if it isn't.
fn add_type<S: ScopeSchema>(
    alloc: Global,
    schema: &S,
    subject: &Subject<'_>,
    ty: &EntityType,
    at: (Option<Loc>, &str),
    found: &mut Vec<Finding>,
) -> Result<(), AllocError> {
    let (place, part) = at;
    if schema.declares_type(ty) || schema.is_action_type(ty) {
        return Ok(());
    }
    let kind = ValidationErrorKind::UnrecognizedEntityType(ty.clone()?);
    let fault = fault_of(alloc, &kind)?;
    subject.add(alloc, found, fault, place, part)
}

// Adds what the scope rules say of the uid, as of one that a slot is bound to.
fn add_uid<S: ScopeSchema>(
    alloc: Global,
    schema: &S,
    subject: &Subject<'_>,
    uid: &Rc<EntityUID>,
    at: (Option<Loc>, &str),
    found: &mut Vec<Finding>,
) -> Result<(), AllocError> {
    let (place, part) = at;
    let mut bound = SlotEnv::new();
    drop(bound.insert(SlotId::principal(), uid.clone()?));
    let id = subject.policy.id();
    for error in validate_entity_types_in_slots(alloc, schema, id, &bound)? {
        let fault = fault_of(alloc, &error.kind)?;
        subject.add(alloc, found, fault, place, part)?;
    }
    Ok(())
}
