//! Whether the scope of a policy fits a declared action with its types.

ghost use Rattle.std.specs.Prelude.{◌≡◌, ◌∷◌, [], map, IfOk};
ghost use Rattle.std.specs.List.{list_any};
ghost use Rattle.cedar_expr_names.specs.Views.{type_name_of, uid_of};
ghost use Rattle.cedar_store_model.specs.Policy.{exactly};
ghost use Rattle.cedar_store_parts.specs.Parts.{id_text, target_of, scope_of, action_scope_of};
ghost use Rattle.cedar_store_parts.specs.Views.{fits_no_action, warning_of};
ghost use Rattle.cedar_typechecker_environments.specs.Settings.{environment_of};
ghost use Rattle.cedar_typechecker_scopes.specs.Applying.{may_be_inside, may_meet, is_or_descends, action_meets, fits, would_mend, application_warnings};
ghost use Rattle.cedar_typechecker_scopes.specs.Asking.{asked_of, part_asked, takes, perhaps_mended};
ghost use Rattle.cedar_typechecker_scopes.specs.Warned.{WarnsOfTemplate, WarnsOfPolicy, takes_part};

use crate::schema::ScopeSchema;
use cedar_expr_names::{EntityType, EntityUID, Loc};
use cedar_store_parts::{
    ActionConstraint, EntityReference, PolicyID, PrincipalOrResource,
    PrincipalOrResourceConstraint, ValidationWarning,
};
use cedar_store_policies::{Policy, Template};
use cedar_typechecker_environments::RequestEnv;
use std::alloc::{AllocError, Global};
use std::rc::Rc;

// What the scope of a policy asks for.
#[derive(Clone, Copy)]
pub(crate) struct Asked<'a> {
    pub(crate) principal: &'a PrincipalOrResourceConstraint,
    pub(crate) action: &'a ActionConstraint,
    pub(crate) resource: &'a PrincipalOrResourceConstraint,
}

/// Warns where the scope fits no declared action with one of its principal types and one of its resource types. A slot fits any type.
pub fn validate_template_action_application<S: ScopeSchema>(
    alloc: Global,
    schema: &S,
    template: &Template,
) -> Result<Vec<ValidationWarning>, AllocError>
    ensures { IfOk result (WarnsOfTemplate (S.schema schema.now) template.now) }
{
    let asked = Asked {
        principal: &template.principal_constraint().constraint,
        action: template.action_constraint(),
        resource: &template.resource_constraint().constraint,
    };
    warnings(alloc, schema, template.id(), template.loc(), asked)
}

/// Warns where the scope, with the uids that its slots are bound to in their place, fits no declared action with one of its principal
/// types and one of its resource types.
pub fn validate_linked_action_application<S: ScopeSchema>(
    alloc: Global,
    schema: &S,
    policy: &Policy,
) -> Result<Vec<ValidationWarning>, AllocError>
    ensures { IfOk result (WarnsOfPolicy (S.schema schema.now) policy.now) }
{
    let principal = policy.principal_constraint()?;
    let resource = policy.resource_constraint()?;
    let asked = Asked {
        principal: &principal.constraint,
        action: policy.action_constraint(),
        resource: &resource.constraint,
    };
    warnings(alloc, schema, policy.id(), policy.loc(), asked)
}

// The warning, where what is asked for fits no environment.
fn warnings<S: ScopeSchema>(
    alloc: Global,
    schema: &S,
    policy_id: &PolicyID,
    source_loc: Option<Loc>,
    asked: Asked<'_>,
) -> Result<Vec<ValidationWarning>, AllocError>
    ensures { IfOk result (λ ws. map warning_of ws.items ≡ application_warnings (S.schema schema.now) (id_text policy_id.now) source_loc (asked_of asked.entry)) }
{
    let envs = schema.environments(alloc)?;
    if fits_one(schema, asked, envs.as_slice()) {
        Ok(Vec::new(alloc))
    } else {
        let principal = would_mend(
            schema,
            asked,
            PrincipalOrResource::Principal,
            envs.as_slice(),
        );
        let resource = would_mend(
            schema,
            asked,
            PrincipalOrResource::Resource,
            envs.as_slice(),
        );
        fits_nothing(alloc, policy_id, source_loc, principal, resource)
    }
}

// The warning.
fn fits_nothing(
    alloc: Global,
    policy_id: &PolicyID,
    source_loc: Option<Loc>,
    would_in_fix_principal: bool,
    would_in_fix_resource: bool,
) -> Result<Vec<ValidationWarning>, AllocError>
    ensures { IfOk result (λ ws. map warning_of ws.items ≡ fits_no_action (id_text policy_id.now) source_loc would_in_fix_principal would_in_fix_resource ∷ []) }
{
    let policy_id = policy_id.clone()?;
    let mut found = Vec::new(alloc);
    found.push(ValidationWarning::InvalidActionApplication {
        policy_id,
        source_loc,
        would_in_fix_principal,
        would_in_fix_resource,
    })?;
    Ok(found)
}

// Whether what is asked for fits one of these environments.
fn fits_one<S: ScopeSchema>(schema: &S, asked: Asked<'_>, envs: &[RequestEnv]) -> bool
    ensures { result ≡ list_any (fits (S.schema schema.now) (asked_of asked.entry)) (map environment_of envs.now) }
{
    for env in envs {
        if fits(schema, asked, env) {
            return true;
        }
    }
    false
}

// Whether what is asked for fits this environment.
fn fits<S: ScopeSchema>(schema: &S, asked: Asked<'_>, env: &RequestEnv) -> bool
    ensures { result ≡ fits (S.schema schema.now) (asked_of asked.entry) (environment_of env.now) }
{
    action_meets(schema, asked.action, &env.action)
        && may_meet(schema, asked.principal, false, &env.principal)
        && may_meet(schema, asked.resource, false, &env.resource)
}

// Whether the part, which fits none of the actions that are asked for, would fit one with `in` in the place of `==`.
fn would_mend<S: ScopeSchema>(
    schema: &S,
    asked: Asked<'_>,
    part: PrincipalOrResource,
    envs: &[RequestEnv],
) -> bool
    ensures { result ≡ would_mend (takes (S.schema schema.now) (asked_of asked.entry) part) (part_asked (asked_of asked.entry) part) (map environment_of envs.now) }
{
    !takes_one(schema, asked, part, false, envs) && takes_one(schema, asked, part, true, envs)
}

// Whether the part fits one of the actions that are asked for, perhaps with `in` in the place of `==`.
fn takes_one<S: ScopeSchema>(
    schema: &S,
    asked: Asked<'_>,
    part: PrincipalOrResource,
    mended: bool,
    envs: &[RequestEnv],
) -> bool
    ensures { result ≡ list_any (takes_part (S.schema schema.now) (asked_of asked.entry) part mended) (map environment_of envs.now) }
{
    for env in envs {
        if takes(schema, asked, part, mended, env) {
            return true;
        }
    }
    false
}

// Whether the part fits the environment of an action that is asked for.
fn takes<S: ScopeSchema>(
    schema: &S,
    asked: Asked<'_>,
    part: PrincipalOrResource,
    mended: bool,
    env: &RequestEnv,
) -> bool
    ensures { result ≡ takes_part (S.schema schema.now) (asked_of asked.entry) part mended (environment_of env.now) }
{
    action_meets(schema, asked.action, &env.action)
        && match part {
            PrincipalOrResource::Principal => may_meet(
                schema,
                asked.principal,
                mended,
                &env.principal,
            ),
            PrincipalOrResource::Resource => may_meet(
                schema,
                asked.resource,
                mended,
                &env.resource,
            ),
        }
}

// Whether the action is what is asked for.
fn action_meets<S: ScopeSchema>(schema: &S, asked: &ActionConstraint, action: &EntityUID) -> bool
    ensures { result ≡ action_meets (S.schema schema.now) (action_scope_of asked.now) (uid_of action.now) }
{
    match asked {
        ActionConstraint::Any => true,
        ActionConstraint::Eq(uid) => action.same(uid),
        ActionConstraint::In(uids) => descends_from_one(schema, action, uids.as_slice()),
    }
}

// Whether the action is one of these, or descends from one.
fn descends_from_one<S: ScopeSchema>(schema: &S, action: &EntityUID, uids: &[Rc<EntityUID>]) -> bool
    ensures { result ≡ list_any (is_or_descends (S.schema schema.now) (uid_of action.now)) (map (λ u. uid_of u.value) uids.now) }
{
    for uid in uids {
        if is_or_descends(schema, action, uid) {
            return true;
        }
    }
    false
}

// Whether the action is the other, or descends from it.
fn is_or_descends<S: ScopeSchema>(schema: &S, action: &EntityUID, above: &EntityUID) -> bool
    ensures { result ≡ is_or_descends (S.schema schema.now) (uid_of action.now) (uid_of above.now) }
{
    action.same(above) || schema.action_descends(action, above)
}

// Whether an entity of the type may be what is asked for, perhaps with `in` in the place of `==`.
fn may_meet<S: ScopeSchema>(
    schema: &S,
    asked: &PrincipalOrResourceConstraint,
    mended: bool,
    ty: &EntityType,
) -> bool
    ensures { result ≡ may_meet (S.schema schema.now) (perhaps_mended mended (scope_of asked.now)) (type_name_of ty.now) }
{
    match asked {
        PrincipalOrResourceConstraint::Any => true,
        PrincipalOrResourceConstraint::Is(kind) => ty.same(kind),
        PrincipalOrResourceConstraint::Eq(target) => may_equal(schema, target, mended, ty),
        PrincipalOrResourceConstraint::In(target) => may_be_inside(schema, target, ty),
        PrincipalOrResourceConstraint::IsIn(kind, target) => {
            ty.same(kind) && may_be_inside(schema, target, ty)
        }
    }
}

// Whether an entity of the type may be the target, or, with `in` in the place of `==`, in it.
fn may_equal<S: ScopeSchema>(
    schema: &S,
    target: &EntityReference,
    mended: bool,
    ty: &EntityType,
) -> bool
    ensures { result ≡ may_meet (S.schema schema.now) (perhaps_mended mended (exactly (target_of target.now))) (type_name_of ty.now) }
{
    match target {
        EntityReference::EUID(uid) => {
            ty.same(uid.entity_type()) || (mended && schema.type_descends(ty, uid.entity_type()))
        }
        EntityReference::Slot(_) => true,
    }
}

// Whether an entity of the type may be in the target.
fn may_be_inside<S: ScopeSchema>(schema: &S, target: &EntityReference, ty: &EntityType) -> bool
    ensures { result ≡ may_be_inside (S.schema schema.now) (target_of target.now) (type_name_of ty.now) }
{
    match target {
        EntityReference::EUID(uid) => {
            ty.same(uid.entity_type()) || schema.type_descends(ty, uid.entity_type())
        }
        EntityReference::Slot(_) => true,
    }
}
