//! Whether a policy may decide a request of given types.

ghost use Rattle.std.specs.Prelude.{◌≡◌, ◌&&◌, map, IfOk};
ghost use Rattle.std.specs.List.{list_all};
ghost use Rattle.cedar_gate_accepted.specs.Checks.{kind_asked, is_excused};
ghost use Rattle.cedar_store_policies.specs.Policies.{policy_of};
ghost use Rattle.cedar_typechecker_environments.specs.Settings.{environment_of};
ghost use Rattle.cedar_typechecker_model.specs.Verdicts.{fits, is_of_request, irrelevant_for, is_false, condition_type};

use cedar_schema_joins::ValidationMode;
use cedar_store_parts::RequestType;
use cedar_store_policies::{Policy, Template};
use cedar_typechecker_environments::{RequestEnv, TypingSchema, World};
use cedar_typechecker_policies::{check_in, fits};
use cedar_typechecker_scopes::{SchemaEnvironments, policy_environments};
use std::alloc::{AllocError, Global};

// Whether the environment is of these types.
fn is_of_request(kind: &RequestType, env: &RequestEnv) -> bool
    ensures { result ≡ is_of_request (kind_asked kind.now) (environment_of env.now) }
{
    kind.principal.same(env.principal_entity_type())
        && kind.action.same(env.action_entity_uid())
        && kind.resource.same(env.resource_entity_type())
}

// Whether the environment fits the policy's bindings, and is of these types.
fn is_asked(kind: &RequestType, policy: &Policy, env: &RequestEnv) -> bool
    ensures { result ≡ (fits (policy_of policy.now) (environment_of env.now) && is_of_request (kind_asked kind.now) (environment_of env.now)) }
{
    fits(policy.env(), env) && is_of_request(kind, env)
}

// Whether the policy's condition has the type False, in the strict way, in the environment.
fn is_false_in<S: TypingSchema>(
    alloc: Global,
    schema: &S,
    policy: &Policy,
    env: &RequestEnv,
) -> Result<bool, AllocError>
    ensures { IfOk result (λ b. b ≡ is_false (condition_type (S.schema schema.now) (S.table schema.now) (policy_of policy.now) (environment_of env.now))) }
{
    let template: &Template = policy.template();
    let mode = ValidationMode::Strict;
    let world = World { schema, mode, env };
    let check = check_in(alloc, &world, template)?;
    Ok(check.is_irrelevant())
}

// Whether the environment isn't asked for, or gives the policy's condition the type False.
fn is_excused_in<S: TypingSchema>(
    alloc: Global,
    schema: &S,
    kind: &RequestType,
    policy: &Policy,
    env: &RequestEnv,
) -> Result<bool, AllocError>
    ensures { IfOk result (λ b. b ≡ is_excused S.schema S.table schema.now kind.now policy.now (environment_of env.now)) }
{
    if is_asked(kind, policy, env) {
        is_false_in(alloc, schema, policy, env)
    } else {
        Ok(true)
    }
}

// Whether each of these environments isn't asked for, or gives the policy's condition the type False.
fn are_excused<S: TypingSchema>(
    alloc: Global,
    schema: &S,
    kind: &RequestType,
    policy: &Policy,
    envs: &[RequestEnv],
) -> Result<bool, AllocError>
    ensures { IfOk result (λ b. b ≡ list_all (is_excused S.schema S.table schema.now kind.now policy.now) (map environment_of envs.now)) }
{
    for env in envs {
        if !is_excused_in(alloc, schema, kind, policy, env)? {
            return Ok(false);
        }
    }
    Ok(true)
}

/// Whether the policy is irrelevant for requests of these types: its condition is False in each environment of them that fits its
/// bindings. Fails only when out of memory.
pub fn is_irrelevant_for<S: SchemaEnvironments>(
    alloc: Global,
    schema: &S,
    kind: &RequestType,
    policy: &Policy,
) -> Result<bool, AllocError>
    ensures { IfOk result (λ b. b ≡ irrelevant_for (S.schema schema.now) (S.table schema.now) (kind_asked kind.now) (policy_of policy.now)) }
{
    let envs = policy_environments(alloc, schema, policy.template())?;
    are_excused(alloc, schema, kind, policy, envs.as_slice())
}
