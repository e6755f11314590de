//! Policies that are typed and validated.

ghost use Rattle.cedar_schema_built.specs.Views.{schema_kept};
ghost use Rattle.cedar_typechecker_model.specs.Seen.{IsClosed};

use crate::shown::{say_check, say_errors, say_warnings};
use cedar_expr_functions::Extensions;
use cedar_expr_leaves::SlotId;
use cedar_schema_built::ValidatorSchema;
use cedar_schema_joins::ValidationMode;
use cedar_store_cases::template;
use cedar_store_parts::{PolicyID, SlotEnv, ValidationError, ValidationWarning};
use cedar_store_policies::{Policy, Template};
use cedar_test_exprs::{both, kept, say, show, uid};
use cedar_typechecker::{PolicyCheck, RequestEnv, Typechecker, Validator};
use std::alloc::{AllocError, Global};
use std::collections::HashSet;
use std::rc::Rc;

// Says what a call says of a policy.
pub(crate) fn checked(
    alloc: Global,
    said: &mut String,
    schema: &ValidatorSchema,
    functions: &Extensions<'_>,
    call: (&str, &str),
) -> Result<(), AllocError>
    requires { IsClosed (schema_kept schema.now) }
{
    let (verb, text) = call;
    let mode = if verb == "loose" {
        ValidationMode::Permissive
    } else {
        ValidationMode::Strict
    };
    match verb {
        "check" | "loose" | "envs" => {
            let checker = Typechecker::new(alloc, schema, mode, functions)?;
            typechecked(alloc, said, &checker, verb, text)
        }
        _ => {
            let validator = Validator::new(alloc, schema, functions)?;
            validated(alloc, said, &validator, verb, text)
        }
    }
}

// The policy that a text writes: its scope and its body behind ` when `, or its body.
fn policy(alloc: Global, text: &str) -> Result<Template, AllocError> {
    match text.split_once("when ") {
        Some((scope, body)) => template(alloc, scope.trim(), body),
        None => template(alloc, "", text),
    }
}

// Says what the typechecker says by a call.
fn typechecked(
    alloc: Global,
    said: &mut String,
    checker: &Typechecker<'_, '_, '_>,
    verb: &str,
    text: &str,
) -> Result<(), AllocError> {
    let policy = policy(alloc, text)?;
    if verb == "envs" {
        in_all(alloc, said, checker, &policy)
    } else {
        passes(alloc, said, checker, &policy)
    }
}

// Says whether the policy passes, how much is wrong else, and whether it is warned of.
fn passes(
    alloc: Global,
    said: &mut String,
    checker: &Typechecker<'_, '_, '_>,
    policy: &Template,
) -> Result<(), AllocError> {
    let mut errors = HashSet::new(alloc);
    let mut warnings = HashSet::new(alloc);
    let passes = checker.typecheck_policy(policy, &mut errors, &mut warnings);
    say_pass(alloc, said, passes, errors.len(), warnings.is_empty())
}

fn say_pass(
    alloc: Global,
    said: &mut String,
    passes: Result<bool, AllocError>,
    errors: usize,
    is_possible: bool,
) -> Result<(), AllocError> {
    if passes? && errors == 0 {
        say(said, "passes")?;
    } else {
        show(alloc, said, &errors)?;
        say(said, "wrong")?;
    }
    if is_possible {
        Ok(())
    } else {
        say(said, "impossible")
    }
}

// Says the check in an environment, and elsewhere the one that is made there alone.
fn in_one(
    alloc: Global,
    said: &mut String,
    alone: &mut String,
    asked: (&Typechecker<'_, '_, '_>, &Template),
    item: Result<(RequestEnv, PolicyCheck), AllocError>,
) -> Result<(), AllocError> {
    let (env, check) = item?;
    let (checker, policy) = asked;
    let again = checker.typecheck_by_single_request_env(policy, &env);
    say_both(alloc, (said, &check), alone, kept(alloc, again))
}

fn say_both(
    alloc: Global,
    first: (&mut String, &PolicyCheck),
    alone: &mut String,
    again: Result<Rc<PolicyCheck>, AllocError>,
) -> Result<(), AllocError> {
    let again = again?;
    let (said, check) = first;
    say_check(alloc, said, check)?;
    say_check(alloc, alone, &again)
}

// Says the checks in all environments, where each of them alone says the same.
fn in_all(
    alloc: Global,
    said: &mut String,
    checker: &Typechecker<'_, '_, '_>,
    policy: &Template,
) -> Result<(), AllocError> {
    let mut alone = String::new(alloc);
    for item in checker.typecheck_by_request_env(policy) {
        in_one(alloc, said, &mut alone, (checker, policy), item)?;
    }
    if alone.as_str() == said.as_str() {
        Ok(())
    } else {
        say(said, "at odds")
    }
}

// Says what the validator says by a call: a pass, or all at the level that stands before the policy.
fn validated(
    alloc: Global,
    said: &mut String,
    validator: &Validator<'_, '_, '_>,
    verb: &str,
    text: &str,
) -> Result<(), AllocError> {
    if let Some(pass) = verb.strip_prefix("linked_") {
        return linked_passed(alloc, said, validator, pass, text);
    }
    if verb == "level" {
        let (level, text) = text.split_once(' ').ok_or(AllocError)?;
        let level = level.parse::<u32>().ok().ok_or(AllocError)?;
        return leveled(alloc, said, validator, &policy(alloc, text)?, level);
    }
    passed(alloc, said, validator, verb, &policy(alloc, text)?)
}

// Says what the pass over linked policies says: `types` over what slots are bound to, or `fits`.
fn linked_passed(
    alloc: Global,
    said: &mut String,
    validator: &Validator<'_, '_, '_>,
    pass: &str,
    text: &str,
) -> Result<(), AllocError> {
    let policy = linked(alloc, text)?;
    if pass == "types" {
        let errors = validator.validate_entity_types_in_slots(policy.id(), policy.env())?;
        return say_errors(alloc, said, errors.as_slice());
    }
    let warnings = validator.validate_linked_action_application(&policy)?;
    say_warnings(said, warnings.as_slice())
}

// The policy behind `User::a | `, whose principal's slot is bound to this.
fn linked(alloc: Global, text: &str) -> Result<Policy, AllocError> {
    let (bound, text) = text.split_once(" | ").ok_or(AllocError)?;
    let (bound, template) = both(
        kept(alloc, uid(alloc, bound)),
        kept(alloc, policy(alloc, text)),
    )?;
    let mut env = SlotEnv::new();
    let _before = env.insert(SlotId::principal(), bound);
    let id = PolicyID::from_string(alloc, "p")?;
    Ok(Policy::new(template, Some(id), env))
}

fn leveled(
    alloc: Global,
    said: &mut String,
    validator: &Validator<'_, '_, '_>,
    policy: &Template,
    level: u32,
) -> Result<(), AllocError> {
    let found = validator.validate_policy_with_level(policy, ValidationMode::Strict, level)?;
    say_found(
        alloc,
        said,
        found.errors.as_slice(),
        found.warnings.as_slice(),
    )
}

fn say_found(
    alloc: Global,
    said: &mut String,
    errors: &[ValidationError],
    warnings: &[ValidationWarning],
) -> Result<(), AllocError> {
    say_errors(alloc, said, errors)?;
    say_warnings(said, warnings)
}

fn passed(
    alloc: Global,
    said: &mut String,
    validator: &Validator<'_, '_, '_>,
    verb: &str,
    policy: &Template,
) -> Result<(), AllocError> {
    let errors = match verb {
        "types" => validator.validate_entity_types(policy),
        "actions" => validator.validate_action_ids(policy),
        "members" => validator.validate_enum_entity(policy),
        _ => {
            let warnings = validator.validate_template_action_application(policy)?;
            return say_warnings(said, warnings.as_slice());
        }
    };
    say_errors(alloc, said, errors?.as_slice())
}
