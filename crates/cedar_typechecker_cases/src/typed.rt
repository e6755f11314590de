//! Expressions that are typed, and environments.

ghost use Rattle.cedar_schema_built.specs.Views.{schema_kept};
ghost use Rattle.cedar_typechecker_model.specs.Seen.{IsClosed};

use cedar_expr_functions::Extensions;
use cedar_expr_leaves::SlotId;
use cedar_expr_trees::Expr;
use cedar_schema_built::ValidatorSchema;
use cedar_schema_joins::ValidationMode;
use cedar_store_parts::SlotEnv;
use cedar_test_exprs::{kept, read, say, show, told, uid};
use cedar_typechecker::asked::SchemaEnvironments;
use cedar_typechecker::typecheck_answer::typecheck;
use cedar_typechecker::{CapabilitySet, RequestEnv, SchemaAndFunctions, TypecheckAnswer, World};
use std::alloc::{AllocError, Global};
use std::rc::Rc;

// Says the type of an expression, or the types of the parts of the first environment.
pub(crate) fn typed(
    alloc: Global,
    said: &mut String,
    schema: &ValidatorSchema,
    functions: &Extensions<'_>,
    call: (&str, &str),
) -> Result<(), AllocError>
    requires { IsClosed (schema_kept schema.now) }
{
    let schema = SchemaAndFunctions::new(alloc, schema, functions)?;
    let envs = schema.environments(alloc)?;
    in_first(alloc, said, &schema, envs.as_slice(), call)
}

fn in_first(
    alloc: Global,
    said: &mut String,
    schema: &SchemaAndFunctions<'_, '_, '_>,
    envs: &[RequestEnv],
    call: (&str, &str),
) -> Result<(), AllocError> {
    let env = envs.first().ok_or(AllocError)?;
    let (verb, text) = call;
    let mode = if verb == "type" {
        ValidationMode::Strict
    } else {
        ValidationMode::Permissive
    };
    match verb {
        "env" => told_env(alloc, said, schema, env),
        _ => told_type(
            alloc,
            said,
            &World { schema, mode, env },
            &*read(alloc, text)?,
        ),
    }
}

// The answer, handed on alone and in a list of one.
fn handed_on<'a>(
    alloc: Global,
    answer: TypecheckAnswer<'a>,
) -> Result<TypecheckAnswer<'a>, AllocError> {
    let answer = answer.map_capability(|c| c).then_typecheck(alloc, |e, c| {
        Ok(TypecheckAnswer::success_with_capability(e, c))
    })?;
    let answers = vec![in alloc; answer]?;
    TypecheckAnswer::sequence_all_then_typecheck(alloc, answers, |mut parts| match parts.pop() {
        Some((e, c)) => Ok(TypecheckAnswer::success_with_capability(e, c)),
        None => Err(AllocError),
    })
}

// Says the type of the expression, or that it has none. Where there is none there is a fault, and else there isn't any.
fn told_type(
    alloc: Global,
    said: &mut String,
    world: &World<'_, SchemaAndFunctions<'_, '_, '_>>,
    e: &Expr,
) -> Result<(), AllocError> {
    let mut faults = Vec::new(alloc);
    let known = CapabilitySet::new(alloc);
    let answer = typecheck(alloc, world, &known, &mut faults, e);
    told_answer(alloc, said, answer, faults.is_empty())
}

fn told_answer(
    alloc: Global,
    said: &mut String,
    answer: Result<TypecheckAnswer<'_>, AllocError>,
    is_faultless: bool,
) -> Result<(), AllocError> {
    let answer = handed_on(alloc, answer?)?;
    shown(alloc, said, &answer, is_faultless)
}

fn shown(
    alloc: Global,
    said: &mut String,
    answer: &TypecheckAnswer<'_>,
    is_faultless: bool,
) -> Result<(), AllocError> {
    match answer {
        TypecheckAnswer::Success { expr_type, .. } => match (expr_type.data(), is_faultless) {
            (Some(ty), true) => show(alloc, said, ty),
            _ => say(said, "typed, with faults or without type"),
        },
        TypecheckAnswer::Fail { .. } => say(
            said,
            if is_faultless {
                "none, without fault"
            } else {
                "none"
            },
        ),
    }
}

// Says the types of the parts of a copy of the environment, and that of its principal's slot, which is bound to a group.
fn told_env(
    alloc: Global,
    said: &mut String,
    schema: &SchemaAndFunctions<'_, '_, '_>,
    env: &RequestEnv,
) -> Result<(), AllocError> {
    let mut slots = SlotEnv::new();
    let _ = slots.insert(
        SlotId::principal(),
        Rc::new(alloc, uid(alloc, "Group::g")?)?,
    );
    let env = kept(alloc, env.clone()?.link_slot_env(&slots))?;
    told_parts(alloc, said, schema, &env)
}

fn told_parts(
    alloc: Global,
    said: &mut String,
    schema: &SchemaAndFunctions<'_, '_, '_>,
    env: &RequestEnv,
) -> Result<(), AllocError> {
    told(alloc, said, env.principal_type(alloc))?;
    told(
        alloc,
        said,
        env.action_type(alloc, schema)?.ok_or(AllocError),
    )?;
    told(alloc, said, env.resource_type(alloc))?;
    told(alloc, said, env.context_type())?;
    show(alloc, said, env.principal_slot().ok_or(AllocError)?)
}
