//! What is found wrong with what is handed to the gate, each with its place.

ghost use Rattle.cedar_schema_built.specs.Views.{schema_kept};
ghost use Rattle.cedar_typechecker_model.specs.Seen.{IsClosed};

use crate::findings::{Finding, add};
use crate::names::add_named;
use crate::rules::add_plain;
use crate::subjects::Subject;
use crate::typing::add_typed;
use cedar_expr_functions::Extensions;
use cedar_gate_accepted::{GateFault, declared_schema};
use cedar_gate_bundles::Submission;
use cedar_gate_places::{external_declarations, pointer_of};
use cedar_schema_built::ValidatorSchema;
use cedar_typechecker::SchemaAndFunctions;
use cedar_typechecker_model::alike_laws::seen_schemas_answer_alike;
use cedar_typechecker_scopes::ScopeSchema;
use serde_json::Value;
use std::alloc::{AllocError, Global};
use std::fmt::Write;

/// Every fault of what is handed to the gate: of the declarations, of each policy by itself, and, where there is a schema, of each policy
/// against it. Fails only when out of memory.
pub fn all_found(
    alloc: Global,
    root: &Value,
    submission: &Submission,
    table: &Extensions<'_>,
) -> Result<Vec<Finding>, AllocError> {
    seen_schemas_answer_alike();
    let mut found = Vec::new(alloc);
    match declared_schema(alloc, submission.fragments.as_slice(), table) {
        Ok(schema) => add_against(alloc, &schema, table, submission, &mut found)?,
        Err(fault) => {
            add_declared(alloc, root, &fault, &mut found)?;
            add_external(alloc, root, &mut found)?;
            drop(add_alone(alloc, submission, &mut found)?);
        }
    }
    Ok(found)
}

// Adds the fault that makes the declarations ill-formed, if there is one, with its place.
fn add_declared(
    alloc: Global,
    root: &Value,
    fault: &GateFault,
    found: &mut Vec<Finding>,
) -> Result<(), AllocError> {
    match fault {
        GateFault::OutOfMemory => Err(AllocError),
        GateFault::Schema(error) => {
            let words = format!(in alloc; "ill-formed declarations: {error}")?;
            let path = pointer_of(alloc, root, error)?;
            add(found, Finding::of_none(1, words, path))
        }
        _ => Ok(()),
    }
}

// Adds the external declarations.
fn add_external(alloc: Global, root: &Value, found: &mut Vec<Finding>) -> Result<(), AllocError> {
    for path in external_declarations(alloc, root)? {
        let words = String::from_str(alloc, "external declaration")?;
        add(found, Finding::of_none(2, words, path))?;
    }
    Ok(())
}

// Adds the faults of each policy by itself, and gives the policies with their places.
fn add_alone<'s>(
    alloc: Global,
    submission: &'s Submission,
    found: &mut Vec<Finding>,
) -> Result<Vec<Subject<'s>>, AllocError> {
    let policies = submission.policies.as_slice();
    let limit = submission.limit.levels();
    let mut subjects = Vec::new(alloc);
    for (number, policy) in policies.iter().enumerate() {
        let subject = Subject::new(alloc, policy, number)?;
        add_plain(alloc, &subject, policies, limit, found)?;
        subjects.push(subject)?;
    }
    Ok(subjects)
}

// Adds the faults of each policy by itself, and then of each against the schema.
fn add_against(
    alloc: Global,
    schema: &ValidatorSchema,
    table: &Extensions<'_>,
    submission: &Submission,
    found: &mut Vec<Finding>,
) -> Result<(), AllocError>
    requires { IsClosed (schema_kept schema.now) }
{
    let asked = SchemaAndFunctions::new(alloc, schema, table)?;
    let subjects = add_alone(alloc, submission, found)?;
    for subject in subjects.as_slice() {
        add_by(alloc, &asked, subject, submission.level, found)?;
    }
    Ok(())
}

// Adds the faults of the policy against the schema.
fn add_by<S: ScopeSchema>(
    alloc: Global,
    schema: &S,
    subject: &Subject<'_>,
    level: u32,
    found: &mut Vec<Finding>,
) -> Result<(), AllocError> {
    add_named(alloc, schema, subject, found)?;
    add_typed(alloc, schema, subject, level, found)
}
