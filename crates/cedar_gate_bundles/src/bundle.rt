//! Bundles: what is handed to the gate, the request, the whole store and the steps.
ghost use Rattle.std.specs.Prelude.{◌≡◌, ◌≤◌, Some, None, IfOk, IfErr};
ghost use Rattle.serde_json.specs.View.{view};
ghost use Rattle.cedar_gate_model.specs.ReadingForms.{number_between};
ghost use Rattle.cedar_gate_model.specs.ReadingBundle.{is_bundle, version_read, submission_read, bundle_read, input_read};
ghost use Rattle.cedar_evaluator_model.specs.Functions.{Functions};
ghost use Rattle.cedar_evaluator_restricted_exprs.specs.Answers.{AgreesWith};
ghost use Rattle.cedar_evaluator_model.specs.OfLaws.WellMade.{IsContextMadeWell};
ghost use Rattle.cedar_gate_bundles.specs.Bundles.{submission_of, bundle_of};
ghost use Rattle.cedar_evaluator_requests.specs.Views.{request_of};
ghost use Rattle.cedar_gate_bundles.specs.Written.{IsStoreWritten};
ghost use Rattle.cedar_gate_expressions.specs.Forms.{version_of};
ghost use Rattle.cedar_gate_rules.specs.Limit.{levels_of};
ghost use Rattle.cedar_gate_expressions.specs.declared.fault.ReadFault.TheVariants.{Unreadable};
ghost use Rattle.cedar_gate_bundles.specs.Reading.{IsUnreadable, ByFairFunctions};

use crate::lists::optional_list;
use crate::policies::PolicyReader;
use crate::requests::read_request;
use crate::steps::Steps;
use crate::stores::read_store;
use cedar_evaluator_requests::Request;
use cedar_expr_functions::Extensions;
use cedar_expr_leaves::RawName;
use cedar_gate_expressions::{ReadFault, Version, has_only, read_json, read_list, required};
use cedar_gate_fragments::read_schema;
use cedar_gate_rules::NestLimit;
use cedar_gate_runs::Step;
use cedar_schema_decl::json_schema::Fragment;
use cedar_store_entities::Entities;
use cedar_store_policies::Policy;
use serde_json::Value;
use std::alloc::Global;

/// What is handed to the gate.
#[derive(Drop)]
pub struct Submission {
    /// The declarations, a fragment for each namespace that is written.
    pub fragments: Vec<Fragment<RawName>>,
    /// The policies.
    pub policies: Vec<Policy>,
    /// The level.
    pub level: u32,
    /// The limit on nesting.
    pub limit: NestLimit,
}

/// A bundle, once it is read.
#[derive(Drop)]
pub struct Bundle {
    /// What is handed to the gate.
    pub submission: Submission,
    /// The request.
    pub request: Request,
    /// The whole store.
    pub store: Entities,
    /// The steps of the run.
    pub steps: Vec<Step>,
}

/// Reads a bundle from a whole input, which has to be JSON in UTF-8. Values in it are evaluated by the functions of the table.
///
/// # Errors
/// `Unreadable` where the input is no bundle of version 1 or 2, and `OutOfMemory`.
#[tactic(auto, using(crate::proofs::Parted::of_input))]
pub fn read_input(alloc: Global, table: &Extensions<'_>, bytes: &[u8]) -> Result<Bundle, ReadFault>
    ensures ok { IfOk result (λ b. (x : Functions) → AgreesWith table.now x → input_read x bytes.now ≡ Some (bundle_of x b)) }
    ensures unreadable { IfErr result (λ f. IsUnreadable table.now (λ x. input_read x bytes.now) f) }
    ensures context_written { IfOk result (λ b. ByFairFunctions table.now (λ x. IsContextMadeWell x.table (request_of b.request).context)) }
    ensures store_written { IfOk result (λ b. ByFairFunctions table.now (λ x. IsStoreWritten x.table b.store)) }
{
    let value = read_json(alloc, bytes)?;
    read_bundle(alloc, table, &value)
}

/// Reads a bundle from its JSON value. Values in it are evaluated by the functions of the table.
///
/// # Errors
/// `Unreadable` where the value is no bundle of version 1 or 2, and `OutOfMemory`.
pub fn read_bundle(
    alloc: Global,
    table: &Extensions<'_>,
    value: &Value,
) -> Result<Bundle, ReadFault>
    ensures ok { IfOk result (λ b. (x : Functions) → AgreesWith table.now x → bundle_read x (view value.now) ≡ Some (bundle_of x b)) }
    ensures unreadable { IfErr result (λ f. IsUnreadable table.now (λ x. bundle_read x (view value.now)) f) }
    ensures context_written { IfOk result (λ b. ByFairFunctions table.now (λ x. IsContextMadeWell x.table (request_of b.request).context)) }
    ensures store_written { IfOk result (λ b. ByFairFunctions table.now (λ x. IsStoreWritten x.table b.store)) }
{
    if !is_bundle(value) {
        return Err(ReadFault::Unreadable);
    }
    let submission = read_submission(alloc, value)?;
    let request = read_request(alloc, table, required(value, "request")?)?;
    let store = read_store(alloc, table, required(value, "store")?)?;
    let steps = optional_list(alloc, &Steps, table, value, "steps")?;
    Ok(Bundle {
        submission,
        request,
        store,
        steps,
    })
}

// Reads what is handed to the gate.
fn read_submission(alloc: Global, value: &Value) -> Result<Submission, ReadFault>
    ensures ok { IfOk result (λ s. (x : Functions) → submission_read x (view value.now) ≡ Some (submission_of x s)) }
    ensures unreadable { IfErr result (λ f. f ≡ Unreadable → (x : Functions) → submission_read x (view value.now) ≡ None) }
{
    let version = read_version(required(value, "version")?)?;
    let level = read_number(required(value, "level")?, 0, 4294967295)?;
    let limit = read_limit(required(value, "limit")?)?;
    let fragments = read_schema(alloc, required(value, "schema")?)?;
    let reader = PolicyReader::new(alloc, version)?;
    let policies = read_list(alloc, &reader, required(value, "policies")?)?;
    Ok(Submission {
        fragments,
        policies,
        level,
        limit,
    })
}

// Whether the value has the keys of a bundle alone.
fn is_bundle(value: &Value) -> bool
    ensures { result ≡ is_bundle (view value.now) }
{
    let keys = [
        "version", "level", "limit", "schema", "policies", "request", "store", "steps",
    ];
    has_only(value, &keys)
}

// Reads a version.
fn read_version(value: &Value) -> Result<Version, ReadFault>
    ensures ok { IfOk result (λ v. version_read (view value.now) ≡ Some (version_of v)) }
    ensures unreadable { IfErr result (λ f. (f ≡ Unreadable) × (version_read (view value.now) ≡ None)) }
{
    match value.as_u64() {
        Some(1) => Ok(Version::First),
        Some(2) => Ok(Version::Second),
        _ => Err(ReadFault::Unreadable),
    }
}

// Reads a limit on nesting.
fn read_limit(value: &Value) -> Result<NestLimit, ReadFault>
    ensures ok { IfOk result (λ limit. number_between 1 512 (view value.now) ≡ Some (levels_of limit)) }
    ensures unreadable { IfErr result (λ f. (f ≡ Unreadable) × (number_between 1 512 (view value.now) ≡ None)) }
{
    match NestLimit::new(read_number(value, 1, 512)?) {
        Some(limit) => Ok(limit),
        None => unreachable!(),
    }
}

// Reads a whole number from low to high.
fn read_number(value: &Value, low: u32, high: u32) -> Result<u32, ReadFault>
    ensures ok { IfOk result (λ n. number_between low high (view value.now) ≡ Some n) }
    ensures range { IfOk result (λ n. (low ≤ n) × (n ≤ high)) }
    ensures unreadable { IfErr result (λ f. (f ≡ Unreadable) × (number_between low high (view value.now) ≡ None)) }
{
    match value.as_u64() {
        Some(n) if u64::from(low) <= n && n <= u64::from(high) => Ok(n as u32),
        _ => Err(ReadFault::Unreadable),
    }
}
