//! Which faults there are, by the gate's own checks of each rule.

ghost use Rattle.std.specs.Prelude.{◌≡◌, ◌&&◌, true, false, IfOk, OnOk};
ghost use Rattle.std.specs.List.{list_all};
ghost use Rattle.cedar_expr_model.specs.Lists.{is_nil};
ghost use Rattle.cedar_gate_accepted.specs.Causes.{IsRefusedFor};
ghost use Rattle.cedar_gate_accepted.specs.Checked.{IsTypedBy, IsTypedWith};
ghost use Rattle.cedar_gate_accepted.specs.Handed.{HasPolicies, IsSeenBy, IsHandedOver};
ghost use Rattle.cedar_gate_fragments.specs.Written.{declared_by};
ghost use Rattle.cedar_gate_model.specs.Acceptance.{Submission, has_schema};
ghost use Rattle.cedar_gate_rules.specs.Limit.{levels_of};
ghost use Rattle.cedar_gate_rules.specs.Policies.{policies_of};
ghost use Rattle.cedar_schema_built.specs.Views.{schema_kept};
ghost use Rattle.cedar_store_policies.specs.Policies.{policy_of};
ghost use Rattle.cedar_typechecker_model.specs.Seen.{IsClosed};
ghost use Rattle.cedar_typechecker_model.specs.Verdicts.{passes, policy_violations};
ghost use Rattle.cedarcheck.specs.Faults.{HasNumber, HasNumbers, KeepsNumbers};

use crate::external::declare_external;
use cedar_expr_functions::Extensions;
use cedar_expr_leaves::RawName;
use cedar_gate_accepted::{GateFault, declared_schema};
use cedar_gate_rules::{
    NestLimit, are_linked, ids_are_distinct, keep_slots_in_scope, name_known_actions,
    name_known_members, name_known_types, nest_within, stand_without_unknowns,
};
use cedar_schema_built::ValidatorSchema;
use cedar_schema_decl::json_schema::Fragment;
use cedar_schema_joins::ValidationMode;
use cedar_schema_model::decl_laws::declarations_are_decided;
use cedar_store_policies::{Policy, Template};
use cedar_typechecker::SchemaAndFunctions;
use cedar_typechecker_levels::EntityDerefLevel;
use cedar_typechecker_model::alike_laws::{
    levels_are_alike, scope_rules_are_alike, seen_schemas_answer_alike, verdicts_are_alike,
};
use cedar_typechecker_policies::{PolicyFindings, Subject, check_policy};
use cedar_typechecker_scopes::{SchemaEnvironments, ScopeSchema};
use std::alloc::{AllocError, Global};

// Adds the number of a fault, unless what is handed in is clear of it.
fn add_unless(numbers: &mut Vec<u32>, is_clear: bool, number: u32) -> Result<(), AllocError>
    ensures { (s : Submission) → (is_clear ≡ false → HasNumber s number) → OnOk result (KeepsNumbers s numbers.old.items numbers.new.items) }
{
    if is_clear {
        return Ok(());
    }
    numbers.push(number)?;
    Ok(())
}

// Adds the faults by the rules that ask no schema: of ids, slots, unknowns and nesting.
fn add_plain(
    alloc: Global,
    policies: &[Policy],
    limit: NestLimit,
    numbers: &mut Vec<u32>,
) -> Result<(), AllocError>
    ensures { (s : Submission) → HasPolicies (policies_of policies.now) (levels_of limit) s → OnOk result (KeepsNumbers s numbers.old.items numbers.new.items) }
{
    let are_distinct = ids_are_distinct(alloc, policies)?;
    add_unless(numbers, are_distinct, 3)?;
    add_unless(numbers, are_linked(policies), 4)?;
    let keep_slots = keep_slots_in_scope(alloc, policies)?;
    add_unless(numbers, keep_slots, 5)?;
    add_unless(numbers, stand_without_unknowns(policies), 6)?;
    add_unless(numbers, nest_within(policies, limit.levels()), 7)?;
    Ok(())
}

// Adds the faults by the scope rules: of entity types, actions and members.
fn add_named<S: ScopeSchema>(
    alloc: Global,
    schema: &S,
    policies: &[Policy],
    numbers: &mut Vec<u32>,
) -> Result<(), AllocError>
    ensures { (s : Submission) → IsSeenBy (S.schema schema.now) (policies_of policies.now) s → has_schema s ≡ true → OnOk result (KeepsNumbers s numbers.old.items numbers.new.items) }
{
    scope_rules_are_alike();
    let name_types = name_known_types(alloc, schema, policies)?;
    add_unless(numbers, name_types, 8)?;
    let name_actions = name_known_actions(alloc, schema, policies)?;
    add_unless(numbers, name_actions, 9)?;
    let name_members = name_known_members(alloc, schema, policies)?;
    add_unless(numbers, name_members, 10)?;
    Ok(())
}

// What typing, in the strict way, and levels say of the policy.
fn findings_of<S: SchemaEnvironments>(
    alloc: Global,
    schema: &S,
    level: u32,
    policy: &Policy,
) -> Result<PolicyFindings, AllocError>
    ensures typed { IfOk result (λ f. f.passes ≡ passes (S.schema schema.now) (S.table schema.now) (policy_of policy.now)) }
    ensures near { IfOk result (λ f. is_nil f.violations.items ≡ is_nil (policy_violations level (S.schema schema.now) (S.table schema.now) (policy_of policy.now))) }
{
    let template: &Template = policy.template();
    let level = EntityDerefLevel::from(level);
    let subject = Subject {
        id: policy.id(),
        template,
        bound: policy.env(),
        level: Some(level),
    };
    check_policy(alloc, schema, ValidationMode::Strict, &subject)
}

// Whether each of these policies passes.
fn all_pass<S: SchemaEnvironments>(
    alloc: Global,
    schema: &S,
    policies: &[Policy],
) -> Result<bool, AllocError>
    ensures { IfOk result (λ b. b ≡ list_all (passes (S.schema schema.now) (S.table schema.now)) (policies_of policies.now)) }
{
    for policy in policies {
        let found = findings_of(alloc, schema, 0, policy)?;
        if !found.passes {
            return Ok(false);
        }
    }
    Ok(true)
}

// Whether none of these policies reaches further than the level.
fn all_are_near<S: SchemaEnvironments>(
    alloc: Global,
    schema: &S,
    level: u32,
    policies: &[Policy],
) -> Result<bool, AllocError>
    ensures { IfOk result (λ b. b ≡ list_all (λ p. is_nil (policy_violations level (S.schema schema.now) (S.table schema.now) p)) (policies_of policies.now)) }
{
    for policy in policies {
        let found = findings_of(alloc, schema, level, policy)?;
        if !found.violations.is_empty() {
            return Ok(false);
        }
    }
    Ok(true)
}

// Adds the faults of typing and of levels.
fn add_typed<S: SchemaEnvironments>(
    alloc: Global,
    schema: &S,
    level: u32,
    policies: &[Policy],
    numbers: &mut Vec<u32>,
) -> Result<(), AllocError>
    ensures { (s : Submission) → IsTypedBy (S.schema schema.now) (S.table schema.now) (policies_of policies.now) level s → has_schema s ≡ true → OnOk result (KeepsNumbers s numbers.old.items numbers.new.items) }
{
    verdicts_are_alike();
    levels_are_alike();
    let pass = all_pass(alloc, schema, policies)?;
    add_unless(numbers, pass, 11)?;
    let are_near = all_are_near(alloc, schema, level, policies)?;
    add_unless(numbers, are_near, 12)?;
    Ok(())
}

// Adds the faults of policies against a built schema.
fn add_against(
    alloc: Global,
    schema: &ValidatorSchema,
    table: &Extensions<'_>,
    level: u32,
    policies: &[Policy],
    numbers: &mut Vec<u32>,
) -> Result<(), AllocError>
    requires { IsClosed (schema_kept schema.now) }
    ensures { (s : Submission) → IsTypedWith schema.now table.now policies.now level s → has_schema s ≡ true → OnOk result (KeepsNumbers s numbers.old.items numbers.new.items) }
{
    let asked = SchemaAndFunctions::new(alloc, schema, table)?;
    add_named(alloc, &asked, policies, numbers)?;
    add_typed(alloc, &asked, level, policies, numbers)?;
    Ok(())
}

// Adds the fault that makes the declarations ill-formed, if the gate refuses them by one.
fn add_ill_formed(fault: &GateFault, numbers: &mut Vec<u32>) -> Result<(), AllocError>
    ensures { (s : Submission) → IsRefusedFor s fault.now → OnOk result (KeepsNumbers s numbers.old.items numbers.new.items) }
{
    match fault {
        GateFault::OutOfMemory => Err(AllocError),
        GateFault::Schema(_) => {
            add_unless(numbers, false, 1)?;
            Ok(())
        }
        _ => Ok(()),
    }
}

// Adds the faults of the declarations, which the gate refuses by this one.
fn add_declared(
    fragments: &[Fragment<RawName>],
    fault: &GateFault,
    numbers: &mut Vec<u32>,
) -> Result<(), AllocError>
    ensures { (s : Submission) → s.declarations ≡ declared_by fragments.now → IsRefusedFor s fault.now → OnOk result (KeepsNumbers s numbers.old.items numbers.new.items) }
{
    add_ill_formed(fault, numbers)?;
    let is_complete = !declare_external(fragments);
    add_unless(numbers, is_complete, 2)?;
    Ok(())
}

/// The numbers of the faults of what is handed to the gate. Fails only when out of memory.
pub fn fault_numbers(
    alloc: Global,
    fragments: &[Fragment<RawName>],
    policies: &[Policy],
    table: &Extensions<'_>,
    level: u32,
    limit: NestLimit,
) -> Result<Vec<u32>, AllocError>
    ensures { (s : Submission) → IsHandedOver fragments.now policies.now table.now limit s → s.level ≡ level → IfOk result (λ ns. HasNumbers s ns.items) }
{
    seen_schemas_answer_alike();
    declarations_are_decided();
    let mut numbers = Vec::new(alloc);
    match declared_schema(alloc, fragments, table) {
        Ok(schema) => {
            add_plain(alloc, policies, limit, &mut numbers)?;
            add_against(alloc, &schema, table, level, policies, &mut numbers)?;
            Ok(numbers)
        }
        Err(fault) => {
            add_declared(fragments, &fault, &mut numbers)?;
            add_plain(alloc, policies, limit, &mut numbers)?;
            Ok(numbers)
        }
    }
}
