//! What typing says of a policy.

ghost use Rattle.std.specs.Prelude.{◌≡◌, map, IfOk, OnOk, OnErr};
ghost use Rattle.std.specs.HashSet.{IsSameSet};
ghost use Rattle.std.specs.Set.{IsUnion};
ghost use Rattle.cedar_schema_joins.specs.Modes.{mode_of};
ghost use Rattle.cedar_schema_model.specs.Types.{strict};
ghost use Rattle.cedar_store_policies.specs.Templates.{template_of, template_loc};
ghost use Rattle.cedar_store_parts.specs.Views.{warning_of};
ghost use Rattle.cedar_typechecker_model.specs.Verdicts.{passes_in, is_warned};
ghost use Rattle.cedar_typechecker_policies.specs.Findings.{warned_as};
ghost use Rattle.cedar_typechecker_policies.specs.Validated.{GainsWarningOf, GainsErrorsBy, GainsWarningBy};
ghost use Rattle.cedar_typechecker_policies.specs.Sound.{PolicyMeansTruthIf};

use crate::findings::{PolicyFindings, check_template};
use crate::sets::add_all;
use cedar_schema_joins::ValidationMode;
use cedar_store_parts::{ValidationError, ValidationWarning};
use cedar_store_policies::Template;
use cedar_typechecker_scopes::SchemaEnvironments;
use std::alloc::{AllocError, Global};
use std::collections::HashSet;

// The warning of the policy, if it is warned of.
pub(crate) fn warning_for(
    alloc: Global,
    template: &Template,
    is_warned: bool,
) -> Result<Vec<ValidationWarning>, AllocError>
    ensures { IfOk result (λ ws. map warning_of ws.items ≡ warned_as (template_of template.now).id (template_loc template.now) is_warned) }
{
    let mut warnings = Vec::new(alloc);
    if is_warned {
        let policy_id = template.id().clone()?;
        let source_loc = template.loc();
        warnings.push(ValidationWarning::ImpossiblePolicy {
            policy_id,
            source_loc,
        })?;
        return Ok(warnings);
    }
    Ok(warnings)
}

// Puts what was found of the policy to the sets, and answers whether it passes. Room is made in both before either gains anything.
fn put_findings(
    alloc: Global,
    template: &Template,
    found: PolicyFindings,
    type_errors: &mut HashSet<ValidationError>,
    warnings: &mut HashSet<ValidationWarning>,
) -> Result<bool, AllocError>
    ensures passes { IfOk result (λ b. b ≡ found.passes) }
    ensures errors { OnOk result (IsUnion ⟦<ValidationError as PartialEq>⟧.eq type_errors.old.keys found.errors.items type_errors.new.keys) }
    ensures warnings { OnOk result (GainsWarningOf template.now found.is_warned warnings.old warnings.new) }
    ensures errors_kept { OnErr result (IsSameSet ⟦<ValidationError as PartialEq>⟧.eq type_errors.new type_errors.old) }
    ensures warnings_kept { OnErr result (IsSameSet ⟦<ValidationWarning as PartialEq>⟧.eq warnings.new warnings.old) }
{
    let PolicyFindings {
        passes,
        is_warned,
        is_impossible: _,
        errors,
        violations: _,
    } = found;
    let warned = warning_for(alloc, template, is_warned)?;
    type_errors.reserve(errors.len())?;
    warnings.reserve(warned.len())?;
    add_all(type_errors, errors);
    add_all(warnings, warned);
    Ok(passes)
}

/// Whether the policy passes in a mode: its condition is True, False or Bool in each of its environments. What is wrong with one that
/// doesn't pass is put to the errors. Where the condition is False in each environment a warning is put to the warnings. Out of memory
/// leaves both sets as they were. One that passes in the strict mode means a truth value in every conforming request and store, or errs
/// as expected.
pub fn typecheck_policy<S: SchemaEnvironments>(
    alloc: Global,
    schema: &S,
    mode: ValidationMode,
    template: &Template,
    type_errors: &mut HashSet<ValidationError>,
    warnings: &mut HashSet<ValidationWarning>,
) -> Result<bool, AllocError>
    ensures passes { IfOk result (λ b. b ≡ passes_in (mode_of mode) (S.schema schema.now) (S.table schema.now) (template_of template.now)) }
    ensures errors { OnOk result (GainsErrorsBy S.schema S.table schema.now (mode_of mode) template.now type_errors.old type_errors.new) }
    ensures warnings { OnOk result (GainsWarningBy S.schema S.table schema.now (mode_of mode) template.now warnings.old warnings.new) }
    ensures errors_kept { OnErr result (IsSameSet ⟦<ValidationError as PartialEq>⟧.eq type_errors.new type_errors.old) }
    ensures warnings_kept { OnErr result (IsSameSet ⟦<ValidationWarning as PartialEq>⟧.eq warnings.new warnings.old) }
    ensures sound { mode_of mode ≡ strict → IfOk result (PolicyMeansTruthIf (S.schema schema.now) (S.table schema.now) (template_of template.now)) }
{
    let found = check_template(alloc, schema, mode, template, None)?;
    put_findings(alloc, template, found, type_errors, warnings)
}
