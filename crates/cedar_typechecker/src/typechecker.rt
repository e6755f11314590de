//! The typechecker of policies.

use crate::SchemaAndFunctions;
use cedar_expr_functions::Extensions;
use cedar_schema_built::ValidatorSchema;
use cedar_schema_joins::ValidationMode;
use cedar_store_parts::{ValidationError, ValidationWarning};
use cedar_store_policies::Template;
use cedar_typechecker_environments::{RequestEnv, World};
use cedar_typechecker_policies::{PolicyCheck, RequestEnvChecks, check_in, typecheck_policy};
use std::alloc::{AllocError, Global};
use std::collections::HashSet;

/// A built schema, a mode, and a table of extension functions, in which policies are typed.
#[derive(Drop)]
pub struct Typechecker<'s, 't, 'e> {
    alloc: Global,
    asked: SchemaAndFunctions<'s, 't, 'e>,
    mode: ValidationMode,
}

impl<'s, 't, 'e> Typechecker<'s, 't, 'e> {
    ghost use Rattle.std.specs.Prelude.{◌≡◌, IfOk, OnOk, OnErr};
    ghost use Rattle.std.specs.HashSet.{IsSameSet};
    ghost use Rattle.cedar_expr_functions.specs.Tables.{table_of};
    ghost use Rattle.cedar_schema_built.specs.Views.{schema_kept};
    ghost use Rattle.cedar_schema_joins.specs.Modes.{mode_of};
    ghost use Rattle.cedar_schema_model.specs.Types.{strict};
    ghost use Rattle.cedar_store_policies.specs.Templates.{template_of};
    ghost use Rattle.cedar_typechecker.specs.Views.{schema_typed_by, table_typed_by, mode_typed_in, checks_left, schema_checked_by, table_checked_by, typed_in, passes_by, is_warned_by};
    ghost use Rattle.cedar_typechecker_environments.specs.Settings.{environment_of};
    ghost use Rattle.cedar_typechecker_model.specs.Verdicts.{policy_environments};
    ghost use Rattle.cedar_typechecker_policies.specs.Checks.{IsCheckOf, IsVerdictOn};
    ghost use Rattle.cedar_typechecker_policies.specs.Validated.{GainsErrorsOf, GainsWarningOf};
    ghost use Rattle.cedar_typechecker_policies.specs.Iterated.{mode_checked, policy_checked};
    ghost use Rattle.cedar_typechecker_policies.specs.Sound.{MeansTruthIfPassing, PolicyMeansTruthIf};
    ghost use Rattle.cedar_typechecker.specs.SchemaViews.{silent};
    ghost use Rattle.cedar_typechecker_model.specs.Seen.{schema_seen, IsClosed};

    /// The typechecker of a schema, in a mode, with a table of extension functions. What the schema keeps has to be closed under descent:
    /// a law (`laws`) says that each schema that is built of fragments is.
    pub fn new(
        alloc: Global,
        schema: &'s ValidatorSchema,
        mode: ValidationMode,
        table: &'t Extensions<'e>,
    ) -> Result<Typechecker<'s, 't, 'e>, AllocError>
        requires { IsClosed (schema_kept schema.now) }
        ensures schema { IfOk result (λ c. schema_typed_by c ≡ schema_seen (schema_kept schema.entry.now)) }
        ensures table { IfOk result (λ c. table_typed_by c ≡ table_of table.entry.now silent) }
        ensures mode { IfOk result (λ c. mode_typed_in c ≡ mode_of mode) }
    {
        let asked = SchemaAndFunctions::new(alloc, schema, table)?;
        Ok(Typechecker { alloc, asked, mode })
    }

    /// Whether the policy passes: its condition is True, False or Bool in each of its environments. What is wrong with one that doesn't
    /// pass is put to the errors. Where the condition is False in each environment a warning is put to the warnings. Out of memory leaves
    /// both sets as they were. One that passes in the strict mode means a truth value in every conforming request and store, or errs by a
    /// missing entity, an overflow, a zero divisor or a failed extension function.
    pub fn typecheck_policy(
        &self,
        t: &Template,
        type_errors: &mut HashSet<ValidationError>,
        warnings: &mut HashSet<ValidationWarning>,
    ) -> Result<bool, AllocError>
        ensures passes { IfOk result (λ b. b ≡ passes_by self.now t.now) }
        ensures errors { OnOk result (GainsErrorsOf t.now (passes_by self.now t.now) type_errors.old type_errors.new) }
        ensures warnings { OnOk result (GainsWarningOf t.now (is_warned_by self.now t.now) warnings.old warnings.new) }
        ensures errors_kept { OnErr result (IsSameSet ⟦<ValidationError as PartialEq>⟧.eq type_errors.new type_errors.old) }
        ensures warnings_kept { OnErr result (IsSameSet ⟦<ValidationWarning as PartialEq>⟧.eq warnings.new warnings.old) }
        ensures sound { mode_typed_in self.now ≡ strict → IfOk result (PolicyMeansTruthIf (schema_typed_by self.now) (table_typed_by self.now) (template_of t.now)) }
    {
        typecheck_policy(self.alloc, &self.asked, self.mode, t, type_errors, warnings)
    }

    /// The checks of the policy in its environments, one after the other, in any order. Each is made when it is asked for. Out of memory
    /// is an item of its own, and the last one.
    pub fn typecheck_by_request_env<'b>(
        &'b self,
        t: &'b Template,
    ) -> RequestEnvChecks<'b, SchemaAndFunctions<'s, 't, 'e>>
        ensures left { checks_left result ≡ policy_environments (schema_typed_by self.entry.now) (template_of t.entry.now) }
        ensures mode { mode_checked result ≡ mode_typed_in self.entry.now }
        ensures schema { schema_checked_by result ≡ schema_typed_by self.entry.now }
        ensures table { table_checked_by result ≡ table_typed_by self.entry.now }
        ensures template { policy_checked result ≡ template_of t.entry.now }
    {
        RequestEnvChecks::new(self.alloc, &self.asked, self.mode, t)
    }

    /// What typing says of the policy in the environment: that it passes, that it passes and is irrelevant for requests of the
    /// environment's types, or that it fails, and why. One that passes in the strict mode means a truth value in a request and a store that
    /// conform to the environment, or errs by a missing entity, an overflow, a zero divisor or a failed extension function.
    pub fn typecheck_by_single_request_env(
        &self,
        t: &Template,
        request_env: &RequestEnv,
    ) -> Result<PolicyCheck, AllocError>
        ensures verdict { IfOk result (IsVerdictOn (typed_in self.now (environment_of request_env.now)) (template_of t.now)) }
        ensures says { IfOk result (IsCheckOf (typed_in self.now (environment_of request_env.now)) (template_of t.now)) }
        ensures sound { mode_typed_in self.now ≡ strict → IfOk result (MeansTruthIfPassing (typed_in self.now (environment_of request_env.now)) (template_of t.now)) }
    {
        let world = World {
            schema: &self.asked,
            mode: self.mode,
            env: request_env,
        };
        check_in(self.alloc, &world, t)
    }
}
