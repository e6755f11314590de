//! The validator of policies.

use crate::SchemaAndFunctions;
use cedar_expr_functions::Extensions;
use cedar_schema_built::ValidatorSchema;
use cedar_schema_joins::ValidationMode;
use cedar_store_parts::{PolicyID, SlotEnv, ValidationError, ValidationWarning};
use cedar_store_policies::{Policy, Template};
use cedar_typechecker_levels::EntityDerefLevel;
use cedar_typechecker_policies::{Validated, validate_policy_with_level};
use cedar_typechecker_scopes::{
    validate_action_ids, validate_entity_types, validate_entity_types_in_slots,
    validate_enum_entity, validate_linked_action_application, validate_template_action_application,
};
use std::alloc::{AllocError, Global};

/// A built schema and a table of extension functions, by which policies are validated.
#[derive(Drop)]
pub struct Validator<'s, 't, 'e> {
    alloc: Global,
    asked: SchemaAndFunctions<'s, 't, 'e>,
}

impl<'s, 't, 'e> Validator<'s, 't, 'e> {
    ghost use Rattle.std.specs.Prelude.{◌≡◌, IfOk};
    ghost use Rattle.cedar_expr_functions.specs.Tables.{table_of};
    ghost use Rattle.cedar_schema_built.specs.Views.{schema_kept};
    ghost use Rattle.cedar_schema_joins.specs.Modes.{mode_of};
    ghost use Rattle.cedar_schema_model.specs.Types.{strict};
    ghost use Rattle.cedar_store_parts.specs.Parts.{id_text, bindings_of};
    ghost use Rattle.cedar_store_policies.specs.Templates.{template_of};
    ghost use Rattle.cedar_typechecker.specs.Views.{schema_validated_by, table_validated_by};
    ghost use Rattle.cedar_typechecker_policies.specs.Validated.{HasErrors, HasWarnings, MeansTruthUnlessWrong, InReachUnlessWrong};
    ghost use Rattle.cedar_typechecker.specs.SchemaViews.{silent};
    ghost use Rattle.cedar_typechecker_scopes.specs.Warned.{WarnsOfTemplate, WarnsOfPolicy};
    ghost use Rattle.cedar_typechecker_scopes.specs.Faults.{known_types, known_actions, known_members, wrong_bound, Reports, ReportsRule};
    ghost use Rattle.cedar_typechecker_model.specs.Seen.{schema_seen, IsClosed};

    /// The validator of a schema with a table of extension functions. What the schema keeps has to be closed under descent: a law (`laws`)
    /// says that each schema that is built of fragments is.
    pub fn new(
        alloc: Global,
        schema: &'s ValidatorSchema,
        table: &'t Extensions<'e>,
    ) -> Result<Validator<'s, 't, 'e>, AllocError>
        requires { IsClosed (schema_kept schema.now) }
        ensures schema { IfOk result (λ v. schema_validated_by v ≡ schema_seen (schema_kept schema.entry.now)) }
        ensures table { IfOk result (λ v. table_validated_by v ≡ table_of table.entry.now silent) }
    {
        let asked = SchemaAndFunctions::new(alloc, schema, table)?;
        Ok(Validator { alloc, asked })
    }

    /// Reports each literal of an enumerated type that isn't a member of it, wherever it stands in the scope or the body.
    pub fn validate_enum_entity(
        &self,
        template: &Template,
    ) -> Result<Vec<ValidationError>, AllocError>
        ensures { IfOk result (ReportsRule (schema_validated_by self.now) known_members (template_of template.now)) }
    {
        validate_enum_entity(self.alloc, &self.asked, template)
    }

    /// Reports each entity type that is neither declared nor that of a declared action, of each literal and each `is` test, wherever they
    /// stand in the scope or the body.
    pub fn validate_entity_types(
        &self,
        template: &Template,
    ) -> Result<Vec<ValidationError>, AllocError>
        ensures { IfOk result (ReportsRule (schema_validated_by self.now) known_types (template_of template.now)) }
    {
        validate_entity_types(self.alloc, &self.asked, template)
    }

    /// Reports each literal of the type of a declared action that isn't a declared action, wherever it stands in the scope or the body.
    pub fn validate_action_ids(
        &self,
        template: &Template,
    ) -> Result<Vec<ValidationError>, AllocError>
        ensures { IfOk result (ReportsRule (schema_validated_by self.now) known_actions (template_of template.now)) }
    {
        validate_action_ids(self.alloc, &self.asked, template)
    }

    /// Reports what the three rules say of the uids that the slots of a policy are bound to: a type that isn't known, an action that isn't
    /// declared, and one that isn't a member of its enumerated type.
    pub fn validate_entity_types_in_slots(
        &self,
        policy_id: &PolicyID,
        slots: &SlotEnv,
    ) -> Result<Vec<ValidationError>, AllocError>
        ensures { IfOk result (Reports (id_text policy_id.now) (wrong_bound (schema_validated_by self.now) (bindings_of slots.now))) }
    {
        validate_entity_types_in_slots(self.alloc, &self.asked, policy_id, slots)
    }

    /// Warns where the scope fits no declared action with one of its principal types and one of its resource types. A slot fits any type.
    pub fn validate_template_action_application(
        &self,
        template: &Template,
    ) -> Result<Vec<ValidationWarning>, AllocError>
        ensures { IfOk result (WarnsOfTemplate (schema_validated_by self.now) template.now) }
    {
        validate_template_action_application(self.alloc, &self.asked, template)
    }

    /// Warns where the scope, with the uids that its slots are bound to in their place, fits no declared action with one of its principal
    /// types and one of its resource types.
    pub fn validate_linked_action_application(
        &self,
        policy: &Policy,
    ) -> Result<Vec<ValidationWarning>, AllocError>
        ensures { IfOk result (WarnsOfPolicy (schema_validated_by self.now) policy.now) }
    {
        validate_linked_action_application(self.alloc, &self.asked, policy)
    }

    /// What is wrong with the policy in a mode and at a level, and what is odd about it: what the scope passes report; what typing says; and
    /// each violation of the rules of levels, in each environment in which its condition has a type, with the level that it needs. Where
    /// nothing is wrong in the strict mode the condition means a truth value in every conforming request and store, or errs by a missing
    /// entity, an overflow, a zero divisor or a failed extension function, and every uid that is looked up then lies in the slice at the
    /// level or is a declared action.
    pub fn validate_policy_with_level(
        &self,
        p: &Template,
        mode: ValidationMode,
        max_deref_level: u32,
    ) -> Result<Validated, AllocError>
        ensures errors { IfOk result (HasErrors max_deref_level (mode_of mode) (schema_validated_by self.now) (table_validated_by self.now) p.now) }
        ensures warnings { IfOk result (HasWarnings (mode_of mode) (schema_validated_by self.now) (table_validated_by self.now) p.now) }
        ensures sound { mode_of mode ≡ strict → IfOk result (MeansTruthUnlessWrong (schema_validated_by self.now) (table_validated_by self.now) p.now) }
        ensures reach { mode_of mode ≡ strict → IfOk result (InReachUnlessWrong (schema_validated_by self.now) (table_validated_by self.now) max_deref_level p.now) }
    {
        let level = EntityDerefLevel::from(max_deref_level);
        validate_policy_with_level(self.alloc, &self.asked, mode, p, level)
    }
}
