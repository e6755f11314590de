//! The gate.

ghost use Rattle.cedar_gate.specs.Handed.{AreAccepted};
ghost use Rattle.cedar_gate_accepted.specs.Alike.{IsKeptByTests};
ghost use Rattle.cedar_gate_fragments.specs.Written.{declared_by};
ghost use Rattle.cedar_schema_built.specs.Views.{schema_kept};
ghost use Rattle.cedar_schema_model.specs.Resolved.{schema_of};
ghost use Rattle.cedar_typechecker_model.specs.Seen.{ClosedByTests};

use cedar_expr_functions::Extensions;
use cedar_expr_leaves::RawName;
use cedar_gate_accepted::{GateFault, admitted_schema, judge, relevant};
use cedar_gate_model::laws::acceptance_is_decided;
use cedar_gate_rules::NestLimit;
use cedar_schema_built::ValidatorSchema;
use cedar_schema_decl::json_schema::Fragment;
use cedar_store_parts::{PolicyID, RequestType};
use cedar_store_policies::Policy;
use cedar_typechecker::SchemaAndFunctions;
use cedar_typechecker_model::alike_laws::{seen_schemas_answer_alike, verdicts_are_alike};
use std::alloc::{AllocError, Global};
use std::fmt;
use std::fmt::{Debug, Formatter, Write};

/// What the gate accepted: fragments of a schema with what is built of them, policies, extension functions, a level and a limit on
/// nesting; and the ids of the policies that it warns of.
#[derive(Drop)]
pub struct Gate<'f, 't, 'e> {
    pub(crate) fragments: &'f [Fragment<RawName>],
    pub(crate) schema: ValidatorSchema,
    pub(crate) policies: Vec<Policy>,
    pub(crate) table: &'t Extensions<'e>,
    pub(crate) level: u32,
    pub(crate) limit: NestLimit,
    pub(crate) warnings: Vec<PolicyID>,
    ghost closed: { ClosedByTests (schema_kept schema) },
    ghost kept: { IsKeptByTests (schema_of (declared_by fragments.now)) (schema_kept schema) },
    ghost accepted: { AreAccepted fragments.now policies.items table.now level limit },
}

impl Debug for Gate<'_, '_, '_> {
    fn fmt<W: Write>(&self, f: &mut Formatter<W>) -> fmt::Result {
        write!(
            f,
            "<Gate with {} policies at level {}>",
            self.policies.len(),
            self.level
        )
    }
}

impl<'f, 't, 'e> Gate<'f, 't, 'e> {
    ghost use Rattle.std.specs.Prelude.{◌≡◌, map, IfOk, IfErr, OnOk};
    ghost use Rattle.cedar_gate.specs.Gates.{IsOf, declared_in, schema_built, policies_held, table_held, level_held, limit_held, warned_of, WarnsOf};
    ghost use Rattle.cedar_gate.specs.Handed.{ForEachHandedIn};
    ghost use Rattle.cedar_gate_accepted.specs.Causes.{IsRefusedFor};
    ghost use Rattle.cedar_gate_model.specs.Acceptance.{IsAccepted, Submission, policies_for};
    ghost use Rattle.cedar_gate_accepted.specs.Checks.{kind_asked};
    ghost use Rattle.cedar_store_parts.specs.Parts.{id_text};

    /// The gate of what is handed in, where that breaks none of the acceptance rules.
    ///
    /// # Errors
    /// Out of memory, or a fault of what is handed in, by the first rule that is broken.
    pub fn accept(
        alloc: Global,
        fragments: &'f [Fragment<RawName>],
        policies: Vec<Policy>,
        table: &'t Extensions<'e>,
        level: u32,
        limit: NestLimit,
    ) -> Result<Gate<'f, 't, 'e>, GateFault>
        ensures accepted { ForEachHandedIn fragments.entry.now policies.items table.entry.now level limit (λ s. OnOk result (IsAccepted s)) }
        ensures warnings { ForEachHandedIn fragments.entry.now policies.items table.entry.now level limit (λ s. IfOk result (λ g. WarnsOf g s)) }
        ensures refused { ForEachHandedIn fragments.entry.now policies.items table.entry.now level limit (λ s. IfErr result (IsRefusedFor s)) }
        ensures declarations { IfOk result (λ g. declared_in g ≡ declared_by fragments.entry.now) }
        ensures policies { IfOk result (λ g. policies_held g ≡ policies.items) }
        ensures table { IfOk result (λ g. table_held g ≡ table.entry.now) }
        ensures level { IfOk result (λ g. level_held g ≡ level) }
        ensures limit { IfOk result (λ g. limit_held g ≡ limit) }
    {
        acceptance_is_decided();
        seen_schemas_answer_alike();
        let schema = admitted_schema(alloc, fragments, policies.as_slice(), table, limit)?;
        let warnings = judge(alloc, &schema, table, level, policies.as_slice())?;
        Ok(Gate {
            fragments,
            schema,
            policies,
            table,
            level,
            limit,
            warnings,
        })
    }

    /// The ids of the policies that it warns of: those that no request satisfies, in the order of the policies.
    pub fn warnings(&self) -> &[PolicyID]
        ensures { result.now ≡ warned_of self.now }
    {
        self.warnings.as_slice()
    }

    /// The schema, as it was built.
    pub fn schema(&self) -> &ValidatorSchema
        ensures { result.now ≡ schema_built self.now }
    {
        &self.schema
    }

    /// The policies.
    pub fn policies(&self) -> &[Policy]
        ensures { result.now ≡ policies_held self.now }
    {
        self.policies.as_slice()
    }

    /// The table of extension functions.
    pub fn table(&self) -> &'t Extensions<'e>
        ensures { result.now ≡ table_held self.now }
    {
        self.table
    }

    /// How many steps from the request policies may reach into the store.
    pub fn level(&self) -> u32
        ensures { result ≡ level_held self.now }
    {
        self.level
    }

    /// The limit on nesting.
    pub fn limit(&self) -> NestLimit
        ensures { result ≡ limit_held self.now }
    {
        self.limit
    }

    /// The ids of the policies that may decide a request of these types, in the order of the policies: those whose condition isn't
    /// False in each environment of these types that fits their bindings. Fails only when out of memory.
    pub fn policies_for(
        &self,
        alloc: Global,
        kind: &RequestType,
    ) -> Result<Vec<PolicyID>, AllocError>
        ensures { (s : Submission) → IsOf self.now s → IfOk result (λ ids. map id_text ids.items ≡ policies_for s (kind_asked kind.now)) }
    {
        seen_schemas_answer_alike();
        verdicts_are_alike();
        let asked = SchemaAndFunctions::new(alloc, &self.schema, self.table)?;
        relevant(alloc, &asked, kind, self.policies.as_slice())
    }
}
