//! The checks of a policy in its environments, one after the other.

ghost use Rattle.std.specs.Prelude.{◌≡◌, [], true, false, OnOk, OnErr, IfOk};

use crate::check::{PolicyCheck, check_said};
use cedar_schema_joins::ValidationMode;
use cedar_store_policies::Template;
use cedar_typechecker_environments::{RequestEnv, World};
use cedar_typechecker_scopes::{SchemaEnvironments, policy_environments};
use std::alloc::{AllocError, Global};
use std::iter::Iterator;

/// The checks of a policy in its environments, one after the other, in any order. Each is made when it is asked for. Out of memory is an
/// item of its own, and the last one.
#[derive(Drop)]
pub struct RequestEnvChecks<'b, S> {
    alloc: Global,
    schema: &'b S,
    mode: ValidationMode,
    template: &'b Template,
    is_begun: bool,
    envs: Vec<RequestEnv>,
}

impl<'b, S: SchemaEnvironments> RequestEnvChecks<'b, S> {
    ghost use Rattle.cedar_store_policies.specs.Templates.{template_of};
    ghost use Rattle.cedar_typechecker_environments.specs.Settings.{environment_of};
    ghost use Rattle.cedar_typechecker_model.specs.Verdicts.{policy_environments};
    ghost use Rattle.cedar_schema_joins.specs.Modes.{mode_of};
    ghost use Rattle.cedar_typechecker_policies.specs.Iterated.{environments_left, mode_checked, policy_checked, schema_checked, table_checked, ChecksTheSame};

    /// The checks of the policy. None is made yet.
    pub fn new(
        alloc: Global,
        schema: &'b S,
        mode: ValidationMode,
        template: &'b Template,
    ) -> RequestEnvChecks<'b, S>
        ensures left { environments_left S.schema S.table result ≡ policy_environments (S.schema schema.entry.now) (template_of template.entry.now) }
        ensures mode { mode_checked result ≡ mode_of mode }
        ensures schema { schema_checked S.schema result ≡ S.schema schema.entry.now }
        ensures table { table_checked S.table result ≡ S.table schema.entry.now }
        ensures template { policy_checked result ≡ template_of template.entry.now }
    {
        RequestEnvChecks {
            alloc,
            schema,
            mode,
            template,
            is_begun: false,
            envs: Vec::new(alloc),
        }
    }

    // Makes the environments, if they aren't made yet.
    fn begin(&mut self) -> Result<(), AllocError>
        ensures left { OnOk result (environments_left S.schema S.table self.new ≡ environments_left S.schema S.table self.old) }
        ensures begun { OnOk result (self.new.is_begun ≡ true) }
        ensures unbegun { OnErr result (self.old.is_begun ≡ false) }
        ensures others { ChecksTheSame S.schema S.table self.old self.new }
    {
        if self.is_begun {
            return Ok(());
        }
        self.envs = policy_environments(self.alloc, self.schema, self.template)?;
        self.is_begun = true;
        Ok(())
    }

    // Leaves no environment.
    fn end(&mut self)
        ensures left { environments_left S.schema S.table self.new ≡ [] }
        ensures begun { self.new.is_begun ≡ true }
        ensures envs { self.new.envs.items ≡ [] }
        ensures others { ChecksTheSame S.schema S.table self.old self.new }
    {
        self.envs.clear();
        self.is_begun = true;
    }
}

impl<'b, S: SchemaEnvironments> RequestEnvChecks<'b, S> {
    ghost use Rattle.cedar_typechecker_environments.specs.Settings.{environment_of};
    ghost use Rattle.cedar_typechecker_policies.specs.Iterated.{IsCheckIn};

    // The check in the environment.
    fn check(&self, env: &RequestEnv) -> Result<PolicyCheck, AllocError>
        ensures { IfOk result (IsCheckIn S.schema S.table self.now (environment_of env.now)) }
    {
        let world = World {
            schema: self.schema,
            mode: self.mode,
            env,
        };
        check_said(self.alloc, &world, self.template)
    }
}

impl<'b, S: SchemaEnvironments> Iterator for RequestEnvChecks<'b, S> {
    type Item = Result<(RequestEnv, PolicyCheck), AllocError>;

    ghost use Rattle.std.specs.Iterator.{at_most};
    ghost use Rattle.cedar_typechecker_policies.specs.Iterated.{items_to_come, NextCheck};

    ghost next_gives = { NextCheck S.schema S.table };

    ghost remaining = { λ s. at_most (items_to_come S.schema S.table s) };

    fn next(&mut self) -> Option<Result<(RequestEnv, PolicyCheck), AllocError>> {
        if let Err(e) = self.begin() {
            self.end();
            return Some(Err(e));
        }
        let env = self.envs.pop()?;
        match self.check(&env) {
            Ok(check) => Some(Ok((env, check))),
            Err(e) => {
                self.end();
                Some(Err(e))
            }
        }
    }
}
