//! What sessions ask of a gate.

ghost use Rattle.std.specs.Prelude.{◌≡◌, IfOk};
ghost use Rattle.cedar_gate.specs.Checks.{IsVerdict};
ghost use Rattle.cedar_gate.specs.Gates.{IsSetupOf, accepted_in, schema_at};

use crate::gate::Gate;
use cedar_evaluator_core::Evaluator;
use cedar_evaluator_requests::{Request, Response};
use cedar_expr_functions::Extensions;
use cedar_expr_names::EntityUID;
use cedar_gate_conforming::{ConformFault, actions, check_entity, check_request};
use cedar_gate_model::conforming_laws::what_is_kept_conforms_alike;
use cedar_gate_openings::{V, request_now};
use cedar_gate_sessions::{GateCalls, Schema, Verdict, respond, verdicts};
use cedar_gate_wanted::DeclaredActions;
use cedar_store_entities::{Entities, Entity};
use cedar_store_policies::Policy;
use cedar_typechecker_model::alike_laws::seen_schemas_answer_alike;
use std::alloc::{AllocError, Global};
use std::collections::HashMap;
use std::rc::RcStr;

// Whether nothing is wrong. Out of memory says nothing.
fn passes(found: Result<(), ConformFault>) -> Result<bool, AllocError>
    ensures { IfOk result (λ b. IsVerdict found b) }
{
    match found {
        Ok(()) => Ok(true),
        Err(ConformFault::OutOfMemory) => Err(AllocError),
        Err(ConformFault::Undeclared)
        | Err(ConformFault::NotListed)
        | Err(ConformFault::NoMember)
        | Err(ConformFault::LacksAttribute)
        | Err(ConformFault::UndeclaredAttribute)
        | Err(ConformFault::AttributeValue)
        | Err(ConformFault::Tag)
        | Err(ConformFault::Ancestor)
        | Err(ConformFault::Context)
        | Err(ConformFault::OpenPart) => Ok(false),
    }
}

impl DeclaredActions for Gate<'_, '_, '_> {
    ghost schema = { schema_at };

    fn declares_action(&self, uid: &EntityUID) -> bool {
        seen_schemas_answer_alike();
        self.schema.get_action_id(uid).is_some()
    }
}

impl Schema for Gate<'_, '_, '_> {
    fn actions(&self, alloc: Global) -> Result<Vec<Entity>, AllocError> {
        what_is_kept_conforms_alike();
        actions(alloc, self.schema())
    }

    fn entity_conforms(&self, entity: &Entity) -> bool {
        what_is_kept_conforms_alike();
        check_entity(self.schema(), entity).is_ok()
    }

    fn request_conforms(&self, _alloc: Global, request: &Request) -> Result<bool, AllocError> {
        what_is_kept_conforms_alike();
        passes(check_request(self.schema(), request))
    }
}

impl GateCalls for Gate<'_, '_, '_> {
    ghost accepted = { accepted_in };

    ghost suits = { IsSetupOf };

    ghost makes_values = { λ g x h. h.agrees.answered.values };

    fn schema_is(&self) {}

    fn policies(&self) -> &[Policy] {
        self.policies.as_slice()
    }

    fn level(&self) -> u32 {
        self.level
    }

    fn request_now(
        &self,
        alloc: Global,
        start: &Request,
        bound: &HashMap<RcStr, V>,
    ) -> Result<(Request, bool), AllocError> {
        request_now(alloc, self.table, start, bound)
    }

    fn verdicts(
        &self,
        alloc: Global,
        request: Request,
        store: &Entities,
        bound: &HashMap<RcStr, V>,
    ) -> Result<Vec<Verdict>, AllocError> {
        let evaluator: Evaluator<'_, Extensions<'_>> = Evaluator::new(
            request,
            store,
            self.table,
            self.limit.levels(),
        ).with_unknowns(bound);
        verdicts(alloc, &evaluator, self.policies.as_slice())
    }

    fn respond(
        &self,
        alloc: Global,
        request: Request,
        store: &Entities,
        bound: &HashMap<RcStr, V>,
    ) -> Result<Response, AllocError> {
        let evaluator: Evaluator<'_, Extensions<'_>> = Evaluator::new(
            request,
            store,
            self.table,
            self.limit.levels(),
        ).with_unknowns(bound);
        respond(alloc, &evaluator, self.policies.as_slice())
    }
}
