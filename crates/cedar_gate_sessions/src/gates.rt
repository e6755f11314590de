//! What sessions ask of the gate that they borrow.

ghost use Rattle.std.specs.Prelude.{◌≡◌, true, false, List, IfOk, map};
ghost use Rattle.cedar_schema_model.specs.Conforming.{entity_conforms, request_conforms};
ghost use Rattle.cedar_store_entities.specs.Views.{entity_uid, entity_of, entity_pair};
ghost use Rattle.cedar_store_model.specs.Policy.{Policy as ModelPolicy};
ghost use Rattle.cedar_store_policies.specs.Policies.{policy_of};
ghost use Rattle.cedar_evaluator_model.specs.OfLaws.WellMade.{MakeValues};
ghost use Rattle.cedar_evaluator_requests.specs.Views.{request_of};
ghost use Rattle.cedar_gate_model.specs.Session.{Setup};
ghost use Rattle.cedar_gate_openings.specs.Bound.{IsRequestBy, ContextFailsBy, ContextEvaluatesBy};
ghost use Rattle.cedar_gate_sessions.specs.Gates.{ForEachSetup, WhereKnown, AnswersDistinct};
ghost use Rattle.cedar_gate_sessions.specs.Loaded.{HasActions};
ghost use Rattle.cedar_gate_sessions.specs.Requests.{known_request};
ghost use Rattle.cedar_gate_sessions.specs.Verdicts.{verdicts_of};

use crate::Verdict;
use cedar_evaluator_requests::{Request, Response};
use cedar_gate_openings::V;
use cedar_gate_wanted::DeclaredActions;
use cedar_store_entities::{Entities, Entity};
use cedar_store_policies::Policy;
use std::alloc::{AllocError, Global};
use std::collections::HashMap;
use std::rc::RcStr;

/// What a schema is asked by sessions.
pub trait Schema: DeclaredActions {
    /// The declared actions as entities, each once. Fails only when out of memory.
    fn actions(&self, alloc: Global) -> Result<Vec<Entity>, AllocError>
        ensures { IfOk result (λ es. HasActions (Self.schema self.now) (map entity_pair es.items)) };

    /// Whether the entity conforms to the schema.
    fn entity_conforms(&self, entity: &Entity) -> bool
        ensures { result ≡ entity_conforms (Self.schema self.now) (entity_uid entity.now) (entity_of entity.now) };

    /// Whether the request conforms to the schema: all of it is known, and fits its action. Fails only when out of memory.
    fn request_conforms(&self, alloc: Global, request: &Request) -> Result<bool, AllocError>
        ensures { IfOk result (λ b. b ≡ request_conforms (Self.schema self.now) (known_request (request_of request.now))) };
}

/// What a gate is asked by its sessions beside its schema: its policies and its level, and what calls its extension functions.
pub trait GateCalls: Schema {
    /// The policies that it accepted.
    ghost accepted: { Self → List ModelPolicy };
    /// The setup is one of this gate: its schema, level and limit are the gate's, and the gate's table agrees with its functions.
    ghost suits: { Self → Setup → Type 0 };

    /// The schema of each such setup is the gate's. The body does nothing.
    fn schema_is(&self)
        ensures { (x : Setup) → suits self.now x → Self.schema self.now ≡ x.schema };

    /// The policies.
    fn policies(&self) -> &[Policy]
        ensures { map policy_of result.now ≡ accepted self.now };

    /// How many steps from the request policies may reach into the store.
    fn level(&self) -> u32
        ensures { (x : Setup) → suits self.now x → result ≡ x.level };

    /// The request with what is bound to its names, and whether its context fails to evaluate with that. Fails only when out of memory.
    fn request_now(
        &self,
        alloc: Global,
        start: &Request,
        bound: &HashMap<RcStr, V>,
    ) -> Result<(Request, bool), AllocError>
        ensures at_state { IfOk result (λ r. ForEachSetup suits self.now (λ x. IsRequestBy x.functions bound.now start.now r.0)) }
        ensures fails { IfOk result (λ r. ForEachSetup suits self.now (λ x. r.1 ≡ true → ContextFailsBy x.functions bound.now start.now)) }
        ensures evaluates { IfOk result (λ r. ForEachSetup suits self.now (λ x. r.1 ≡ false → ContextEvaluatesBy x.functions bound.now start.now)) };

    /// What is left of each policy by what is known, in their order. Fails only when out of memory.
    fn verdicts(
        &self,
        alloc: Global,
        request: Request,
        store: &Entities,
        bound: &HashMap<RcStr, V>,
    ) -> Result<Vec<Verdict>, AllocError>
        ensures { IfOk result (λ vs. WhereKnown suits self.now request store.now bound.now (λ s n. vs.items ≡ verdicts_of s n (accepted self.now))) };

    /// The answer by what is known, where each residual counts as an error. Fails only when out of memory.
    fn respond(
        &self,
        alloc: Global,
        request: Request,
        store: &Entities,
        bound: &HashMap<RcStr, V>,
    ) -> Result<Response, AllocError>
        ensures { IfOk result (λ r. WhereKnown suits self.now request store.now bound.now (λ s n. AnswersDistinct s n (accepted self.now) r)) };

    /// The functions of such a setup make values.
    ghost makes_values: { (g : Self) (x : Setup) → suits g x → MakeValues x.functions.calls };
}
