//! Sessions as runs call them: each is at a state of a course.

ghost use Rattle.cedar_gate_sessions.specs.Courses.{Stands};
ghost use Rattle.cedar_gate_model.specs.RunsAnswer.{session_of};
ghost use Rattle.cedar_gate_sessions.specs.Sessions.{wanted_of, gate_of};

use crate::gates::GateCalls;
use crate::refusals::{refused_answer, refused_binding, refused_supply};
use crate::session::SessionAt;
use cedar_evaluator_requests::{Decision, Response};
use cedar_expr_names::EntityUID;
use cedar_expr_values::{ExtValue, Value};
use cedar_gate_runs::{Refusal, SessionCalls};
use cedar_store_entities::Entity;
use std::alloc::{AllocError, Global};
use std::rc::RcStr;

impl<'g, G: GateCalls> SessionCalls for SessionAt<'g, G> {
    ghost stands = { Stands G.suits G.accepted };

    ghost wants = { wanted_of };

    ghost makes_values = { λ c s d h. G.makes_values (gate_of d) (session_of c) h.at.setup.gate };

    fn level(&self) -> u32 {
        self.gate.level()
    }

    fn wanted(&self) -> &[EntityUID] {
        SessionAt::wanted(self)
    }

    fn supply(
        &mut self,
        alloc: Global,
        supplied: Vec<(EntityUID, Option<Entity>)>,
    ) -> Result<(), Refusal> {
        self.gate.schema_is();
        match SessionAt::supply(self, alloc, supplied) {
            Ok(()) => Ok(()),
            Err(fault) => Err(refused_supply(fault)),
        }
    }

    fn bind(&mut self, alloc: Global, name: RcStr, value: Value<ExtValue>) -> Result<(), Refusal> {
        match SessionAt::bind(self, alloc, name, value) {
            Ok(()) => Ok(()),
            Err(fault) => Err(refused_binding(fault)),
        }
    }

    fn decision(&self, alloc: Global) -> Result<Option<Decision>, AllocError> {
        SessionAt::decision(self, alloc)
    }

    fn answer(&self, alloc: Global) -> Result<Response, Refusal> {
        self.gate.schema_is();
        match SessionAt::answer(self, alloc) {
            Ok(response) => Ok(response),
            Err(fault) => Err(refused_answer(fault)),
        }
    }
}
