//! What runs call of sessions.

ghost use Rattle.std.specs.Prelude.{◌≡◌, List, IfOk, IfErr, OnOk, map, option_map};
ghost use Rattle.std.specs.Rc.{rc_str_bytes};
ghost use Rattle.cedar_expr_names.specs.Views.{uid_of};
ghost use Rattle.cedar_expr_model.specs.Uid.{Uid};
ghost use Rattle.cedar_expr_values.specs.Extensions.{extension_of};
ghost use Rattle.cedar_expr_values.specs.Values.{made};
ghost use Rattle.cedar_evaluator_model.specs.OfLaws.WellMade.{MakeValues};
ghost use Rattle.cedar_evaluator_requests.specs.Views.{decision_of, answer_of};
ghost use Rattle.cedar_gate_model.specs.RunsAnswer.{Course, session_of};
ghost use Rattle.cedar_gate_model.specs.Session.{State, IsWantedList};
ghost use Rattle.cedar_gate_runs.specs.Courses.{DecidesCourse, TakesSupply, TakesBinding, GivesAnswer, answer_in};
ghost use Rattle.cedar_gate_runs.specs.States.{AtEachState, IsAfterSupply, IsAfterBinding, SupplyRefused, BindingRefused, AnswerRefused};
ghost use Rattle.cedar_gate_runs.specs.Supplies.{supplied_of};

use cedar_evaluator_requests::{Decision, Response};
use cedar_expr_names::EntityUID;
use cedar_expr_values::{ExtValue, Value};
use cedar_store_entities::Entity;
use std::alloc::{AllocError, Global};
use std::rc::RcStr;

/// Why a call of a session is refused.
#[derive(Clone, Copy, Debug, PartialEq, Eq)]
pub enum Refusal {
    /// Out of memory.
    OutOfMemory,
    /// A refusal, by its number.
    Numbered(u32),
}

/// What a run calls of a session, which stands at a state of a course.
pub trait SessionCalls {
    /// The session stands at this state of this course.
    ghost stands: { Course → State → Self → Type 0 };
    /// The uids that are wanted.
    ghost wants: { Self → List Uid };

    /// The level.
    fn level(&self) -> u32
        ensures { AtEachState stands self.now (λ c _. c.submission.level ≡ result) };

    /// The uids that are wanted now, in their order.
    fn wanted(&self) -> &[EntityUID]
        ensures wanted { map uid_of result.now ≡ wants self.now }
        ensures exact { AtEachState stands self.now (λ c s. IsWantedList (session_of c) s (wants self.now)) };

    /// Takes in what is wanted, each uid with its entity or without one.
    ///
    /// # Errors
    ///
    /// The refusal, by its number; or out of memory.
    fn supply(
        &mut self,
        alloc: Global,
        supplied: Vec<(EntityUID, Option<Entity>)>,
    ) -> Result<(), Refusal>
        ensures at { OnOk result (IsAfterSupply stands wants self.old self.new supplied.items) }
        ensures taken { OnOk result (AtEachState stands self.old (λ c s. TakesSupply c s (supplied_of supplied.items))) }
        ensures refused { IfErr result (λ r. AtEachState stands self.old (SupplyRefused supplied.items r)) };

    /// Binds an open name to a value.
    ///
    /// # Errors
    ///
    /// The refusal, by its number; or out of memory.
    fn bind(&mut self, alloc: Global, name: RcStr, value: Value<ExtValue>) -> Result<(), Refusal>
        ensures at { OnOk result (IsAfterBinding stands self.old self.new (rc_str_bytes name) (made extension_of value)) }
        ensures taken { OnOk result (AtEachState stands self.old (λ c s. TakesBinding c s (rc_str_bytes name) (made extension_of value))) }
        ensures refused { IfErr result (λ r. AtEachState stands self.old (BindingRefused (rc_str_bytes name) (made extension_of value) r)) };

    /// The decision that is known by now, if one is. Fails only when out of memory.
    fn decision(&self, alloc: Global) -> Result<Option<Decision>, AllocError>
        ensures { IfOk result (λ d. AtEachState stands self.now (λ c s. DecidesCourse c s (option_map decision_of d))) };

    /// The answer over the whole store.
    ///
    /// # Errors
    ///
    /// The refusal, by its number; or out of memory.
    fn answer(&self, alloc: Global) -> Result<Response, Refusal>
        ensures answer { IfOk result (λ r. AtEachState stands self.now (λ c s. answer_of r ≡ answer_in c s)) }
        ensures given { OnOk result (AtEachState stands self.now GivesAnswer) }
        ensures refused { IfErr result (λ r. AtEachState stands self.now (AnswerRefused r)) };

    /// The functions of its course make values.
    ghost makes_values: { (c : Course) (s : State) (d : Self) → stands c s d → MakeValues c.functions.calls };
}
