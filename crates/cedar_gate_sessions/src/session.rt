//! Sessions.

ghost use Rattle.std.specs.Prelude.{◌≡◌, IfOk, IfErr, OnOk, OnErr, option_map};
ghost use Rattle.std.specs.Rc.{rc_str_bytes};
ghost use Rattle.cedar_expr_values.specs.Extensions.{extension_of};
ghost use Rattle.cedar_expr_values.specs.Values.{made};
ghost use Rattle.cedar_evaluator_requests.specs.Views.{request_of, decision_of, answer_of};
ghost use Rattle.cedar_gate_openings.specs.Faults.{opens, IsOpenFault};
ghost use Rattle.cedar_gate_sessions.specs.Bounds.{bounds_of};
ghost use Rattle.cedar_gate_wanted.specs.Rows.{uids};
ghost use Rattle.cedar_gate_model.specs.Early.{KeepsDecision, KeepsBounds};
ghost use Rattle.cedar_gate_model.specs.Session.{Setup, at_start, IsWantedList};
ghost use Rattle.cedar_gate_sessions.specs.Courses.{Stands, InEachCourseOf, InEachCourse, InEachFairCourse, InEachAdmittedCourse, WhereAnswerable};
ghost use Rattle.cedar_gate_runs.specs.Courses.{DecidesCourse, answer_in};
ghost use Rattle.cedar_gate_sessions.specs.Entities.{supplied_of};
ghost use Rattle.cedar_gate_sessions.specs.Faults.{IsFitSupply, IsSupplyFaultBy, IsFitBinding};
ghost use Rattle.cedar_gate_sessions.specs.Known.{AreVerdictsAt, IsDecisionAt, AreBoundsAt};
ghost use Rattle.cedar_gate_sessions.specs.Refused.{IsRefusedBinding, HasAnswer, IsRefusedAnswer};
ghost use Rattle.cedar_gate_sessions.specs.Sessions.{IsSetup, IsAt, IsSameSession, IsAfterSupply, IsAfterBinding, AtEachState, EvaluatesWith, gate_of, wanted_of, start_of, bound_by};

use crate::bound::{add_known_roots, put_value, request_bound, take_value};
use crate::entities::{first_store, whole_store};
use crate::faults::{AnswerFault, SupplyFault};
use crate::gates::GateCalls;
use crate::laws::{accepted_policies_are_fit, answers_are_the_meaning, decisions_may_be_given};
use crate::supplied::{are_right, parted, take_in};
use crate::{Bounds, Verdict, bounded, decided};
use cedar_evaluator_requests::{Decision, Request, Response};
use cedar_expr_names::EntityUID;
use cedar_gate_model::early_laws::{bounds_are_kept, decisions_are_kept};
use cedar_gate_openings::laws::{a_binding_is_more, roots_are_known};
use cedar_gate_openings::{
    BindFault, OpenFault, V, check_names, check_value, context_is_made, has_open, is_open,
};
use cedar_gate_wanted::Loading;
use cedar_store_entities::laws::uids_are_uids;
use cedar_store_entities::{Entities, Entity};
use std::alloc::{AllocError, Global};
use std::collections::HashMap;
use std::fmt;
use std::fmt::{Debug, Formatter, Write};
use std::rc::RcStr;

/// One request at a gate, which it borrows, over a store that is loaded round by round.
#[derive(Drop)]
pub struct SessionAt<'g, G> {
    pub(crate) gate: &'g G,
    start: Request,
    now: Request,
    bound: HashMap<RcStr, V>,
    loading: Loading,
    loaded: Entities,
}

impl<G> Debug for SessionAt<'_, G> {
    fn fmt<W: Write>(&self, f: &mut Formatter<W>) -> fmt::Result {
        write!(
            f,
            "<Session with principal = {:?}, action = {:?}, resource = {:?}, {} uids wanted>",
            self.now.principal(),
            self.now.action(),
            self.now.resource(),
            self.loading.wanted().len()
        )
    }
}

impl<'g, G: GateCalls> SessionAt<'g, G> {
    /// A session of this request at the gate. It is at the start of each course of this request there.
    ///
    /// # Errors
    ///
    /// 1 the name of an unknown in the context holds a double quote, 2 it is that of a variable; or out of memory.
    pub fn open(alloc: Global, gate: &'g G, request: Request) -> Result<SessionAt<'g, G>, OpenFault>
        ensures gate { IfOk result (λ e. gate_of e ≡ gate.entry.now) }
        ensures at { IfOk result (λ e. (x : Setup) → IsSetup G.suits x gate.entry.now request → IsAt G.suits x at_start e) }
        ensures stands { IfOk result (λ e. InEachCourseOf G.suits G.accepted gate.entry.now request (λ c. Stands G.suits G.accepted c at_start e)) }
        ensures opens { OnOk result (opens (request_of request)) }
        ensures refused { IfErr result (IsOpenFault (request_of request)) }
    {
        check_names(alloc, &request)?;
        context_is_made(&request);
        roots_are_known();
        gate.schema_is();
        let bound = HashMap::new(alloc);
        let (now, _) = gate.request_now(alloc, &request, &bound)?;
        let mut loading = Loading::new(alloc, gate.level());
        add_known_roots(alloc, gate, &now, &mut loading)?;
        let loaded = first_store(alloc, gate.actions(alloc)?)?;
        Ok(SessionAt {
            gate,
            start: request,
            now,
            bound,
            loading,
            loaded,
        })
    }

    /// The uids that are wanted now, in their order.
    pub fn wanted(&self) -> &[EntityUID]
        ensures wanted { uids result.now ≡ wanted_of self.entry.now }
        ensures exact { AtEachState G.suits self.entry.now (λ x s. IsWantedList x s (wanted_of self.entry.now)) }
    {
        self.loading.wanted()
    }

    /// Takes in what is wanted, each uid with its entity or without one.
    ///
    /// # Errors
    ///
    /// 1 a uid isn't wanted, 2 a wanted one is missing, 3 one is given twice, 4 an entity has another uid or doesn't conform; or out
    /// of memory.
    pub fn supply(
        &mut self,
        alloc: Global,
        supplied: Vec<(EntityUID, Option<Entity>)>,
    ) -> Result<(), SupplyFault>
        ensures at { OnOk result (IsAfterSupply G.suits self.old self.new supplied.items) }
        ensures taken { OnOk result (IsFitSupply (G.schema (gate_of self.old)) (wanted_of self.old) (supplied_of supplied.items)) }
        ensures refused { IfErr result (IsSupplyFaultBy (G.schema (gate_of self.old)) (wanted_of self.old) (supplied_of supplied.items)) }
        ensures unchanged { OnErr result (IsSameSession self.old self.new) }
        ensures gate { gate_of self.new ≡ gate_of self.old }
    {
        self.gate.schema_is();
        if !are_right(self.gate, supplied.as_slice()) {
            return Err(SupplyFault::WrongEntity);
        }
        uids_are_uids();
        let parts = parted(alloc, supplied)?;
        match take_in(alloc, self.gate, &mut self.loading, &mut self.loaded, parts) {
            Ok(()) => Ok(()),
            Err(fault) => Err(fault),
        }
    }

    /// Binds an open name to a value.
    ///
    /// # Errors
    ///
    /// 1 the name isn't open, 2 the value is against the annotation, 3 a variable gets no entity or `context` no record, 4 the context
    /// fails to evaluate with it; or out of memory.
    pub fn bind(&mut self, alloc: Global, name: RcStr, value: V) -> Result<(), BindFault>
        ensures at { OnOk result (IsAfterBinding G.suits self.old self.new (rc_str_bytes name) (made extension_of value)) }
        ensures taken { OnOk result (IsFitBinding (start_of self.old) (bound_by self.old) (rc_str_bytes name) (made extension_of value)) }
        ensures evaluates { OnOk result (EvaluatesWith G.suits self.old (rc_str_bytes name) (made extension_of value)) }
        ensures refused { IfErr result (IsRefusedBinding G.suits self.old (rc_str_bytes name) (made extension_of value)) }
        ensures unchanged { OnErr result (IsSameSession self.old self.new) }
        ensures gate { gate_of self.new ≡ gate_of self.old }
    {
        if !is_open(alloc, &self.start, &self.bound, name.as_str())? {
            return Err(BindFault::NotOpen);
        }
        check_value(alloc, &self.start, name.as_str(), &value)?;
        a_binding_is_more();
        roots_are_known();
        self.gate.schema_is();
        let key = name.clone()?;
        put_value(&mut self.bound, name, value)?;
        match request_bound(
            alloc,
            self.gate,
            &self.start,
            &self.bound,
            &mut self.loading,
        ) {
            Ok(now) => {
                self.now = now;
                Ok(())
            }
            Err(fault) => {
                take_value(&mut self.bound, key.as_str());
                Err(fault)
            }
        }
    }

    // What is left of each policy by what is known.
    fn verdicts(&self, alloc: Global) -> Result<Vec<Verdict>, AllocError>
        ensures { IfOk result (λ vs. AtEachState G.suits self.entry.now (AreVerdictsAt G.accepted self.entry.now vs.items)) }
    {
        self.gate
            .verdicts(alloc, self.now.clone()?, &self.loaded, &self.bound)
    }

    /// The decision of evaluating the policies in part over what is known by now, if that decides. One that is given is that of every
    /// completion; one is given where what is known forces it, and once all is bound and loaded. Fails only when out of memory.
    pub fn decision(&self, alloc: Global) -> Result<Option<Decision>, AllocError>
        ensures exact { IfOk result (λ d. AtEachState G.suits self.entry.now (IsDecisionAt G.accepted self.entry.now (option_map decision_of d))) }
        ensures in_part { IfOk result (λ d. InEachCourse G.suits G.accepted self.entry.now (λ c s. DecidesCourse c s (option_map decision_of d))) }
        ensures kept { IfOk result (λ d. InEachFairCourse G.suits G.accepted self.entry.now (λ c s. KeepsDecision c s (option_map decision_of d))) }
    {
        uids_are_uids();
        decisions_are_kept();
        let verdicts = self.verdicts(alloc)?;
        Ok(decided(self.gate.policies(), verdicts.as_slice()))
    }

    /// What must and what may determine the decision, by what is known: bounds that are given hold in every completion, they are given where all
    /// is bound, and are the reasons of the answer where all that is looked up is known too. Fails only when out of memory.
    pub fn bounds(&self, alloc: Global) -> Result<Option<Bounds>, AllocError>
        ensures exact { IfOk result (λ b. AtEachState G.suits self.entry.now (AreBoundsAt G.accepted self.entry.now (option_map bounds_of b))) }
        ensures kept { IfOk result (λ b. InEachFairCourse G.suits G.accepted self.entry.now (λ c s. KeepsBounds c s (option_map bounds_of b))) }
    {
        uids_are_uids();
        bounds_are_kept();
        let verdicts = self.verdicts(alloc)?;
        bounded(alloc, self.gate.policies(), verdicts.as_slice())
    }

    /// The answer over the whole store.
    ///
    /// # Errors
    ///
    /// 1 something isn't bound, 2 something is wanted, 3 all is bound and the request doesn't conform; or out of memory.
    pub fn answer(&self, alloc: Global) -> Result<Response, AnswerFault>
        ensures answer { IfOk result (λ r. InEachAdmittedCourse G.suits G.accepted self.entry.now (λ c s. answer_of r ≡ answer_in c s)) }
        ensures given { OnOk result (HasAnswer G.schema self.entry.now) }
        ensures refused { IfErr result (IsRefusedAnswer G.schema self.entry.now) }
    {
        self.gate.schema_is();
        self.check_answer(alloc)?;
        Ok(self.respond(alloc)?)
    }

    // Whether there is an answer.
    fn check_answer(&self, alloc: Global) -> Result<(), AnswerFault>
        ensures given { OnOk result (HasAnswer G.schema self.entry.now) }
        ensures refused { IfErr result (IsRefusedAnswer G.schema self.entry.now) }
    {
        if has_open(alloc, &self.start, &self.bound)? {
            return Err(AnswerFault::NotBound);
        }
        if !self.loading.wanted().is_empty() {
            return Err(AnswerFault::StillWanted);
        }
        if !self.gate.request_conforms(alloc, &self.now)? {
            return Err(AnswerFault::NotConforming);
        }
        Ok(())
    }

    // The answer over what is loaded.
    fn respond(&self, alloc: Global) -> Result<Response, AllocError>
        ensures { IfOk result (λ r. InEachAdmittedCourse G.suits G.accepted self.entry.now (λ c s. WhereAnswerable c s (answer_of r ≡ answer_in c s))) }
    {
        uids_are_uids();
        accepted_policies_are_fit();
        answers_are_the_meaning();
        let entities = whole_store(&self.loaded)?;
        self.gate
            .respond(alloc, self.now.clone()?, &entities, &self.bound)
    }
}
