//! What steps do.

ghost use Rattle.std.specs.Prelude.{◌≡◌, ◌<◌, [], ◌∷◌, IfErr, OnOk, OnErr};
ghost use Rattle.std.specs.Rc.{rc_str_bytes};
ghost use Rattle.cedar_expr_values.specs.Extensions.{extension_of};
ghost use Rattle.cedar_expr_values.specs.Values.{made};
ghost use Rattle.cedar_gate_model.specs.RunsAnswer.{session_of};
ghost use Rattle.cedar_gate_model.specs.Transcript as model;
ghost use Rattle.cedar_gate_runs.specs.Transcripts.{entries_of};
ghost use Rattle.cedar_gate_runs.specs.Asking.{IsBeyond, AskedBeyond, rounds_of};
ghost use Rattle.cedar_gate_runs.specs.Counting.{count_after, KeepsCount};
ghost use Rattle.cedar_gate_runs.specs.Courses.{HostStays, TakesBinding};
ghost use Rattle.cedar_gate_runs.specs.Lost.{AskedLast};
ghost use Rattle.cedar_gate_runs.specs.States.{AsksRounds, AsksBeyond, AtEachState, OverHost, OverSteps, IsAfterBinding, WentByBinding, WentByStep, WentBySteps, RefusesStep, RefusesStepOver, HaltsSteps, LosesOneInSteps};
ghost use Rattle.cedar_gate_runs.specs.Steps.{step_of};
ghost use Rattle.cedar_gate_runs.specs.declared.stops_with.Stop.TheVariants.{Memory};

use crate::loading::load;
use crate::sessions::SessionCalls;
use crate::steps::Step;
use crate::stops_with::Stop;
use crate::{Entry, Host};
use cedar_expr_values::{ExtValue, Value};
use std::alloc::Global;
use std::rc::RcStr;

// Binds a name of the session.
fn bind_in<E: SessionCalls>(
    alloc: Global,
    session: &mut E,
    name: RcStr,
    value: Value<ExtValue>,
) -> Result<(), Stop>
    ensures at { OnOk result (IsAfterBinding E.stands session.old session.new (rc_str_bytes name) (made extension_of value)) }
    ensures taken { OnOk result (AtEachState E.stands session.old (λ c s. TakesBinding c s (rc_str_bytes name) (made extension_of value))) }
    ensures stopped { IfErr result (λ stop. RefusesStep E.stands session.old (model.bind_name (rc_str_bytes name) (made extension_of value)) stop) }
    ensures alone { IfErr result (λ stop. IsBeyond stop []) }
    ensures counted { IfErr result KeepsCount }
{
    match session.bind(alloc, name, value) {
        Ok(()) => Ok(()),
        Err(refusal) => Err(Stop::binding(refusal)),
    }
}

// Binds a name.
fn bind_name<E: SessionCalls>(
    alloc: Global,
    session: &mut E,
    name: RcStr,
    value: Value<ExtValue>,
    entries: &mut Vec<Entry>,
) -> Result<(), Stop>
    ensures did { OnOk result (WentByBinding E.stands session.old session.new (rc_str_bytes name) (made extension_of value) entries.old entries.new) }
    ensures stopped { IfErr result (λ stop. RefusesStep E.stands session.old (model.bind_name (rc_str_bytes name) (made extension_of value)) stop) }
    ensures unchanged { OnErr result (entries_of entries.new.items ≡ entries_of entries.old.items) }
    ensures rounds { OnOk result (rounds_of (entries_of entries.new.items) ≡ rounds_of (entries_of entries.old.items)) }
    ensures alone { IfErr result (λ stop. IsBeyond stop []) }
    ensures counted { IfErr result KeepsCount }
{
    let copy = name.clone()?;
    entries.reserve(1)?;
    bind_in(alloc, session, name, value)?;
    entries.push(Entry::Bound(copy))?;
    Ok(())
}

// Asks for the decision.
fn decide<E: SessionCalls>(alloc: Global, session: &E, entries: &mut Vec<Entry>) -> Result<(), Stop>
    ensures did { OnOk result (AtEachState E.stands session.now (λ c s. WentBySteps E.stands entries.old entries.new session.now c s (model.decide ∷ []))) }
    ensures stopped { IfErr result (λ stop. stop ≡ Memory) }
    ensures unchanged { OnErr result (entries_of entries.new.items ≡ entries_of entries.old.items) }
    ensures rounds { OnOk result (rounds_of (entries_of entries.new.items) ≡ rounds_of (entries_of entries.old.items)) }
{
    entries.reserve(1)?;
    let decision = session.decision(alloc)?;
    entries.push(Entry::Decided(decision))?;
    Ok(())
}

// Does one step.
fn take_step<E: SessionCalls, H: Host>(
    alloc: Global,
    session: &mut E,
    step: Step,
    host: &mut H,
    entries: &mut Vec<Entry>,
) -> Result<(), Stop>
    requires { H.faults host.old < u64.MAX }
    ensures host { HostStays H.honest H.store host.old host.new }
    ensures faults { OnOk result (H.faults host.new ≡ H.faults host.old) }
    ensures counted { IfErr result (λ stop. H.faults host.new ≡ count_after stop (H.faults host.old)) }
    ensures asked { OnOk result (AsksRounds (H.asked host.old) (H.asked host.new) entries.old entries.new) }
    ensures beyond { IfErr result (AskedBeyond (H.asked host.old) (H.asked host.new)) }
    ensures last { OnErr result (AtEachState E.stands session.old (λ c s. AskedLast (session_of c) s (H.asked host.old) (H.asked host.new))) }
    ensures did { OnOk result (H.honest host.new → OverHost E.stands H.store session.old host.old (WentByStep E.stands (step_of step) entries.old entries.new session.new)) }
    ensures stopped { IfErr result (λ stop. H.honest host.new → RefusesStepOver E.stands H.store session.old host.old (step_of step) stop) }
    ensures unchanged { OnErr result (entries_of entries.new.items ≡ entries_of entries.old.items) }
{
    match step {
        Step::Load => {
            load(alloc, session, host, entries)?;
            Ok(())
        }
        Step::Bind(name, value) => bind_name(alloc, session, name, value, entries),
        Step::Decide => decide(alloc, session, entries),
    }
}

/// Does the steps in their order.
pub(crate) fn take_steps<E: SessionCalls, H: Host>(
    alloc: Global,
    session: &mut E,
    steps: Vec<Step>,
    host: &mut H,
    entries: &mut Vec<Entry>,
) -> Result<(), Stop>
    requires { H.faults host.old < u64.MAX }
    ensures host { HostStays H.honest H.store host.old host.new }
    ensures faults { OnOk result (H.faults host.new ≡ H.faults host.old) }
    ensures counted { IfErr result (λ stop. H.faults host.new ≡ count_after stop (H.faults host.old)) }
    ensures asked { OnOk result (AsksRounds (H.asked host.old) (H.asked host.new) entries.old entries.new) }
    ensures beyond { IfErr result (λ stop. AsksBeyond (H.asked host.old) (H.asked host.new) entries.old entries.new stop) }
    ensures last { OnErr result (H.honest host.new → LosesOneInSteps E.stands H.store H.asked session.old host.old host.new steps entries.old entries.new) }
    ensures did { OnOk result (H.honest host.new → OverSteps E.stands H.store session.old host.old steps (WentBySteps E.stands entries.old entries.new session.new)) }
    ensures stopped { IfErr result (λ stop. H.honest host.new → OverSteps E.stands H.store session.old host.old steps (HaltsSteps entries.old entries.new stop)) }
{
    for step in steps {
        take_step(alloc, session, step, host, entries)?;
    }
    Ok(())
}
