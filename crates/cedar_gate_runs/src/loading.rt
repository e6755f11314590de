//! Loading: rounds of what is wanted.

ghost use Rattle.std.specs.Prelude.{◌≡◌, ◌<◌, ◌++◌, ◌∷◌, [], IfOk, IfErr, OnOk, OnErr, map};
ghost use Rattle.cedar_expr_names.specs.Views.{uid_of};
ghost use Rattle.cedar_gate_model.specs.RunsAnswer.{session_of};
ghost use Rattle.cedar_gate_model.specs.Session.{IsWantedList};
ghost use Rattle.cedar_gate_runs.specs.Transcripts.{entries_of};
ghost use Rattle.cedar_gate_runs.specs.Asking.{AskedBeyond};
ghost use Rattle.cedar_gate_runs.specs.Counting.{count_after};
ghost use Rattle.cedar_gate_runs.specs.Courses.{HostStays};
ghost use Rattle.cedar_gate_runs.specs.Lost.{AskedLast, AskedAtMost};
ghost use Rattle.cedar_gate_runs.specs.Running.{StopsLoad};
ghost use Rattle.cedar_gate_runs.specs.States.{AsksRounds, AsksBeyond, AtEachState, OverHost, IsAfterRound, TakesRound, RefusesRound, WentByLoad, WentByRounds, HaltsRounds, LosesOneRound};

use crate::sessions::SessionCalls;
use crate::stops_with::Stop;
use crate::{Entry, Host, copied};
use cedar_expr_names::EntityUID;
use std::alloc::{AllocError, Global};

// Asks the host for these, which are wanted, and takes in what it answers.
fn take_in<E: SessionCalls, H: Host>(
    alloc: Global,
    session: &mut E,
    host: &mut H,
    wanted: &[EntityUID],
) -> Result<(), Stop>
    requires { H.faults host.old < u64.MAX }
    ensures host { HostStays H.honest H.store host.old host.new }
    ensures faults { OnOk result (H.faults host.new ≡ H.faults host.old) }
    ensures counted { IfErr result (λ stop. H.faults host.new ≡ count_after stop (H.faults host.old)) }
    ensures asked { OnOk result (H.asked host.new ≡ H.asked host.old ++ map uid_of wanted.now ∷ []) }
    ensures beyond { IfErr result (AskedBeyond (H.asked host.old) (H.asked host.new)) }
    ensures last { OnErr result (AskedAtMost (H.asked host.old) (H.asked host.new) (map uid_of wanted.now)) }
    ensures at { OnOk result (H.honest host.new → OverHost E.stands H.store session.old host.old (IsAfterRound E.stands E.wants session.old session.new wanted.now)) }
    ensures taken { OnOk result (H.honest host.new → OverHost E.stands H.store session.old host.old (TakesRound wanted.now)) }
    ensures refused { IfErr result (λ stop. H.honest host.new → OverHost E.stands H.store session.old host.old (RefusesRound wanted.now stop)) }
{
    let supplied = host.fetch(alloc, wanted)?;
    match session.supply(alloc, supplied) {
        Ok(()) => Ok(()),
        Err(refusal) => Err(Stop::supplying(refusal)),
    }
}

// A copy of what is wanted.
fn copy_wanted<E: SessionCalls>(alloc: Global, session: &E) -> Result<Vec<EntityUID>, AllocError>
    ensures wanted { IfOk result (λ copy. map uid_of copy.items ≡ E.wants session.now) }
    ensures exact { IfOk result (λ copy. AtEachState E.stands session.now (λ c s. IsWantedList (session_of c) s (map uid_of copy.items))) }
{
    copied(alloc, session.wanted())
}

/// A round, where something is wanted. Answers whether there was one. The room for its entry is made before the host is asked.
pub(crate) fn load<E: SessionCalls, H: Host>(
    alloc: Global,
    session: &mut E,
    host: &mut H,
    entries: &mut Vec<Entry>,
) -> Result<bool, Stop>
    requires { H.faults host.old < u64.MAX }
    ensures host { HostStays H.honest H.store host.old host.new }
    ensures faults { OnOk result (H.faults host.new ≡ H.faults host.old) }
    ensures counted { IfErr result (λ stop. H.faults host.new ≡ count_after stop (H.faults host.old)) }
    ensures asked { OnOk result (AsksRounds (H.asked host.old) (H.asked host.new) entries.old entries.new) }
    ensures beyond { IfErr result (AskedBeyond (H.asked host.old) (H.asked host.new)) }
    ensures last { OnErr result (AtEachState E.stands session.old (λ c s. AskedLast (session_of c) s (H.asked host.old) (H.asked host.new))) }
    ensures did { IfOk result (λ b. H.honest host.new → OverHost E.stands H.store session.old host.old (WentByLoad E.stands b entries.old entries.new session.new)) }
    ensures stopped { IfErr result (λ stop. H.honest host.new → OverHost E.stands H.store session.old host.old (λ c s. StopsLoad (session_of c) s stop)) }
    ensures unchanged { OnErr result (entries_of entries.new.items ≡ entries_of entries.old.items) }
{
    let wanted = copy_wanted(alloc, session)?;
    if wanted.is_empty() {
        return Ok(false);
    }
    entries.reserve(1)?;
    take_in(alloc, session, host, wanted.as_slice())?;
    entries.push(Entry::Round(wanted))?;
    Ok(true)
}

/// Rounds until nothing is wanted: at most as many as the level.
pub(crate) fn load_all<E: SessionCalls, H: Host>(
    alloc: Global,
    session: &mut E,
    host: &mut H,
    entries: &mut Vec<Entry>,
) -> Result<(), Stop>
    requires { H.faults host.old < u64.MAX }
    ensures host { HostStays H.honest H.store host.old host.new }
    ensures faults { OnOk result (H.faults host.new ≡ H.faults host.old) }
    ensures counted { IfErr result (λ stop. H.faults host.new ≡ count_after stop (H.faults host.old)) }
    ensures asked { OnOk result (AsksRounds (H.asked host.old) (H.asked host.new) entries.old entries.new) }
    ensures beyond { IfErr result (λ stop. AsksBeyond (H.asked host.old) (H.asked host.new) entries.old entries.new stop) }
    ensures last { OnErr result (H.honest host.new → LosesOneRound E.stands H.store H.asked session.old host.old host.new entries.old entries.new) }
    ensures did { OnOk result (H.honest host.new → OverHost E.stands H.store session.old host.old (WentByRounds E.stands entries.old entries.new session.new)) }
    ensures stopped { IfErr result (λ stop. H.honest host.new → OverHost E.stands H.store session.old host.old (HaltsRounds entries.old entries.new stop)) }
{
    for _round in 0..u64::from(session.level()) + 1 {
        if !load(alloc, session, host, entries)? {
            return Ok(());
        }
    }
    Ok(())
}
