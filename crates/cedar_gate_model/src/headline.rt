//! The headline: each run of an accepted bundle keeps the promises, and so do the lines that are printed of one.

ghost use Rattle.cedar_gate_model.specs.Headline.{Headline, PrintedIsPromised};

use crate::moment_laws::answered_runs_are_legal;
use crate::run_laws::{
    answers_need_the_slice_alone, decisions_are_the_answers, runs_are_legal, runs_ask_the_slice,
    runs_may_be, worked_courses,
};

/// Each run of an accepted submission, with functions that are fair and make their values as they are written, keeps the promises: no uid is
/// asked for twice, only those are that lie fewer steps away than the level says, at the end of an answered run exactly these, in at most as
/// many rounds as the level after the last binding; the answer is that of the whole store, and each earlier decision is that one; one is owed
/// once all is bound and loaded; each error is a missing entity, an overflow, a zero divisor or an extension's; and the transcript is legal
/// in each world that completes what was bound and answered.
pub fn runs_keep_the_headline()
    ensures { Headline }
{
    runs_ask_the_slice();
    runs_may_be();
    decisions_are_the_answers();
    answers_need_the_slice_alone();
    runs_are_legal();
    answered_runs_are_legal();
}

/// What may be printed for an input is unreadable, a refusal by a fault that is there, or the lines of a run that keeps the promises, where
/// the functions make values fairly.
pub fn what_is_printed_is_promised()
    ensures { PrintedIsPromised }
{
    runs_keep_the_headline();
    worked_courses();
}
