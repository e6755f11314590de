//! What a run did, and its answer.

use cedar_evaluator_requests::{Decision, Response};
use cedar_expr_names::EntityUID;
use std::rc::RcStr;

/// A thing that a run did.
#[derive(Debug, Drop)]
pub enum Entry {
    /// A round: these uids were asked of the host.
    Round(Vec<EntityUID>),
    /// A name was bound.
    Bound(RcStr),
    /// A decision was asked for. It was given, or not yet.
    Decided(Option<Decision>),
}

/// What a run did, in order, and its answer, where it came to one.
#[derive(Debug, Drop)]
pub struct Transcript {
    /// What was done.
    pub entries: Vec<Entry>,
    /// The answer.
    pub answer: Option<Response>,
}
