//! What the commands of a case work on: the last made is taken first.

use cedar_evaluator::{ErrorState, PartialResponse};
use cedar_evaluator_requests::{Context, EntityUIDEntry, Request};
use cedar_expr_names::EntityUID;
use cedar_expr_partial::PartialValue;
use cedar_expr_trees::Expr;
use cedar_expr_values::{ExtValue, Value};
use cedar_store_entities::{Entities, Entity};
use cedar_store_policies::{Annotations, Policy, PolicyID};
use std::alloc::{AllocError, Global};
use std::collections::HashMap;
use std::rc::{Rc, RcStr};

// What is made where there is memory.
pub type Made<T> = Result<T, AllocError>;

pub type V = Value<ExtValue>;

pub type Part = PartialValue<ExtValue>;

// The id and the annotations of a policy.
pub type Noted = (PolicyID, Rc<Annotations>);

// What a policy that isn't satisfied keeps, and what is left of one.
pub type False = (ErrorState, Rc<Annotations>);

pub type Left = (Rc<Expr>, Rc<Annotations>);

// Policies, what is known of a request, and the responses that were made.
pub struct Desk {
    pub known: Known,
    pub groups: Groups,
    pub policies: Vec<Policy>,
    pub limit: u32,
    pub responses: Vec<PartialResponse>,
}

// A drop of its own is one step to the proof of a function that owns it.
impl Drop for Desk {
    fn drop(self) {
        let Desk {
            known: _,
            groups: _,
            policies: _,
            limit: _,
            responses: _,
        } = self;
    }
}

impl Desk {
    pub fn new(alloc: Global) -> Desk {
        Desk {
            known: Known::new(alloc),
            groups: Groups::new(alloc),
            policies: Vec::new(alloc),
            limit: 16,
            responses: Vec::new(alloc),
        }
    }

    // Begins anew.
    pub fn clear(&mut self) {
        *self = Desk::new(self.known.alloc);
    }
}

// What is known: entities and a store of them, contexts, requests, and values for unknowns.
pub struct Known {
    pub alloc: Global,
    pub attrs: Vec<(RcStr, Part)>,
    pub above: Vec<EntityUID>,
    pub entities: Vec<Entity>,
    pub store: Entities,
    pub contexts: Vec<Context>,
    pub requests: Vec<Request>,
    pub mapping: HashMap<RcStr, V>,
}

impl Drop for Known {
    fn drop(self) {
        let Known {
            alloc: _,
            attrs: _,
            above: _,
            entities: _,
            store: _,
            contexts: _,
            requests: _,
            mapping: _,
        } = self;
    }
}

impl Known {
    pub fn new(alloc: Global) -> Known {
        Known {
            alloc,
            attrs: Vec::new(alloc),
            above: Vec::new(alloc),
            entities: Vec::new(alloc),
            store: Entities::new(alloc),
            contexts: Vec::new(alloc),
            requests: Vec::new(alloc),
            mapping: HashMap::new(alloc),
        }
    }

    // A copy of the last request. Where there is none, it is one of which nothing is known.
    pub fn request(&self) -> Made<Request> {
        match self.requests.last() {
            Some(request) => request.clone(),
            None => Ok(nothing_asked()),
        }
    }
}

// The request of which nothing is known.
pub fn nothing_asked() -> Request {
    Request::new_unchecked(
        EntityUIDEntry::unknown(),
        EntityUIDEntry::unknown(),
        EntityUIDEntry::unknown(),
        None,
    )
}

// The groups of a response that is made by hand.
pub struct Groups {
    pub permits: Side,
    pub forbids: Side,
}

impl Drop for Groups {
    fn drop(self) {
        let Groups {
            permits: _,
            forbids: _,
        } = self;
    }
}

impl Groups {
    pub fn new(alloc: Global) -> Groups {
        Groups {
            permits: Side::new(alloc),
            forbids: Side::new(alloc),
        }
    }

    // The response of these, to a request of which nothing is known.
    pub fn into_response(self, alloc: Global) -> Made<PartialResponse> {
        let request = Rc::new(alloc, nothing_asked())?;
        let Groups { permits, forbids } = self;
        let (trues, falses, lefts) = permits.into_parts();
        let (true_forbids, false_forbids, left_forbids) = forbids.into_parts();
        PartialResponse::new(
            alloc,
            trues,
            falses,
            lefts,
            true_forbids,
            false_forbids,
            left_forbids,
            Vec::new(alloc),
            request,
        )
    }
}

// The groups of one effect: policies that are satisfied, those that aren't, and those of which something is left.
pub struct Side {
    pub trues: Vec<Noted>,
    pub falses: Vec<(PolicyID, False)>,
    pub lefts: Vec<(PolicyID, Left)>,
}

impl Drop for Side {
    fn drop(self) {
        let Side {
            trues: _,
            falses: _,
            lefts: _,
        } = self;
    }
}

impl Side {
    pub fn new(alloc: Global) -> Side {
        Side {
            trues: Vec::new(alloc),
            falses: Vec::new(alloc),
            lefts: Vec::new(alloc),
        }
    }

    fn into_parts(self) -> (Vec<Noted>, Vec<(PolicyID, False)>, Vec<(PolicyID, Left)>) {
        let Side {
            trues,
            falses,
            lefts,
        } = self;
        (trues, falses, lefts)
    }
}
