//! What the commands of a case work on: the last made is taken first.

use cedar_evaluator_requests::{Context, EntityUIDEntry, Request};
use cedar_expr_names::EntityUID;
use cedar_expr_partial::PartialValue;
use cedar_expr_values::{ExtValue, Value};
use cedar_store_entities::{Entities, Entity};
use cedar_store_parts::SlotEnv;
use std::alloc::{AllocError, Global};
use std::collections::HashMap;
use std::rc::RcStr;

/// What is made where there is memory.
pub type Made<T> = Result<T, AllocError>;

pub type V = Value<ExtValue>;

pub type Part = PartialValue<ExtValue>;

/// Contexts, requests, a store, and what else is known.
pub struct Desk {
    pub alloc: Global,
    pub limit: u32,
    pub contexts: Vec<Context>,
    pub requests: Vec<Request>,
    pub unknowns: HashMap<RcStr, V>,
    pub slots: SlotEnv,
    pub known: Known,
}

// A drop of its own is one step to the proof of a function that owns it.
impl Drop for Desk {
    fn drop(self) {
        let Desk {
            alloc: _,
            limit: _,
            contexts: _,
            requests: _,
            unknowns: _,
            slots: _,
            known: _,
        } = self;
    }
}

impl Desk {
    pub fn new(alloc: Global) -> Desk {
        Desk {
            alloc,
            limit: 16,
            contexts: Vec::new(alloc),
            requests: Vec::new(alloc),
            unknowns: HashMap::new(alloc),
            slots: SlotEnv::new(),
            known: Known::new(alloc),
        }
    }

    // A copy of the last request. Where there is none, it is one of which nothing is known.
    pub fn request(&self) -> Made<Request> {
        match self.requests.last() {
            Some(request) => request.clone(),
            None => Ok(Request::new_unchecked(
                EntityUIDEntry::unknown(),
                EntityUIDEntry::unknown(),
                EntityUIDEntry::unknown(),
                None,
            )),
        }
    }
}

/// Entities, a store of them, and what they are made of.
pub struct Known {
    pub attrs: Vec<(RcStr, Part)>,
    pub tags: Vec<(RcStr, Part)>,
    pub above: Vec<EntityUID>,
    pub entities: Vec<Entity>,
    pub store: Entities,
}

impl Drop for Known {
    fn drop(self) {
        let Known {
            attrs: _,
            tags: _,
            above: _,
            entities: _,
            store: _,
        } = self;
    }
}

impl Known {
    pub fn new(alloc: Global) -> Known {
        Known {
            attrs: Vec::new(alloc),
            tags: Vec::new(alloc),
            above: Vec::new(alloc),
            entities: Vec::new(alloc),
            store: Entities::new(alloc),
        }
    }
}
