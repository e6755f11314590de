//! What the commands of a case work on: the last made is taken first.

use cedar_expr_names::EntityUID;
use cedar_expr_partial::PartialValue;
use cedar_expr_trees::Expr;
use cedar_expr_values::{ExtValue, Value};
use cedar_store_entities::{Entities, Entity, Mark};
use cedar_store_policies::{
    ActionConstraint, Annotations, Effect, Policy, PolicySet, PrincipalOrResourceConstraint,
    SlotEnv, StaticPolicy, Template,
};
use std::alloc::{AllocError, Global};
use std::rc::RcStr;

/// What is made where there is memory.
pub type Made<T> = Result<T, AllocError>;

pub type V = Value<ExtValue>;

pub type Part = PartialValue<ExtValue>;

/// A command: its verb, the rest of it, and what its row wants.
pub type Command<'a> = (&'a str, &'a str, &'a str);

/// Policies, a set of them, and what they are made of.
pub struct Parts {
    pub alloc: Global,
    pub effect: Effect,
    pub principals: Vec<PrincipalOrResourceConstraint>,
    pub actions: Vec<ActionConstraint>,
    pub resources: Vec<PrincipalOrResourceConstraint>,
    pub bodies: Vec<Expr>,
    pub notes: Vec<Annotations>,
    pub bound: SlotEnv,
    pub templates: Vec<Template>,
    pub bare: Vec<StaticPolicy>,
    pub policies: Vec<Policy>,
    pub set: PolicySet,
}

// A drop of its own is one step to the proof of a function that owns it.
impl Drop for Parts {
    fn drop(self) {
        let Parts {
            alloc: _,
            effect: _,
            principals: _,
            actions: _,
            resources: _,
            bodies: _,
            notes: _,
            bound: _,
            templates: _,
            bare: _,
            policies: _,
            set: _,
        } = self;
    }
}

impl Parts {
    pub fn new(alloc: Global) -> Parts {
        Parts {
            alloc,
            effect: Effect::Permit,
            principals: Vec::new(alloc),
            actions: Vec::new(alloc),
            resources: Vec::new(alloc),
            bodies: Vec::new(alloc),
            notes: Vec::new(alloc),
            bound: SlotEnv::new(),
            templates: Vec::new(alloc),
            bare: Vec::new(alloc),
            policies: Vec::new(alloc),
            set: PolicySet::new(alloc),
        }
    }
}

/// Entities, a store of them with a mark of it, and what they are made of.
pub struct Known {
    pub alloc: Global,
    pub attrs: Vec<(RcStr, Part)>,
    pub tags: Vec<(RcStr, Part)>,
    pub above: Vec<EntityUID>,
    pub parents: Vec<EntityUID>,
    pub entities: Vec<Entity>,
    pub store: Entities,
    pub mark: Mark,
}

impl Drop for Known {
    fn drop(self) {
        let Known {
            alloc: _,
            attrs: _,
            tags: _,
            above: _,
            parents: _,
            entities: _,
            store: _,
            mark: _,
        } = self;
    }
}

impl Known {
    pub fn new(alloc: Global) -> Known {
        let store = Entities::new(alloc);
        let mark = store.mark();
        Known {
            alloc,
            attrs: Vec::new(alloc),
            tags: Vec::new(alloc),
            above: Vec::new(alloc),
            parents: Vec::new(alloc),
            entities: Vec::new(alloc),
            store,
            mark,
        }
    }
}
