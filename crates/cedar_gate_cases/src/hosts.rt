//! Hosts of cases: one that is honest and may fail, and one that isn't.

ghost use Rattle.std.specs.Prelude.{None, map};
ghost use Rattle.cedar_expr_names.specs.Views.{uid_of};
ghost use Rattle.cedar_gate_runs.specs.Stores.{store_of, store_asked};

use crate::setup::{Made, entity};
use cedar_expr_functions::Extensions;
use cedar_expr_names::EntityUID;
use cedar_gate::{Host, HostFault, StoreHost};
use cedar_gate_runs::copied;
use cedar_store_entities::{Entities, Entity};
use cedar_test_exprs::{both, made, one, uid};
use std::alloc::{AllocError, Global};

/// What is answered to uids: each with its entity, where there is one.
pub type Answers = Vec<(EntityUID, Option<Entity>)>;

/// A host that keeps the rounds that it was asked for.
pub trait KeepsRounds: Host {
    fn rounds(&self) -> &[Vec<EntityUID>];
}

/// An honest host: it answers from its store, or fails by a fault of its own wherever it is asked for the round of this number.
pub struct Shelf {
    host: StoreHost,
    fails_in: Option<usize>,
    failed: u64,
}

// A drop of its own is one step to the proof of a function that owns it.
impl Drop for Shelf {
    fn drop(self) {
        let Shelf {
            host: _,
            fails_in: _,
            failed: _,
        } = self;
    }
}

impl Shelf {
    /// The host of this store, which the words may tell when to fail: `fails 2`.
    pub fn new(alloc: Global, store: Entities, words: &str) -> Shelf {
        Shelf {
            host: StoreHost::new(alloc, store),
            fails_in: round_of(words),
            failed: 0,
        }
    }
}

fn round_of(words: &str) -> Option<usize> {
    words.strip_prefix("fails ")?.parse::<usize>().ok()
}

impl KeepsRounds for Shelf {
    fn rounds(&self) -> &[Vec<EntityUID>] {
        self.host.asked()
    }
}

impl Host for Shelf {
    ghost store = { λ h. store_of h.host };

    ghost asked = { λ h. store_asked h.host };

    ghost honest = { λ _. Unit {0} };

    ghost faults = { λ h. h.failed };

    fn failures(&self) -> u64 {
        self.failed
    }

    fn fetch(
        &mut self,
        alloc: Global,
        ids: &[EntityUID],
    ) -> Result<Vec<(EntityUID, Option<Entity>)>, HostFault> {
        match self.fails_in {
            Some(round) if self.host.asked().len() + 1 == round => {
                self.failed += 1;
                return Err(HostFault::Device);
            }
            _ => {}
        }
        self.host.fetch(alloc, ids)
    }
}

/// A host that isn't honest: it answers this in the first round, whatever it is asked for, and nothing in the others.
pub struct Liar {
    answers: Answers,
    asked: Vec<Vec<EntityUID>>,
}

impl Drop for Liar {
    fn drop(self) {
        let Liar {
            answers: _,
            asked: _,
        } = self;
    }
}

impl Liar {
    pub fn new(alloc: Global, answers: Answers) -> Liar {
        Liar {
            answers,
            asked: Vec::new(alloc),
        }
    }
}

impl KeepsRounds for Liar {
    fn rounds(&self) -> &[Vec<EntityUID>] {
        self.asked.as_slice()
    }
}

impl Host for Liar {
    ghost store = { λ _ _. None };

    ghost asked = { λ h. map (λ uids. map uid_of uids.items) h.asked.items };

    ghost honest = { λ _. ⊥ };

    ghost faults = { λ _. 0 };

    fn failures(&self) -> u64 {
        0
    }

    fn fetch(
        &mut self,
        alloc: Global,
        ids: &[EntityUID],
    ) -> Result<Vec<(EntityUID, Option<Entity>)>, HostFault> {
        let copy = copied(alloc, ids).map_err(|_| HostFault::Memory)?;
        self.asked.push(copy).map_err(|_| HostFault::Memory)?;
        let mut answers = Vec::new(alloc);
        std::mem::swap(&mut answers, &mut self.answers);
        Ok(answers)
    }
}

/// What a host answers to these uids. Fails where it fails.
pub fn fetched<H: Host>(alloc: Global, host: &mut H, ids: &[EntityUID]) -> Made<Answers> {
    if host.failures() == u64::MAX {
        return Err(AllocError);
    }
    made(host.fetch(alloc, ids))
}

/// The answers that the words write: `Doc::d` is what the host answers to it, `User::b=absent` that there is no entity, `User::a=User::b`
/// what the host answers to the other, and `User::a={..}` the entity of this JSON, in which no space stands.
pub fn answers<H: Host>(
    alloc: Global,
    table: &Extensions<'_>,
    host: &mut H,
    words: &str,
) -> Made<Answers> {
    let mut answers = Vec::new(alloc);
    for word in words.split(' ') {
        let (one, other) = word.split_once('=').unwrap_or((word, word));
        answers.push(both(uid(alloc, one), found(alloc, table, host, other))?)?;
    }
    Ok(answers)
}

fn found<H: Host>(
    alloc: Global,
    table: &Extensions<'_>,
    host: &mut H,
    text: &str,
) -> Made<Option<Entity>> {
    if text == "absent" {
        return Ok(None);
    }
    if text.starts_with('{') {
        return Ok(Some(entity(alloc, table, text)?));
    }
    let ids = [uid(alloc, text)?];
    let (_, entity) = one(&mut fetched(alloc, host, &ids)?)?;
    Ok(entity)
}
