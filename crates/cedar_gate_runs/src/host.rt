//! Hosts, which are asked for entities.

ghost use Rattle.std.specs.Prelude.{◌≡◌, ℕ, ◌<◌, List, map, IfOk};
ghost use Rattle.cedar_expr_names.specs.Views.{uid_of};
ghost use Rattle.cedar_expr_model.specs.Uid.{Uid};
ghost use Rattle.cedar_gate_runs.specs.Hosts.{Answers, AreAnswersFrom, asked_after, failures_after};

use cedar_expr_names::EntityUID;
use cedar_store_entities::Entity;
use std::alloc::Global;
use thiserror::Error;

/// Why a host doesn't answer.
#[derive(Clone, Copy, Debug, PartialEq, Eq, Error)]
pub enum HostFault {
    /// Out of memory.
    #[error("out of memory")]
    Memory,
    /// A fault of the host's own.
    #[error("the host failed")]
    Device,
}

/// What is asked for entities.
pub trait Host {
    /// The store that the host answers from: the entity of a uid with its values as they were made, where it holds one.
    ghost store: { Self → Answers };
    /// The lists of uids that were asked for and answered, in their order.
    ghost asked: { Self → List (List Uid) };
    /// The host has answered from its store so far, and still does. Nothing is said of what a host answered that ends otherwise.
    ghost honest: { Self → Type 0 };
    /// How many faults of its own the host has had.
    ghost faults: { Self → ℕ };

    /// How many faults of its own the host has had.
    fn failures(&self) -> u64
        ensures { result ≡ faults self.now };

    /// Asks for the entities of these uids. A host that is honest after it was honest before, and answered from its store, which stays, in the
    /// order of the uids.
    ///
    /// # Errors
    ///
    /// `Device` exactly where the count of failures rose; else out of memory. The list then isn't among those asked.
    fn fetch(
        &mut self,
        alloc: Global,
        ids: &[EntityUID],
    ) -> Result<Vec<(EntityUID, Option<Entity>)>, HostFault>
        requires { faults self.old < u64.MAX }
        ensures honest { honest self.new → honest self.old }
        ensures store { honest self.new → store self.new ≡ store self.old }
        ensures asked { asked self.new ≡ asked_after result (asked self.old) (map uid_of ids.now) }
        ensures faults { faults self.new ≡ failures_after result (faults self.old) }
        ensures answers { honest self.new → IfOk result (λ answers. AreAnswersFrom (store self.old) (map uid_of ids.now) answers.items) };
}
