//! What is printed for a bundle.

ghost use Rattle.std.specs.Prelude.{IfOk};
ghost use Rattle.cedar_gate_runs.specs.Statuses.{status_of};
ghost use Rattle.cedargate_functions.specs.Served.{PrintsByRanks};

use cedar_gate::Status;
use cedargate_functions::serve_ranks;
use std::alloc::{AllocError, Global};

/// The text that is printed for a bundle, and the status.
#[derive(Drop)]
pub struct Printed {
    pub status: Status,
    pub text: Vec<u8>,
}

/// What is printed for a bundle. Fails only when out of memory.
pub fn print_bundle(alloc: Global, bundle: &[u8]) -> Result<Printed, AllocError>
    ensures { IfOk result (λ p. PrintsByRanks bundle.now (status_of p.status) p.text.items) }
{
    let mut text = Vec::new(alloc);
    match serve_ranks(alloc, bundle, &mut text) {
        Ok(status) => Ok(Printed { status, text }),
        Err(_) => Err(AllocError),
    }
}
