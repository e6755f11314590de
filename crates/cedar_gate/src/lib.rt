//! The gate: it accepts policies by a schema, opens sessions of requests, runs them over a host, and serves bundles.
//! Contract: `Gate::accept` accepts exactly what breaks none of the acceptance rules; a session stands at a state of the definitions; `run`
//! is a run of the definitions and keeps the promises of the headline; `serve` prints what may be printed for its input. The functions are
//! those of one table: clauses speak of each function of the model with which it agrees (`AgreesWith`).
//! This crate gives out everything of the gate. Open `gate.rt`, `session.rt` and `runs.rt` first.
#![tactic(auto)]

mod calls;
mod faults;
mod gate;
mod printing;
mod runs;
mod service;
mod session;

pub use cedar_gate_accepted::{GateFault, PolicyViolation};
pub use cedar_gate_conforming::{ConformFault, check_entity, check_request};
pub use cedar_gate_rules::NestLimit;
pub use cedar_gate_runs::{Entry, Host, HostFault, RunFault, Status, Step, StoreHost, Transcript};
pub use cedar_gate_sessions::{
    AnswerFault, BindFault, Bounds, GateCalls, OpenFault, SessionAt, SupplyFault,
};
pub use faults::ServeFault;
pub use gate::Gate;
pub use printing::print_run;
pub use runs::run;
pub use service::serve;
pub use session::Session;

/// What is proved of the definitions: each function's contract is a law, and its body does nothing.
pub mod laws {
    pub use cedar_gate_model::conforming_laws::what_is_kept_conforms_alike;
    pub use cedar_gate_model::early_laws::{bounds_are_kept, decisions_are_kept};
    pub use cedar_gate_model::headline::{runs_keep_the_headline, what_is_printed_is_promised};
    pub use cedar_gate_model::laws::acceptance_is_decided;
    pub use cedar_gate_model::moment_laws::moments_keep;
}
