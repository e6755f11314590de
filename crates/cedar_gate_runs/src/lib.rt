//! Hosts, which are asked for entities, steps, runs of a session over a host up to the answer, and what runs did, with its lines.
//! Contract: an honest host answers from its store, in the order of what is asked; where the host is honest as the run ends, what `run_session`
//! hands out is a run of the definitions (`IsRun`) over that store: the entries and the answer, or the refusal with which it ended. Out of memory and after a fault of the host
//! it is what was done by then. The lines are exactly those of the definitions (`entry_lines`, `answer_lines`, `end_lines`).
//! Used by `cedar_gate`. Open `runs.rt` first.
#![tactic(auto)]

pub mod host;
pub mod lines;
mod loading;
pub mod output;
pub mod runs;
pub mod sessions;
pub mod status;
mod stepping;
pub mod steps;
pub mod stops;
mod stops_with;
pub mod store_host;
pub mod transcript;

pub use host::{Host, HostFault};
pub use runs::run_session;
pub use sessions::{Refusal, SessionCalls};
pub use status::Status;
pub use steps::Step;
pub use stops::RunFault;
pub use store_host::{StoreHost, copied};
pub use transcript::{Entry, Transcript};
