//! Sessions: one request over a store that is loaded round by round; decisions, bounds and answers by what is left of policies.
//! Contract: a session stands at a state of the definitions (`IsAt`), and each call leads from one to the next: what is wanted is the next
//! round, a refused call changes nothing and has the refusal that it names, and decisions and answers are those of the definitions over
//! what is known.
//! A session borrows its gate, of which it asks what `GateCalls` says: `SessionAt<'_, Gate>` is the session that users hold, and runs call it.
//! Open `session.rt` first.
#![tactic(auto)]

mod answers;
mod bound;
mod bounds;
pub mod courses;
mod decisions;
mod entities;
mod evaluations;
pub mod faults;
pub mod gates;
mod kinds;
pub mod laws;
mod refusals;
pub mod session;
mod supplied;

pub use answers::respond;
pub use bounds::{Bounds, bounded};
pub use cedar_gate_openings::{BindFault, OpenFault};
pub use decisions::decided;
pub use evaluations::{verdict, verdicts};
pub use faults::{AnswerFault, SupplyFault};
pub use gates::{GateCalls, Schema};
pub use kinds::Verdict;
pub use session::SessionAt;
