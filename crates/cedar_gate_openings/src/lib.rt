//! Requests with what is bound to their names, which names are open, the uids that values and entities mention, and the roots of a request.
//! Contract: the request is that of the definitions at a state with these values (`request_at`), a name is open exactly where they say so
//! (`is_open_name`), each refusal is there (`OpenFault`, `BindFault`), and the roots are those of what is known then.
//! Used by the gate's sessions.
#![tactic(auto)]

mod asks;
mod contexts;
mod entities;
pub mod faults;
mod known;
pub mod laws;
mod mentions;
mod names;
mod requests;
mod values;

pub use entities::mentioned_by;
pub use faults::{BindFault, OpenFault};
pub use known::roots;
pub use mentions::{V, add_mentioned, add_mentioned_in};
pub use names::{check_names, entry_named, has_open, is_open};
pub use requests::{context_is_made, request_now};
pub use values::{check_value, uid_in};
