//! What is wanted: the uids of the slice at a level that were not asked for yet, and the distances of uids, kept as entities are loaded.
//! Contract: the list of wanted uids rises, and has exactly the uids that are near, were not asked for and are no declared action's
//! (`IsWanting`); after each call the distances are the least lengths of chains below the level (`IsKept`), or as they were before.
//! Used by the gate's sessions.
#![tactic(auto)]

mod changes;
mod distance_rows;
mod follow;
pub mod laws;
mod loading;
mod near;
mod next;
mod rows;
mod settle;
mod supplied;
mod take;

pub use changes::{add, supply};
pub use distance_rows::{Loaded, mentions};
pub use loading::Loading;
pub use near::{Log, Near, undo};
pub use next::DeclaredActions;
pub use supplied::Unfit;
