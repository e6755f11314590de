//! A host that answers from the entities in a SQLite database, so that a service needn't hold its store in memory.
//! Contract: the lists that were asked for and answered are kept exactly, and so is the count of the host's own faults, which rises where
//! the database fails or a row doesn't hold the entity of its uid. Where the database is open and shows a clean disk, and `entity` is a table,
//! all that was answered is what its rows are (`IsHonest`, `entities_of`), by the functions of the reader.
//! Used by the program `cedardatabase`. Open `host.rt` first.
#![tactic(auto)]

mod bodies;
mod fault;
mod filling;
mod host;
pub mod laws;
mod reader;
mod table;
#[cfg(test)]
mod tests;

pub use fault::DatabaseFault;
pub use host::DatabaseHost;
pub use reader::EntityReader;
