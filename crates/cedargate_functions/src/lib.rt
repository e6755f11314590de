//! The program's extension functions `rank` and `label`, and the service of bundles by them.
//! Contract: `rank` and `label` come to exactly what their definitions say of their arguments as they are made; the table of the two is fair;
//! `serve_ranks` prints what may be printed for its input by them, and that keeps the promises of the headline.
//! Used by the programs `cedargate` and `cedarreplay` and by the library for C, `cedargate_c`. Open `serving.rt` first.
#![tactic(auto)]

mod functions;
mod numbers;
mod serving;
mod table;

pub use functions::{V, label, rank};
pub use serving::serve_ranks;
pub use table::{rank_extension, table_of};
