//! Definitions of acceptance, the slice, sessions, runs, bundles and the lines that the program prints.
//! Contract: the law functions: the slice suffices, runs are legal transcripts, given decisions are those of the answer, what was done by
//! some steps followed by a run of the others is a run of all, and what is kept of a schema finds the faults that the schema finds.
//! Used by the gate's crates, whose contracts cite these definitions.
#![tactic(auto)]

pub mod conforming_laws;
pub mod did_laws;
pub mod early_laws;
pub mod headline;
pub mod laws;
pub mod moment_laws;
pub mod reading_declared;
pub mod reading_laws;
pub mod reading_started;
pub mod reading_worked;
pub mod run_laws;
pub mod soundness;
pub mod worked;
