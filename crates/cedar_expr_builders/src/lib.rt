//! The trait `ExprBuilder`, by which expressions are built in any form, the own builder, and that builder as a type to name.
//! Contract: what a constructor makes means what the builder's step makes of the parts; calls alone may be refused.
//! Used by `cedar_expr_substitution`, and by callers with builders of their own. A call that names `ExprBuilder<()>` itself passes the
//! prover's limit: `PlainBuilder` stands for it.
#![tactic(auto)]

pub mod err;
pub mod expr;
pub mod expr_builder;
pub mod laws;
pub mod plain_builder;

pub use err::BuildFault;
pub use expr::ExprBuilder;
pub use plain_builder::PlainBuilder;
