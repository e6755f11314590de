//! Each name that the libraries give out.

mod evaluator;
mod expressions;
mod schema;
mod store;
