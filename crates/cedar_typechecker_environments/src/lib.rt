//! Environments in which policies are typed (the types of a request's parts and of a policy's slots), the trait by which typing asks a
//! schema, and facts that typing collects: that an expression has an attribute or a tag.
//! Contract: each call is what the model's environment is; a set of facts means a function of an expression, by its shape, and a part.
//! Used by the rules of typing, the walk, the scope passes, the level pass and the typechecker.
#![tactic(auto)]

mod facts;
pub mod laws;
mod merging;
mod request_env;
mod setting;
mod sorted;

pub use facts::{Capability, CapabilitySet};
pub use request_env::RequestEnv;
pub use setting::{FunctionSignature, TypingSchema, World};
