//! Reads expressions from JSON, and what each part of a bundle is read with: faults, lists, objects, names and uids.
//! Contract: `read_expression` gives exactly the expression that the definition reads, made by the builders, and each reader what its
//! definition reads; what that doesn't read is refused.
//! Used by the readers of fragments and of bundles.
#![tactic(auto)]

mod annotations;
mod expressions;
mod fault;
mod finished;
mod forms;
mod inputs;
mod leaves;
mod lists;
mod maps;
mod members;
mod names;
mod objects;
mod optionals;
mod pairs;
mod reader;
mod shapes;

pub use annotations::read_annotation;
pub use expressions::{read_expression, read_fields};
pub use fault::ReadFault;
pub use forms::Version;
pub use inputs::read_json;
pub use lists::{Reader, read_each, read_list};
pub use maps::{optional_texts, optional_words};
pub use names::{
    AnyNames, SharedUids, Texts, Uids, read_any_name, read_name, read_text, read_type, read_uid,
    read_uid_from, text,
};
pub use objects::{has_only, only_member, required};
pub use optionals::{optional, optional_list};
pub use pairs::optional_pairs;
pub use reader::ExpressionReader;
