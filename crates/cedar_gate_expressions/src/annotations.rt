//! The types of unknowns.
ghost use Rattle.std.specs.Prelude.{◌≡◌, Some, None, IfOk, IfErr};
ghost use Rattle.std.specs.Map.{lookup};
ghost use Rattle.std.specs.Str.{bytes_eq};
ghost use Rattle.serde_json.specs.View.{view};
ghost use Rattle.cedar_expr_values.specs.Types.{core_of};
ghost use Rattle.cedar_gate_model.specs.ReadingName.{annotation_read, core_words};
ghost use Rattle.cedar_gate_expressions.specs.declared.fault.ReadFault.TheVariants.{Unreadable};

use crate::fault::ReadFault;
use crate::names::{read_name, read_type};
use crate::objects::{has_only, required};
use cedar_expr_values::Type;
use serde_json::Value;
use std::alloc::Global;

/// Reads the type of an unknown.
#[tactic(auto, using(crate::proofs::Alone::not_both))]
pub fn read_annotation(alloc: Global, value: &Value) -> Result<Type, ReadFault>
    ensures ok { IfOk result (λ t. annotation_read (view value.now) ≡ Some (core_of t)) }
    ensures unreadable { IfErr result (λ f. f ≡ Unreadable → annotation_read (view value.now) ≡ None) }
{
    if let Value::String(word) = value {
        return read_core(word.as_str());
    }
    if has_only(value, &["entity"]) {
        let ty = read_type(alloc, required(value, "entity")?)?;
        return Ok(Type::Entity { ty });
    }
    if has_only(value, &["ext"]) {
        let name = read_name(alloc, required(value, "ext")?)?;
        return Ok(Type::Extension { name });
    }
    Err(ReadFault::Unreadable)
}

// Reads a type that is written as one word.
fn read_core(word: &str) -> Result<Type, ReadFault>
    ensures ok { IfOk result (λ t. lookup (bytes_eq word.now) core_words ≡ Some (core_of t)) }
    ensures unreadable { IfErr result (λ f. (f ≡ Unreadable) × (lookup (bytes_eq word.now) core_words ≡ None)) }
{
    match word {
        "Bool" => Ok(Type::Bool),
        "Long" => Ok(Type::Long),
        "String" => Ok(Type::String),
        "Set" => Ok(Type::Set),
        "Record" => Ok(Type::Record),
        _ => Err(ReadFault::Unreadable),
    }
}
