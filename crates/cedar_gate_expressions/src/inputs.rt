//! Whole inputs: JSON in UTF-8.
ghost use Rattle.std.specs.Prelude.{◌≡◌, Some, None, IfOk, IfErr};
ghost use Rattle.serde_json.specs.View.{view};
ghost use Rattle.cedar_gate_expressions.specs.Json.{json_read};
ghost use Rattle.cedar_gate_expressions.specs.declared.fault.ReadFault.TheVariants.{Unreadable};

use crate::fault::ReadFault;
use serde_json::{Category, Error, Value};
use std::alloc::Global;

/// The JSON value of an input. Refuses an input that is no UTF-8 or no JSON.
#[tactic(auto, using(crate::proofs::InputForms::of_json, crate::proofs::InputForms::of_no_json))]
pub fn read_json(alloc: Global, bytes: &[u8]) -> Result<Value, ReadFault>
    ensures ok { IfOk result (λ v. json_read bytes.now ≡ Some (view v)) }
    ensures unreadable { IfErr result (λ f. f ≡ Unreadable → json_read bytes.now ≡ None) }
{
    Ok(Value::from_slice(alloc, bytes)?)
}

impl From<Error> for ReadFault {
    ghost use Rattle.cedar_gate_expressions.specs.Faults.{IsFaultOf};

    ghost from_gives = { IsFaultOf };

    fn from(error: Error) -> ReadFault {
        match error.classify() {
            Category::Memory => ReadFault::OutOfMemory,
            _ => ReadFault::Unreadable,
        }
    }
}
