//! The steps of a run.
ghost use Rattle.std.specs.Prelude.{IfOk, IfErr};
ghost use Rattle.serde_json.specs.View.{view};
ghost use Rattle.cedar_gate_model.specs.Transcript as run;
ghost use Rattle.cedar_gate_model.specs.ReadingRequest.{step_read, binding_read};
ghost use Rattle.cedar_gate_runs.specs.Steps.{step_of};
ghost use Rattle.cedar_gate_expressions.specs.declared.fault.ReadFault.TheVariants.{Unreadable};
ghost use Rattle.cedar_gate_bundles.specs.Reading.{ReadsAs, IsUnreadable};

use crate::lists::ReaderByTable;
use crate::values::read_value;
use cedar_expr_functions::Extensions;
use cedar_gate_expressions::{ReadFault, has_only, read_text, required};
use cedar_gate_runs::Step;
use serde_json::Value;
use std::alloc::Global;

/// Reads steps.
pub(crate) struct Steps;

impl ReaderByTable for Steps {
    type Item = Step;

    ghost Meaning = { run.Step };

    ghost reading = { step_read };

    ghost seen = { step_of };

    #[tactic(auto, using(crate::proofs::Parted::step_of_object))]
    fn read(
        &self,
        alloc: Global,
        table: &Extensions<'_>,
        value: &Value,
    ) -> Result<Step, ReadFault> {
        match value {
            Value::String(word) => match word.as_str() {
                "load" => Ok(Step::Load),
                "decide" => Ok(Step::Decide),
                _ => Err(ReadFault::Unreadable),
            },
            Value::Object(_) => read_binding(alloc, table, value),
            Value::Null | Value::Bool(_) | Value::Number(_) | Value::Array(_) => {
                Err(ReadFault::Unreadable)
            }
        }
    }
}

// Reads a binding of a name to a value.
fn read_binding(alloc: Global, table: &Extensions<'_>, value: &Value) -> Result<Step, ReadFault>
    ensures ok { IfOk result (λ s. ReadsAs table.now (λ x. binding_read x (view value.now)) (step_of s)) }
    ensures unreadable { IfErr result (λ f. IsUnreadable table.now (λ x. binding_read x (view value.now)) f) }
{
    if !has_only(value, &["bind", "value"]) {
        return Err(ReadFault::Unreadable);
    }
    let name = read_text(alloc, required(value, "bind")?)?;
    let value = read_value(alloc, table, required(value, "value")?)?;
    Ok(Step::Bind(name, value))
}
