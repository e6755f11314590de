//! The extension functions of the program and of the library for C: `rank` makes ranks of texts of one to four digits, `label` gives their texts.
//! They come to what the definitions `ranked` and `labelled` say of the arguments as they are made.

ghost use Rattle.std.specs.Prelude.{◌≡◌, true, IfOk};
ghost use Rattle.cedar_expr_model.specs.Name.{is_identifier, reserved};
ghost use Rattle.cedar_expr_model.specs.Names.{unqualified};
ghost use Rattle.cedar_expr_names.specs.Views.{plain_name_of};
ghost use Rattle.std.specs.Fmt.{decimal};
ghost use Rattle.cedar_expr_model.specs.Value.{text};
ghost use Rattle.cedar_expr_leaves.specs.Literals.{literal_of};
ghost use Rattle.cedar_expr_values.specs.Extensions.{extension_of};
ghost use Rattle.cedar_expr_values.specs.Values.{made};
ghost use Rattle.cedar_evaluator_model.specs.Scope.{faults};
ghost use Rattle.cedargate_functions.specs.Ranks.{ranked, labelled, rank_made, label_made, rank_name};
ghost use Rattle.cedargate_functions.specs.Outcomes.{ComesTo, made_values};

use crate::numbers::{number_kept, number_read};
use cedar_expr_functions::{CallFault, ExtensionOutputValue};
use cedar_expr_names::{Name, NameError};
use cedar_expr_values::{ExtValue, Literal, Value, ValueKind};
use std::alloc::{AllocError, Global};
use std::rc::Rc;

/// A value.
pub type V = Value<ExtValue>;

/// The rank that the only argument writes, a text of one to four digits. Its key is the number in two bytes, the higher first, and it is
/// written as the call on the number's decimal text. Errors: `Fault` where the arguments are no such text, and `OutOfMemory`.
pub fn rank(alloc: Global, args: &[V]) -> Result<ExtensionOutputValue, CallFault>
    ensures { ComesTo (ranked (made_values args.now)) result }
{
    match number_read(args) {
        Some(number) => Ok(ExtensionOutputValue::Known(made_rank(alloc, number)?)),
        None => refuse(alloc),
    }
}

/// The decimal text of the rank that the only argument is. Errors: `Fault` where the arguments are no value with a key of two bytes, and
/// `OutOfMemory`.
pub fn label(alloc: Global, args: &[V]) -> Result<ExtensionOutputValue, CallFault>
    ensures { ComesTo (labelled (made_values args.now)) result }
{
    match number_kept(args) {
        Some(number) => Ok(ExtensionOutputValue::Known(made_label(alloc, number)?)),
        None => refuse(alloc),
    }
}

/// The name of one identifier, which isn't reserved. Fails only when out of memory.
pub(crate) fn name(alloc: Global, text: &str) -> Result<Name, AllocError>
    requires identifies { is_identifier text.now ≡ true }
    requires unreserved { text.now ≡ reserved → ⊥ }
    ensures { IfOk result (λ n. plain_name_of n ≡ unqualified text.now) }
{
    match Name::parse_unqualified_name(alloc, text) {
        Ok(name) => Ok(name),
        Err(NameError::OutOfMemory) => Err(AllocError),
        Err(NameError::NotNormalized | NameError::Reserved(_)) => unreachable!(),
    }
}

// The rank of a number.
fn made_rank(alloc: Global, number: u16) -> Result<V, AllocError>
    ensures { IfOk result (λ v. made extension_of v ≡ rank_made number) }
{
    let mut args = Vec::new(alloc);
    args.push(decimal(alloc, number)?)?;
    let mut key = Vec::new(alloc);
    key.push((number / 256) as u8)?;
    key.push((number % 256) as u8)?;
    let rank = ExtValue::new(name(alloc, "rank")?, name(alloc, "rank")?, args, key);
    Ok(Value::new(ValueKind::ExtensionValue(Rc::new(alloc, rank)?), None))
}

// The decimal text of a number.
fn made_label(alloc: Global, number: u16) -> Result<V, AllocError>
    ensures { IfOk result (λ v. made extension_of v ≡ label_made number) }
{
    let text = decimal(alloc, number)?;
    Ok(Value::from(text))
}

// The literal of the number's decimal text.
fn decimal(alloc: Global, number: u16) -> Result<Literal, AllocError>
    ensures { IfOk result (λ l. literal_of l ≡ text (decimal number)) }
{
    let text = format!(in alloc; "{number}")?;
    Literal::from_string(text)
}

// The fault of what is no rank.
fn refuse(alloc: Global) -> Result<ExtensionOutputValue, CallFault>
    ensures { ComesTo (faults rank_name) result }
{
    Err(CallFault::Fault {
        extension_name: name(alloc, "rank")?,
        message: String::from_str(alloc, "not a rank")?,
        advice: None,
    })
}
