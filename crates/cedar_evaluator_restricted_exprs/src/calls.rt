//! Calls of the functions of a table.

ghost use Rattle.std.specs.Prelude.{map};
ghost use Rattle.cedar_expr_names.specs.Views.{plain_name_of};
ghost use Rattle.cedar_expr_model.specs.Name.{Name as ModelName};
ghost use Rattle.cedar_expr_functions.specs.Functions.{function_signature};
ghost use Rattle.cedar_expr_values.specs.Extensions.{extension_of};
ghost use Rattle.cedar_expr_values.specs.Values.{made};
ghost use Rattle.cedar_evaluator_model.specs.Scope.{Scope};
ghost use Rattle.cedar_evaluator_model.specs.Steps.{call_left, called_left};
ghost use Rattle.cedar_evaluator_errors.specs.Answers.{IsMadeBy};
ghost use Rattle.cedar_evaluator_restricted_exprs.specs.Answers.{AgreesWith, ForFunctions, ForTable};
ghost use Rattle.cedar_evaluator_restricted_exprs.specs.Lefts.{Leaves};

use crate::fault::RestrictedFault;
use crate::table::{FunctionCalls, Left, V};
use cedar_expr_functions::{
    CallFault, ExtensionFunction, ExtensionFunctionLookupError, ExtensionOutputValue, Extensions,
};
use cedar_expr_names::Name;
use cedar_expr_partial::PartialValue;
use cedar_expr_trees::Expr;
use std::alloc::Global;

/// What a call of the function of this name in the table leaves at these arguments. The function is looked up; then the count of the
/// arguments and their types are asked for. Errors: `Stopped` where there is no such function, where it doesn't take the arguments or
/// fails, and `OutOfMemory`.
pub fn call_in(
    alloc: Global,
    table: &Extensions<'_>,
    name: &Name,
    args: &[V],
) -> Result<Left, RestrictedFault>
    ensures { ForTable table.now (λ s. Leaves (called_left s (plain_name_of name.now) (map (made extension_of) args.now)) result) }
{
    match table.func(name) {
        Ok(f) => ask(alloc, f, args),
        Err(ExtensionFunctionLookupError::OutOfMemory) => Err(RestrictedFault::OutOfMemory),
        Err(ExtensionFunctionLookupError::FuncDoesNotExist(_e)) => Err(RestrictedFault::Stopped),
    }
}

// What a function answers at these arguments, which it may refuse.
fn ask(alloc: Global, f: &ExtensionFunction, args: &[V]) -> Result<Left, RestrictedFault>
    ensures { (s : Scope) (n : ModelName) → IsMadeBy f.now (s.calls n) → Leaves (call_left s n (map (made extension_of) args.now) (function_signature f.now)) result }
{
    match f.call(alloc, args) {
        Ok(ExtensionOutputValue::Known(v)) => Ok(PartialValue::Value(v)),
        Ok(ExtensionOutputValue::Unknown(u)) => Ok(PartialValue::Residual(Expr::unknown(u))),
        Err(CallFault::OutOfMemory) => Err(RestrictedFault::OutOfMemory),
        Err(CallFault::WrongNumArguments { .. }) => Err(RestrictedFault::Stopped),
        Err(CallFault::ArgumentType { .. }) => Err(RestrictedFault::Stopped),
        Err(CallFault::Fault { .. }) => Err(RestrictedFault::Stopped),
    }
}

impl FunctionCalls for Extensions<'_> {
    ghost agrees = { AgreesWith };

    fn call(&self, alloc: Global, name: &Name, args: &[V]) -> Result<Left, RestrictedFault> {
        call_agreeing(alloc, self, name, args)
    }
}

// What a call in the table leaves, by any functions with which the table agrees.
fn call_agreeing(
    alloc: Global,
    table: &Extensions<'_>,
    name: &Name,
    args: &[V],
) -> Result<Left, RestrictedFault>
    ensures { ForFunctions (AgreesWith table.now) (λ s. Leaves (called_left s (plain_name_of name.now) (map (made extension_of) args.now)) result) }
{
    match call_in(alloc, table, name, args) {
        Ok(left) => Ok(left),
        Err(fault) => Err(fault),
    }
}
