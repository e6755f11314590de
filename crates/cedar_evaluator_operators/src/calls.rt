//! Calls of the functions of a table.

ghost use Rattle.std.specs.Prelude.{◌≡◌, ◌∷◌, map, IfOk, None, refl};
ghost use Rattle.std.specs.Slice.Iter.{iter_rest};
ghost use Rattle.std.specs.List.{list_any};
ghost use Rattle.cedar_expr_names.specs.Views.{plain_name_of};
ghost use Rattle.cedar_expr_model.specs.Name.{name_eq};
ghost use Rattle.cedar_expr_model.specs.Table.{Called};
ghost use Rattle.cedar_expr_model.specs.Tree.{long_core, extension_core, unknown};
ghost use Rattle.cedar_expr_model.specs.Value.{V as ModelValue};
ghost use Rattle.cedar_expr_functions.specs.Functions.{function_signature};
ghost use Rattle.cedar_expr_functions.specs.Tables.{table_of, ordered_of};
ghost use Rattle.cedar_expr_trees.specs.Unknowns.{unknown_of};
ghost use Rattle.cedar_expr_values.specs.Extensions.{extension_of};
ghost use Rattle.cedar_expr_values.specs.Types.{core_of};
ghost use Rattle.cedar_expr_values.specs.Values.{made};
ghost use Rattle.cedar_evaluator_model.specs.Scope.{value_left, residual};
ghost use Rattle.cedar_evaluator_errors.specs.Outcomes.{Leaves};
ghost use Rattle.cedar_evaluator_errors.specs.Calls.{call_by};
ghost use Rattle.cedar_evaluator_operators.specs.Calls.{ForFunction, arguments_of};
ghost use Rattle.cedar_evaluator_errors.specs.Answers.{IsMadeBy, AnswersMade};

use crate::table::FunctionTable;
use cedar_evaluator_errors::EvaluationError;
use cedar_evaluator_errors::evaluation_errors::{
    ExtensionFunctionExecutionError, TypeError, WrongNumArgumentsError,
};
use cedar_evaluator_reads::{Left, V};
use cedar_expr_functions::{
    CallFault, ExtensionFunction, ExtensionFunctionLookupError, ExtensionOutputValue, Extensions,
};
use cedar_expr_leaves::NonEmpty;
use cedar_expr_names::Name;
use cedar_expr_partial::PartialValue;
use cedar_expr_trees::{Expr, Unknown};
use cedar_expr_values::Type;
use std::alloc::{AllocError, Global};
use std::slice::Iter;

impl FunctionTable for Extensions<'_> {
    ghost table = { table_of };

    ghost answers_as = { AnswersMade };

    ghost ordered_types_in = { ordered_of };

    ghost orders = { λ t answers. refl };

    ghost makes_values = { λ t calls h. h.values };

    fn call(&self, alloc: Global, name: &Name, args: &[V]) -> Result<Left, EvaluationError> {
        match self.func(name) {
            Ok(f) => ask(alloc, f, args),
            Err(ExtensionFunctionLookupError::OutOfMemory) => Err(EvaluationError::OutOfMemory),
            Err(ExtensionFunctionLookupError::FuncDoesNotExist(e)) => {
                let e = ExtensionFunctionLookupError::FuncDoesNotExist(e);
                Err(EvaluationError::FailedExtensionFunctionLookup(e))
            }
        }
    }

    fn is_ordered(&self, name: &Name) -> bool {
        is_among(self.types_with_operator_overloading(), name)
    }

    fn ordered_types(&self, alloc: Global) -> Result<NonEmpty<Type>, AllocError> {
        let tail = extension_types(alloc, self.types_with_operator_overloading())?;
        Ok(NonEmpty {
            head: Type::Long,
            tail,
        })
    }
}

// A value that a function gives.
fn known_value(v: V) -> Result<Left, EvaluationError>
    ensures { Leaves (value_left (made extension_of v)) result }
{
    Ok(PartialValue::Value(v))
}

// An unknown that a function leaves, whose type isn't known.
fn open_value(u: Unknown) -> Result<Left, EvaluationError>
    ensures { Leaves (residual (unknown (unknown_of u).name None)) result }
{
    let Unknown { name, .. } = u;
    Ok(PartialValue::Residual(Expr::unknown(Unknown::new_untyped(name))))
}

// What a function answers at these arguments, which it may refuse.
fn ask(alloc: Global, f: &ExtensionFunction, args: &[V]) -> Result<Left, EvaluationError>
    ensures { ForFunction (IsMadeBy f.now) (λ calls n. Leaves (call_by calls n (arguments_of args.now) (function_signature f.now)) result) }
{
    match f.call(alloc, args) {
        Ok(ExtensionOutputValue::Known(v)) => known_value(v),
        Ok(ExtensionOutputValue::Unknown(u)) => open_value(u),
        Err(CallFault::OutOfMemory) => Err(EvaluationError::OutOfMemory),
        Err(
            CallFault::WrongNumArguments {
                function_name,
                expected,
                actual,
            },
        ) => {
            let error = WrongNumArgumentsError {
                function_name,
                expected,
                actual,
                source_loc: None,
            };
            Err(EvaluationError::WrongNumArguments(error))
        }
        Err(CallFault::ArgumentType { expected, actual }) => {
            let expected = NonEmpty::singleton(alloc, expected);
            let error = TypeError {
                expected,
                actual,
                advice: None,
                source_loc: None,
            };
            Err(EvaluationError::TypeError(error))
        }
        Err(
            CallFault::Fault {
                extension_name,
                message,
                advice,
            },
        ) => {
            let msg = message;
            let error = ExtensionFunctionExecutionError {
                extension_name,
                msg,
                advice,
                source_loc: None,
            };
            Err(EvaluationError::FailedExtensionFunctionExecution(error))
        }
    }
}

// Whether the name is one of those that are left.
fn is_among(mut names: Iter<'_, &Name>, name: &Name) -> bool
    ensures { result ≡ list_any (λ n. name_eq (plain_name_of name.now) (plain_name_of n.now)) (iter_rest names.entry) }
{
    names.any(|n| name.same(n))
}

// The extension types of these names.
fn extension_types(alloc: Global, names: Iter<'_, &Name>) -> Result<Vec<Type>, AllocError>
    ensures { IfOk result (λ ts. map core_of ts.items ≡ map (λ n. extension_core (plain_name_of n.now)) (iter_rest names.entry)) }
{
    let mut types = Vec::with_capacity(alloc, names.len())?;
    for name in names {
        types.push(Type::Extension {
            name: (*name).clone()?,
        })?;
    }
    Ok(types)
}
