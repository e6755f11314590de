//! What calls of functions are asked of.

ghost use Rattle.std.specs.Prelude.{map};
ghost use Rattle.cedar_expr_names.specs.Views.{plain_name_of};
ghost use Rattle.cedar_expr_values.specs.Extensions.{extension_of};
ghost use Rattle.cedar_expr_values.specs.Values.{made};
ghost use Rattle.cedar_evaluator_model.specs.Steps.{called_left};
ghost use Rattle.cedar_evaluator_model.specs.Functions.{Functions};
ghost use Rattle.cedar_evaluator_restricted_exprs.specs.Answers.{ForFunctions};
ghost use Rattle.cedar_evaluator_restricted_exprs.specs.Lefts.{Leaves};

use crate::fault::RestrictedFault;
use cedar_expr_names::Name;
use cedar_expr_partial::PartialValue;
use cedar_expr_values::{ExtValue, Value};
use std::alloc::Global;

/// A value.
pub type V = Value<ExtValue>;

/// A value, or what is left of an expression.
pub type Left = PartialValue<ExtValue>;

/// What calls of functions are asked of.
pub trait FunctionCalls {
    /// The functions of the model with which these agree.
    ghost agrees: { Self → Functions → Type 0 };

    /// What a call of the function of this name leaves at these arguments. The function is looked up; then the count of the arguments
    /// and their types are asked for. Errors: `Stopped` where there is no such function, where it doesn't take the arguments or fails,
    /// and `OutOfMemory`.
    fn call(&self, alloc: Global, name: &Name, args: &[V]) -> Result<Left, RestrictedFault>
        ensures { ForFunctions (agrees self.now) (λ s. Leaves (called_left s (plain_name_of name.now) (map (made extension_of) args.now)) result) };
}
