//! What calls of functions, and the order of extension values, are asked of.

ghost use Rattle.std.specs.Prelude.{◌≡◌, ◌∷◌, List, map, IfOk};
ghost use Rattle.std.specs.List.{list_any};
ghost use Rattle.cedar_expr_names.specs.Views.{plain_name_of};
ghost use Rattle.cedar_expr_model.specs.Name.{Name as ModelName, name_eq};
ghost use Rattle.cedar_expr_model.specs.Made.{Made};
ghost use Rattle.cedar_expr_model.specs.Table.{Called, Table};
ghost use Rattle.cedar_expr_model.specs.Tree.{long_core, extension_core};
ghost use Rattle.cedar_expr_model.specs.Value.{V as ModelValue};
ghost use Rattle.cedar_evaluator_model.specs.OfLaws.WellMade.{MakeValues};
ghost use Rattle.cedar_evaluator_model.specs.Scope.{MadeCalled};
ghost use Rattle.cedar_evaluator_errors.specs.Outcomes.{Leaves};
ghost use Rattle.cedar_evaluator_errors.specs.Calls.{called_by};
ghost use Rattle.cedar_evaluator_reads.specs.Errors.{expected_types};
ghost use Rattle.cedar_evaluator_operators.specs.Calls.{ForCalls, arguments_of};

use cedar_evaluator_errors::EvaluationError;
use cedar_evaluator_reads::{Left, V};
use cedar_expr_leaves::NonEmpty;
use cedar_expr_names::Name;
use cedar_expr_values::Type;
use std::alloc::{AllocError, Global};

/// What calls of functions, and the order of extension values, are asked of.
pub trait FunctionTable {
    /// The table, where its functions answer so.
    ghost table: { Self → (ModelName → List ModelValue → Called) → Table };

    /// The functions answer so, with the calls that make the values.
    ghost answers_as: { Self → (ModelName → List Made → MadeCalled) → Type 0 };

    /// The extension types of which values have an order.
    ghost ordered_types_in: { Self → List ModelName };

    /// What a call of the function of this name leaves at these arguments. The function is looked up; then the count of the arguments
    /// and their types are asked for. Errors: `FailedExtensionFunctionLookup`, `WrongNumArguments`, `TypeError`,
    /// `FailedExtensionFunctionExecution` and `OutOfMemory`.
    fn call(&self, alloc: Global, name: &Name, args: &[V]) -> Result<Left, EvaluationError>
        ensures { ForCalls (table self.now) (answers_as self.now) (λ t calls. Leaves (called_by t calls (plain_name_of name.now) (arguments_of args.now)) result) };

    /// Whether the values of this extension type have an order.
    fn is_ordered(&self, name: &Name) -> bool
        ensures { result ≡ list_any (name_eq (plain_name_of name.now)) (ordered_types_in self.now) };

    /// The types of which values have an order: whole numbers, and the extension types that the table lists.
    fn ordered_types(&self, alloc: Global) -> Result<NonEmpty<Type>, AllocError>
        ensures { IfOk result (λ ts. expected_types ts ≡ long_core ∷ map extension_core (ordered_types_in self.now)) };

    /// However its functions answer, the table orders these types.
    ghost orders: { (t : Self) (answers : ModelName → List ModelValue → Called) → (table t answers).ordered ≡ ordered_types_in t };

    /// What its functions make are values.
    ghost makes_values: { (t : Self) (calls : ModelName → List Made → MadeCalled) → answers_as t calls → MakeValues calls };
}
