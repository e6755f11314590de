//! What a call is asked of: which extension types the functions of a table give.

ghost use Rattle.std.specs.Prelude.{◌≡◌, List, Some};
ghost use Rattle.cedar_expr_names.specs.Views.{plain_name_of};
ghost use Rattle.cedar_expr_model.specs.Table.{Signature};
ghost use Rattle.cedar_expr_values.specs.Types.{core_of};
ghost use Rattle.cedar_expr_functions.specs.Tables.{functions_of};
ghost use Rattle.cedar_schema_model.specs.Restricted.{is_result, call_asked};
ghost use Rattle.cedar_schema_joins.specs.Answers.{AnswersAsked};

use cedar_expr_functions::{ExtensionFunctionLookupError, Extensions};
use cedar_expr_names::Name;
use cedar_expr_values::Type;

// Functions by their names. A table of boxed functions can't stand in the signatures of a cycle, but what has this can.
pub(crate) trait Functions {
    // The signatures of the functions.
    ghost signatures: { Self → List Signature };

    // Whether the function of this name gives values of the extension type. Refuses a name that no function has, and fails
    // when out of memory for the refusal.
    fn gives(&self, function: &Name, name: &Name) -> Result<bool, ExtensionFunctionLookupError>
        ensures { AnswersAsked (call_asked (signatures self.now) (plain_name_of function.now) (plain_name_of name.now)) result };
}

impl Functions for Extensions<'_> {
    ghost signatures = { functions_of };

    fn gives(&self, function: &Name, name: &Name) -> Result<bool, ExtensionFunctionLookupError> {
        gives(self, function, name)
    }
}

// Whether the function of this name gives values of the extension type.
fn gives(
    table: &Extensions<'_>,
    function: &Name,
    name: &Name,
) -> Result<bool, ExtensionFunctionLookupError>
    ensures { AnswersAsked (call_asked (functions_of table.now) (plain_name_of function.now) (plain_name_of name.now)) result }
{
    match table.func(function) {
        Ok(found) => match found.return_type() {
            Some(ty) => Ok(is_extension(ty, name)),
            None => Ok(false),
        },
        Err(e) => Err(e),
    }
}

// Whether this is the extension type of the name.
fn is_extension(ty: &Type, name: &Name) -> bool
    ensures { result ≡ is_result (plain_name_of name.now) (Some (core_of ty.now)) }
{
    match ty {
        Type::Extension { name: own } => own.same(name),
        Type::Bool | Type::Long | Type::String | Type::Set | Type::Record => false,
        Type::Entity { .. } => false,
    }
}
