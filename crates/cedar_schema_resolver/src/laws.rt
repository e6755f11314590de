//! What solutions and refusals are, by the declarations that are written. Each function's contract is the theorem; its body
//! calls the laws that it stands on.

ghost use Rattle.cedar_schema_resolver.specs.Laws.{SolutionsAreCommonTypes, SolvedTypesAreResolved, UsesAreDeclared, RefusalsAreFaults, RefusalsAreWritten};

use cedar_schema_decl::laws::resolved_types_are_declared;

/// Where types with resolved names write the declared common types, what they stand for is what the declarations say, and a type
/// whose names are resolved tells the type that is declared.
pub fn solutions_are_the_common_types()
    ensures commons { SolutionsAreCommonTypes }
    ensures types { SolvedTypesAreResolved }
{
    resolved_types_are_declared();
}

/// One common type uses another exactly where it does by the declarations.
pub fn uses_are_declared()
    ensures { UsesAreDeclared }
{
    resolved_types_are_declared();
}

/// A refusal tells a fault of the declarations, or of a type that is written.
pub fn refusals_are_faults()
    ensures commons { RefusalsAreFaults }
    ensures types { RefusalsAreWritten }
{
    resolved_types_are_declared();
}
