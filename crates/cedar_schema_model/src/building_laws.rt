//! Laws of building. Each function's contract is the theorem; its body does nothing.

ghost use Rattle.cedar_schema_model.specs.Contexts.{ContextsBecomeRecords};
ghost use Rattle.cedar_schema_model.specs.Solutions.{SolutionsAreCommonTypes};

/// Where no common type is declared twice, the context of an action is written as a record, or by way of common types as one,
/// exactly where the type that it stands for is a type of records.
pub fn contexts_become_records()
    ensures { ContextsBecomeRecords }
{}

/// Where no common type uses itself, there is one choice of types that makes each common type what its definition says: that of
/// the schema.
pub fn solutions_are_common_types()
    ensures { SolutionsAreCommonTypes }
{}
