//! Laws of types. Each function's contract is the theorem; its body does nothing.

ghost use Rattle.cedar_schema_model.specs.TypeLaws.{SubtypesReflexive, SubtypesTransitive, SubtypesAntisymmetric, StrictIsPermissive, StrictSubtypesExactly, SubtypesAreInclusions};
ghost use Rattle.cedar_schema_model.specs.TypeLaws.{HasTypeDecides, SetsByMembers, SupertypesKeepValues, NeverHasNoValue, DisjointShareNoValue};
ghost use Rattle.cedar_schema_model.specs.TypeLaws.{JoinOfOrdered, JoinIsAbove, JoinIsLeast, JoinSwaps, StrictJoinIsPermissive, StrictJoinsExactly, JoinExists, JoinExistsExactly, JoinIsFormed, JoinIsFree};
ghost use Rattle.cedar_schema_model.specs.TypeLaws.{ReductionIsAbove, ReductionIsLeast, ReductionIsOfMembers};
ghost use Rattle.cedar_schema_model.specs.TypeLaws.{UnionKnowsWhatAllDeclare, UnionKnowsAll, LargerUnionKnowsLess, RecordsHaveWhatIsDeclared, RecordsMayHaveWhatTheyHave, LookedUpMayBeThere};

/// In both modes subtyping is a partial order: a type is below itself, a type below one that is below a third is below the third, and types below each other are the same.
pub fn subtypes_are_ordered()
    ensures itself { SubtypesReflexive }
    ensures on { SubtypesTransitive }
    ensures both { SubtypesAntisymmetric }
{}

/// A type that is below another in strict mode is below it in permissive mode; and it is strictly below exactly where besides the two are alike at every place where they are compared.
pub fn strict_subtypes_are_permissive()
    ensures permissively { StrictIsPermissive }
    ensures exactly { StrictSubtypesExactly }
{}

/// In permissive mode, between types all parts of which have values and all attributes of which are required, a type is below another exactly where its values are values of the other.
pub fn subtypes_are_inclusions()
    ensures { SubtypesAreInclusions }
{}

/// The test of a value and a type is true exactly where the value is of the type; a set is of a type where each member is.
pub fn has_type_is_decided()
    ensures decides { HasTypeDecides }
    ensures sets { SetsByMembers }
{}

/// A value of a type is a value of every type above it, in both modes. No value is of `never`.
pub fn supertypes_keep_values()
    ensures kept { SupertypesKeepValues }
    ensures none { NeverHasNoValue }
{}

/// No value is of both of two disjoint types.
pub fn disjoint_types_share_no_value()
    ensures { DisjointShareNoValue }
{}

/// Of two types of which one is below the other the join is the greater. A join is above both types, and below every upper bound without `any_set`.
pub fn joins_are_bounds()
    ensures ordered { JoinOfOrdered }
    ensures above { JoinIsAbove }
    ensures least { JoinIsLeast }
{}

/// Where there is an upper bound without `any_set` there is a join, and between types without it only there.
pub fn joins_exist_where_bounds_do()
    ensures where_bounded { JoinExists }
    ensures exactly { JoinExistsExactly }
{}

/// Swapping the two types changes neither whether there is a join nor which.
pub fn joins_swap()
    ensures { JoinSwaps }
{}

/// Where the strict join exists the permissive one is the same; and the permissive one is the strict one exactly where it is strictly above both.
pub fn strict_joins_are_permissive()
    ensures permissively { StrictJoinIsPermissive }
    ensures exactly { StrictJoinsExactly }
{}

/// A join of well-formed types is well-formed, and one of types without `any_set` is without it.
pub fn joins_are_types()
    ensures formed { JoinIsFormed }
    ensures free { JoinIsFree }
{}

/// The join of several types is above each, exists wherever there is an upper bound without `any_set`, and is below it. Between types without `any_set` their order doesn't matter.
pub fn reductions_are_bounds()
    ensures above { ReductionIsAbove }
    ensures least { ReductionIsLeast }
    ensures members { ReductionIsOfMembers }
{}

/// A union of entity types knows exactly the attributes that all members declare with types that join, required where all require them. A larger union knows no more of them and no narrower type.
pub fn unions_know_what_all_declare()
    ensures each { UnionKnowsWhatAllDeclare }
    ensures all { UnionKnowsAll }
    ensures larger { LargerUnionKnowsLess }
{}

/// A record has what its type declares, of the declared type, and has no field that its type may not have. What is looked up may be there.
pub fn records_have_what_is_declared()
    ensures has { RecordsHaveWhatIsDeclared }
    ensures may { RecordsMayHaveWhatTheyHave }
    ensures known { LookedUpMayBeThere }
{}
