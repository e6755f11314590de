//! What names mean, by what is declared. Each function's contract is the theorem; its body does nothing.

ghost use Rattle.cedar_schema_decl.specs.Laws.{NamesMeanReferences, ResolvedTypesAreDeclared, RefusedWhereUndeclared};

/// Where the sets have what the declarations declare, a name that is written in a namespace means what the reference means.
pub fn names_mean_references()
    ensures { NamesMeanReferences }
{}

/// A type that is written in a namespace is refused exactly where a reference in it means nothing; else it tells the type that is
/// declared.
pub fn resolved_types_are_declared()
    ensures types { ResolvedTypesAreDeclared }
    ensures refused { RefusedWhereUndeclared }
{}
