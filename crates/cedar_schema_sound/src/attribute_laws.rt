//! Laws of what a built schema declares. Each function's contract is the theorem; its body calls the law that it stands on, if it needs one.

ghost use Rattle.cedar_schema_sound.specs.Laws.{AttributesAreKept, MayHaveIsKept, NamedArePlain, WrittenArePlain, BuiltArePlain};

use cedar_schema_model::kept_laws::declarations_are_kept;

/// What is kept of a schema declares of the attributes of every type what the schema declares, and the values of a type may have the
/// same attributes by both.
pub fn attributes_are_kept()
    ensures declared { AttributesAreKept }
    ensures may_have { MayHaveIsKept }
{
    declarations_are_kept();
}

/// The attributes that well-formed declarations declare have well-formed types, and the type of all sets stands in none of these. So
/// it is of the schema of the declarations that fragments write, and of each schema that is built of fragments: what a union of its
/// entity types knows is what all members declare.
pub fn built_attributes_are_plain()
    ensures named { NamedArePlain }
    ensures written { WrittenArePlain }
    ensures built { BuiltArePlain }
{
    declarations_are_kept();
}
