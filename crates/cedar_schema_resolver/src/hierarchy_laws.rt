//! What descends from what. The function's contract is the theorem; its body does nothing.

ghost use Rattle.cedar_schema_resolver.specs.HierarchyLaws.{TypesDescendSo, ActionsDescendSo};

/// Among the entity types of a schema, or its actions, with their parents, one descends from another exactly where it does in the
/// schema.
pub fn descent_is_the_schemas()
    ensures types { TypesDescendSo }
    ensures actions { ActionsDescendSo }
{}
