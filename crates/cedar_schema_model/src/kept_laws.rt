//! What is read from a kept schema is what the schema says. Each function's contract is the theorem; its body does nothing.

ghost use Rattle.cedar_schema_model.specs.KeptLaws.{TypesAreDeclared, ActionsAreDeclared, TypesAreFound, ActionsAreFound, AncestorsAreAbove, GroupsAreKept, ActionsForAreKept, PrincipalsAreKept, ResourcesAreKept, EnvironmentsAreKept, ActionEntitiesAreKept, AllActionEntitiesAreKept, ElsewhereIsKept, ExternalIsFault};

/// What is kept declares the entity types and actions that the schema declares, and what is found by a name or a uid is what the schema has
/// there.
pub fn declarations_are_kept()
    ensures types { TypesAreDeclared }
    ensures actions { ActionsAreDeclared }
    ensures found_types { TypesAreFound }
    ensures found_actions { ActionsAreFound }
{}

/// The ancestors of a declared entity type are those that it descends from.
pub fn ancestors_are_above()
    ensures { AncestorsAreAbove }
{}

/// The actions that some action descends from are those of the schema.
pub fn action_groups_are_kept()
    ensures { GroupsAreKept }
{}

/// The actions for principals and resources of two types are those of the schema that apply to both, and the types of principals and
/// of resources are those that its actions apply to.
pub fn applied_types_are_kept()
    ensures actions { ActionsForAreKept }
    ensures principals { PrincipalsAreKept }
    ensures resources { ResourcesAreKept }
{}

/// The environments are those of the schema.
pub fn environments_are_kept()
    ensures { EnvironmentsAreKept }
{}

/// The actions as entities are those of the schema, each with all actions that it descends from.
pub fn action_entities_are_kept()
    ensures kept { ActionEntitiesAreKept }
    ensures all { AllActionEntitiesAreKept }
{}

/// What is declared elsewhere is what the schema has as external, and the schema of declarations has such exactly where they have the
/// fault of an external declaration.
pub fn external_declarations_are_kept()
    ensures kept { ElsewhereIsKept }
    ensures fault { ExternalIsFault }
{}
