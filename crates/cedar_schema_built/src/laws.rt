//! Laws of built schemas. Each function's contract is the theorem; its body calls the law that it stands on, if it needs one, or goes
//! over what is kept.

ghost use Rattle.std.specs.Prelude.{◌≡◌, true};
ghost use Rattle.std.specs.List.{list_all};
ghost use Rattle.cedar_expr_model.specs.Lists.{rises};
ghost use Rattle.cedar_schema_model.specs.Kept.{kept_environments};
ghost use Rattle.cedar_schema_entries.specs.InOrder.{type_in_order, action_in_order};
ghost use Rattle.cedar_schema_built.specs.BuiltOf.{FirstElsewhereIsFault, CompleteIsFaultless};
ghost use Rattle.cedar_schema_built.specs.InOrder.{IsInOrder, kind_cmp};
ghost use Rattle.cedar_schema_built.specs.Listed.{ListedAreDeclared, OrderOfListedIsFree};
ghost use Rattle.cedar_schema_built.specs.Sorted.{NewKeepsTheSchema};
ghost use Rattle.cedar_schema_built.specs.Views.{schema_kept};

use crate::schema::ValidatorSchema;
use cedar_schema_assembly::told_laws::pieces_are_kept;
use cedar_schema_entries::laws::{actions_are_in_order, entity_types_are_in_order};
use cedar_schema_model::kept_laws::external_declarations_are_kept;

/// What `ValidatorSchema::new` makes of the entity types and actions of a schema is what a built schema keeps of it.
pub fn new_keeps_the_schema()
    ensures { NewKeepsTheSchema }
{
    pieces_are_kept();
}

/// A schema that is built of the fragments of some declarations is refused as incomplete exactly where these have the fault of an
/// external declaration, and is complete exactly where they don't.
pub fn external_declarations_are_refused()
    ensures refused { FirstElsewhereIsFault }
    ensures complete { CompleteIsFaultless }
{
    external_declarations_are_kept();
}

/// The common types and the namespaces that are listed of fragments have the names that the declarations have which the fragments
/// write.
pub fn listed_are_declared()
    ensures { ListedAreDeclared }
{}

/// Declarations in another order, or split among other fragments, list the same names in the same order.
pub fn order_of_listed_is_free()
    ensures { OrderOfListedIsFree }
{}

// Each entity type of the schema stands in order.
fn each_type_is_in_order(schema: &ValidatorSchema)
    ensures { list_all type_in_order (schema_kept schema.now).types ≡ true }
{
    for entity_type in schema.entity_types() {
        entity_types_are_in_order(entity_type);
    }
}

// So does each action.
fn each_action_is_in_order(schema: &ValidatorSchema)
    ensures { list_all action_in_order (schema_kept schema.now).actions ≡ true }
{
    for action in schema.action_ids() {
        actions_are_in_order(action);
    }
}

/// The entity types of a schema stand in the order of their names and its actions in that of their uids, each once, and so does what
/// each of them lists; the environments stand in the order of their actions, types of principals and types of resources, each once.
pub fn schemas_are_in_order(schema: &ValidatorSchema)
    ensures kept { IsInOrder (schema_kept schema.now) }
    ensures environments { rises kind_cmp (kept_environments (schema_kept schema.now)) ≡ true }
{
    let _names = schema.entity_types.keys();
    let _uids = schema.action_ids.keys();
    each_type_is_in_order(schema);
    each_action_is_in_order(schema);
}
