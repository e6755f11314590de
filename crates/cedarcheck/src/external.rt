//! External declarations.

ghost use Rattle.std.specs.Prelude.{◌≡◌, List};
ghost use Rattle.std.specs.BTreeMap.{values};
ghost use Rattle.std.specs.List.{list_any};
ghost use Rattle.cedar_expr_model.specs.Name.{Name};
ghost use Rattle.cedar_gate_fragments.specs.Written.{declared_by};
ghost use Rattle.cedar_schema_model.specs.WellFormed.{has_schema_fault, unresolved_external};
ghost use Rattle.cedarcheck.specs.External.{is_external_type, is_external_action, has_external, has_external_in};

use cedar_expr_leaves::RawName;
use cedar_schema_decl::json_schema::{
    ActionType, ActionTypeKind, EntityType, EntityTypeKind, Fragment, NamespaceDefinition,
};

// Whether the entity type is external.
fn is_external_type(declared: &EntityType<RawName>) -> bool
    ensures { result ≡ is_external_type declared.now }
{
    match &declared.kind {
        EntityTypeKind::Standard { .. } | EntityTypeKind::Enum { .. } => false,
        EntityTypeKind::External { .. } => true,
    }
}

// Whether the action is external.
fn is_external_action(declared: &ActionType<RawName>) -> bool
    ensures { result ≡ is_external_action declared.now }
{
    match &declared.kind {
        ActionTypeKind::Declared { .. } => false,
        ActionTypeKind::External => true,
    }
}

// Whether an entity type of the namespace is external.
fn has_external_type(space: &NamespaceDefinition<RawName>) -> bool
    ensures { result ≡ list_any is_external_type (values space.now.entity_types) }
{
    for declared in space.entity_types.values() {
        if is_external_type(declared) {
            return true;
        }
    }
    false
}

// Whether an action of the namespace is external.
fn has_external_action(space: &NamespaceDefinition<RawName>) -> bool
    ensures { result ≡ list_any is_external_action (values space.now.actions) }
{
    for declared in space.actions.values() {
        if is_external_action(declared) {
            return true;
        }
    }
    false
}

// Whether something in the namespace is external.
fn has_external(space: &NamespaceDefinition<RawName>) -> bool
    ensures { result ≡ has_external space.now }
{
    has_external_type(space) || has_external_action(space)
}

// Whether something in the fragment is external.
fn has_external_in(fragment: &Fragment<RawName>) -> bool
    ensures { result ≡ has_external_in fragment.now }
{
    for space in fragment.0.values() {
        if has_external(space) {
            return true;
        }
    }
    false
}

// Whether something in one of the fragments is external.
fn one_has_external(fragments: &[Fragment<RawName>]) -> bool
    ensures { result ≡ list_any has_external_in fragments.now }
{
    for fragment in fragments {
        if has_external_in(fragment) {
            return true;
        }
    }
    false
}

/// Whether one of the declarations that these fragments write is external.
pub fn declare_external(fragments: &[Fragment<RawName>]) -> bool
    ensures { (x : List Name) → result ≡ has_schema_fault x (declared_by fragments.now) unresolved_external }
{
    one_has_external(fragments)
}
