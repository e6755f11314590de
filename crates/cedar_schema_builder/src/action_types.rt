//! Entity types under the name that is left to the types of actions.

ghost use Rattle.std.specs.Prelude.{◌≡◌, [], ◌∷◌, find};
ghost use Rattle.std.specs.List.{flat_map};
ghost use Rattle.cedar_expr_names.specs.Views.{name_of};
ghost use Rattle.cedar_schema_decl.specs.Conditional.{conditional_of};
ghost use Rattle.cedar_schema_fragments.specs.Namespaces.{namespace_form, fragment_form};
ghost use Rattle.cedar_schema_builder.specs.Checked.{is_action_word};
ghost use Rattle.cedar_schema_builder.specs.Looking.{name_found};
ghost use Rattle.cedar_schema_builder.specs.WrittenNames.{entities_of, entities_named};

use crate::looking::{Look, first_among};
use cedar_expr_leaves::ConditionalName;
use cedar_expr_names::InternalName;
use cedar_schema_decl::EntityTypeFragment;
use cedar_schema_fragments::{ValidatorNamespaceDef, ValidatorSchemaFragment};

// Among entity types.
#[derive(Drop)]
struct EntityTypes;

// Among the entity types of namespaces.
#[derive(Drop)]
struct Namespaces;

// Among the entity types of fragments.
#[derive(Drop)]
struct Fragments;

impl Look for EntityTypes {
    type Part = (InternalName, EntityTypeFragment<ConditionalName>);

    ghost names = { λ e. name_of e.0 ∷ [] };

    ghost wanted = { is_action_word };

    fn first<'a>(
        &self,
        part: &'a (InternalName, EntityTypeFragment<ConditionalName>),
    ) -> Option<&'a InternalName> {
        if part.0.basename().as_str() == "Action" {
            Some(&part.0)
        } else {
            None
        }
    }
}

impl Look for Namespaces {
    type Part = ValidatorNamespaceDef<ConditionalName, ConditionalName>;

    ghost names = { λ n. entities_of (namespace_form conditional_of conditional_of n) };

    ghost wanted = { is_action_word };

    fn first<'a>(
        &self,
        part: &'a ValidatorNamespaceDef<ConditionalName, ConditionalName>,
    ) -> Option<&'a InternalName> {
        first_among(part.entity_types.defs.as_slice(), &EntityTypes)
    }
}

impl Look for Fragments {
    type Part = ValidatorSchemaFragment<ConditionalName, ConditionalName>;

    ghost names = { λ f. flat_map entities_of (fragment_form conditional_of conditional_of f) };

    ghost wanted = { is_action_word };

    fn first<'a>(
        &self,
        part: &'a ValidatorSchemaFragment<ConditionalName, ConditionalName>,
    ) -> Option<&'a InternalName> {
        first_among(part.0.as_slice(), &Namespaces)
    }
}

/// The first entity type that these fragments declare under the last name of the types of actions, if there is one.
pub fn action_entity_type(
    fragments: &[ValidatorSchemaFragment<ConditionalName, ConditionalName>],
) -> Option<&InternalName>
    ensures { name_found result ≡ find is_action_word (entities_named fragments.now) }
{
    first_among(fragments, &Fragments)
}
