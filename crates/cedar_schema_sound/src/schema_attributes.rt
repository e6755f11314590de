//! What a built schema declares of the attributes of its entity types.

ghost use Rattle.std.specs.Prelude.{◌≡◌};
ghost use Rattle.cedar_schema_built.specs.Views.{schema_kept};
ghost use Rattle.cedar_schema_sound.specs.Known.{attributes_kept};
ghost use Rattle.cedar_schema_sound.specs.AttributeViews.{attributes_declared};

use cedar_expr_names::EntityType;
use cedar_schema_built::ValidatorSchema;
use cedar_schema_joins::DeclaredAttributes;
use cedar_schema_types::Attributes;

/// A built schema, as what declares the attributes of its entity types.
#[derive(Drop)]
pub struct SchemaAttributes<'a> {
    schema: &'a ValidatorSchema,
}

impl<'a> SchemaAttributes<'a> {
    /// What this schema declares.
    pub fn new(schema: &'a ValidatorSchema) -> SchemaAttributes<'a>
        ensures { attributes_declared result ≡ attributes_kept (schema_kept schema.entry.now) }
    {
        SchemaAttributes { schema }
    }
}

impl<'a> DeclaredAttributes for SchemaAttributes<'a> {
    ghost schema = { attributes_declared };

    fn entity_attributes(&self, ty: &EntityType) -> Option<&Attributes> {
        match self.schema.get_entity_type(ty) {
            Some(entity_type) => Some(entity_type.attributes()),
            None => None,
        }
    }
}
