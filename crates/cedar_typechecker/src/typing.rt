//! What typing asks.

ghost use Rattle.std.specs.Prelude.{◌≡◌, ◌||◌};
ghost use Rattle.std.specs.List.{list_any};
ghost use Rattle.std.specs.Slice.Iter.{iter_rest};
ghost use Rattle.cedar_expr_model.specs.Name.{name_eq};
ghost use Rattle.cedar_expr_functions.specs.Tables.{ordered_of};
ghost use Rattle.cedar_expr_names.specs.Views.{plain_name_of, type_name_of};
ghost use Rattle.cedar_schema_built.specs.Views.{schema_kept};
ghost use Rattle.cedar_typechecker.specs.Types.{descends_either};
ghost use Rattle.cedar_typechecker.specs.SchemaViews.{schema_of, table_seen};
ghost use Rattle.cedar_typechecker_model.specs.Asked.{type_is_below};

use crate::schema_and_functions::SchemaAndFunctions;
use cedar_expr_functions::{ExtensionFunctionLookupError, Extensions};
use cedar_expr_names::{EntityType, EntityUID, Name};
use cedar_schema_built::ValidatorSchema;
use cedar_schema_joins::DeclaredAttributes;
use cedar_schema_types::{Attributes, Type};
use cedar_typechecker_environments::{FunctionSignature, TypingSchema};
use std::alloc::AllocError;
use std::slice::Iter;

impl DeclaredAttributes for SchemaAndFunctions<'_, '_, '_> {
    ghost schema = { schema_of };

    fn entity_attributes(&self, ty: &EntityType) -> Option<&Attributes> {
        match self.schema.get_entity_type(ty) {
            Some(entity_type) => Some(entity_type.attributes()),
            None => None,
        }
    }
}

impl TypingSchema for SchemaAndFunctions<'_, '_, '_> {
    ghost table = { table_seen };

    fn declares_type(&self, ty: &EntityType) -> bool {
        self.schema.get_entity_type(ty).is_some()
    }

    fn declares_action(&self, uid: &EntityUID) -> bool {
        self.schema.get_action_id(uid).is_some()
    }

    fn type_descends(&self, ty: &EntityType, above: &EntityType) -> bool {
        self.is_type_below(ty, above)
    }

    fn action_descends(&self, uid: &EntityUID, above: &EntityUID) -> bool {
        match self.schema.get_action_id(above) {
            Some(action) => action.has_descendant(uid),
            None => false,
        }
    }

    fn tags(&self, ty: &EntityType) -> Option<&Type> {
        match self.schema.get_entity_type(ty) {
            Some(entity_type) => entity_type.tag_type(),
            None => None,
        }
    }

    fn function(&self, name: &Name) -> Result<Option<FunctionSignature<'_>>, AllocError> {
        let function = match self.functions.func(name) {
            Ok(function) => function,
            Err(ExtensionFunctionLookupError::OutOfMemory) => return Err(AllocError),
            Err(ExtensionFunctionLookupError::FuncDoesNotExist(_)) => return Ok(None),
        };
        Ok(Some(FunctionSignature {
            arg_types: function.arg_types(),
            is_variadic: function.is_variadic(),
            is_constructor: function.is_single_arg_constructor(),
            return_type: function.return_type(),
        }))
    }

    fn is_ordered(&self, name: &Name) -> bool {
        is_ordered_in(self.functions, name)
    }
}

impl SchemaAndFunctions<'_, '_, '_> {
    // Whether the first type descends from the second as an entity type, or an action of it from one of the second.
    fn is_type_below(&self, ty: &EntityType, above: &EntityType) -> bool
        ensures { result ≡ descends_either (schema_kept self.now.schema.now) self.now.action_types ty.now above.now }
    {
        is_below(self.schema, ty, above) || self.action_types.descends(ty, above)
    }
}

// Whether the first entity type is one of those that descend from the second.
fn is_below(schema: &ValidatorSchema, ty: &EntityType, above: &EntityType) -> bool
    ensures { result ≡ type_is_below (schema_kept schema.now) (type_name_of ty.now) (type_name_of above.now) }
{
    match schema.get_entity_type(above) {
        Some(entity_type) => entity_type.has_descendant_entity_type(ty),
        None => false,
    }
}

// Whether the table orders the values of this type.
fn is_ordered_in(functions: &Extensions<'_>, name: &Name) -> bool
    ensures { result ≡ list_any (name_eq (plain_name_of name.now)) (ordered_of functions.now) }
{
    is_among(functions.types_with_operator_overloading(), name)
}

// Whether the name is one of those that are left.
fn is_among(mut names: Iter<'_, &Name>, name: &Name) -> bool
    ensures { result ≡ list_any (λ n. name_eq (plain_name_of name.now) (plain_name_of n.now)) (iter_rest names.entry) }
{
    names.any(|n| name.same(n))
}
