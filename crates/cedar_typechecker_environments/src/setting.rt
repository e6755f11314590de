//! What expressions are typed in.

ghost use Rattle.std.specs.Prelude.{◌≡◌, option_map, IfOk};
ghost use Rattle.cedar_expr_model.specs.Table.{Table, is_ordered, signature_of};
ghost use Rattle.cedar_expr_names.specs.Views.{plain_name_of, type_name_of, uid_of};
ghost use Rattle.cedar_schema_model.specs.Schema.{declares_type, declares_action};
ghost use Rattle.cedar_schema_model.specs.Descent.{type_descends, action_descends};
ghost use Rattle.cedar_schema_types.specs.Types.{type_of};
ghost use Rattle.cedar_typechecker_environments.specs.Signatures.{call_signature, signature_seen};
ghost use Rattle.cedar_typechecker_model.specs.Rules.{tags_of};

use crate::request_env::RequestEnv;
use cedar_expr_names::{EntityType, EntityUID, Name};
use cedar_expr_values::Type as CoreType;
use cedar_schema_joins::{DeclaredAttributes, ValidationMode};
use cedar_schema_types::Type;
use std::alloc::AllocError;

/// What typing asks of an extension function.
#[derive(Clone, Copy)]
pub struct FunctionSignature<'a> {
    /// The types of its parameters.
    pub arg_types: &'a [CoreType],
    /// Whether further arguments may follow, of the last type.
    pub is_variadic: bool,
    /// Whether it constructs an extension value of one text.
    pub is_constructor: bool,
    /// The type of its result, if it has one.
    pub return_type: Option<&'a CoreType>,
}

/// What typing asks of a schema and of a table of extension functions.
pub trait TypingSchema: DeclaredAttributes {
    /// The table of extension functions.
    ghost table: { Self → Table };

    /// Whether the entity type is declared.
    fn declares_type(&self, ty: &EntityType) -> bool
        ensures { result ≡ declares_type (Self.schema self.now) (type_name_of ty.now) };

    /// Whether the uid is a declared action.
    fn declares_action(&self, uid: &EntityUID) -> bool
        ensures { result ≡ declares_action (Self.schema self.now) (uid_of uid.now) };

    /// Whether entities of the first type may be in those of the second.
    fn type_descends(&self, ty: &EntityType, above: &EntityType) -> bool
        ensures { result ≡ type_descends (Self.schema self.now) (type_name_of ty.now) (type_name_of above.now) };

    /// Whether the first action is in the second.
    fn action_descends(&self, uid: &EntityUID, above: &EntityUID) -> bool
        ensures { result ≡ action_descends (Self.schema self.now) (uid_of uid.now) (uid_of above.now) };

    /// The type of the tags of an entity type, if it has them.
    fn tags(&self, ty: &EntityType) -> Option<&Type>
        ensures { option_map (λ t. type_of t.now) result ≡ tags_of (Self.schema self.now) (type_name_of ty.now) };

    /// The signature of the function of this name, if the table has one.
    fn function(&self, name: &Name) -> Result<Option<FunctionSignature<'_>>, AllocError>
        ensures { IfOk result (λ found. option_map signature_seen found ≡ option_map call_signature (signature_of (table self.now) (plain_name_of name.now))) };

    /// Whether the values of the extension type are ordered.
    fn is_ordered(&self, name: &Name) -> bool
        ensures { result ≡ is_ordered (table self.now) (plain_name_of name.now) };
}

/// What expressions are typed in.
#[derive(Drop)]
pub struct World<'a, S> {
    /// The schema and the extension functions.
    pub schema: &'a S,
    /// How types are compared and joined.
    pub mode: ValidationMode,
    /// The types of the parts of the request.
    pub env: &'a RequestEnv,
}
