//! What the scope rules ask of a schema.

ghost use Rattle.std.specs.Prelude.{◌≡◌};
ghost use Rattle.cedar_expr_names.specs.Views.{type_name_of, uid_of};
ghost use Rattle.cedar_typechecker_model.specs.ScopeRules.{is_action_type, is_no_unknown_member};

use crate::environments::SchemaEnvironments;
use cedar_expr_names::{EntityType, EntityUID};

/// What the scope rules ask of a schema.
pub trait ScopeSchema: SchemaEnvironments {
    /// Whether some declared action is of this type.
    fn is_action_type(&self, ty: &EntityType) -> bool
        ensures { result ≡ is_action_type (Self.schema self.now) (type_name_of ty.now) };

    /// Whether the uid is a declared member of its type, where that is enumerated. Any uid of another type is taken.
    fn is_no_unknown_member(&self, uid: &EntityUID) -> bool
        ensures { result ≡ is_no_unknown_member (Self.schema self.now) (uid_of uid.now) };
}
