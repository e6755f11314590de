//! Types of requests.

ghost use Rattle.std.specs.Prelude.{◌≡◌};
ghost use Rattle.cedar_store_parts.specs.Views.{kind_of, kind_places};

use cedar_expr_names::{EntityType, EntityUID};
use std::alloc::AllocError;

/// What kind a request is of: the types of its principal and resource, and its action.
#[derive(Debug, PartialEq, Eq, PartialOrd, Ord, Hash, Drop)]
pub struct RequestType {
    /// The principal's type.
    pub principal: EntityType,

    /// The action.
    pub action: EntityUID,

    /// The resource's type.
    pub resource: EntityType,
}

impl Clone for RequestType {
    ghost is_clone = { λ r copy. (kind_of copy ≡ kind_of r) × (kind_places copy ≡ kind_places r) };

    /// A copy of the types and the action.
    fn clone(&self) -> Result<RequestType, AllocError> {
        let principal = self.principal.clone()?;
        let action = self.action.clone()?;
        let resource = self.resource.clone()?;
        Ok(RequestType {
            principal,
            action,
            resource,
        })
    }
}
