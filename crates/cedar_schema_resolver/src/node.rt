//! What may be a node.

ghost use Rattle.std.specs.Prelude.{◌≡◌, IfOk};
ghost use Rattle.std.specs.Bool.{Decides};
ghost use Rattle.std.specs.BTreeMap.{is_at};
ghost use Rattle.cedar_expr_model.specs.Name.{Name};
ghost use Rattle.cedar_expr_model.specs.Uid.{Uid};
ghost use Rattle.cedar_expr_names.specs.Views.{name_of, uid_of};
ghost use Rattle.cedar_schema_resolver.specs.Told.{names_told, uids_told};

use cedar_expr_names::{EntityUID, InternalName};
use std::alloc::AllocError;

/// A name or a uid, which may be a node. Places don't count.
pub trait Node: Ord + Drop {
    /// What it names.
    ghost Seen: { Type 0 };

    ghost seen: { Self → Seen };

    /// A copy of the name or uid.
    fn copy(&self) -> Result<Self, AllocError>
        ensures { IfOk result (λ c. seen c ≡ seen self.now) };

    ghost told: { (a b : Self) → Decides (is_at (Self.cmp a) b) (seen a ≡ seen b) };
}

impl Node for InternalName {
    ghost Seen = { Name };

    ghost seen = { name_of };

    ghost told = { names_told };

    fn copy(&self) -> Result<InternalName, AllocError> {
        self.clone()
    }
}

impl Node for EntityUID {
    ghost Seen = { Uid };

    ghost seen = { uid_of };

    ghost told = { uids_told };

    fn copy(&self) -> Result<EntityUID, AllocError> {
        self.clone()
    }
}
