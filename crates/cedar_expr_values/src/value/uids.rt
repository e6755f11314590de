//! The uids that stand in values.

use super::{Value, ValueKind};
use crate::extension::ExtensionValue;
use cedar_expr_leaves::Literal;
use cedar_expr_names::EntityUID;
use std::alloc::{AllocError, Global};
use std::collections::BTreeSet;

impl<X: ExtensionValue> ValueKind<X> {
    ghost use Rattle.std.specs.Prelude.{◌≡◌, ◌||◌, IfOk, OnOk};
    ghost use Rattle.cedar_expr_model.specs.Uid.{Uid};
    ghost use Rattle.cedar_expr_values.specs.Values.{bare_kind};
    ghost use Rattle.cedar_expr_values.specs.Uids.{has_uid, holds_uid};

    /// The uids that stand in it as literals. Fails only when out of memory.
    pub fn all_literal_uids(&self, alloc: Global) -> Result<BTreeSet<EntityUID>, AllocError>
        ensures { IfOk result (λ s. (u : Uid) → has_uid s u ≡ holds_uid (bare_kind X.seen self.now) u) }
    {
        let mut uids = BTreeSet::new(alloc);
        self.gather_uids(&mut uids)?;
        Ok(uids)
    }

    // Puts the uids that stand in it among these.
    fn gather_uids(&self, uids: &mut BTreeSet<EntityUID>) -> Result<(), AllocError>
        ensures { OnOk result ((u : Uid) → has_uid uids.new u ≡ (has_uid uids.old u || holds_uid (bare_kind X.seen self.now) u)) }
    {
        match self {
            ValueKind::Lit(literal) => {
                if let Literal::EntityUID(uid) = literal {
                    uids.insert(uid.as_ref().clone()?)?;
                }
            }
            ValueKind::ExtensionValue(_) => {}
            ValueKind::Set(set) => {
                for value in set.members.values.iter() {
                    value.kind.gather_uids(uids)?;
                }
            }
            ValueKind::Record(fields) => {
                for value in fields.fields.values() {
                    value.kind.gather_uids(uids)?;
                }
            }
        }
        Ok(())
    }
}

impl<X: ExtensionValue> Value<X> {
    ghost use Rattle.std.specs.Prelude.{◌≡◌, IfOk};
    ghost use Rattle.cedar_expr_model.specs.Uid.{Uid};
    ghost use Rattle.cedar_expr_values.specs.Values.{bare};
    ghost use Rattle.cedar_expr_values.specs.Uids.{has_uid, holds_uid};

    /// The uids that stand in it as literals. Fails only when out of memory.
    pub fn all_literal_uids(&self, alloc: Global) -> Result<BTreeSet<EntityUID>, AllocError>
        ensures { IfOk result (λ s. (u : Uid) → has_uid s u ≡ holds_uid (bare X.seen self.now) u) }
    {
        self.kind.all_literal_uids(alloc)
    }
}
