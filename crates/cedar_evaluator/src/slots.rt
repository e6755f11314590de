//! Uids put in the place of slots.

ghost use Rattle.std.specs.Prelude.{◌≡◌, IfOk};
ghost use Rattle.cedar_expr_model.specs.Tree.{unknown, slot};
ghost use Rattle.cedar_expr_trees.specs.Trees.{tree_of};
ghost use Rattle.cedar_store_model.specs.Policy.{binding_of};
ghost use Rattle.cedar_store_parts.specs.Parts.{bindings_of};
ghost use Rattle.cedar_evaluator_model.specs.Response.{slots_bound};

use cedar_expr_leaves::{Literal, SlotId};
use cedar_expr_substitution::{Replace, replaced};
use cedar_expr_trees::{Expr, Unknown};
use cedar_store_parts::SlotEnv;
use std::alloc::{AllocError, Global};

// The uids that slots are bound to. A slot that isn't bound stays, and so do unknowns.
#[derive(Drop)]
struct BoundSlots<'a> {
    slots: &'a SlotEnv,
}

impl Replace for BoundSlots<'_> {
    ghost placed = { λ b n a. unknown n a };

    ghost slotted = { λ b s. slots_bound (binding_of (bindings_of b.slots.now)) (slot s) };

    fn unknown(&self, _alloc: Global, u: &Unknown) -> Result<Expr, AllocError> {
        Ok(Expr::unknown(u.clone()?))
    }

    fn slot(&self, s: SlotId) -> Result<Expr, AllocError> {
        match self.slots.get(s) {
            Some(uid) => Ok(Expr::val(Literal::EntityUID(uid.clone()?))),
            None => Ok(Expr::slot(s)),
        }
    }
}

// The expression with the uids that slots are bound to in the place of the slots, made anew through the constructors; a slot that isn't
// bound stays. Fails only when out of memory.
pub(crate) fn bind_slots(alloc: Global, e: &Expr, slots: &SlotEnv) -> Result<Expr, AllocError>
    ensures { IfOk result (λ r. tree_of r ≡ slots_bound (binding_of (bindings_of slots.now)) (tree_of e.now)) }
{
    replaced(alloc, e, &BoundSlots { slots })
}
