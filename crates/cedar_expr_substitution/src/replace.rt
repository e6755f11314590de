//! What stands in the place of unknowns and of slots.

ghost use Rattle.std.specs.Prelude.{◌≡◌, Option, IfOk};
ghost use Rattle.cedar_expr_leaves.specs.Slots.{slot_of};
ghost use Rattle.cedar_expr_model.specs.Name.{Text};
ghost use Rattle.cedar_expr_model.specs.Tree.{CoreType, SlotId as BareSlot, Tree};
ghost use Rattle.cedar_expr_trees.specs.Trees.{tree_of};
ghost use Rattle.cedar_expr_trees.specs.Unknowns.{unknown_of};

use cedar_expr_leaves::SlotId;
use cedar_expr_trees::{Expr, Unknown};
use std::alloc::{AllocError, Global};

/// Puts expressions in the place of unknowns and of slots.
pub trait Replace {
    /// The tree in the place of the unknown of this name and annotation.
    ghost placed: { Self → Text → Option CoreType → Tree };

    /// The tree in the place of the slot.
    ghost slotted: { Self → BareSlot → Tree };

    /// The expression in the place of the unknown. Fails only when out of memory.
    fn unknown(&self, alloc: Global, u: &Unknown) -> Result<Expr, AllocError>
        ensures { IfOk result (λ r. tree_of r ≡ placed self.now (unknown_of u.now).name (unknown_of u.now).annotation) };

    /// The expression in the place of the slot. Fails only when out of memory.
    fn slot(&self, s: SlotId) -> Result<Expr, AllocError>
        ensures { IfOk result (λ r. tree_of r ≡ slotted self.now (slot_of s)) };
}
