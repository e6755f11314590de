//! What the leaves of expressions feed a hasher.

ghost use Rattle.std.specs.Prelude.{◌≡◌, ◌++◌, map, fold};
ghost use Rattle.std.specs.Hash as fed;
ghost use Rattle.std.specs.Rc.{rc_str_bytes};
ghost use Rattle.cedar_expr_names.specs.Views.{plain_name_of, type_name_of};
ghost use Rattle.cedar_expr_leaves.specs.Literals.{literal_of};
ghost use Rattle.cedar_expr_leaves.specs.Operators.{unary_op_of, binary_op_of};
ghost use Rattle.cedar_expr_leaves.specs.Patterns.{pattern_of};
ghost use Rattle.cedar_expr_leaves.specs.Slots.{slot_of};
ghost use Rattle.cedar_expr_leaves.specs.Variables.{var_of};
ghost use Rattle.cedar_expr_model.specs.Shape.{tree_rank, var_rank, slot_rank, unary_rank, binary_rank};
ghost use Rattle.cedar_expr_trees.specs.Trees.{kind_tree};
ghost use Rattle.cedar_expr_trees.specs.Unknowns.{unknown_of};
ghost use Rattle.cedar_expr_values.specs.Inputs.{literal_input, name_input, place_input};
ghost use Rattle.cedar_expr_shapes.specs.Hashed.{core_input, element_input};

use crate::ranks::rank;
use cedar_expr_trees::{
    BinaryOp, EntityType, ExprKind, Literal, Name, NonEmpty, Pattern, SlotId, UnaryOp, Unknown, Var,
};
use std::hash::{Hash, Hasher};
use std::rc::RcStr;

// The place of a kind.
pub fn feed_rank<T, H: Hasher>(kind: &ExprKind<T>, state: &mut H)
    ensures { state.new ≡ fold H.write state.old (fed.u8 (tree_rank (kind_tree kind.now))) }
{
    rank(kind).hash(state);
}

// A number.
pub fn feed_count<H: Hasher>(n: usize, state: &mut H)
    ensures { state.new ≡ fold H.write state.old (fed.usize n) }
{
    n.hash(state);
}

// A text.
pub fn feed_text<H: Hasher>(text: &RcStr, state: &mut H)
    ensures { state.new ≡ fold H.write state.old (fed.str (rc_str_bytes text.now)) }
{
    text.hash(state);
}

// A literal.
pub fn feed_literal<H: Hasher>(literal: &Literal, state: &mut H)
    ensures { state.new ≡ fold H.write state.old (literal_input (literal_of literal.now)) }
{
    literal.hash(state);
}

// A variable.
pub fn feed_var<H: Hasher>(v: Var, state: &mut H)
    ensures { state.new ≡ fold H.write state.old (place_input (var_rank (var_of v))) }
{
    v.hash(state);
}

// A slot.
pub fn feed_slot<H: Hasher>(s: SlotId, state: &mut H)
    ensures { state.new ≡ fold H.write state.old (place_input (slot_rank (slot_of s))) }
{
    s.hash(state);
}

// An unknown: its name, and then its annotation.
pub fn feed_unknown<H: Hasher>(u: &Unknown, state: &mut H)
    ensures { state.new ≡ fold H.write state.old (fed.str (unknown_of u.now).name ++ fed.option core_input (unknown_of u.now).annotation) }
{
    u.name.hash(state);
    u.type_annotation.hash(state);
}

// Operators.
pub fn feed_unary<H: Hasher>(op: UnaryOp, state: &mut H)
    ensures { state.new ≡ fold H.write state.old (place_input (unary_rank (unary_op_of op))) }
{
    op.hash(state);
}

pub fn feed_binary<H: Hasher>(op: BinaryOp, state: &mut H)
    ensures { state.new ≡ fold H.write state.old (place_input (binary_rank (binary_op_of op))) }
{
    op.hash(state);
}

// The names of functions and of types.
pub fn feed_name<H: Hasher>(name: &Name, state: &mut H)
    ensures { state.new ≡ fold H.write state.old (name_input (plain_name_of name.now)) }
{
    name.hash(state);
}

pub fn feed_type<H: Hasher>(ty: &EntityType, state: &mut H)
    ensures { state.new ≡ fold H.write state.old (name_input (type_name_of ty.now)) }
{
    ty.hash(state);
}

// A path of attributes.
pub fn feed_path<H: Hasher>(path: &NonEmpty<RcStr>, state: &mut H)
    ensures { state.new ≡ fold H.write state.old (fed.str (rc_str_bytes path.now.head) ++ fed.slice fed.str (map rc_str_bytes path.now.tail.items)) }
{
    path.head.hash(state);
    path.tail.hash(state);
}

// A pattern.
pub fn feed_pattern<H: Hasher>(pattern: &Pattern, state: &mut H)
    ensures { state.new ≡ fold H.write state.old (fed.slice element_input (pattern_of pattern.now)) }
{
    pattern.hash(state);
}
