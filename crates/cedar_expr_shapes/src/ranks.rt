//! The places of the kinds of expressions, in which they are ordered.

ghost use Rattle.std.specs.Prelude.{◌≡◌};
ghost use Rattle.std.specs.Ordering.{nat_cmp};
ghost use Rattle.cedar_expr_model.specs.Shape.{tree_rank};
ghost use Rattle.cedar_expr_trees.specs.Trees.{kind_tree};

use cedar_expr_trees::ExprKind;
use std::cmp::Ordering;

pub const LIT: u8 = 0;

pub const VAR: u8 = 1;

pub const SLOT: u8 = 2;

pub const UNKNOWN: u8 = 3;

pub const IF: u8 = 4;

pub const AND: u8 = 5;

pub const OR: u8 = 6;

pub const UNARY_APP: u8 = 7;

pub const BINARY_APP: u8 = 8;

pub const CALL: u8 = 9;

pub const GET_ATTR: u8 = 10;

pub const HAS_ATTR: u8 = 11;

pub const EXT_HAS_ATTR: u8 = 12;

pub const LIKE: u8 = 13;

pub const IS: u8 = 14;

pub const SET: u8 = 15;

pub const RECORD: u8 = 16;

// The place of a kind among the kinds.
pub fn rank<T>(kind: &ExprKind<T>) -> u8
    ensures { result ≡ tree_rank (kind_tree kind.now) }
{
    match kind {
        ExprKind::Lit(_) => LIT,
        ExprKind::Var(_) => VAR,
        ExprKind::Slot(_) => SLOT,
        ExprKind::Unknown(_) => UNKNOWN,
        ExprKind::If { .. } => IF,
        ExprKind::And { .. } => AND,
        ExprKind::Or { .. } => OR,
        ExprKind::UnaryApp { .. } => UNARY_APP,
        ExprKind::BinaryApp { .. } => BINARY_APP,
        ExprKind::ExtensionFunctionApp { .. } => CALL,
        ExprKind::GetAttr { .. } => GET_ATTR,
        ExprKind::HasAttr { .. } => HAS_ATTR,
        ExprKind::ExtHasAttr { .. } => EXT_HAS_ATTR,
        ExprKind::Like { .. } => LIKE,
        ExprKind::Is { .. } => IS,
        ExprKind::Set(_) => SET,
        ExprKind::Record(_) => RECORD,
    }
}

// The order of a kind in this place and another.
pub fn by_kind<T>(place: u8, other: &ExprKind<T>) -> Ordering
    ensures { result ≡ nat_cmp place (tree_rank (kind_tree other.now)) }
{
    place.cmp(&rank(other))
}
