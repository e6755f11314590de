//! The operators.

ghost use Rattle.std.specs.Prelude.{◌≡◌, Some};
ghost use Rattle.cedar_expr_model.specs.Texts.{unary_text, binary_text};
ghost use Rattle.cedar_expr_leaves.specs.Operators.{unary_op_of, binary_op_of};

use std::fmt;
use std::fmt::{Display, Formatter, Write};

/// An operator of one operand. Operators stand in the order in which they are listed here.
#[derive(Debug, Clone, Copy, PartialEq, Eq, PartialOrd, Ord, Hash)]
pub enum UnaryOp {
    /// The negation of a truth value.
    Not,
    /// The negation of a whole number.
    Neg,
    /// Whether a set has no member.
    IsEmpty,
}

/// An operator of two operands. Operators stand in the order in which they are listed here.
#[derive(Debug, Clone, Copy, PartialEq, Eq, PartialOrd, Ord, Hash)]
pub enum BinaryOp {
    /// Whether two values are equal.
    Eq,
    /// Whether a value is below another.
    Less,
    /// Whether a value is below another or equal to it.
    LessEq,
    /// The sum of two whole numbers.
    Add,
    /// Their difference.
    Sub,
    /// Their product.
    Mul,
    /// What their division leaves, with the sign of the first.
    Rem,
    /// Whether an entity is another, or one of a set, or below it.
    In,
    /// Whether a set has a member.
    Contains,
    /// Whether a set has each member of another.
    ContainsAll,
    /// Whether two sets have a member in common.
    ContainsAny,
    /// The value of an entity's tag.
    GetTag,
    /// Whether an entity has a tag.
    HasTag,
}

impl Display for UnaryOp {
    ghost output = { λ o. Some (unary_text (unary_op_of o)) };

    fn fmt<W: Write>(&self, f: &mut Formatter<W>) -> fmt::Result {
        match self {
            UnaryOp::Not => f.write_str("!"),
            UnaryOp::Neg => f.write_str("-"),
            UnaryOp::IsEmpty => f.write_str("isEmpty"),
        }
    }
}

impl Display for BinaryOp {
    ghost output = { λ o. Some (binary_text (binary_op_of o)) };

    fn fmt<W: Write>(&self, f: &mut Formatter<W>) -> fmt::Result {
        f.write_str(binary_text(*self))
    }
}

// The text of the operator.
fn binary_text(op: BinaryOp) -> &'static str
    ensures { result.now ≡ binary_text (binary_op_of op) }
{
    match op {
        BinaryOp::Eq => "==",
        BinaryOp::Less => "<",
        BinaryOp::LessEq => "<=",
        BinaryOp::Add => "+",
        BinaryOp::Sub => "-",
        BinaryOp::Mul => "*",
        BinaryOp::Rem => "%",
        BinaryOp::In => "in",
        BinaryOp::Contains => "contains",
        BinaryOp::ContainsAll => "containsAll",
        BinaryOp::ContainsAny => "containsAny",
        BinaryOp::GetTag => "getTag",
        BinaryOp::HasTag => "hasTag",
    }
}
