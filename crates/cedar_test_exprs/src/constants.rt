//! Words that stand for an expression by themselves, and the operators.

use crate::naming::{entity_type, uid, word};
use cedar_expr_leaves::{BinaryOp, Literal, SlotId, UnaryOp, Var};
use cedar_expr_trees::{Expr, Type, Unknown};
use std::alloc::{AllocError, Global};
use std::rc::Rc;

// The operator of one operand that the word names.
pub fn unary(word: &str) -> Option<UnaryOp> {
    match word {
        "!" => Some(UnaryOp::Not),
        "neg" => Some(UnaryOp::Neg),
        "isEmpty" => Some(UnaryOp::IsEmpty),
        _ => None,
    }
}

// The operator of two operands that the word names.
pub fn binary(word: &str) -> Option<BinaryOp> {
    match word {
        "==" => Some(BinaryOp::Eq),
        "<" => Some(BinaryOp::Less),
        "<=" => Some(BinaryOp::LessEq),
        "+" => Some(BinaryOp::Add),
        "-" => Some(BinaryOp::Sub),
        "*" => Some(BinaryOp::Mul),
        "%" => Some(BinaryOp::Rem),
        "in" => Some(BinaryOp::In),
        "contains" => Some(BinaryOp::Contains),
        "containsAll" => Some(BinaryOp::ContainsAll),
        "containsAny" => Some(BinaryOp::ContainsAny),
        "getTag" => Some(BinaryOp::GetTag),
        "hasTag" => Some(BinaryOp::HasTag),
        _ => None,
    }
}

/// The literal that the word writes: `true`, `-5`, `"text`, `User::a`. Fails where it writes none, and when out of memory.
pub fn literal(alloc: Global, text: &str) -> Result<Literal, AllocError> {
    if let Some(text) = text.strip_prefix("\"") {
        return Literal::from_str(alloc, text);
    }
    if let Ok(number) = text.parse::<i64>() {
        return Ok(Literal::from(number));
    }
    match text {
        "true" => Ok(Literal::from(true)),
        "false" => Ok(Literal::from(false)),
        _ => Ok(Literal::EntityUID(Rc::new(alloc, uid(alloc, text)?)?)),
    }
}

// The variable, slot, unknown or literal that the word writes. Fails where it writes none, and when out of memory.
pub fn constant(alloc: Global, text: &str) -> Result<Expr, AllocError> {
    if let Some(named) = text.strip_prefix("$") {
        return Ok(Expr::unknown(unknown(alloc, named)?));
    }
    match text {
        "principal" => Ok(Expr::var(Var::Principal)),
        "action" => Ok(Expr::var(Var::Action)),
        "resource" => Ok(Expr::var(Var::Resource)),
        "context" => Ok(Expr::var(Var::Context)),
        "?principal" => Ok(Expr::slot(SlotId::principal())),
        "?resource" => Ok(Expr::slot(SlotId::resource())),
        _ => Ok(Expr::val(literal(alloc, text)?)),
    }
}

// The unknown of this name, or of this name and, behind the last colon, of this type.
fn unknown(alloc: Global, text: &str) -> Result<Unknown, AllocError> {
    match text.rsplit_once(':') {
        Some((name, ty)) => {
            let ty = core_type(alloc, ty)?;
            Ok(Unknown::new_with_type(word(alloc, name)?, ty))
        }
        None => Ok(Unknown::new_untyped(word(alloc, text)?)),
    }
}

// The type that the text names: one of those that have no parts, or else that of the entities of a type.
fn core_type(alloc: Global, text: &str) -> Result<Type, AllocError> {
    match text {
        "Bool" => Ok(Type::Bool),
        "Long" => Ok(Type::Long),
        "String" => Ok(Type::String),
        "Set" => Ok(Type::Set),
        "Record" => Ok(Type::Record),
        _ => Ok(Type::Entity {
            ty: entity_type(alloc, text)?,
        }),
    }
}
