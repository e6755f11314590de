//! The request, conditions and values of unknowns.

use crate::fault::Fault;
use cedar_evaluator::{EntityUIDEntry, Request};
use cedar_expr::{
    BinaryOp, Eid, EntityType, EntityUID, Expr, ExtValue, Literal, Unknown, Value, Var,
};
use std::alloc::{AllocError, Global};
use std::collections::HashMap;
use std::rc::{Rc, RcStr};

type Bound = Value<ExtValue>;

/// Values by the names of unknowns.
pub type Values = HashMap<RcStr, Bound>;

// The user whose request it is.
fn user(alloc: Global) -> Result<EntityUID, Fault> {
    let eid = Eid::from_str(alloc, "u")?;
    let ty = EntityType::from_normalized_str(alloc, "User")?;
    Ok(EntityUID::from_components(ty, eid, None))
}

/// The request of the user, whose action, resource and context are unknown.
pub fn request(alloc: Global) -> Result<Request, Fault> {
    let principal = EntityUIDEntry::from_entity_uid(alloc, user(alloc)?)?;
    let (action, resource) = (EntityUIDEntry::unknown(), EntityUIDEntry::unknown());
    Ok(Request::new_unchecked(principal, action, resource, None))
}

// The number, as an expression.
fn number(number: u32) -> Expr {
    Expr::val(Literal::from(i64::from(number)))
}

// Whether a number is less than the next one, or, where it is to have an unknown, than `t`.
fn part(alloc: Global, n: u32, has_unknown: bool) -> Result<Expr, AllocError> {
    let limit = if has_unknown {
        Expr::unknown(Unknown::new_untyped(RcStr::from_str(alloc, "t")?))
    } else {
        number(n.wrapping_add(1))
    };
    Expr::binary_app(alloc, BinaryOp::Less, number(n), limit)
}

/// The condition of the policy with this number: that the user asks, and a comparison.
pub fn condition(alloc: Global, n: u32, has_unknown: bool) -> Result<Expr, Fault> {
    let uid = Rc::new(alloc, user(alloc)?)?;
    let user = Expr::val(Literal::EntityUID(uid));
    let asked = Expr::binary_app(alloc, BinaryOp::Eq, Expr::var(Var::Principal), user)?;
    Ok(Expr::and(alloc, asked, part(alloc, n, has_unknown)?)?)
}

/// The values of what is unknown: a number, and a context without fields.
pub fn values(alloc: Global, size: u32) -> Result<Values, Fault> {
    let fields = Vec::new(alloc);
    let context = Value::record(alloc, fields, None).map_err(|_| Fault::OutOfMemory)?;
    let mut values = HashMap::new(alloc);
    values.insert(RcStr::from_str(alloc, "context")?, context)?;
    let number = Value::from(Literal::from(i64::from(size)));
    values.insert(RcStr::from_str(alloc, "t")?, number)?;
    Ok(values)
}
