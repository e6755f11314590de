//! Values that are found without a copy: literals, the request's uids, what attributes hold, and what operators make of them. Most
//! conditions of policies are truth values of this kind; of any other expression nothing is said here, and the walk evaluates it.

ghost use Rattle.std.specs.Prelude.{◌≡◌, IfSome, Some, map, option_map};
ghost use Rattle.std.specs.Ordering.{is_eq};
ghost use Rattle.std.specs.Rc.{rc_str_bytes};
ghost use Rattle.cedar_expr_leaves.specs.Literals.{literal_of};
ghost use Rattle.cedar_expr_leaves.specs.Operators.{unary_op_of, binary_op_of};
ghost use Rattle.cedar_expr_leaves.specs.Patterns.{pattern_of};
ghost use Rattle.cedar_expr_leaves.specs.Variables.{var_of};
ghost use Rattle.cedar_expr_model.specs.Builder.{trees};
ghost use Rattle.cedar_expr_model.specs.Made.{bare, made_prim};
ghost use Rattle.cedar_expr_model.specs.Name.{Text};
ghost use Rattle.cedar_expr_model.specs.Order.{text_cmp, uid_order, value_eq};
ghost use Rattle.cedar_expr_model.specs.Tree.{contains, set_literal};
ghost use Rattle.cedar_expr_model.specs.Value.{entity, long};
ghost use Rattle.cedar_expr_names.specs.Views.{uid_of, type_name_of};
ghost use Rattle.cedar_expr_trees.specs.Trees.{tree_of};
ghost use Rattle.cedar_expr_values.specs.Extensions.{extension_of};
ghost use Rattle.cedar_expr_values.specs.Values.{made};
ghost use Rattle.cedar_store_entities.specs.Views.{part_seen};
ghost use Rattle.cedar_store_model.specs.Operators.{applied, like_pattern, of_type};
ghost use Rattle.cedar_evaluator_model.specs.Evaluation.{entry_left, variable_left};
ghost use Rattle.cedar_evaluator_model.specs.Scope.{Scope};
ghost use Rattle.cedar_evaluator_model.specs.Steps.{attribute_of, combined_left, left_of, made_named, test_of};
ghost use Rattle.cedar_evaluator_requests.specs.Views.{entry_of};
ghost use Rattle.cedar_evaluator_reads.specs.Scopes.{scope_seen};
ghost use Rattle.cedar_evaluator_reads.specs.Seen.{record_fields};
ghost use Rattle.cedar_evaluator_core.specs.Lent.{lent_made, part_found, ContainsWithin, Lends, LendsWithin};

use crate::gathering::members_of;
use cedar_evaluator_operators::FunctionTable;
use cedar_evaluator_reads::seen::{Seen, field, seen_as};
use cedar_evaluator_reads::{Knowledge, V};
use cedar_evaluator_requests::EntityUIDEntry;
use cedar_expr_leaves::{BinaryOp, Literal, Pattern, UnaryOp, Var};
use cedar_expr_names::{EntityType, EntityUID};
use cedar_expr_partial::PartialValue;
use cedar_expr_trees::{Expr, ExprKind};
use cedar_expr_values::{ExtValue, ValueKind};
use cedar_store_entities::Dereference;
use std::alloc::Global;
use std::collections::BTreeMap;
use std::rc::RcStr;

// A value, lent.
#[derive(Clone, Copy)]
pub(crate) enum Lent<'a> {
    // A truth value.
    Truth(bool),
    // A whole number.
    Long(i64),
    // A text.
    Text(&'a RcStr),
    // An entity, by its uid.
    Entity(&'a EntityUID),
    // A value of any kind.
    Value(&'a V),
}

// The literal, lent.
fn of_literal(literal: &Literal) -> Lent<'_>
    ensures { lent_made result ≡ made_prim (literal_of literal.now) }
{
    match literal {
        Literal::Bool(b) => Lent::Truth(*b),
        Literal::Long(n) => Lent::Long(*n),
        Literal::String(s) => Lent::Text(s),
        Literal::EntityUID(uid) => Lent::Entity(uid),
    }
}

// The value, lent.
fn of_value(v: &V) -> Lent<'_>
    ensures { lent_made result ≡ made extension_of v.now }
{
    match v.value_kind() {
        ValueKind::Lit(literal) => of_literal(literal),
        _ => Lent::Value(v),
    }
}

// The uid of an entry, if it is known.
fn of_entry(entry: &EntityUIDEntry) -> Option<Lent<'_>>
    ensures { (name : Text) → Lends (entry_left name (entry_of entry.now)) result }
{
    match entry {
        EntityUIDEntry::Known { euid, .. } => Some(Lent::Entity(euid)),
        EntityUIDEntry::Unknown { .. } => None,
    }
}

// What a variable of the request is. Of the context nothing is said.
#[tactic(auto, unfolding(cedar_evaluator_reads::specs::Scopes::scope_seen))]
fn variable<'a, T>(known: &'a Knowledge<'_, T>, v: Var) -> Option<Lent<'a>>
    ensures { Lends (variable_left (scope_seen known.now) (var_of v)) result }
{
    match v {
        Var::Principal => of_entry(known.request.principal()),
        Var::Action => of_entry(known.request.action()),
        Var::Resource => of_entry(known.request.resource()),
        Var::Context => None,
    }
}

// What an attribute holds, if it is a value.
fn of_part(part: Option<&PartialValue<ExtValue>>) -> Option<Lent<'_>>
    ensures { (s : Scope) → Lends (part_found s (option_map (λ p. part_seen p.now) part.entry)) result }
{
    match part {
        Some(PartialValue::Value(v)) => Some(of_value(v)),
        Some(PartialValue::Residual(_)) | None => None,
    }
}

// An attribute of an entity.
fn entity_attribute<'a, T>(
    alloc: Global,
    known: &'a Knowledge<'_, T>,
    uid: &EntityUID,
    attr: &RcStr,
) -> Option<Lent<'a>>
    ensures { Lends (attribute_of (scope_seen known.now) (rc_str_bytes attr.now) (made_prim (entity (uid_of uid.now)))) result }
{
    match known.look_up(alloc, uid) {
        Ok(Dereference::Data(entity)) => of_part(entity.get(attr.as_str())),
        _ => None,
    }
}

// A field of a record.
fn of_field<'a>(fields: &'a BTreeMap<RcStr, V>, attr: &RcStr) -> Option<Lent<'a>>
    ensures { IfSome result (λ v. made_named (rc_str_bytes attr.now) (record_fields fields.now) ≡ Some (lent_made v)) }
{
    match field(fields, attr.as_str()) {
        Some(v) => Some(of_value(v)),
        None => None,
    }
}

// An attribute of a value.
fn attribute<'a, T>(
    alloc: Global,
    known: &'a Knowledge<'_, T>,
    of: Lent<'a>,
    attr: &RcStr,
) -> Option<Lent<'a>>
    ensures { Lends (attribute_of (scope_seen known.now) (rc_str_bytes attr.now) (lent_made of.entry)) result }
{
    match of {
        Lent::Entity(uid) => entity_attribute(alloc, known, uid, attr),
        Lent::Value(v) => match seen_as(v) {
            Seen::Record(fields) => of_field(fields, attr),
            Seen::Entity(_) | Seen::Neither => None,
        },
        Lent::Truth(_) | Lent::Long(_) | Lent::Text(_) => None,
    }
}

// Whether an entity has an attribute.
fn test<'a, T>(
    alloc: Global,
    known: &'a Knowledge<'_, T>,
    of: Lent<'a>,
    attr: &RcStr,
) -> Option<Lent<'a>>
    ensures { Lends (test_of (scope_seen known.now) (rc_str_bytes attr.now) (lent_made of.entry)) result }
{
    match of {
        Lent::Entity(uid) => match known.look_up(alloc, uid) {
            Ok(Dereference::Data(entity)) => Some(Lent::Truth(entity.get(attr.as_str()).is_some())),
            _ => None,
        },
        _ => None,
    }
}

// An operator of one operand.
fn unary<'a>(op: UnaryOp, of: Lent<'a>) -> Option<Lent<'a>>
    ensures { Lends (left_of (applied (unary_op_of op) (bare (lent_made of.entry)))) result }
{
    match (op, of) {
        (UnaryOp::Not, Lent::Truth(b)) => Some(Lent::Truth(!b)),
        _ => None,
    }
}

// Whether two texts are the same.
fn same_text(s: &RcStr, t: &RcStr) -> bool
    ensures { result ≡ is_eq (text_cmp (rc_str_bytes s.now) (rc_str_bytes t.now)) }
{
    s.as_str() == t.as_str()
}

// Whether two uids are the same.
fn same_entity(u: &EntityUID, v: &EntityUID) -> bool
    ensures { result ≡ is_eq (uid_order (uid_of u.now) (uid_of v.now)) }
{
    u.same(v)
}

// Whether two values of one kind are equal.
fn equal<'a>(a: Lent<'a>, b: Lent<'a>) -> Option<bool>
    ensures { IfSome result (λ q. value_eq (bare (lent_made a.entry)) (bare (lent_made b.entry)) ≡ q) }
{
    match (a, b) {
        (Lent::Truth(a), Lent::Truth(b)) => Some(a.cmp(&b).is_eq()),
        (Lent::Long(m), Lent::Long(n)) => Some(m.cmp(&n).is_eq()),
        (Lent::Text(s), Lent::Text(t)) => Some(same_text(s, t)),
        (Lent::Entity(u), Lent::Entity(v)) => Some(same_entity(u, v)),
        (Lent::Value(v), Lent::Value(w)) => Some(v.same(w)),
        _ => None,
    }
}

// An operator of two whole numbers.
fn of_numbers<'a>(op: BinaryOp, m: i64, n: i64) -> Option<Lent<'a>>
    ensures { (s : Scope) → Lends (combined_left s (binary_op_of op) (made_prim (long m)) (made_prim (long n))) result }
{
    match op {
        BinaryOp::Less => Some(Lent::Truth(m.cmp(&n).is_lt())),
        BinaryOp::LessEq => Some(Lent::Truth(m.cmp(&n).is_le())),
        BinaryOp::Add => Some(Lent::Long(m.checked_add(n)?)),
        BinaryOp::Sub => Some(Lent::Long(m.checked_sub(n)?)),
        BinaryOp::Mul => Some(Lent::Long(m.checked_mul(n)?)),
        _ => None,
    }
}

// An operator of two values.
fn binary<'a>(op: BinaryOp, a: Lent<'a>, b: Lent<'a>) -> Option<Lent<'a>>
    ensures { (s : Scope) → Lends (combined_left s (binary_op_of op) (lent_made a.entry) (lent_made b.entry)) result }
{
    match op {
        BinaryOp::Eq => Some(Lent::Truth(equal(a, b)?)),
        _ => match (a, b) {
            (Lent::Long(m), Lent::Long(n)) => of_numbers(op, m, n),
            _ => None,
        },
    }
}

// Whether a text matches the pattern.
fn like<'a>(of: Lent<'a>, pattern: &Pattern) -> Option<Lent<'a>>
    ensures { Lends (left_of (like_pattern (pattern_of pattern.now) (bare (lent_made of.entry)))) result }
{
    match of {
        Lent::Text(s) => Some(Lent::Truth(pattern.wildcard_match(s.as_str()))),
        _ => None,
    }
}

// Whether an entity is of the type.
fn is_of_type<'a>(of: Lent<'a>, kind: &EntityType) -> Option<Lent<'a>>
    ensures { Lends (left_of (of_type (type_name_of kind.now) (bare (lent_made of.entry)))) result }
{
    match of {
        Lent::Entity(uid) => Some(Lent::Truth(uid.entity_type().same(kind))),
        _ => None,
    }
}

// The members of the set literal of which `contains` is asked.
fn members_asked(op: BinaryOp, first: &Expr) -> Option<&[Expr]>
    ensures operator { IfSome result (λ ms. binary_op_of op ≡ contains) }
    ensures members { IfSome result (λ ms. tree_of first.now ≡ set_literal (trees (map tree_of ms.now))) }
{
    match (op, first.expr_kind()) {
        (BinaryOp::Contains, ExprKind::Set(members)) => Some(members_of(members)),
        _ => None,
    }
}

// Whether the set literal of these members, within a limit on its depth, contains the value. The set isn't made.
#[cycle(value_lent)]
fn among<'a, T: FunctionTable>(
    alloc: Global,
    known: &'a Knowledge<'_, T>,
    limit: u32,
    members: &'a [Expr],
    of: Lent<'a>,
) -> Option<Lent<'a>>
    ensures { ContainsWithin T.table known.now limit (map tree_of members.now) (lent_made of.entry) result }
{
    if limit == 0 {
        return None;
    }
    let mut found = false;
    for member in members {
        let is_it = equal(value_lent(alloc, known, limit - 1, member)?, of)?;
        found = found || is_it;
    }
    Some(Lent::Truth(found))
}

// The value of the expression, within a limit on its depth, if it is one that is found without a copy.
#[cycle(value_lent)]
pub(crate) fn value_lent<'a, T: FunctionTable>(
    alloc: Global,
    known: &'a Knowledge<'_, T>,
    limit: u32,
    e: &'a Expr,
) -> Option<Lent<'a>>
    ensures { LendsWithin T.table known.now limit (tree_of e.now) result }
{
    if limit == 0 {
        return None;
    }
    let deeper = limit - 1;
    match e.expr_kind() {
        ExprKind::Lit(literal) => Some(of_literal(literal)),
        ExprKind::Var(v) => variable(known, *v),
        ExprKind::GetAttr { expr, attr } => {
            attribute(alloc, known, value_lent(alloc, known, deeper, expr)?, attr)
        }
        ExprKind::HasAttr { expr, attr } => {
            test(alloc, known, value_lent(alloc, known, deeper, expr)?, attr)
        }
        ExprKind::UnaryApp { op, arg } => unary(*op, value_lent(alloc, known, deeper, arg)?),
        ExprKind::BinaryApp { op, arg1, arg2 } => {
            let second = value_lent(alloc, known, deeper, arg2)?;
            match members_asked(*op, arg1) {
                Some(members) => among(alloc, known, deeper, members, second),
                None => binary(*op, value_lent(alloc, known, deeper, arg1)?, second),
            }
        }
        ExprKind::Like { expr, pattern } => like(value_lent(alloc, known, deeper, expr)?, pattern),
        ExprKind::Is { expr, entity_type } => {
            is_of_type(value_lent(alloc, known, deeper, expr)?, entity_type)
        }
        _ => None,
    }
}
