//! Operators of one operand, attributes, patterns and tests of types.

ghost use Rattle.std.specs.Prelude.{◌≡◌, option_map, option_and_then, IfOk};
ghost use Rattle.std.specs.Rc.{rc_str_bytes};
ghost use Rattle.cedar_expr_names.specs.Views.{type_name_of};
ghost use Rattle.cedar_expr_leaves.specs.Operators.{unary_op_of};
ghost use Rattle.cedar_expr_leaves.specs.Patterns.{pattern_of};
ghost use Rattle.cedar_expr_model.specs.Tree.{get_attr, has_attr, like, is_type};
ghost use Rattle.cedar_expr_trees.specs.Trees.{tree_of, kind_tree};
ghost use Rattle.cedar_typechecker_environments.specs.Facts.{capability_of, facts_of};
ghost use Rattle.cedar_typechecker_environments.specs.Settings.{setting_of};
ghost use Rattle.cedar_typechecker_environments.specs.Given.{GivesType};
ghost use Rattle.cedar_typechecker_model.specs.Typed.{unary_typed, like_typed, is_typed, noted, one};
ghost use Rattle.cedar_schema_types.specs.Kinds.{bool_type_of};
ghost use Rattle.cedar_schema_types.specs.Types.{type_of};
ghost use Rattle.cedar_typechecker_model.specs.Rules.{has_type as model_has_type};
ghost use Rattle.cedar_typechecker_model.specs.Facts.{attribute_part};
ghost use Rattle.cedar_typechecker_model.specs.Typing.{plain, tested as model_tested};
ghost use Rattle.cedar_typechecker_answers.specs.Marked.{marks_of, kind_marks};
ghost use Rattle.cedar_typechecker_answers.specs.Answers.{seen, judgement_seen};
ghost use Rattle.cedar_typechecker_answers.specs.Nodes.{Judges};
ghost use Rattle.cedar_typechecker_operators.specs.Operators.{attribute_by, known_attribute, has_by, attribute_tested};

use cedar_expr_leaves::{Pattern, UnaryOp};
use cedar_expr_names::{EntityType, Loc};
use cedar_expr_trees::{Expr, ExprKind};
use cedar_schema_types::{BoolType, Type};
use cedar_typechecker_answers::{
    Faults, Judged, TypecheckAnswer, TypingErrorKind, judged_node, no_type, plain_node,
};
use cedar_typechecker_environments::{Capability, CapabilitySet, TypingSchema, World};
use cedar_typechecker_rules::{get_type, has_type, is_type_type, like_type, unary_type};
use std::alloc::{AllocError, Global};
use std::rc::{Rc, RcStr};

/// The answer of an operator by that of its operand.
pub fn unary_answer<'a>(
    alloc: Global,
    faults: &mut Faults,
    place: Option<Loc>,
    op: UnaryOp,
    arg: TypecheckAnswer<'a>,
) -> Result<TypecheckAnswer<'a>, AllocError>
    ensures { IfOk result (λ a. seen a ≡ option_and_then (unary_typed (unary_op_of op)) (seen arg.entry)) }
{
    let TypecheckAnswer::Success {
        expr_type: expr,
        ..
    } = arg
    else {
        return Ok(no_type());
    };
    let Some(operand) = expr.data() else {
        return Ok(no_type());
    };
    let ty = unary_type(op, operand);
    let arg = Rc::new(alloc, expr)?;
    let kind = ExprKind::UnaryApp { op, arg };
    plain_node(
        alloc,
        faults,
        kind,
        place,
        ty,
        TypingErrorKind::UnexpectedType,
    )
}

/// The answer of a test against a pattern by that of its operand.
pub fn like_answer<'a>(
    alloc: Global,
    faults: &mut Faults,
    place: Option<Loc>,
    pattern: &Pattern,
    arg: TypecheckAnswer<'a>,
) -> Result<TypecheckAnswer<'a>, AllocError>
    ensures { IfOk result (λ a. seen a ≡ option_and_then (like_typed (pattern_of pattern.now)) (seen arg.entry)) }
{
    let TypecheckAnswer::Success {
        expr_type: expr,
        ..
    } = arg
    else {
        return Ok(no_type());
    };
    let Some(operand) = expr.data() else {
        return Ok(no_type());
    };
    let ty = like_type(operand);
    like_node(alloc, faults, place, expr, pattern, ty)
}

// The node of a test of this expression against a pattern, by its type.
fn like_node<'a>(
    alloc: Global,
    faults: &mut Faults,
    place: Option<Loc>,
    expr: Expr<Option<Type>>,
    pattern: &Pattern,
    ty: Option<Type>,
) -> Result<TypecheckAnswer<'a>, AllocError>
    ensures { IfOk result (λ a. seen a ≡ noted (like (tree_of expr) (pattern_of pattern.now)) (one (marks_of expr)) (plain (option_map type_of ty))) }
{
    let pattern = pattern.clone()?;
    let expr = Rc::new(alloc, expr)?;
    let kind = ExprKind::Like { expr, pattern };
    let wrong = TypingErrorKind::UnexpectedType;
    plain_node(alloc, faults, kind, place, ty, wrong)
}

/// The answer of a test of an entity's type by that of its operand.
pub fn is_answer<'a>(
    alloc: Global,
    faults: &mut Faults,
    place: Option<Loc>,
    kind: &EntityType,
    arg: TypecheckAnswer<'a>,
) -> Result<TypecheckAnswer<'a>, AllocError>
    ensures { IfOk result (λ a. seen a ≡ option_and_then (is_typed (type_name_of kind.now)) (seen arg.entry)) }
{
    let TypecheckAnswer::Success {
        expr_type: expr,
        ..
    } = arg
    else {
        return Ok(no_type());
    };
    let Some(operand) = expr.data() else {
        return Ok(no_type());
    };
    let ty = is_type_type(kind, operand);
    is_node(alloc, faults, place, expr, kind, ty)
}

// The node of a test of this expression's entity type, by its type.
fn is_node<'a>(
    alloc: Global,
    faults: &mut Faults,
    place: Option<Loc>,
    expr: Expr<Option<Type>>,
    kind: &EntityType,
    ty: Option<Type>,
) -> Result<TypecheckAnswer<'a>, AllocError>
    ensures { IfOk result (λ a. seen a ≡ noted (is_type (tree_of expr) (type_name_of kind.now)) (one (marks_of expr)) (plain (option_map type_of ty))) }
{
    let entity_type = kind.clone()?;
    let expr = Rc::new(alloc, expr)?;
    let kind = ExprKind::Is { expr, entity_type };
    let wrong = TypingErrorKind::UnexpectedType;
    plain_node(alloc, faults, kind, place, ty, wrong)
}

/// The answer of an attribute's value by that of what has it, where these facts are known.
pub fn get_answer<'a, S: TypingSchema>(
    alloc: Global,
    world: &World<'_, S>,
    known: &CapabilitySet<'a>,
    faults: &mut Faults,
    place: Option<Loc>,
    of: &'a Expr,
    attr: &RcStr,
    arg: TypecheckAnswer<'a>,
) -> Result<TypecheckAnswer<'a>, AllocError>
    ensures { IfOk result (λ a. seen a ≡ attribute_by S.schema S.table world.now known.now of.entry.now attr.now arg.entry) }
{
    let TypecheckAnswer::Success {
        expr_type: expr,
        ..
    } = arg
    else {
        return Ok(no_type());
    };
    let Some(operand) = expr.data() else {
        return Ok(no_type());
    };
    let ty = known_type(alloc, world, known, of, operand, attr)?;
    get_node(alloc, faults, place, expr, attr, ty)
}

// The node of an attribute's value, by its type.
fn get_node<'a>(
    alloc: Global,
    faults: &mut Faults,
    place: Option<Loc>,
    expr: Expr<Option<Type>>,
    attr: &RcStr,
    ty: Option<Type>,
) -> Result<TypecheckAnswer<'a>, AllocError>
    ensures { IfOk result (λ a. seen a ≡ noted (get_attr (tree_of expr) (rc_str_bytes attr.now)) (one (marks_of expr)) (plain (option_map type_of ty))) }
{
    let wrong = TypingErrorKind::UnsafeAttributeAccess(attr.clone()?);
    let kind = get_kind(alloc, expr, attr)?;
    plain_node(alloc, faults, kind, place, ty, wrong)
}

// The kind of an attribute's value.
fn get_kind(
    alloc: Global,
    expr: Expr<Option<Type>>,
    attr: &RcStr,
) -> Result<ExprKind<Option<Type>>, AllocError>
    ensures tree { IfOk result (λ k. kind_tree k ≡ get_attr (tree_of expr) (rc_str_bytes attr.now)) }
    ensures marks { IfOk result (λ k. kind_marks k ≡ one (marks_of expr)) }
{
    let attr = attr.clone()?;
    let expr = Rc::new(alloc, expr)?;
    Ok(ExprKind::GetAttr { expr, attr })
}

/// The type of an attribute that is declared and required, or one of the facts.
pub fn known_type<'a, S: TypingSchema>(
    alloc: Global,
    world: &World<'_, S>,
    known: &CapabilitySet<'a>,
    of: &'a Expr,
    ty: &Type,
    attr: &RcStr,
) -> Result<Option<Type>, AllocError>
    ensures { IfOk result (GivesType (known_attribute S.schema S.table world.now known.now of.entry.now ty.now attr.now)) }
{
    let is_known = is_known(known, of, attr)?;
    get_type(alloc, world, ty, attr.as_str(), is_known)
}

// Whether it is one of the facts that the expression has the attribute.
fn is_known<'a>(known: &CapabilitySet<'a>, of: &'a Expr, attr: &RcStr) -> Result<bool, AllocError>
    ensures { IfOk result (λ b. b ≡ facts_of known.now (tree_of of.entry.now) (attribute_part (rc_str_bytes attr.now))) }
{
    let fact = Capability::new_attribute(of, attr.clone()?);
    Ok(known.contains(&fact))
}

/// The answer of a test of an attribute by that of what may have it.
pub fn has_answer<'a, S: TypingSchema>(
    alloc: Global,
    world: &World<'_, S>,
    faults: &mut Faults,
    place: Option<Loc>,
    of: &'a Expr,
    attr: &RcStr,
    arg: TypecheckAnswer<'a>,
) -> Result<TypecheckAnswer<'a>, AllocError>
    ensures { IfOk result (λ a. seen a ≡ has_by S.schema S.table world.now of.entry.now attr.now arg.entry) }
{
    let TypecheckAnswer::Success {
        expr_type: expr,
        ..
    } = arg
    else {
        return Ok(no_type());
    };
    let Some(operand) = expr.data() else {
        return Ok(no_type());
    };
    let judged = attribute_judgement(alloc, world, of, attr, operand)?;
    has_node(alloc, faults, place, expr, attr, judged)
}

// The node of a test of an attribute, by its judgement.
fn has_node<'a>(
    alloc: Global,
    faults: &mut Faults,
    place: Option<Loc>,
    expr: Expr<Option<Type>>,
    attr: &RcStr,
    judged: Option<Judged<'a>>,
) -> Result<TypecheckAnswer<'a>, AllocError>
    ensures { IfOk result (λ a. seen a ≡ noted (has_attr (tree_of expr) (rc_str_bytes attr.now)) (one (marks_of expr)) (option_map judgement_seen judged.entry)) }
{
    let attr = attr.clone()?;
    let expr = Rc::new(alloc, expr)?;
    let kind = ExprKind::HasAttr { expr, attr };
    judged_node(faults, kind, place, judged, TypingErrorKind::UnexpectedType)
}

/// The judgement of the test that the expression, which is of this type, has the attribute.
pub fn attribute_judgement<'a, S: TypingSchema>(
    alloc: Global,
    world: &World<'_, S>,
    of: &'a Expr,
    attr: &RcStr,
    ty: &Type,
) -> Result<Option<Judged<'a>>, AllocError>
    ensures { IfOk result (Judges (attribute_tested S.schema S.table world.now of.entry.now ty.now attr.now)) }
{
    let there = attribute_there(world, ty, attr);
    let fact = Capability::new_attribute(of, attr.clone()?);
    tested(alloc, fact, there)
}

// Whether the values of the type have the attribute, where that may be asked of them.
pub(crate) fn attribute_there<S: TypingSchema>(
    world: &World<'_, S>,
    ty: &Type,
    attr: &RcStr,
) -> Option<BoolType>
    ensures { option_map bool_type_of result ≡ model_has_type (setting_of S.schema S.table world.now) (type_of ty.now) (rc_str_bytes attr.now) }
{
    has_type(world, ty, attr.as_str())
}

// The judgement of a test of a part, by whether it is there. Where that isn't decided the test gives the fact.
pub(crate) fn tested<'a>(
    alloc: Global,
    fact: Capability<'a>,
    there: Option<BoolType>,
) -> Result<Option<Judged<'a>>, AllocError>
    ensures { IfOk result (Judges (option_map (model_tested (capability_of fact.entry).0 (capability_of fact.entry).1) (option_map bool_type_of there))) }
{
    match there {
        Some(BoolType::AnyBool) => Ok(Some(Judged {
            ty: Type::Bool(BoolType::AnyBool),
            known: CapabilitySet::singleton(alloc, fact)?,
        })),
        Some(BoolType::True) => Ok(Some(Judged {
            ty: Type::Bool(BoolType::True),
            known: CapabilitySet::new(alloc),
        })),
        Some(BoolType::False) => Ok(Some(Judged {
            ty: Type::Bool(BoolType::False),
            known: CapabilitySet::new(alloc),
        })),
        None => Ok(None),
    }
}
