//! Tests of paths of attributes.

ghost use Rattle.std.specs.Prelude.{◌≡◌, [], IfOk};
ghost use Rattle.std.specs.Rc.{rc_str_bytes};
ghost use Rattle.cedar_expr_model.specs.Tree.{get_attr};
ghost use Rattle.cedar_expr_trees.specs.Trees.{tree_of};
ghost use Rattle.cedar_schema_model.specs.Types.{bool_type, only_false};
ghost use Rattle.cedar_schema_types.specs.Kinds.{bool_type_of};
ghost use Rattle.cedar_schema_types.specs.Types.{type_of};
ghost use Rattle.cedar_typechecker_environments.specs.Along.{AlongPath};
ghost use Rattle.cedar_typechecker_environments.specs.Facts.{capability_of};
ghost use Rattle.cedar_typechecker_model.specs.Facts.{no_facts, attribute_part};
ghost use Rattle.cedar_typechecker_environments.specs.Settings.{setting_of};
ghost use Rattle.cedar_typechecker_answers.specs.Answers.{seen, judgement_seen};
ghost use Rattle.cedar_typechecker_operators.specs.Ways.{type_of_tests, tests_judged, judged_on, IsOnPath, IsPast, IsNoted, PassesOn, PassesPast};
ghost use Rattle.cedar_typechecker_answers.specs.Nodes.{Judges};
ghost use Rattle.cedar_typechecker_operators.specs.Operators.{path_by, path_judged_of};

use crate::operators::attribute_there;
use cedar_expr_leaves::NonEmpty;
use cedar_expr_names::Loc;
use cedar_expr_trees::{Expr, ExprKind};
use cedar_schema_types::{BoolType, Type};
use cedar_typechecker_answers::{
    Faults, Judged, TypecheckAnswer, TypingErrorKind, judged_node, no_type,
};
use cedar_typechecker_environments::{Capability, CapabilitySet, TypingSchema, World};
use cedar_typechecker_rules::step_type;
use std::alloc::{AllocError, Global};
use std::rc::{Rc, RcStr};

/// The answer of a test of a path by that of what may have its first attribute.
pub fn path_answer<'a, S: TypingSchema>(
    alloc: Global,
    world: &World<'_, S>,
    faults: &mut Faults,
    place: Option<Loc>,
    of: &Rc<Expr>,
    path: &Rc<NonEmpty<RcStr>>,
    arg: TypecheckAnswer<'a>,
) -> Result<TypecheckAnswer<'a>, AllocError>
    ensures { IfOk result (λ a. seen a ≡ path_by S.schema S.table world.now of.now.value path.now.value arg.entry) }
{
    let TypecheckAnswer::Success {
        expr_type: expr,
        ..
    } = arg
    else {
        return Ok(no_type());
    };
    let Some(operand) = expr.data() else {
        return Ok(no_type());
    };
    let judged = path_judgement(alloc, world, of, &path.head, path.tail.as_slice(), operand)?;
    let attrs = path.clone()?;
    let expr = Rc::new(alloc, expr)?;
    let kind = ExprKind::ExtHasAttr { expr, attrs };
    judged_node(faults, kind, place, judged, TypingErrorKind::UnexpectedType)
}

// The way along a path that is gone: the expression that it has come to, the type of that, and the facts of the tests on the way, in
// its order. They all rise or all fall in the order of facts, so that no two need be compared but the first.
#[derive(Drop)]
struct Way<'a> {
    at: Rc<Expr>,
    ty: Type,
    facts: Vec<Capability<'a>>,
}

// What a test on the way comes to: the judgement of the whole path, or the way gone on.
#[derive(Drop)]
enum Passed<'a> {
    Done(Option<Judged<'a>>),
    On(Way<'a>),
}

// The judgement of the test that the expression has the attribute, and that what it is has the further ones, one after the other.
fn path_judgement<'a, S: TypingSchema>(
    alloc: Global,
    world: &World<'_, S>,
    of: &Rc<Expr>,
    attr: &RcStr,
    further: &[RcStr],
    ty: &Type,
) -> Result<Option<Judged<'a>>, AllocError>
    ensures { IfOk result (Judges (path_judged_of S.schema S.table world.now of.now.value ty.now attr.now further.now)) }
{
    let mut way = begun(alloc, of, ty)?;
    let mut name = attr;
    for next in further {
        match past(alloc, world, way, name)? {
            Passed::On(on) => way = on,
            Passed::Done(judged) => return Ok(judged),
        }
        name = next;
    }
    ended(alloc, world, way, name)
}

// The way on which nothing is gone yet.
fn begun<'a>(alloc: Global, of: &Rc<Expr>, ty: &Type) -> Result<Way<'a>, AllocError>
    ensures { IfOk result (λ w. (tree_of w.at.value ≡ tree_of of.now.value) × (type_of w.ty ≡ type_of ty.now) × (w.facts.items ≡ [])) }
{
    Ok(Way {
        at: of.clone()?,
        ty: ty.clone()?,
        facts: Vec::new(alloc),
    })
}

// The way past the test of the attribute, which others follow.
fn past<'a, S: TypingSchema>(
    alloc: Global,
    world: &World<'_, S>,
    way: Way<'a>,
    attr: &RcStr,
) -> Result<Passed<'a>, AllocError>
    requires { IsOnPath way }
    ensures { IfOk result (PassesOn (setting_of S.schema S.table world.now) way.entry (rc_str_bytes attr.now)) }
{
    match attribute_there(world, &way.ty, attr) {
        None => Ok(Passed::Done(None)),
        Some(BoolType::False) => Ok(Passed::Done(Some(never(alloc)))),
        Some(BoolType::True) => gone_on(alloc, world, way, attr),
        Some(BoolType::AnyBool) => gone_on(alloc, world, noted(way, attr)?, attr),
    }
}

// The way gone on to the attribute's value, if the attribute is declared.
fn gone_on<'a, S: TypingSchema>(
    alloc: Global,
    world: &World<'_, S>,
    way: Way<'a>,
    attr: &RcStr,
) -> Result<Passed<'a>, AllocError>
    requires { IsPast way (rc_str_bytes attr.now) }
    ensures { IfOk result (PassesPast (setting_of S.schema S.table world.now) way.entry (rc_str_bytes attr.now)) }
{
    let Some(ty) = step_type(alloc, world, &way.ty, attr.as_str())? else {
        return Ok(Passed::Done(None));
    };
    let Way { at, ty: _, facts } = way;
    let at = attribute_of(alloc, &at, attr)?;
    Ok(Passed::On(Way { at, ty, facts }))
}

// The way with the fact that the expression that it has come to has the attribute.
fn noted<'a>(way: Way<'a>, attr: &RcStr) -> Result<Way<'a>, AllocError>
    ensures { IfOk result (IsNoted way.entry (rc_str_bytes attr.now)) }
{
    let Way { at, ty, mut facts } = way;
    facts.push(fact(&at, attr)?)?;
    Ok(Way { at, ty, facts })
}

// The judgement of the whole path by the way gone and the test of the attribute, which is the last.
fn ended<'a, S: TypingSchema>(
    alloc: Global,
    world: &World<'_, S>,
    way: Way<'a>,
    attr: &RcStr,
) -> Result<Option<Judged<'a>>, AllocError>
    requires { IsOnPath way }
    ensures { IfOk result (Judges (judged_on (setting_of S.schema S.table world.now) way.entry (rc_str_bytes attr.now) [])) }
{
    match attribute_there(world, &way.ty, attr) {
        None => Ok(None),
        Some(BoolType::False) => Ok(Some(never(alloc))),
        Some(BoolType::True) => Ok(Some(tests_of(way))),
        Some(BoolType::AnyBool) => Ok(Some(tests_of(noted(way, attr)?))),
    }
}

// The judgement of a conjunction of which a test is False.
fn never<'a>(alloc: Global) -> Judged<'a>
    ensures { judgement_seen result ≡ record { type = bool_type only_false; facts = no_facts } }
{
    Judged {
        ty: Type::Bool(BoolType::False),
        known: CapabilitySet::new(alloc),
    }
}

// The judgement of the tests on the way gone.
fn tests_of<'a>(way: Way<'a>) -> Judged<'a>
    requires { AlongPath way.facts.items }
    ensures { judgement_seen result ≡ tests_judged way.entry.facts.items }
{
    let Way {
        at: _,
        ty: _,
        facts,
    } = way;
    let ty = Type::Bool(type_of_tests(facts.as_slice()));
    Judged {
        ty,
        known: CapabilitySet::along(facts),
    }
}

// True where no test gives a fact, and else the type of both truth values.
fn type_of_tests(facts: &[Capability<'_>]) -> BoolType
    ensures { bool_type_of result ≡ type_of_tests facts.now }
{
    match facts {
        [] => BoolType::True,
        _ => BoolType::AnyBool,
    }
}

// The value of the attribute, as an expression.
fn attribute_of(alloc: Global, of: &Rc<Expr>, attr: &RcStr) -> Result<Rc<Expr>, AllocError>
    ensures { IfOk result (λ e. tree_of e.value ≡ get_attr (tree_of of.now.value) (rc_str_bytes attr.now)) }
{
    let expr = of.clone()?;
    let attr = attr.clone()?;
    Ok(Rc::new(alloc, Expr::new(ExprKind::GetAttr { expr, attr }, None, ()))?)
}

// The fact that the expression has the attribute.
fn fact<'a>(of: &Rc<Expr>, attr: &RcStr) -> Result<Capability<'a>, AllocError>
    ensures { IfOk result (λ c. capability_of c ≡ (tree_of of.now.value, attribute_part (rc_str_bytes attr.now))) }
{
    let expr: &Expr = of;
    Ok(Capability::new_attribute_owned(expr.clone()?, attr.clone()?))
}
