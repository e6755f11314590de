//! The constructors of expressions by name, and those of builders.

use cedar_expr_builders::PlainBuilder;
use cedar_expr_builders::expr_builder::ExprBuilder as Builds;
use cedar_expr_names::Loc;
use cedar_expr_trees::*;
use cedar_test_exprs::{both, expr, is, word};
use std::alloc::{AllocError, Global};
use std::rc::RcStr;

// The number.
fn n(number: i64) -> Expr {
    Expr::val(Literal::from(number))
}

pub fn relations(alloc: Global, said: &mut String) -> Result<(), AllocError> {
    is(alloc, said, Expr::is_eq(alloc, n(1), n(2)), "1 2 ==")?;
    is(alloc, said, Expr::noteq(alloc, n(1), n(2)), "1 2 == !")?;
    is(alloc, said, Expr::less(alloc, n(1), n(2)), "1 2 <")?;
    is(alloc, said, Expr::lesseq(alloc, n(1), n(2)), "1 2 <=")?;
    is(alloc, said, Expr::greater(alloc, n(1), n(2)), "1 2 <= !")?;
    is(alloc, said, Expr::greatereq(alloc, n(1), n(2)), "1 2 < !")
}

pub fn sums(alloc: Global, said: &mut String) -> Result<(), AllocError> {
    is(alloc, said, Expr::add(alloc, n(1), n(2)), "1 2 +")?;
    is(alloc, said, Expr::sub(alloc, n(1), n(2)), "1 2 -")?;
    is(alloc, said, Expr::mul(alloc, n(1), n(2)), "1 2 *")?;
    is(alloc, said, Expr::rem(alloc, n(1), n(2)), "1 2 %")?;
    is(alloc, said, Expr::neg(alloc, n(1)), "1 neg")?;
    is(alloc, said, Expr::not(alloc, n(1)), "1 !")?;
    is(alloc, said, Expr::is_empty(alloc, n(1)), "1 isEmpty")?;
    is(
        alloc,
        said,
        Expr::has_attr(alloc, n(1), word(alloc, "x")?),
        "1 has=x",
    )
}

pub fn members(alloc: Global, said: &mut String) -> Result<(), AllocError> {
    is(alloc, said, Expr::is_in(alloc, n(1), n(2)), "1 2 in")?;
    is(
        alloc,
        said,
        Expr::contains(alloc, n(1), n(2)),
        "1 2 contains",
    )?;
    is(
        alloc,
        said,
        Expr::contains_all(alloc, n(1), n(2)),
        "1 2 containsAll",
    )?;
    is(
        alloc,
        said,
        Expr::contains_any(alloc, n(1), n(2)),
        "1 2 containsAny",
    )?;
    is(alloc, said, Expr::get_tag(alloc, n(1), n(2)), "1 2 getTag")?;
    is(alloc, said, Expr::has_tag(alloc, n(1), n(2)), "1 2 hasTag")
}

// The plain builder at the place 3.
fn plain() -> PlainBuilder {
    PlainBuilder::new().with_source_loc(Loc::new(3, 3))
}

pub fn built_relations(alloc: Global, said: &mut String) -> Result<(), AllocError> {
    is(alloc, said, plain().is_eq(alloc, n(1), n(2)), "1 2 ==@3")?;
    is(
        alloc,
        said,
        plain().noteq(alloc, n(1), n(2)),
        "1 2 ==@3 !@3",
    )?;
    is(alloc, said, plain().less(alloc, n(1), n(2)), "1 2 <@3")?;
    is(alloc, said, plain().lesseq(alloc, n(1), n(2)), "1 2 <=@3")?;
    is(
        alloc,
        said,
        plain().greater(alloc, n(1), n(2)),
        "1 2 <=@3 !@3",
    )?;
    is(
        alloc,
        said,
        plain().greatereq(alloc, n(1), n(2)),
        "1 2 <@3 !@3",
    )
}

pub fn built_sums(alloc: Global, said: &mut String) -> Result<(), AllocError> {
    is(alloc, said, plain().add(alloc, n(1), n(2)), "1 2 +@3")?;
    is(alloc, said, plain().sub(alloc, n(1), n(2)), "1 2 -@3")?;
    is(alloc, said, plain().mul(alloc, n(1), n(2)), "1 2 *@3")?;
    is(alloc, said, plain().rem(alloc, n(1), n(2)), "1 2 %@3")?;
    is(alloc, said, plain().neg(alloc, n(1)), "1 neg@3")?;
    is(alloc, said, plain().not(alloc, n(1)), "1 !@3")?;
    is(alloc, said, plain().is_empty(alloc, n(1)), "1 isEmpty@3")?;
    is(
        alloc,
        said,
        plain().ite(alloc, n(1), n(2), n(1)),
        "1 2 1 if@3",
    )
}

pub fn built_members(alloc: Global, said: &mut String) -> Result<(), AllocError> {
    is(alloc, said, plain().is_in(alloc, n(1), n(2)), "1 2 in@3")?;
    is(
        alloc,
        said,
        plain().contains(alloc, n(1), n(2)),
        "1 2 contains@3",
    )?;
    is(
        alloc,
        said,
        plain().contains_all(alloc, n(1), n(2)),
        "1 2 containsAll@3",
    )?;
    is(
        alloc,
        said,
        plain().contains_any(alloc, n(1), n(2)),
        "1 2 containsAny@3",
    )?;
    is(
        alloc,
        said,
        plain().get_tag(alloc, n(1), n(2)),
        "1 2 getTag@3",
    )?;
    is(
        alloc,
        said,
        plain().has_tag(alloc, n(1), n(2)),
        "1 2 hasTag@3",
    )
}

// The names and expressions of a text, as in `b=1 a=2`.
fn pairs(alloc: Global, text: &str) -> Result<Vec<(RcStr, Expr)>, AllocError> {
    let mut pairs = Vec::new(alloc);
    for pair in text.split(' ') {
        let (name, text) = pair.split_once('=').ok_or(AllocError)?;
        pairs.push(both(word(alloc, name), expr(alloc, text))?)?;
    }
    Ok(pairs)
}

pub fn record(alloc: Global, text: &str) -> Result<Expr, ExpressionConstructionError> {
    Expr::record(alloc, pairs(alloc, text)?)
}

pub fn built_record(alloc: Global, text: &str) -> Result<Expr, ExpressionConstructionError> {
    plain().record(alloc, pairs(alloc, text)?)
}
