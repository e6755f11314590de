//! What is gathered of the parts of an expression while each is built: of two, of three, of rows, and of the fields of records.

ghost use Rattle.std.specs.Prelude.{◌≡◌, true, [], ◌∷◌, ◌++◌, map, IfOk, IfErr};
ghost use Rattle.std.specs.declared.result.Result.TheVariants.{Ok};
ghost use Rattle.std.specs.Rc.{rc_str_bytes};
ghost use Rattle.cedar_expr_model.specs.Records.{names_rise};
ghost use Rattle.cedar_expr_trees.specs.Trees.{named};
ghost use Rattle.cedar_expr_builders.specs.Views.{meant};
ghost use Rattle.cedar_expr_builders.specs.declared.err.BuildFault.TheVariants.{OutOfMemory};
ghost use Rattle.cedar_expr_substitution.specs.Steps.{StepMakes, StepRefuses, of_two, of_three};

use cedar_expr_builders::BuildFault;
use cedar_expr_builders::expr_builder::ExprBuilder;
use cedar_expr_trees::Expr;
use std::alloc::Global;
use std::collections::BTreeMap;
use std::rc::{Rc, RcStr};

// The arguments of a call, or the members of a set.
pub(crate) fn members_of<T>(row: &Rc<Vec<Expr<T>>>) -> &[Expr<T>]
    ensures { result.now ≡ row.now.value.items }
{
    row.as_slice()
}

// Room for what is made of so many.
pub(crate) fn room<A: Drop, E>(alloc: Global, count: usize) -> Result<Vec<A>, BuildFault<E>>
    ensures made { IfOk result (λ v. v.items ≡ []) }
    ensures refused { IfErr result (λ f. f ≡ OutOfMemory) }
{
    Ok(Vec::with_capacity(alloc, count)?)
}

// Room for what is made of these fields, whose names rise.
pub(crate) fn room_for_fields<B: ExprBuilder, T>(
    alloc: Global,
    fields: &BTreeMap<RcStr, Expr<T>>,
) -> Result<Vec<(RcStr, B::Expr)>, BuildFault<B::BuildError>>
    ensures made { IfOk result (λ v. v.items ≡ []) }
    ensures rising { names_rise (named fields.now.entries) ≡ true }
    ensures refused { IfErr result (λ f. f ≡ OutOfMemory) }
{
    room(alloc, fields.len())
}

// This one, and what was made of the next.
pub(crate) fn two<B: ExprBuilder>(
    first: B::Expr,
    second: Result<B::Expr, BuildFault<B::BuildError>>,
) -> Result<(B::Expr, B::Expr), BuildFault<B::BuildError>>
    ensures made { StepMakes {R = B.Refusal} B.means (of_two B.means) (λ y. Ok (B.means first, y)) second result }
    ensures refused { StepRefuses {N = B.Meaning × B.Meaning} B.means B.says (λ y. Ok (B.means first, y)) second result }
{
    let second = second?;
    Ok((first, second))
}

// These two, and what was made of the next.
pub(crate) fn three<B: ExprBuilder>(
    two: (B::Expr, B::Expr),
    third: Result<B::Expr, BuildFault<B::BuildError>>,
) -> Result<(B::Expr, B::Expr, B::Expr), BuildFault<B::BuildError>>
    ensures made { StepMakes {R = B.Refusal} B.means (of_three B.means) (λ z. Ok (B.means two.0, B.means two.1, z)) third result }
    ensures refused { StepRefuses {N = B.Meaning × B.Meaning × B.Meaning} B.means B.says (λ z. Ok (B.means two.0, B.means two.1, z)) third result }
{
    let third = third?;
    let (first, second) = two;
    Ok((first, second, third))
}

// These, and what was made of the next.
pub(crate) fn with_next<B: ExprBuilder>(
    mut made: Vec<B::Expr>,
    next: Result<B::Expr, BuildFault<B::BuildError>>,
) -> Result<Vec<B::Expr>, BuildFault<B::BuildError>>
    ensures made { StepMakes {R = B.Refusal} B.means (λ v. map B.means v.items) (λ x. Ok (map B.means made.items ++ x ∷ [])) next result }
    ensures refused { StepRefuses B.means B.says (λ x. Ok (map B.means made.items ++ x ∷ [])) next result }
{
    made.push(next?)?;
    Ok(made)
}

// These, and what was made of the next under its name.
pub(crate) fn with_field<B: ExprBuilder>(
    mut made: Vec<(RcStr, B::Expr)>,
    name: &RcStr,
    next: Result<B::Expr, BuildFault<B::BuildError>>,
) -> Result<Vec<(RcStr, B::Expr)>, BuildFault<B::BuildError>>
    ensures made { StepMakes {R = B.Refusal} B.means (λ v. named (meant B.means v.items)) (λ x. Ok (named (meant B.means made.items) ++ (rc_str_bytes name.now, x) ∷ [])) next result }
    ensures refused { StepRefuses B.means B.says (λ x. Ok (named (meant B.means made.items) ++ (rc_str_bytes name.now, x) ∷ [])) next result }
{
    let next = next?;
    made.push((name.clone()?, next))?;
    Ok(made)
}
