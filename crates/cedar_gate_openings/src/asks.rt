//! Questions on the unknowns of a context.

ghost use Rattle.std.specs.Prelude.{◌≡◌, not, is_some, Bool, IfOk};
ghost use Rattle.std.specs.List.{list_any};
ghost use Rattle.std.specs.Str.{bytes_eq};
ghost use Rattle.cedar_expr_model.specs.Parts.{Unknown as ModelUnknown, unknowns};
ghost use Rattle.cedar_expr_model.specs.Substitution.{fits_annotation};
ghost use Rattle.cedar_expr_trees.specs.Trees.{tree_of};
ghost use Rattle.cedar_expr_trees.specs.Unknowns.{unknown_of};
ghost use Rattle.cedar_expr_values.specs.Extensions.{extension_of};
ghost use Rattle.cedar_expr_values.specs.Values.{bare};
ghost use Rattle.cedar_gate_openings.specs.Names.{bound_in, has_quote, is_variable_name};
ghost use Rattle.cedar_gate_openings.specs.Values.{is_against_one};

use crate::values::V;
use cedar_expr_trees::{Expr, Unknown};
use cedar_expr_values::StaticallyTyped;
use std::alloc::{AllocError, Global};
use std::collections::HashMap;
use std::rc::RcStr;

/// A question on an unknown.
pub(crate) trait Asks {
    /// What it answers.
    ghost holds: { Self → ModelUnknown → Bool };

    /// Answers for an unknown. Fails only when out of memory.
    fn asks(&self, unknown: &Unknown) -> Result<bool, AllocError>
        ensures { IfOk result (λ b. b ≡ holds self.now (unknown_of unknown.now)) };
}

/// Whether the question holds of some unknown of the expression. Errors: out of memory.
#[tactic(auto, using(crate::proofs::Asking::any_stop, crate::proofs::Asking::any_next, crate::proofs::Asking::any_end))]
pub(crate) fn any_unknown<A: Asks>(
    alloc: Global,
    e: &Expr,
    question: &A,
) -> Result<bool, AllocError>
    ensures { IfOk result (λ b. b ≡ list_any (A.holds question.now) (unknowns (tree_of e.now))) }
{
    for unknown in e.unknowns(alloc)? {
        if question.asks(unknown)? {
            return Ok(true);
        }
    }
    Ok(false)
}

/// Whether it has this name.
#[derive(Drop)]
pub(crate) struct IsNamed<'a> {
    /// The name.
    pub(crate) name: &'a str,
}

impl Asks for IsNamed<'_> {
    ghost holds = { λ q u. bytes_eq q.name.now u.name };

    fn asks(&self, unknown: &Unknown) -> Result<bool, AllocError> {
        Ok(self.name == unknown.name.as_str())
    }
}

/// Whether it isn't bound by this map.
#[derive(Drop)]
pub(crate) struct IsUnbound<'a> {
    /// What is bound.
    pub(crate) bound: &'a HashMap<RcStr, V>,
}

impl Asks for IsUnbound<'_> {
    ghost holds = { λ q u. not (is_some (bound_in q.bound.now u.name)) };

    fn asks(&self, unknown: &Unknown) -> Result<bool, AllocError> {
        Ok(!is_bound(self.bound, unknown.name.as_str()))
    }
}

/// Whether the name is bound.
pub(crate) fn is_bound(bound: &HashMap<RcStr, V>, name: &str) -> bool
    ensures { result ≡ is_some (bound_in bound.now name.now) }
{
    bound.contains_key(name)
}

/// Whether it has this name, and the value isn't of the type that it is annotated with.
#[derive(Drop)]
pub(crate) struct IsAgainst<'a> {
    /// The name.
    pub(crate) name: &'a str,
    /// The value.
    pub(crate) value: &'a V,
}

impl Asks for IsAgainst<'_> {
    ghost holds = { λ q u. is_against_one q.name.now (bare extension_of q.value.now) u };

    fn asks(&self, unknown: &Unknown) -> Result<bool, AllocError> {
        if self.name != unknown.name.as_str() {
            return Ok(false);
        }
        Ok(!fits(unknown, self.value)?)
    }
}

// Whether the value is of the type that the unknown is annotated with.
fn fits(unknown: &Unknown, value: &V) -> Result<bool, AllocError>
    ensures { IfOk result (λ b. fits_annotation (unknown_of unknown.now).annotation (bare extension_of value.now) ≡ b) }
{
    match &unknown.type_annotation {
        None => Ok(true),
        Some(ty) => Ok(ty.same(&value.type_of()?)),
    }
}

/// Whether its name holds a double quote.
#[derive(Drop)]
pub(crate) struct HasQuote;

impl Asks for HasQuote {
    ghost holds = { λ _ u. has_quote u.name };

    fn asks(&self, unknown: &Unknown) -> Result<bool, AllocError> {
        Ok(unknown.name.as_str().as_bytes().contains(&b'"'))
    }
}

/// Whether its name is that of a variable.
#[derive(Drop)]
pub(crate) struct IsVariable;

impl Asks for IsVariable {
    ghost holds = { λ _ u. is_variable_name u.name };

    fn asks(&self, unknown: &Unknown) -> Result<bool, AllocError> {
        Ok(is_variable(unknown.name.as_str()))
    }
}

// Whether the name is that of a variable.
fn is_variable(name: &str) -> bool
    ensures { result ≡ is_variable_name name.now }
{
    matches!(name, "principal" | "action" | "resource" | "context")
}
