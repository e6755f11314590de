//! Lists of so many items: a cycle of calls recognizes them by these functions, so that each of its own is proved by what a list is and not
//! by how long it is.

ghost use Rattle.std.specs.Prelude.{◌≡◌, [], ◌∷◌, None, IfSome, IfNone};
ghost use Rattle.cedar_expr_model.specs.Tree.{Tree, record_literal};
ghost use Rattle.cedar_gate_model.specs.ReadingExpression.{Version, of_two, of_three, of_part};
ghost use Rattle.cedar_gate_expressions.specs.Parts.{parts};

use serde_json::Value;

/// The first item and the others, if there is an item.
#[tactic(auto, using(crate::proofs::FewItems::first))]
pub(crate) fn first_of<'a>(items: &'a [Value]) -> Option<(&'a Value, &'a [Value])>
    ensures first { IfSome result (λ p. items.entry.now ≡ p.0.now ∷ p.1.now) }
    ensures nothing { IfNone result (items.entry.now ≡ []) }
{
    match items {
        [x, rest @ ..] => Some((x, rest)),
        [] => None,
    }
}

/// The item, if there is exactly one.
#[tactic(auto, using(crate::proofs::FewItems::one, crate::proofs::Short::no_record))]
pub(crate) fn one_of<'a>(items: &'a [Value]) -> Option<&'a Value>
    ensures one { IfSome result (λ x. items.entry.now ≡ x.now ∷ []) }
    ensures nothing { IfNone result ((v : Version) → of_part record_literal (λ x. x.fields) (parts v items.entry.now) ≡ None) }
{
    match items {
        [x] => Some(x),
        [] => None,
        [_, _, ..] => None,
    }
}

/// The two items, if there are exactly two.
#[tactic(auto, using(crate::proofs::FewItems::two, crate::proofs::Short::too_few_for_two, crate::proofs::Short::too_many_for_two))]
pub(crate) fn two_of<'a>(items: &'a [Value]) -> Option<(&'a Value, &'a Value)>
    ensures two { IfSome result (λ p. items.entry.now ≡ p.0.now ∷ p.1.now ∷ []) }
    ensures nothing { IfNone result ((v : Version) (f : Tree → Tree → Tree) → of_two f (parts v items.entry.now) ≡ None) }
{
    match items {
        [x, y] => Some((x, y)),
        [] => None,
        [_] => None,
        [_, _, _, ..] => None,
    }
}

/// The three items, if there are exactly three.
#[tactic(auto, using(crate::proofs::FewItems::three, crate::proofs::Short::too_few_for_three, crate::proofs::Short::too_many_for_three))]
pub(crate) fn three_of<'a>(items: &'a [Value]) -> Option<(&'a Value, &'a Value, &'a Value)>
    ensures three { IfSome result (λ p. items.entry.now ≡ p.0.now ∷ p.1.now ∷ p.2.now ∷ []) }
    ensures nothing { IfNone result ((v : Version) (f : Tree → Tree → Tree → Tree) → of_three f (parts v items.entry.now) ≡ None) }
{
    match items {
        [x, y, z] => Some((x, y, z)),
        [] => None,
        [_] => None,
        [_, _] => None,
        [_, _, _, _, ..] => None,
    }
}
