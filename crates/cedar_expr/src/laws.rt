//! How parts of expressions, of values and of calls are compared and hashed. Each function's contract is the theorem; its body
//! does nothing.

ghost use Rattle.std.specs.Prelude.{◌≡◌, ◌&&◌, ◌∷◌, true, false};
ghost use Rattle.std.specs.Bool.{Decides};
ghost use Rattle.std.specs.Cmp.Lexicographic.{pointwise, slice_cmp};
ghost use Rattle.std.specs.Option.{option_cmp};
ghost use Rattle.std.specs.Ordering.{is_eq, nat_cmp, ordering_then};
ghost use Rattle.std.specs.declared.cmp.Ordering.TheVariants.{Less};
ghost use Rattle.cedar_expr_model.specs.Order.{text_cmp, core_cmp};
ghost use Rattle.cedar_expr_model.specs.Shape.{slot_cmp};
ghost use Rattle.cedar_expr_names.specs.Views.{loc_start, loc_end};
ghost use Rattle.cedar_expr_names.specs.declared.loc.Loc.{Loc as Place};
ghost use Rattle.cedar_expr_leaves.specs.Views.{possible_names, referred, written_name};
ghost use Rattle.cedar_expr_leaves.specs.declared.conditional_name.ConditionalName.{ConditionalName as Written};
ghost use Rattle.cedar_expr_leaves.specs.declared.conditional_name.ReferenceType.{ReferenceType as Referred};
ghost use Rattle.cedar_expr_leaves.specs.declared.conditional_name.ReferenceType.TheVariants.{Common, Entity, CommonOrEntity};
ghost use Rattle.cedar_expr_leaves.specs.Slots.{slot_of};
ghost use Rattle.cedar_expr_leaves.specs.declared.non_empty.NonEmpty.{NonEmpty as OneOrMore};
ghost use Rattle.cedar_expr_leaves.specs.declared.slot.Slot.{Slot as Placed};
ghost use Rattle.cedar_expr_values.specs.Extension.{extension_cmp};
ghost use Rattle.cedar_expr_values.specs.Extensions.{with_call};
ghost use Rattle.cedar_expr_values.specs.declared.value.Value.{Value as CodeValue};
ghost use Rattle.cedar_expr_values.specs.declared.extension.ExtValue.{ExtValue as Kept};
ghost use Rattle.cedar_expr_values.specs.declared.extension.RepresentableExtensionValue.{RepresentableExtensionValue as Represented};
ghost use Rattle.cedar_expr_trees.specs.Unknowns.{unknown_of};
ghost use Rattle.cedar_expr_trees.specs.declared.expr.Expr.{Expr as CodeExpr};
ghost use Rattle.cedar_expr_trees.specs.declared.expr.Unknown.{Unknown as Open};
ghost use Rattle.cedar_expr_partial.specs.declared.partial_value.PartialValue.TheVariants as partial;
ghost use Rattle.cedar_expr_functions.specs.Styles.{style_of};
ghost use Rattle.cedar_expr_functions.specs.declared.extension.CallStyle.{CallStyle as Style};
ghost use Rattle.cedar_expr_functions.specs.declared.extension.CallStyle.TheVariants.{FunctionStyle, MethodStyle};
ghost use Rattle.cedar_expr_functions.specs.declared.extension.ExtensionOutputValue.TheVariants as given;

pub use cedar_expr_builders::laws::{
    rebuilding_twice_is_once, refusals_agree, refusing_builders_are_lawful,
};
pub use cedar_expr_functions::laws::wrong_calls_decide;
use cedar_expr_functions::{CallStyle, ExtensionOutputValue};
pub use cedar_expr_leaves::laws::{
    elements_are_compared, literals_are_compared, patterns_are_compared, slots_are_compared,
    variables_are_compared,
};
pub use cedar_expr_leaves::name_laws::{
    names_are_equal, names_are_hashed, names_are_ordered, texts_are_equal, texts_are_hashed,
    texts_are_ordered,
};
pub use cedar_expr_leaves::raw_laws::raw_names_are_compared;
use cedar_expr_leaves::{ConditionalName, NonEmpty, ReferenceType, Slot};
use cedar_expr_names::Loc;
use cedar_expr_partial::PartialValue;
pub use cedar_expr_partial::laws::{split_keeps_order, there_and_back};
pub use cedar_expr_shapes::laws::{
    expressions_are_their_trees, expressions_are_their_trees_and_data, shapes_agree,
};
pub use cedar_expr_substitution::laws::substituting_twice_is_once;
pub use cedar_expr_trees::laws::expressions_are_compared;
use cedar_expr_trees::{Expr, Unknown};
pub use cedar_expr_values::laws::{
    core_types_are_compared, extension_values_are_compared, sets_are_their_members,
    values_are_canonical, values_are_compared, values_are_hashed, values_are_in_range,
};
use cedar_expr_values::{ExtValue, ExtensionValue, RepresentableExtensionValue, Value};
use std::hash::Hash;

/// Places are ordered by where they begin and then by where they end; they are equal where both are the same, and are then hashed
/// alike.
pub fn places_are_compared()
    ensures order { (l m : Place) → ⟦<Loc as Ord>⟧.cmp l m ≡ ordering_then (nat_cmp (loc_start l) (loc_start m)) (nat_cmp (loc_end l) (loc_end m)) }
    ensures equality { (l m : Place) → Decides (⟦<Loc as PartialEq>⟧.eq l m) ((loc_start l ≡ loc_start m) × (loc_end l ≡ loc_end m)) }
    ensures hash { (l m : Place) → ⟦<Loc as PartialEq>⟧.eq l m ≡ true → ⟦<Loc as Hash>⟧.hash_input l ≡ ⟦<Loc as Hash>⟧.hash_input m }
{}

/// Kinds of reference are equal exactly where they are the same, which is where their order finds no difference, and are then
/// hashed alike. That to a common type comes first, and that to either of both last.
pub fn reference_types_are_compared()
    ensures first { ⟦<ReferenceType as Ord>⟧.cmp Common Entity ≡ Less }
    ensures last { ⟦<ReferenceType as Ord>⟧.cmp Entity CommonOrEntity ≡ Less }
    ensures order { (a b : Referred) → ⟦<ReferenceType as PartialEq>⟧.eq a b ≡ is_eq (⟦<ReferenceType as Ord>⟧.cmp a b) }
    ensures equality { (a b : Referred) → Decides (⟦<ReferenceType as PartialEq>⟧.eq a b) (a ≡ b) }
    ensures hash { (a b : Referred) → ⟦<ReferenceType as PartialEq>⟧.eq a b ≡ true → ⟦<ReferenceType as Hash>⟧.hash_input a ≡ ⟦<ReferenceType as Hash>⟧.hash_input b }
{}

/// Names that may stand for one of several are equal exactly where these names, the kind of reference, and the name as it is
/// written are the same, and are then hashed alike: places don't count.
pub fn conditional_names_are_compared()
    ensures equality { (a b : Written) → Decides (⟦<ConditionalName as PartialEq>⟧.eq a b) ((possible_names a ≡ possible_names b) × ((referred a ≡ referred b) × (written_name a ≡ written_name b))) }
    ensures hash { (a b : Written) → ⟦<ConditionalName as PartialEq>⟧.eq a b ≡ true → ⟦<ConditionalName as Hash>⟧.hash_input a ≡ ⟦<ConditionalName as Hash>⟧.hash_input b }
{}

/// Lists of one or more are ordered from the first that differs, and equal where each is equal to the other's; equal ones are
/// hashed alike.
pub fn lists_are_compared<T: Ord + Hash>()
    ensures order { (xs ys : OneOrMore T) → ⟦<NonEmpty<T> as Ord>⟧.cmp xs ys ≡ slice_cmp T.cmp (xs.head ∷ xs.tail.items) (ys.head ∷ ys.tail.items) }
    ensures equality { (xs ys : OneOrMore T) → ⟦<NonEmpty<T> as PartialEq>⟧.eq xs ys ≡ pointwise T.eq (xs.head ∷ xs.tail.items) (ys.head ∷ ys.tail.items) }
    ensures hash { (xs ys : OneOrMore T) → ⟦<NonEmpty<T> as PartialEq>⟧.eq xs ys ≡ true → ⟦<NonEmpty<T> as Hash>⟧.hash_input xs ≡ ⟦<NonEmpty<T> as Hash>⟧.hash_input ys }
{}

/// Slots that stand somewhere are ordered by which slot it is and then by the place, none first; they are equal where both are
/// the same, and are then hashed alike.
pub fn placed_slots_are_compared()
    ensures order { (s t : Placed) → ⟦<Slot as Ord>⟧.cmp s t ≡ ordering_then (slot_cmp (slot_of s.id) (slot_of t.id)) (option_cmp ⟦<Loc as Ord>⟧.cmp s.loc t.loc) }
    ensures equality { (s t : Placed) → Decides (⟦<Slot as PartialEq>⟧.eq s t) ((slot_of s.id ≡ slot_of t.id) × (s.loc ≡ t.loc)) }
    ensures hash { (s t : Placed) → ⟦<Slot as PartialEq>⟧.eq s t ≡ true → ⟦<Slot as Hash>⟧.hash_input s ≡ ⟦<Slot as Hash>⟧.hash_input t }
{}

/// Extension values with a call of their own that are of one type and key are hashed alike, whatever the call.
pub fn represented_values_are_hashed<X: ExtensionValue + Hash>()
    ensures { (x y : Represented X) → is_eq (extension_cmp (with_call X.seen x) (with_call X.seen y)) ≡ true → ⟦<RepresentableExtensionValue<X> as Hash>⟧.hash_input x ≡ ⟦<RepresentableExtensionValue<X> as Hash>⟧.hash_input y }
{}

/// Unknowns are ordered by their names and then by their annotations, none first; they are equal where the order finds no
/// difference, and are then hashed alike.
pub fn unknowns_are_compared()
    ensures order { (u v : Open) → ⟦<Unknown as Ord>⟧.cmp u v ≡ ordering_then (text_cmp (unknown_of u).name (unknown_of v).name) (option_cmp core_cmp (unknown_of u).annotation (unknown_of v).annotation) }
    ensures equality { (u v : Open) → ⟦<Unknown as PartialEq>⟧.eq u v ≡ is_eq (⟦<Unknown as Ord>⟧.cmp u v) }
    ensures hash { (u v : Open) → ⟦<Unknown as PartialEq>⟧.eq u v ≡ true → ⟦<Unknown as Hash>⟧.hash_input u ≡ ⟦<Unknown as Hash>⟧.hash_input v }
{}

/// Partial values are equal where both are values or both expressions, and these are equal.
pub fn partial_values_are_compared<X: ExtensionValue>()
    ensures values { (v w : CodeValue X) → ⟦<PartialValue<X> as PartialEq>⟧.eq (partial.Value v) (partial.Value w) ≡ ⟦<Value<X> as PartialEq>⟧.eq v w }
    ensures expressions { (e f : CodeExpr (Unit {0})) → ⟦<PartialValue<X> as PartialEq>⟧.eq (partial.Residual e) (partial.Residual f) ≡ ⟦<Expr<()> as PartialEq>⟧.eq e f }
    ensures first { (v : CodeValue X) (e : CodeExpr (Unit {0})) → ⟦<PartialValue<X> as PartialEq>⟧.eq (partial.Value v) (partial.Residual e) ≡ false }
    ensures second { (v : CodeValue X) (e : CodeExpr (Unit {0})) → ⟦<PartialValue<X> as PartialEq>⟧.eq (partial.Residual e) (partial.Value v) ≡ false }
{}

/// What calls give is equal where both gave values or both unknowns, and these are equal.
pub fn outputs_are_compared()
    ensures values { (v w : CodeValue Kept) → ⟦<ExtensionOutputValue as PartialEq>⟧.eq (given.Known v) (given.Known w) ≡ ⟦<Value<ExtValue> as PartialEq>⟧.eq v w }
    ensures unknowns { (u v : Open) → ⟦<ExtensionOutputValue as PartialEq>⟧.eq (given.Unknown u) (given.Unknown v) ≡ ⟦<Unknown as PartialEq>⟧.eq u v }
    ensures first { (v : CodeValue Kept) (u : Open) → ⟦<ExtensionOutputValue as PartialEq>⟧.eq (given.Known v) (given.Unknown u) ≡ false }
    ensures second { (v : CodeValue Kept) (u : Open) → ⟦<ExtensionOutputValue as PartialEq>⟧.eq (given.Unknown u) (given.Known v) ≡ false }
{}

/// Ways to write a call are equal exactly where they are the same, which is where their order finds no difference, and are then
/// hashed alike. That of a function comes first.
pub fn styles_are_compared()
    ensures first { ⟦<CallStyle as Ord>⟧.cmp FunctionStyle MethodStyle ≡ Less }
    ensures order { (a b : Style) → ⟦<CallStyle as PartialEq>⟧.eq a b ≡ is_eq (⟦<CallStyle as Ord>⟧.cmp a b) }
    ensures equality { (a b : Style) → Decides (⟦<CallStyle as PartialEq>⟧.eq a b) (style_of a ≡ style_of b) }
    ensures hash { (a b : Style) → ⟦<CallStyle as PartialEq>⟧.eq a b ≡ true → ⟦<CallStyle as Hash>⟧.hash_input a ≡ ⟦<CallStyle as Hash>⟧.hash_input b }
{}
