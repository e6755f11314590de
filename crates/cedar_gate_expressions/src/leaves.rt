//! Forms without expressions in them.
ghost use Rattle.std.specs.Prelude.{◌≡◌, [], ◌∷◌, Some, None, IfOk, IfErr, option_map};
ghost use Rattle.serde_json.specs.Find.{as_i64, as_str};
ghost use Rattle.serde_json.specs.View.{view, number_view};
ghost use Rattle.cedar_expr_model.specs.Tree.{lit, var, slot, unknown};
ghost use Rattle.cedar_expr_model.specs.Value.{long, entity, text as written};
ghost use Rattle.cedar_expr_leaves.specs.Variables.{var_of};
ghost use Rattle.cedar_expr_leaves.specs.Slots.{slot_of};
ghost use Rattle.cedar_expr_values.specs.Types.{core_of};
ghost use Rattle.cedar_expr_trees.specs.Trees.{tree_of};
ghost use Rattle.cedar_gate_model.specs.Reading.{given};
ghost use Rattle.cedar_gate_model.specs.ReadingForms.{word_of, alone, read_as};
ghost use Rattle.cedar_gate_model.specs.ReadingName.{plain_name_read, uid_from, annotation_read, core_words};
ghost use Rattle.cedar_gate_model.specs.ReadingExpression.{Version as Read, var_words, slot_words, forms};
ghost use Rattle.cedar_gate_expressions.specs.Forms.{version_of, leaf_form, form_of};
ghost use Rattle.cedar_gate_expressions.specs.Parts.{parts, unknown_read};
ghost use Rattle.cedar_gate_expressions.specs.declared.fault.ReadFault.TheVariants.{Unreadable};

use crate::forms::{Form, Leaf, Version, form_named};
use crate::shapes::first_of;
use crate::{ReadFault, read_annotation, read_text, read_uid_from, text};
use cedar_expr_leaves::{Literal, SlotId, Var};
use cedar_expr_trees::{Expr, Unknown};
use serde_json::{Number, Value};
use std::alloc::{AllocError, Global};
use std::rc::{Rc, RcStr};

/// Reads a whole number of 64 bits with its sign.
pub(crate) fn read_long(n: &Number) -> Result<Expr, ReadFault>
    ensures ok { IfOk result (λ e. option_map (λ z. lit (long z)) (as_i64 (number_view n.now)) ≡ Some (tree_of e)) }
    ensures unreadable { IfErr result (λ f. (f ≡ Unreadable) × (as_i64 (number_view n.now) ≡ None)) }
{
    match n.as_i64() {
        Some(z) => Ok(Expr::val(Literal::Long(z))),
        None => Err(ReadFault::Unreadable),
    }
}

/// Reads a text.
pub(crate) fn read_string(alloc: Global, word: &str) -> Result<Expr, AllocError>
    ensures { IfOk result (λ e. tree_of e ≡ lit (written word.now)) }
{
    Ok(Expr::val(Literal::String(RcStr::from_str(alloc, word)?)))
}

/// The form that a word names in this version.
pub(crate) fn form_of_word(version: Version, word: &Value) -> Result<Form, ReadFault>
    ensures ok { IfOk result (λ f. word_of (forms (version_of version)) (view word.now) ≡ Some (form_of f)) }
    ensures unreadable { IfErr result (λ f. (f ≡ Unreadable) × (word_of (forms (version_of version)) (view word.now) ≡ None)) }
{
    form_named(version, text(word)?).ok_or(ReadFault::Unreadable)
}

/// Reads a form without expressions in it, of what follows its word: the same in each version.
#[tactic(auto, using(crate::proofs::Short::no_leaf_of_none, crate::proofs::Short::no_leaf_of_three))]
pub(crate) fn read_leaf(alloc: Global, leaf: Leaf, items: &[Value]) -> Result<Expr, ReadFault>
    ensures ok { IfOk result (λ e. (v : Read) → leaf_form leaf (parts v items.now) ≡ Some (tree_of e)) }
    ensures unreadable { IfErr result (λ f. f ≡ Unreadable → (v : Read) → leaf_form leaf (parts v items.now) ≡ None) }
{
    match first_of(items) {
        None => Err(ReadFault::Unreadable),
        Some((x, others)) => match first_of(others) {
            None => read_leaf_of_one(alloc, leaf, x),
            Some((y, more)) => match first_of(more) {
                None => read_leaf_of_two(alloc, leaf, x, y),
                Some(_) => Err(ReadFault::Unreadable),
            },
        },
    }
}

// Reads a form of this one item.
fn read_leaf_of_one(alloc: Global, leaf: Leaf, x: &Value) -> Result<Expr, ReadFault>
    ensures ok { IfOk result (λ e. (v : Read) → leaf_form leaf (parts v (x.now ∷ [])) ≡ Some (tree_of e)) }
    ensures unreadable { IfErr result (λ f. f ≡ Unreadable → (v : Read) → leaf_form leaf (parts v (x.now ∷ [])) ≡ None) }
{
    match leaf {
        Leaf::Uid => Err(ReadFault::Unreadable),
        Leaf::Var => Ok(Expr::var(read_var(x)?)),
        Leaf::Slot => Ok(Expr::slot(read_slot(x)?)),
        Leaf::Unknown => Ok(Expr::unknown(Unknown::new_untyped(read_text(alloc, x)?))),
    }
}

// Reads a form of these two items.
fn read_leaf_of_two(alloc: Global, leaf: Leaf, x: &Value, y: &Value) -> Result<Expr, ReadFault>
    ensures ok { IfOk result (λ e. (v : Read) → leaf_form leaf (parts v (x.now ∷ y.now ∷ [])) ≡ Some (tree_of e)) }
    ensures unreadable { IfErr result (λ f. f ≡ Unreadable → (v : Read) → leaf_form leaf (parts v (x.now ∷ y.now ∷ [])) ≡ None) }
{
    match leaf {
        Leaf::Uid => read_entity(alloc, x, y),
        Leaf::Unknown => read_annotated(alloc, x, y),
        Leaf::Var | Leaf::Slot => Err(ReadFault::Unreadable),
    }
}

// Reads a variable of the request.
fn read_var(value: &Value) -> Result<Var, ReadFault>
    ensures ok { IfOk result (λ v. word_of var_words (view value.now) ≡ Some (var_of v)) }
    ensures unreadable { IfErr result (λ f. (f ≡ Unreadable) × (word_of var_words (view value.now) ≡ None)) }
{
    match text(value)? {
        "principal" => Ok(Var::Principal),
        "action" => Ok(Var::Action),
        "resource" => Ok(Var::Resource),
        "context" => Ok(Var::Context),
        _ => Err(ReadFault::Unreadable),
    }
}

// Reads a slot.
fn read_slot(value: &Value) -> Result<SlotId, ReadFault>
    ensures ok { IfOk result (λ s. word_of slot_words (view value.now) ≡ Some (slot_of s)) }
    ensures unreadable { IfErr result (λ f. (f ≡ Unreadable) × (word_of slot_words (view value.now) ≡ None)) }
{
    match text(value)? {
        "?principal" => Ok(SlotId::principal()),
        "?resource" => Ok(SlotId::resource()),
        _ => Err(ReadFault::Unreadable),
    }
}

// Reads the literal of the uid of this type and this id.
fn read_entity(alloc: Global, kind: &Value, id: &Value) -> Result<Expr, ReadFault>
    ensures ok { IfOk result (λ e. option_map (λ u. lit (entity u)) (uid_from (plain_name_read (view kind.now)) (as_str (view id.now)))
        ≡ Some (tree_of e)) }
    ensures unreadable { IfErr result (λ f. f ≡ Unreadable → uid_from (plain_name_read (view kind.now)) (as_str (view id.now)) ≡ None) }
{
    let uid = Rc::new(alloc, read_uid_from(alloc, kind, id)?)?;
    Ok(Expr::val(Literal::EntityUID(uid)))
}

// Reads the unknown of this name and this type.
fn read_annotated(alloc: Global, name: &Value, kind: &Value) -> Result<Expr, ReadFault>
    ensures ok { IfOk result (λ e. unknown_read name.now kind.now
        ≡ Some (tree_of e)) }
    ensures unreadable { IfErr result (λ f. f ≡ Unreadable → unknown_read name.now kind.now ≡ None) }
{
    let kind = read_annotation(alloc, kind)?;
    let name = read_text(alloc, name)?;
    Ok(Expr::unknown(Unknown::new_with_type(name, kind)))
}
