//! Forms whose expressions are read.
ghost use Rattle.std.specs.Prelude.{◌≡◌, [], ◌∷◌, ◌++◌, Some, None, IfOk, IfErr, OnOk, map, option_map};
ghost use Rattle.std.specs.Rc.{rc_str_bytes};
ghost use Rattle.std.specs.List.{flat_map};
ghost use Rattle.std.specs.Str.{chars};
ghost use Rattle.cedar_expr_model.specs.Pattern.{character};
ghost use Rattle.serde_json.specs.Find.{as_str};
ghost use Rattle.serde_json.specs.View.{view, items_view};
ghost use Rattle.cedar_expr_model.specs.Lists.{all_given};
ghost use Rattle.cedar_expr_model.specs.Builder.{path_test};
ghost use Rattle.cedar_expr_leaves.specs.Patterns.{pattern_of, elements_of};
ghost use Rattle.cedar_expr_trees.specs.Trees.{tree_of};
ghost use Rattle.cedar_gate_model.specs.Reading.{given, each};
ghost use Rattle.cedar_gate_model.specs.ReadingExpression.{Version, pattern_read, elements_read};
ghost use Rattle.cedar_gate_expressions.specs.Forms.{joint_of, test_rest};
ghost use Rattle.cedar_gate_expressions.specs.Parts.{AppendsRead, parts, path_read};
ghost use Rattle.cedar_gate_expressions.specs.declared.fault.ReadFault.TheVariants.{Unreadable};

use crate::forms::{Joint, Test};
use crate::shapes::first_of;
use crate::{ReadFault, Texts, read_each, read_text, read_type};
use cedar_expr_leaves::{NonEmpty, Pattern, PatternElem};
use cedar_expr_trees::Expr;
use serde_json::Value;
use std::alloc::{AllocError, Global};
use std::rc::RcStr;

/// Joins two expressions.
pub(crate) fn join(joint: Joint, alloc: Global, left: Expr, right: Expr) -> Result<Expr, AllocError>
    ensures { IfOk result (λ e. tree_of e ≡ joint_of joint (tree_of left) (tree_of right)) }
{
    match joint {
        Joint::And => Expr::and(alloc, left, right),
        Joint::Or => Expr::or(alloc, left, right),
        Joint::Binary(op) => Expr::binary_app(alloc, op, left, right),
    }
}

/// What a form makes of an expression that is read, and of what else it takes: the same in each version.
#[tactic(auto, using(crate::proofs::Heads::path_is))]
pub(crate) fn test(
    alloc: Global,
    kind: Test,
    head: Expr,
    items: &[Value],
) -> Result<Expr, ReadFault>
    ensures ok { IfOk result (λ e. (v : Version) → test_rest kind (tree_of head) (parts v items.now) ≡ Some (tree_of e)) }
    ensures unreadable { IfErr result (λ f. f ≡ Unreadable → (v : Version) → test_rest kind (tree_of head) (parts v items.now) ≡ None) }
{
    match first_of(items) {
        None => test_alone(alloc, kind, head),
        Some((x, rest)) => match first_of(rest) {
            None => test_of_one(alloc, kind, head, x),
            Some(_) => match kind {
                Test::Has => read_path(alloc, head, x, rest),
                Test::Unary(_) => Err(ReadFault::Unreadable),
                Test::Get => Err(ReadFault::Unreadable),
                Test::Like => Err(ReadFault::Unreadable),
                Test::Is => Err(ReadFault::Unreadable),
            },
        },
    }
}

// What a form makes of an expression alone.
fn test_alone(alloc: Global, kind: Test, head: Expr) -> Result<Expr, ReadFault>
    ensures ok { IfOk result (λ e. test_rest kind (tree_of head) [] ≡ Some (tree_of e)) }
    ensures unreadable { IfErr result (λ f. f ≡ Unreadable → test_rest kind (tree_of head) [] ≡ None) }
{
    match kind {
        Test::Unary(op) => Ok(Expr::unary_app(alloc, op, head)?),
        Test::Get | Test::Has | Test::Like | Test::Is => Err(ReadFault::Unreadable),
    }
}

// What a form makes of an expression and of this one item.
fn test_of_one(alloc: Global, kind: Test, head: Expr, x: &Value) -> Result<Expr, ReadFault>
    ensures ok { IfOk result (λ e. (v : Version) → test_rest kind (tree_of head) (parts v (x.now ∷ [])) ≡ Some (tree_of e)) }
    ensures unreadable { IfErr result (λ f. f ≡ Unreadable → (v : Version) → test_rest kind (tree_of head) (parts v (x.now ∷ [])) ≡ None) }
{
    match kind {
        Test::Unary(_) => Err(ReadFault::Unreadable),
        Test::Get => Ok(Expr::get_attr(alloc, head, read_text(alloc, x)?)?),
        Test::Has => Ok(Expr::has_attr(alloc, head, read_text(alloc, x)?)?),
        Test::Like => Ok(Expr::like(alloc, head, read_pattern(alloc, x)?)?),
        Test::Is => Ok(Expr::is_entity_type(alloc, head, read_type(alloc, x)?)?),
    }
}

// Whether a path of attributes is there.
fn read_path(alloc: Global, head: Expr, name: &Value, rest: &[Value]) -> Result<Expr, ReadFault>
    ensures ok { IfOk result (λ e. path_read (tree_of head) name.now rest.now ≡ Some (tree_of e)) }
    ensures unreadable { IfErr result (λ f. f ≡ Unreadable → path_read (tree_of head) name.now rest.now ≡ None) }
{
    let first = read_text(alloc, name)?;
    let tail = read_each(alloc, &Texts, rest)?;
    Ok(Expr::extended_has_attr(alloc, head, NonEmpty { head: first, tail })?)
}

// Reads a pattern.
fn read_pattern(alloc: Global, value: &Value) -> Result<Pattern, ReadFault>
    ensures ok { IfOk result (λ p. pattern_read (view value.now) ≡ Some (pattern_of p)) }
    ensures unreadable { IfErr result (λ f. f ≡ Unreadable → pattern_read (view value.now) ≡ None) }
{
    match value {
        Value::Array(items) => Ok(Pattern::new(alloc, read_elements(alloc, items.as_slice())?)?),
        _ => Err(ReadFault::Unreadable),
    }
}

// Reads the elements of a pattern.
#[tactic(auto, using(crate::proofs::Patterns::flat_start, crate::proofs::Patterns::next_elements))]
fn read_elements(alloc: Global, items: &[Value]) -> Result<Vec<PatternElem>, ReadFault>
    ensures ok { IfOk result (λ v. option_map (flat_map (λ es. es)) (each elements_read (items_view items.now)) ≡ Some (elements_of v.items)) }
    ensures unreadable { IfErr result (λ f. f ≡ Unreadable → each elements_read (items_view items.now) ≡ None) }
{
    let mut elements = Vec::new(alloc);
    for item in items {
        add_elements(&mut elements, item)?;
    }
    Ok(elements)
}

// Adds the elements that an item is.
fn add_elements(elements: &mut Vec<PatternElem>, item: &Value) -> Result<(), ReadFault>
    ensures ok { OnOk result (AppendsRead (elements_read (view item.now)) (elements_of elements.old.items) (elements_of elements.new.items)) }
    ensures unreadable { IfErr result (λ f. f ≡ Unreadable → elements_read (view item.now) ≡ None) }
{
    match item {
        Value::Null => Ok(elements.push(PatternElem::Wildcard)?),
        Value::String(text) => Ok(add_characters(elements, text.as_str())?),
        _ => Err(ReadFault::Unreadable),
    }
}

// Adds the characters of a text.
fn add_characters(elements: &mut Vec<PatternElem>, text: &str) -> Result<(), AllocError>
    ensures { OnOk result (elements_of elements.new.items ≡ elements_of elements.old.items ++ map character (chars text.now)) }
{
    for c in text.chars() {
        elements.push(PatternElem::Char(c))?;
    }
    Ok(())
}
