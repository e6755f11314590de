//! Expressions.
ghost use Rattle.std.specs.Prelude.{◌≡◌, Some, None, IfOk, IfErr, OnOk, map, string_bytes};
ghost use Rattle.serde_json.specs.View.{view, members_view};
ghost use Rattle.cedar_expr_trees.specs.Trees.{tree_of};
ghost use Rattle.cedar_gate_model.specs.ReadingExpression.{expression_read, fields_in, of_two, of_three, call_form};
ghost use Rattle.cedar_gate_expressions.specs.Forms.{version_of, form_of, joint_of};
ghost use Rattle.cedar_expr_model.specs.Tree.{choice};
ghost use Rattle.cedar_gate_expressions.specs.declared.forms.Form.TheVariants.{OfTest, Record};
ghost use Rattle.cedar_gate_expressions.specs.Maps.{InsertsField};
ghost use Rattle.cedar_gate_expressions.specs.Parts.{fields_made, parts, trees_from};
ghost use Rattle.cedar_gate_expressions.specs.declared.fault.ReadFault.TheVariants.{Unreadable};

use crate::finished::{join, test};
use crate::forms::{Form, Joint, Test, Version};
use crate::leaves::{form_of_word, read_leaf, read_long, read_string};
use crate::members::{members_of, next_member};
use crate::shapes::{first_of, one_of, three_of, two_of};
use crate::{ReadFault, read_name};
use cedar_expr_leaves::Literal;
use cedar_expr_trees::Expr;
use serde_json::{Map, Value};
use std::alloc::{AllocError, Global};
use std::collections::BTreeMap;
use std::rc::{Rc, RcStr};

/// Reads an expression of a bundle of this version: a truth value, a whole number, a text, or a list that begins with a word.
#[cycle(read)]
pub fn read_expression(alloc: Global, version: Version, value: &Value) -> Result<Expr, ReadFault>
    ensures ok { IfOk result (λ e. expression_read (version_of version) (view value.now) ≡ Some (tree_of e)) }
    ensures unreadable { IfErr result (λ f. f ≡ Unreadable → expression_read (version_of version) (view value.now) ≡ None) }
{
    match value {
        Value::Bool(b) => Ok(Expr::val(Literal::Bool(*b))),
        Value::Number(n) => read_long(n),
        Value::String(s) => Ok(read_string(alloc, s.as_str())?),
        Value::Array(items) => match items.as_slice() {
            [word, rest @ ..] => read_form(alloc, version, form_of_word(version, word)?, rest),
            [] => Err(ReadFault::Unreadable),
        },
        Value::Null | Value::Object(_) => Err(ReadFault::Unreadable),
    }
}

// Reads an expression of this form, of what follows its word.
#[cycle(read)]
fn read_form(
    alloc: Global,
    version: Version,
    form: Form,
    items: &[Value],
) -> Result<Expr, ReadFault>
    ensures ok { IfOk result (λ e. form_of form (parts (version_of version) items.now) ≡ Some (tree_of e)) }
    ensures unreadable { IfErr result (λ f. f ≡ Unreadable → form_of form (parts (version_of version) items.now) ≡ None) }
{
    match form {
        Form::OfLeaf(leaf) => read_leaf(alloc, leaf, items),
        Form::OfTest(kind) => read_test(alloc, version, kind, items),
        Form::OfJoint(joint) => read_joint(alloc, version, joint, items),
        Form::If => read_choice(alloc, version, items),
        Form::Call => read_call(alloc, version, items),
        Form::Set => Ok(Expr::set(alloc, read_each_expression(alloc, version, items, 0)?)?),
        Form::Record => read_record(alloc, version, items),
    }
}

// Reads an expression, and what else this form takes.
#[cycle(read)]
#[tactic(auto, using(crate::proofs::Heads::tested, crate::proofs::Heads::no_test))]
fn read_test(
    alloc: Global,
    version: Version,
    kind: Test,
    items: &[Value],
) -> Result<Expr, ReadFault>
    ensures ok { IfOk result (λ e. form_of (OfTest kind) (parts (version_of version) items.now) ≡ Some (tree_of e)) }
    ensures unreadable { IfErr result (λ f. f ≡ Unreadable → form_of (OfTest kind) (parts (version_of version) items.now) ≡ None) }
{
    match first_of(items) {
        Some((x, rest)) => test(alloc, kind, read_expression(alloc, version, x)?, rest),
        None => Err(ReadFault::Unreadable),
    }
}

// Reads two expressions, and joins them.
#[cycle(read)]
fn read_joint(
    alloc: Global,
    version: Version,
    joint: Joint,
    items: &[Value],
) -> Result<Expr, ReadFault>
    ensures ok { IfOk result (λ e. of_two (joint_of joint) (parts (version_of version) items.now) ≡ Some (tree_of e)) }
    ensures unreadable { IfErr result (λ f. f ≡ Unreadable → of_two (joint_of joint) (parts (version_of version) items.now) ≡ None) }
{
    match two_of(items) {
        Some((x, y)) => {
            let left = read_expression(alloc, version, x)?;
            let right = read_expression(alloc, version, y)?;
            Ok(join(joint, alloc, left, right)?)
        }
        None => Err(ReadFault::Unreadable),
    }
}

// Reads a choice.
#[cycle(read)]
fn read_choice(alloc: Global, version: Version, items: &[Value]) -> Result<Expr, ReadFault>
    ensures ok { IfOk result (λ e. of_three choice (parts (version_of version) items.now) ≡ Some (tree_of e)) }
    ensures unreadable { IfErr result (λ f. f ≡ Unreadable → of_three choice (parts (version_of version) items.now) ≡ None) }
{
    match three_of(items) {
        Some((x, y, z)) => {
            let test_expr = read_expression(alloc, version, x)?;
            let then_expr = read_expression(alloc, version, y)?;
            let else_expr = read_expression(alloc, version, z)?;
            Ok(Expr::ite(alloc, test_expr, then_expr, else_expr)?)
        }
        None => Err(ReadFault::Unreadable),
    }
}

// Reads a call.
#[cycle(read)]
fn read_call(alloc: Global, version: Version, items: &[Value]) -> Result<Expr, ReadFault>
    ensures ok { IfOk result (λ e. call_form (parts (version_of version) items.now) ≡ Some (tree_of e)) }
    ensures unreadable { IfErr result (λ f. f ≡ Unreadable → call_form (parts (version_of version) items.now) ≡ None) }
{
    match first_of(items) {
        Some((name, _)) => {
            let name = read_name(alloc, name)?;
            let args = read_each_expression(alloc, version, items, 1)?;
            Ok(Expr::call_extension_fn(alloc, name, args)?)
        }
        None => Err(ReadFault::Unreadable),
    }
}

// Reads a record.
#[cycle(read)]
fn read_record(alloc: Global, version: Version, items: &[Value]) -> Result<Expr, ReadFault>
    ensures ok { IfOk result (λ e. form_of Record (parts (version_of version) items.now) ≡ Some (tree_of e)) }
    ensures unreadable { IfErr result (λ f. f ≡ Unreadable → form_of Record (parts (version_of version) items.now) ≡ None) }
{
    match one_of(items) {
        Some(x) => match x {
            Value::Object(members) => {
                let fields = read_fields(alloc, version, members)?;
                Ok(Expr::record_arc(Rc::new(alloc, fields)?))
            }
            _ => Err(ReadFault::Unreadable),
        },
        None => Err(ReadFault::Unreadable),
    }
}

// Reads each of these expressions from this place on, in their order.
#[cycle(read)]
#[tactic(auto, using(crate::proofs::Gathered::nothing_before, crate::proofs::Gathered::one_more, crate::proofs::Arguments::ended, crate::proofs::Arguments::here))]
fn read_each_expression(
    alloc: Global,
    version: Version,
    items: &[Value],
    from: usize,
) -> Result<Vec<Expr>, ReadFault>
    ensures ok { IfOk result (λ v. trees_from (version_of version) from items.now ≡ Some (map tree_of v.items)) }
    ensures unreadable { IfErr result (λ f. f ≡ Unreadable → trees_from (version_of version) from items.now ≡ None) }
{
    let mut list = Vec::new(alloc);
    for i in from..items.len() {
        let e = read_expression(alloc, version, &items[i])?;
        list.push(e)?;
    }
    Ok(list)
}

/// Reads an object of expressions, in the order of its keys.
#[cycle(read)]
#[tactic(auto, using(crate::proofs::Fields::start, crate::proofs::Fields::all_fields))]
pub fn read_fields(
    alloc: Global,
    version: Version,
    members: &Map<String, Value>,
) -> Result<BTreeMap<RcStr, Expr>, ReadFault>
    ensures ok { IfOk result (λ m. fields_in (version_of version) (members_view members.now.entries) ≡ Some (fields_made m.entries)) }
    ensures unreadable { IfErr result (λ f. f ≡ Unreadable → fields_in (version_of version) (members_view members.now.entries) ≡ None) }
{
    let mut fields = BTreeMap::new(alloc);
    let mut left = members_of(members);
    while let Some((key, member)) = next_member(&mut left) {
        let field = read_expression(alloc, version, member)?;
        add_field(alloc, &mut fields, key, field)?;
    }
    Ok(fields)
}

// Inserts a field under this name.
fn add_field(
    alloc: Global,
    fields: &mut BTreeMap<RcStr, Expr>,
    key: &String,
    field: Expr,
) -> Result<(), AllocError>
    ensures { OnOk result (InsertsField (string_bytes key.now) field fields.old.entries fields.new.entries) }
{
    let name = RcStr::from_str(alloc, key.as_str())?;
    drop(fields.insert(name, field)?);
    Ok(())
}
