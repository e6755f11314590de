//! Restricted expressions of a type.

ghost use Rattle.std.specs.Prelude.{◌≡◌, ◌∷◌, [], ◌&&◌, not, map, option_map, MatchOption};
ghost use Rattle.std.specs.Rc.{rc_str_bytes};
ghost use Rattle.cedar_expr_names.specs.Views.{plain_name_of};
ghost use Rattle.cedar_expr_model.specs.Builder.{trees, tree_fields};
ghost use Rattle.cedar_expr_model.specs.Tree.{Trees, call, set_literal, record_literal};
ghost use Rattle.cedar_expr_trees.specs.Trees.{tree_of, named, field_trees};
ghost use Rattle.cedar_expr_functions.specs.Tables.{functions_of};
ghost use Rattle.cedar_schema_model.specs.Types.{attribute_named};
ghost use Rattle.cedar_schema_types.specs.Kinds.{openness_of};
ghost use Rattle.cedar_schema_types.specs.Types.{type_of, attributes_of, attribute_of};
ghost use Rattle.cedar_schema_model.specs.Restricted.{asked_for, all_asked_for, fields_asked_for, field_asked, has_tree_field, has_required_fields};
ghost use Rattle.cedar_schema_joins.specs.Answers.{AnswersAsked, AnswersCall};

use crate::functions::Functions;
use crate::typecheck_literal;
use cedar_expr_functions::{ExtensionFunctionLookupError, Extensions};
use cedar_expr_names::Name;
use cedar_expr_trees::{Expr, ExprKind};
use cedar_schema_types::{AttributeType, Attributes, OpenTag, Type};
use std::collections::BTreeMap;
use std::collections::btree_map::Iter;
use std::rc::RcStr;

// The fields that are left.
struct Fields<'a, T> {
    left: Iter<'a, RcStr, Expr<T>>,
}

impl<'a, T> Drop for Fields<'a, T> {
    fn drop(self) {
        let Fields { left: _ } = self;
    }
}

/// Whether the restricted expression is of the type: a literal, a set or a record as a value is, and a call where the function
/// gives the extension type. Refuses a function that is asked for and isn't in the table, and fails when out of memory for the
/// refusal.
pub fn typecheck_restricted_expr<T>(
    ty: &Type,
    expr: &Expr<T>,
    table: &Extensions<'_>,
) -> Result<bool, ExtensionFunctionLookupError>
    ensures { AnswersAsked (asked_for (functions_of table.now) (tree_of expr.now) (type_of ty.now)) result }
{
    ask(expr, ty, table)
}

// Whether the expression is of the type.
#[cycle(asked)]
fn ask<T, F: Functions>(
    expr: &Expr<T>,
    ty: &Type,
    table: &F,
) -> Result<bool, ExtensionFunctionLookupError>
    ensures { AnswersAsked (asked_for (F.signatures table.now) (tree_of expr.now) (type_of ty.now)) result }
{
    match expr.expr_kind() {
        ExprKind::Lit(literal) => Ok(typecheck_literal(ty, literal)),
        ExprKind::ExtensionFunctionApp { fn_name, .. } => ask_call(fn_name, ty, table),
        ExprKind::Set(exprs) => ask_set(exprs.as_slice(), ty, table),
        ExprKind::Record(pairs) => ask_record(pairs, ty, table),
        ExprKind::Var(_) | ExprKind::Slot(_) | ExprKind::Unknown(_) | ExprKind::If { .. } => Ok(
            false,
        ),
        ExprKind::And { .. } | ExprKind::Or { .. } => Ok(false),
        ExprKind::UnaryApp { .. } | ExprKind::BinaryApp { .. } => Ok(false),
        ExprKind::GetAttr { .. } | ExprKind::HasAttr { .. } | ExprKind::ExtHasAttr { .. } => Ok(
            false,
        ),
        ExprKind::Like { .. } | ExprKind::Is { .. } => Ok(false),
    }
}

// Whether the set of these expressions is of the type.
#[cycle(asked)]
fn ask_set<T, F: Functions>(
    exprs: &[Expr<T>],
    ty: &Type,
    table: &F,
) -> Result<bool, ExtensionFunctionLookupError>
    ensures { AnswersAsked (asked_for (F.signatures table.now) (set_literal (trees (map tree_of exprs.now))) (type_of ty.now)) result }
{
    match ty {
        Type::Set { element_type: None } => Ok(true),
        Type::Set {
            element_type: Some(element),
        } => ask_each(exprs, element, table),
        Type::Never
        | Type::Bool(_)
        | Type::Long
        | Type::String
        | Type::Entity(_)
        | Type::Record { .. }
        | Type::ExtensionType { .. } => Ok(false),
    }
}

// Whether each of these expressions is of the type, up to the first that isn't.
#[cycle(asked)]
fn ask_each<T, F: Functions>(
    exprs: &[Expr<T>],
    ty: &Type,
    table: &F,
) -> Result<bool, ExtensionFunctionLookupError>
    ensures { AnswersAsked (all_asked_for (F.signatures table.now) (trees (map tree_of exprs.now)) (type_of ty.now)) result }
{
    for expr in exprs {
        if !ask(expr, ty, table)? {
            return Ok(false);
        }
    }
    Ok(true)
}

// Whether the record of these fields is of the type.
#[cycle(asked)]
fn ask_record<T, F: Functions>(
    pairs: &BTreeMap<RcStr, Expr<T>>,
    ty: &Type,
    table: &F,
) -> Result<bool, ExtensionFunctionLookupError>
    ensures { AnswersAsked (asked_for (F.signatures table.now) (record_literal (tree_fields (named (field_trees pairs.now.entries)))) (type_of ty.now)) result }
{
    match ty {
        Type::Record {
            attrs,
            open_attributes,
        } => {
            if has_required(attrs, pairs) {
                ask_fields(pairs, attrs, *open_attributes, table)
            } else {
                Ok(false)
            }
        }
        Type::Never
        | Type::Bool(_)
        | Type::Long
        | Type::String
        | Type::Entity(_)
        | Type::Set { .. }
        | Type::ExtensionType { .. } => Ok(false),
    }
}

// Whether each field is of the type that is declared of it, or may be there without, up to the first that isn't.
#[cycle(asked)]
fn ask_fields<T, F: Functions>(
    pairs: &BTreeMap<RcStr, Expr<T>>,
    attrs: &Attributes,
    tag: OpenTag,
    table: &F,
) -> Result<bool, ExtensionFunctionLookupError>
    ensures { AnswersAsked (fields_asked_for (F.signatures table.now) (attributes_of attrs.now) (openness_of tag) (tree_fields (named (field_trees pairs.now.entries)))) result }
{
    let mut rest = fields_of(pairs);
    while let Some((name, expr)) = next_of(&mut rest) {
        if !ask_field(expr, declared_of(attrs, name), tag, table)? {
            return Ok(false);
        }
    }
    Ok(true)
}

// Whether the field is of the type that is declared of it, or may be there without.
#[cycle(asked)]
fn ask_field<T, F: Functions>(
    expr: &Expr<T>,
    declared: Option<&AttributeType>,
    tag: OpenTag,
    table: &F,
) -> Result<bool, ExtensionFunctionLookupError>
    ensures { AnswersAsked (field_asked (openness_of tag) (asked_for (F.signatures table.now) (tree_of expr.now)) (option_map (λ d. attribute_of d.now) declared.entry)) result }
{
    match declared {
        Some(declared) => ask(expr, &declared.attr_type, table),
        None => Ok(!tag.is_closed()),
    }
}

// All fields are left.
fn fields_of<'a, T>(pairs: &'a BTreeMap<RcStr, Expr<T>>) -> Fields<'a, T>
    ensures { result.left ≡ pairs.entry.now.entries }
{
    Fields { left: pairs.iter() }
}

// The first of the fields that are left, which then isn't one of these any more.
fn next_of<'a, T>(fields: &mut Fields<'a, T>) -> Option<(&'a RcStr, &'a Expr<T>)>
    ensures { MatchOption result (fields.old.left ≡ []) (λ f. fields.old.left ≡ (f.0.now, f.1.now) ∷ fields.new.left) }
{
    fields.left.next()
}

// What is declared of the attribute of this name.
fn declared_of<'a>(attrs: &'a Attributes, name: &RcStr) -> Option<&'a AttributeType>
    ensures { option_map (λ d. attribute_of d.now) result ≡ attribute_named (rc_str_bytes name.now) (attributes_of attrs.entry.now) }
{
    attrs.get_attr(name.as_str())
}

// Whether there is a field for each required attribute.
fn has_required<T>(attrs: &Attributes, pairs: &BTreeMap<RcStr, Expr<T>>) -> bool
    ensures { result ≡ has_required_fields (attributes_of attrs.now) (tree_fields (named (field_trees pairs.now.entries))) }
{
    for (name, declared) in attrs.iter() {
        if lacks(pairs, name.as_str(), declared) {
            return false;
        }
    }
    true
}

// Whether the attribute is required and there is no field for it.
fn lacks<T>(pairs: &BTreeMap<RcStr, Expr<T>>, name: &str, declared: &AttributeType) -> bool
    ensures { result ≡ (declared.now.is_required && not (has_tree_field name.now (tree_fields (named (field_trees pairs.now.entries))))) }
{
    declared.is_required && !has_field(pairs, name)
}

// Whether there is a field of this name.
fn has_field<T>(pairs: &BTreeMap<RcStr, Expr<T>>, name: &str) -> bool
    ensures { result ≡ has_tree_field name.now (tree_fields (named (field_trees pairs.now.entries))) }
{
    pairs.contains_key(name)
}

// Whether a call of this function is of the type.
fn ask_call<F: Functions>(
    function: &Name,
    ty: &Type,
    table: &F,
) -> Result<bool, ExtensionFunctionLookupError>
    ensures { AnswersCall (F.signatures table.now) (plain_name_of function.now) (type_of ty.now) result }
{
    match ty {
        Type::ExtensionType { name } => table.gives(function, name),
        Type::Never
        | Type::Bool(_)
        | Type::Long
        | Type::String
        | Type::Entity(_)
        | Type::Set { .. }
        | Type::Record { .. } => Ok(false),
    }
}
