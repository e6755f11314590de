//! Sets, calls and records of typed expressions.

ghost use Rattle.std.specs.Prelude.{◌≡◌, map, IfOk};
ghost use Rattle.cedar_expr_names.specs.Views.{plain_name_of};
ghost use Rattle.cedar_expr_model.specs.Builder.{trees, tree_fields};
ghost use Rattle.cedar_expr_model.specs.Tree.{call, set_literal, record_literal};
ghost use Rattle.cedar_expr_trees.specs.Trees.{tree_of, kind_tree, named, field_trees};
ghost use Rattle.cedar_typechecker_answers.specs.Marked.{marks_of, kind_marks, rows};

use cedar_expr_names::Name;
use cedar_expr_trees::{Expr, ExprKind};
use cedar_schema_types::Type;
use std::alloc::{AllocError, Global};
use std::collections::BTreeMap;
use std::rc::{Rc, RcStr};

/// The set of these members.
#[tactic(auto, using(crate::proofs::RowMarks::set_marks, cedar_expr_trees::proofs::Trees::set_tree))]
pub fn set_kind(
    alloc: Global,
    members: Vec<Expr<Option<Type>>>,
) -> Result<ExprKind<Option<Type>>, AllocError>
    ensures tree { IfOk result (λ k. kind_tree k ≡ set_literal (trees (map tree_of members.items))) }
    ensures marks { IfOk result (λ k. kind_marks k ≡ rows (map marks_of members.items)) }
{
    let members = Rc::new(alloc, members)?;
    Ok(ExprKind::Set(members))
}

/// The call of the function of this name on these arguments.
#[tactic(auto, using(crate::proofs::RowMarks::call_marks, cedar_expr_trees::proofs::Trees::call_tree))]
pub fn call_kind(
    alloc: Global,
    fn_name: Name,
    args: Vec<Expr<Option<Type>>>,
) -> Result<ExprKind<Option<Type>>, AllocError>
    ensures tree { IfOk result (λ k. kind_tree k ≡ call (plain_name_of fn_name) (trees (map tree_of args.items))) }
    ensures marks { IfOk result (λ k. kind_marks k ≡ rows (map marks_of args.items)) }
{
    let args = Rc::new(alloc, args)?;
    Ok(ExprKind::ExtensionFunctionApp { fn_name, args })
}

/// The record of these fields.
#[tactic(auto, using(crate::proofs::RowMarks::record_marks, cedar_expr_trees::proofs::Trees::record_tree))]
pub fn record_kind(
    alloc: Global,
    fields: BTreeMap<RcStr, Expr<Option<Type>>>,
) -> Result<ExprKind<Option<Type>>, AllocError>
    ensures tree { IfOk result (λ k. kind_tree k ≡ record_literal (tree_fields (named (field_trees fields.entries)))) }
    ensures marks { IfOk result (λ k. kind_marks k ≡ rows (map (λ e. marks_of e.1) fields.entries)) }
{
    let fields = Rc::new(alloc, fields)?;
    Ok(ExprKind::Record(fields))
}
