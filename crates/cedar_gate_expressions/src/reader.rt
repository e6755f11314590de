//! The reader of expressions, for lists and maps of them.
ghost use Rattle.cedar_expr_trees.specs.Trees.{tree_of};
ghost use Rattle.cedar_gate_model.specs.ReadingExpression.{expression_read};
ghost use Rattle.cedar_gate_expressions.specs.Forms.{version_of};

use crate::expressions::read_expression;
use crate::forms::Version;
use crate::{ReadFault, Reader};
use cedar_expr_trees::Expr;
use serde_json::Value;
use std::alloc::Global;

/// Reads expressions.
#[derive(Clone, Copy)]
pub struct ExpressionReader {
    /// The version of the bundle.
    pub version: Version,
}

impl Reader for ExpressionReader {
    type Item = Expr;

    ghost use Rattle.cedar_expr_model.specs.Tree.{Tree};

    ghost Meaning = { Tree };

    ghost reading = { λ r. expression_read (version_of r.version) };

    ghost seen = { tree_of };

    fn read(&self, alloc: Global, value: &Value) -> Result<Expr, ReadFault> {
        read_expression(alloc, self.version, value)
    }
}
