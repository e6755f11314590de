//! The variables of requests.

ghost use Rattle.std.specs.Prelude.{Some};
ghost use Rattle.cedar_expr_leaves.specs.Variables.{var_of};
ghost use Rattle.cedar_expr_model.specs.Texts.{var_text};

use std::fmt;
use std::fmt::{Display, Formatter, Write};

/// A variable of a request. Variables stand in the order in which they are listed here.
#[derive(Debug, Clone, Copy, PartialEq, Eq, PartialOrd, Ord, Hash)]
pub enum Var {
    /// Who makes the request.
    Principal,

    /// What is done.
    Action,

    /// On what it is done.
    Resource,

    /// What is known beside them.
    Context,
}

impl Display for Var {
    ghost output = { λ x. Some (var_text (var_of x)) };

    fn fmt<W: Write>(&self, f: &mut Formatter<W>) -> fmt::Result {
        match self {
            Var::Principal => f.write_str("principal"),
            Var::Action => f.write_str("action"),
            Var::Resource => f.write_str("resource"),
            Var::Context => f.write_str("context"),
        }
    }
}
