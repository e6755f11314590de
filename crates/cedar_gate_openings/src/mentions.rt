//! What values mention.

ghost use Rattle.std.specs.Prelude.{◌≡◌, ◌++◌, OnOk};
ghost use Rattle.cedar_expr_values.specs.Values.{bare};
ghost use Rattle.cedar_typechecker_model.specs.Slice.{mentioned};
ghost use Rattle.cedar_gate_openings.specs.Mentions.{uids, mentioned_in};

use cedar_expr_leaves::Literal;
use cedar_expr_names::EntityUID;
use cedar_expr_values::{ExtValue, ExtensionValue, Value, ValueKind};
use std::alloc::AllocError;
use std::collections::BTreeMap;
use std::rc::RcStr;

/// The values of expressions.
pub type V = Value<ExtValue>;

/// Adds the uids that the value mentions, in their order: the uid that it is, or of a record what its fields mention. Fails only
/// out of memory.
#[cycle(mentions)]
pub fn add_mentioned<X: ExtensionValue>(
    value: &Value<X>,
    to: &mut Vec<EntityUID>,
) -> Result<(), AllocError>
    ensures { OnOk result (uids to.new.items ≡ uids to.old.items ++ mentioned (bare X.seen value.now)) }
{
    match value.value_kind() {
        ValueKind::Lit(literal) => add_literal(literal, to),
        ValueKind::Record(pairs) => add_mentioned_in(pairs.as_map(), to),
        ValueKind::Set(_) => Ok(()),
        ValueKind::ExtensionValue(_) => Ok(()),
    }
}

/// Adds the uids that the fields mention, in their order. Fails only when out of memory.
#[cycle(mentions)]
pub fn add_mentioned_in<X: ExtensionValue>(
    pairs: &BTreeMap<RcStr, Value<X>>,
    to: &mut Vec<EntityUID>,
) -> Result<(), AllocError>
    ensures { OnOk result (uids to.new.items ≡ uids to.old.items ++ mentioned_in X.seen pairs.now.entries) }
{
    for (_name, value) in pairs {
        add_mentioned(value, to)?;
    }
    Ok(())
}

ghost use Rattle.cedar_expr_leaves.specs.Literals.{literal_of};
ghost use Rattle.cedar_expr_model.specs.Value.{prim};

// Adds the uid that the literal is, if it is one.
fn add_literal(literal: &Literal, to: &mut Vec<EntityUID>) -> Result<(), AllocError>
    ensures { OnOk result (uids to.new.items ≡ uids to.old.items ++ mentioned (prim (literal_of literal.now))) }
{
    match literal {
        Literal::EntityUID(uid) => {
            to.push(uid.as_ref().clone()?)?;
            Ok(())
        }
        Literal::Bool(_) => Ok(()),
        Literal::Long(_) => Ok(()),
        Literal::String(_) => Ok(()),
    }
}
