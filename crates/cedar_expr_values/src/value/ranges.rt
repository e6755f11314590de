//! What stands in values keeps to the ranges of its types. A proof knows that of what is read: so these functions read, and nothing else.

ghost use Rattle.std.specs.Prelude.{◌≡◌, ◌&&◌, true};
ghost use Rattle.std.specs.List.{list_all};
ghost use Rattle.cedar_expr_model.specs.Name.{is_well_formed};
ghost use Rattle.cedar_expr_model.specs.Ranges.{is_byte, is_literal_in_range};
ghost use Rattle.cedar_expr_leaves.specs.Literals.{literal_of};

use super::ValueKind;
use crate::extension::ExtensionValue;
use cedar_expr_leaves::Literal;

impl<X: ExtensionValue> ValueKind<X> {
    ghost use Rattle.cedar_expr_model.specs.Ranges.{is_in_range};
    ghost use Rattle.cedar_expr_values.specs.Values.{bare_kind};

    // Each value is in range.
    pub(crate) fn is_in_range(&self)
        ensures { is_in_range (bare_kind X.seen self.now) ≡ true }
    {
        match self {
            ValueKind::Lit(literal) => literal_is_in_range(literal),
            ValueKind::ExtensionValue(value) => {
                name_is_well_formed(value.as_ref());
                are_bytes(value.key_bytes());
            }
            ValueKind::Set(set) => {
                for value in set.members.values.iter() {
                    value.kind.is_in_range();
                }
            }
            ValueKind::Record(fields) => {
                for value in fields.fields.values() {
                    value.kind.is_in_range();
                }
            }
        }
    }
}

// Each literal is in range.
fn literal_is_in_range(literal: &Literal)
    ensures { is_literal_in_range (literal_of literal.now) ≡ true }
{
    if let Literal::Long(number) = literal {
        let _number = *number;
    }
}

// The type of each extension value has a name.
fn name_is_well_formed<X: ExtensionValue>(value: &X)
    ensures { is_well_formed (X.seen value.now).kind ≡ true }
{
    let _name = value.typename();
}

// These are bytes.
fn are_bytes(bytes: &[u8])
    ensures { list_all is_byte bytes.now ≡ true }
{
    for byte in bytes {
        let _byte = *byte;
    }
}
