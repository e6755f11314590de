//! The calls that make extension values.

ghost use Rattle.std.specs.Prelude.{◌≡◌, map};
ghost use Rattle.cedar_expr_names.specs.Views.{plain_name_of};
ghost use Rattle.cedar_expr_leaves.specs.Literals.{literal_of};

use cedar_expr_leaves::Literal;
use cedar_expr_names::Name;
use cedar_expr_values::{ExtValue, ExtensionValue, RepresentableExtensionValue};

/// An extension value that gives the call that makes it.
pub trait ExtensionCall: ExtensionValue {
    /// The function of the call.
    fn called(&self) -> &Name
        ensures { plain_name_of result.now ≡ (Self.seen self.now).function };

    /// The arguments of the call.
    fn arguments(&self) -> &[Literal]
        ensures { map literal_of result.now ≡ (Self.seen self.now).arguments };
}

impl ExtensionCall for ExtValue {
    fn called(&self) -> &Name {
        self.constructor()
    }

    fn arguments(&self) -> &[Literal] {
        self.args()
    }
}

impl<X: ExtensionValue> ExtensionCall for RepresentableExtensionValue<X> {
    fn called(&self) -> &Name {
        self.func()
    }

    fn arguments(&self) -> &[Literal] {
        self.args()
    }
}
