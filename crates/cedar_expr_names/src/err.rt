//! Why a text or a name is refused.

ghost use Rattle.std.specs.Prelude.{◌≡◌};
ghost use Rattle.cedar_expr_names.specs.Views.{name_of, refused_name_of};

use crate::InternalName;
use thiserror::Error;

/// A name with the reserved part `__cedar` stands where none may.
#[derive(Debug, PartialEq, Eq, Error)]
#[error("the name `{name}` is reserved")]
pub struct ReservedNameError {
    /// The name that was refused.
    pub name: InternalName,
}

// prover: see ARCHITECTURE
impl Drop for ReservedNameError {
    fn drop(self) {
        let ReservedNameError { name: _ } = self;
    }
}

impl ReservedNameError {
    /// The refusal of this name.
    pub fn new(name: InternalName) -> ReservedNameError
        ensures { refused_name_of result ≡ name_of name }
    {
        ReservedNameError { name }
    }

    /// The name that was refused.
    pub fn name(&self) -> &InternalName
        ensures { name_of result.now ≡ refused_name_of self.now }
    {
        &self.name
    }
}

/// Why a text is no name of the kind that was asked for.
#[derive(Debug, PartialEq, Eq, Drop, Error)]
pub enum NameError {
    /// There is no memory for the name.
    #[error("out of memory")]
    OutOfMemory,

    /// The text is not made of identifiers joined by `::`.
    #[error("not a normalized name")]
    NotNormalized,

    /// The text is a reserved name.
    #[error(transparent)]
    Reserved(ReservedNameError),
}
