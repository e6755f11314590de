//! The kinds of entity types.

ghost use Rattle.std.specs.Prelude.{◌≡◌, option_map};
ghost use Rattle.cedar_schema_types.specs.Types.{type_of};
ghost use Rattle.cedar_schema_entries.specs.Kinds.{tags_in};

use cedar_schema_types::Type;
use std::collections::BTreeSet;
use std::rc::RcStr;

/// What a standard entity type has beside its attributes.
#[derive(Debug, Drop)]
pub struct StandardValidatorEntityType {
    tags: Option<Type>,
}

/// The kinds of entity types.
#[derive(Debug, Drop)]
pub enum ValidatorEntityTypeKind {
    /// One with attributes and perhaps tags.
    Standard(StandardValidatorEntityType),
    /// One with these members alone.
    Enum(BTreeSet<RcStr>),
    /// One that is declared elsewhere.
    External,
}

impl StandardValidatorEntityType {
    /// One with this type of tags.
    pub fn new(tags: Option<Type>) -> StandardValidatorEntityType
        ensures { tags_in result ≡ option_map type_of tags }
    {
        StandardValidatorEntityType { tags }
    }

    /// The type of the tags. Without one the entities have no tags.
    pub fn tag_type(&self) -> Option<&Type>
        ensures { option_map (λ t. type_of t.now) result ≡ tags_in self.now }
    {
        self.tags.as_ref()
    }
}
