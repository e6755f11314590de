//! Boolean types, and whether a record is open.

ghost use Rattle.std.specs.Prelude.{◌≡◌, if◌then◌else◌};
ghost use Rattle.cedar_schema_model.specs.Types.{only_true, only_false};
ghost use Rattle.cedar_schema_model.specs.Subtype.{is_bool_below, is_closed_record};
ghost use Rattle.cedar_schema_model.specs.Join.{bool_join};
ghost use Rattle.cedar_schema_model.specs.HasType.{is_of_bool};
ghost use Rattle.cedar_schema_types.specs.Kinds.{bool_type_of, openness_of};

/// A type of truth values.
#[derive(Copy, Clone, Debug, PartialEq, Eq, PartialOrd, Ord, Hash)]
pub enum BoolType {
    /// Both truth values.
    AnyBool,
    /// True alone.
    True,
    /// False alone.
    False,
}

impl BoolType {
    /// The type of this truth value alone.
    pub fn of_value(value: bool) -> BoolType
        ensures { bool_type_of result ≡ (if value then only_true else only_false) }
    {
        if value {
            BoolType::True
        } else {
            BoolType::False
        }
    }

    /// Whether this type is below the other.
    pub fn is_below(self, other: BoolType) -> bool
        ensures { result ≡ is_bool_below (bool_type_of self) (bool_type_of other) }
    {
        match (self, other) {
            (BoolType::AnyBool, BoolType::AnyBool) => true,
            (BoolType::AnyBool, BoolType::True) => false,
            (BoolType::AnyBool, BoolType::False) => false,
            (BoolType::True, BoolType::AnyBool) => true,
            (BoolType::True, BoolType::True) => true,
            (BoolType::True, BoolType::False) => false,
            (BoolType::False, BoolType::AnyBool) => true,
            (BoolType::False, BoolType::True) => false,
            (BoolType::False, BoolType::False) => true,
        }
    }

    /// The join of this type and the other.
    pub fn join(self, other: BoolType) -> BoolType
        ensures { bool_type_of result ≡ bool_join (bool_type_of self) (bool_type_of other) }
    {
        match (self, other) {
            (BoolType::True, BoolType::True) => BoolType::True,
            (BoolType::False, BoolType::False) => BoolType::False,
            (BoolType::AnyBool, BoolType::AnyBool) => BoolType::AnyBool,
            (BoolType::AnyBool, BoolType::True) => BoolType::AnyBool,
            (BoolType::AnyBool, BoolType::False) => BoolType::AnyBool,
            (BoolType::True, BoolType::AnyBool) => BoolType::AnyBool,
            (BoolType::True, BoolType::False) => BoolType::AnyBool,
            (BoolType::False, BoolType::AnyBool) => BoolType::AnyBool,
            (BoolType::False, BoolType::True) => BoolType::AnyBool,
        }
    }

    /// Whether the truth value is of the type.
    pub fn has(self, value: bool) -> bool
        ensures { result ≡ is_of_bool (bool_type_of self) value }
    {
        match self {
            BoolType::AnyBool => true,
            BoolType::True => value,
            BoolType::False => !value,
        }
    }
}

/// Whether a record may have fields that its type doesn't list.
#[derive(Copy, Clone, Debug, PartialEq, Eq, PartialOrd, Ord, Hash)]
pub enum OpenTag {
    /// It may have others.
    OpenAttributes,
    /// It has no others.
    ClosedAttributes,
}

impl OpenTag {
    /// Whether it has no other fields.
    pub fn is_closed(self) -> bool
        ensures { result ≡ is_closed_record (openness_of self) }
    {
        match self {
            OpenTag::OpenAttributes => false,
            OpenTag::ClosedAttributes => true,
        }
    }
}
