//! Core types: the types that values show by themselves.

ghost use Rattle.std.specs.Prelude.{◌≡◌, IfOk, Some};
ghost use Rattle.cedar_expr_model.specs.Value.{prim};
ghost use Rattle.cedar_expr_model.specs.Tree.{CoreType, entity_core};
ghost use Rattle.cedar_expr_model.specs.Substitution.{core_type_of};
ghost use Rattle.cedar_expr_model.specs.Order.{core_cmp, core_eq};
ghost use Rattle.cedar_expr_model.specs.Texts.{core_text};
ghost use Rattle.cedar_expr_names.specs.Views.{plain_name_of};
ghost use Rattle.cedar_expr_leaves.specs.Literals.{literal_of};
ghost use Rattle.cedar_expr_values.specs.Types.{core_of};

use cedar_expr_leaves::Literal;
use cedar_expr_names::{EntityType, Name};
use std::alloc::AllocError;
use std::cmp::Ordering;
use std::fmt;
use std::fmt::{Display, Formatter, Write};

/// The core type of a value. Core types are ordered as they are listed here, those of entities and of extensions by name.
#[derive(Debug, PartialEq, Eq, PartialOrd, Ord, Hash, Drop)]
pub enum Type {
    /// Truth values.
    Bool,
    /// Whole numbers.
    Long,
    /// Texts.
    String,
    /// Sets.
    Set,
    /// Records.
    Record,
    /// Entities of one type.
    Entity {
        /// The type of the entities.
        ty: EntityType,
    },
    /// Extension values of one type.
    Extension {
        /// The name of the type.
        name: Name,
    },
}

impl Type {
    /// The type of the entities whose type has this name.
    pub fn entity_type(name: Name) -> Type
        ensures { core_of result ≡ entity_core (plain_name_of name) }
    {
        Type::Entity {
            ty: EntityType::from_name(name),
        }
    }

    /// Whether this is the same type as the other: what `==` answers.
    pub fn same(&self, other: &Type) -> bool
        ensures { result ≡ core_eq (core_of self.now) (core_of other.now) }
    {
        self == other
    }

    /// The order of this type and the other: what `cmp` answers.
    pub fn order(&self, other: &Type) -> Ordering
        ensures { result ≡ core_cmp (core_of self.now) (core_of other.now) }
    {
        self.cmp(other)
    }
}

impl Clone for Type {
    ghost is_clone = { λ t copy. core_of copy ≡ core_of t };

    fn clone(&self) -> Result<Type, AllocError> {
        match self {
            Type::Bool => Ok(Type::Bool),
            Type::Long => Ok(Type::Long),
            Type::String => Ok(Type::String),
            Type::Set => Ok(Type::Set),
            Type::Record => Ok(Type::Record),
            Type::Entity { ty } => Ok(Type::Entity { ty: ty.clone()? }),
            Type::Extension { name } => Ok(Type::Extension {
                name: name.clone()?,
            }),
        }
    }
}

impl Display for Type {
    ghost output = { λ t. Some (core_text (core_of t)) };

    fn fmt<W: Write>(&self, f: &mut Formatter<W>) -> fmt::Result {
        match self {
            Type::Bool => write!(f, "bool"),
            Type::Long => write!(f, "long"),
            Type::String => write!(f, "string"),
            Type::Set => write!(f, "set"),
            Type::Record => write!(f, "record"),
            Type::Entity { ty } => write!(f, "(entity of type `{ty}`)"),
            Type::Extension { name } => Display::fmt(name, f),
        }
    }
}

/// What shows a core type by itself.
pub trait StaticallyTyped {
    /// The core type that it shows.
    ghost core_type: { Self → CoreType };

    /// The core type. Fails only when out of memory.
    fn type_of(&self) -> Result<Type, AllocError>
        ensures { IfOk result (λ t. core_of t ≡ core_type self.now) };
}

impl StaticallyTyped for Literal {
    ghost core_type = { λ l. core_type_of (prim (literal_of l)) };

    fn type_of(&self) -> Result<Type, AllocError> {
        match self {
            Literal::Bool(_) => Ok(Type::Bool),
            Literal::Long(_) => Ok(Type::Long),
            Literal::String(_) => Ok(Type::String),
            Literal::EntityUID(uid) => Ok(Type::Entity {
                ty: uid.entity_type().clone()?,
            }),
        }
    }
}
