//! Trees of declarations, over names in any state.

use cedar_expr_leaves::NonEmpty;
use cedar_expr_names::{Id, InternalName, Loc};
use std::collections::BTreeMap;
use std::rc::RcStr;

/// A fragment of a schema: what it declares in each of its namespaces, the empty one among them.
#[derive(Drop)]
pub struct Fragment<N>(
    /// The namespaces by their names.
    pub BTreeMap<Option<InternalName>, NamespaceDefinition<N>>,
);

/// What is declared in one namespace.
#[derive(Drop)]
pub struct NamespaceDefinition<N> {
    /// The common types by their names.
    pub common_types: BTreeMap<Id, CommonType<N>>,
    /// The entity types by their names.
    pub entity_types: BTreeMap<Id, EntityType<N>>,
    /// The actions by their ids.
    pub actions: BTreeMap<RcStr, ActionType<N>>,
    /// The place of the definition.
    pub loc: Option<Loc>,
}

/// A common type: a type under a name of its own.
#[derive(Drop)]
pub struct CommonType<N> {
    /// The type.
    pub ty: Type<N>,
    /// The place of the declaration.
    pub loc: Option<Loc>,
}

/// An entity type.
#[derive(Drop)]
pub struct EntityType<N> {
    /// What is declared of it.
    pub kind: EntityTypeKind<N>,
    /// The place of the declaration.
    pub loc: Option<Loc>,
}

/// What is declared of an entity type.
#[derive(Drop)]
pub enum EntityTypeKind<N> {
    /// Its entities have these parents, attributes and tags.
    Standard {
        /// The types that its entities may be in.
        member_of_types: Vec<N>,
        /// The attributes.
        shape: RecordType<N>,
        /// The type of tags, where it has tags.
        tags: Option<Type<N>>,
    },
    /// Its entities are these.
    Enum {
        /// Their ids.
        choices: NonEmpty<RcStr>,
    },
    /// It is declared elsewhere.
    External {
        /// The types that its entities may be in.
        member_of_types: Vec<N>,
    },
}

/// An action.
#[derive(Drop)]
pub struct ActionType<N> {
    /// The actions that it is in.
    pub member_of: Vec<ActionEntityUID<N>>,
    /// What else is declared of it.
    pub kind: ActionTypeKind<N>,
    /// The place of the declaration.
    pub loc: Option<Loc>,
}

/// What is declared of an action beside the actions that it is in.
#[derive(Drop)]
pub enum ActionTypeKind<N> {
    /// It is declared here.
    Declared {
        /// What it applies to. Without this it applies to nothing.
        applies_to: Option<ApplySpec<N>>,
    },
    /// It is declared elsewhere.
    External,
}

/// An action that is named as a parent.
#[derive(Drop)]
pub struct ActionEntityUID<N> {
    /// The name of its type.
    pub ty: N,
    /// Its id.
    pub id: RcStr,
}

/// What an action applies to.
#[derive(Drop)]
pub struct ApplySpec<N> {
    /// The types of its principals.
    pub principal_types: Vec<N>,
    /// The types of its resources.
    pub resource_types: Vec<N>,
    /// The type of its context.
    pub context: Type<N>,
}

/// A type as it is written, at a place.
#[derive(Drop)]
#[cycle(written)]
pub struct Type<N> {
    /// What is written.
    pub ty: TypeVariant<N>,
    /// The place.
    pub loc: Option<Loc>,
}

/// What is written where a type is due.
#[derive(Drop)]
#[cycle(written)]
pub enum TypeVariant<N> {
    /// The type of texts.
    String,
    /// The type of whole numbers.
    Long,
    /// The type of truth values.
    Boolean,
    /// A type of sets.
    Set {
        /// The type of the members.
        element: Box<Type<N>>,
    },
    /// A type of records.
    Record(RecordType<N>),
    /// An entity type.
    Entity {
        /// Its name.
        name: N,
    },
    /// An entity type or a common type.
    EntityOrCommon {
        /// Its name.
        type_name: N,
    },
    /// A common type.
    CommonTypeRef {
        /// Its name.
        type_name: N,
    },
    /// An extension type.
    Extension {
        /// Its name.
        name: InternalName,
    },
}

/// A type of records: those that have each required attribute, and no other than these.
#[derive(Drop)]
#[cycle(written)]
pub struct RecordType<N> {
    /// The attributes by their names.
    pub attributes: BTreeMap<RcStr, TypeOfAttribute<N>>,
}

/// What is declared of an attribute.
#[derive(Drop)]
#[cycle(written)]
pub struct TypeOfAttribute<N> {
    /// Its type.
    pub ty: Type<N>,
    /// Whether it is required.
    pub required: bool,
    /// The place of the declaration.
    pub loc: Option<Loc>,
}
