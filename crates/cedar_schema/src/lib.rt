//! Cedar's schemas, whole: the items of the crates `cedar_schema_*` under one name.
//! Contract: that of the items. Its own code is laws: every type of the code is well-formed, and `==`, `cmp` and `hash` go by the model's.
//! Used by users of the library and by `cedar_bench`; crates of this repository name the crates below.
#![tactic(auto)]

pub mod formed;
pub mod laws;

pub use core_types::{CoreSchemaType, core_schema_type};
pub use schema::err::{
    FragmentError, SchemaError, ShadowingError, TypeNotDefinedError, UnresolvedExternalError,
    UnsoundSchemaError,
};
pub use schema::{
    ActionFragment, ActionFragmentKind, ActionGroups, ActionsDef, ActionsFor, AllDefs, Ancestors,
    AppliesTo, CommonTypeDefs, DefsOfFragments, EntityTypeFragment, EntityTypesDef,
    LocatedCommonType, LocatedNamespace, LocatedType, StandardValidatorEntityType, TryValidate,
    UnresolvedDeclaration, UnresolvedDeclarations, ValidatorActionId, ValidatorApplySpec,
    ValidatorEntityType, ValidatorEntityTypeKind, ValidatorNamespaceDef, ValidatorSchema,
    ValidatorSchemaFragment, first_unsound, resolve, try_validate,
};
pub use types::{
    AllAttributes, AllKnownAttrs, AttributeType, Attributes, BoolType, DeclaredAttributes,
    EntityKind, EntityLUB, OpenTag, SchemaAttributes, Type, ValidationMode, all_attributes,
    all_known_attrs, are_types_disjoint, is_subtype, least_upper_bound, lookup_attribute_type,
    may_have_attr, reduce_to_least_upper_bound, typecheck_literal, typecheck_restricted_expr,
    typecheck_value,
};

/// Types by which values can be read.
pub mod core_types {
    pub use cedar_schema_types::{
        CoreAttributeType, CoreAttributes, CoreSchemaType, CoreTypeError, core_schema_type,
    };
}

/// Declarations as they are written.
pub mod json_schema {
    pub use cedar_schema_decl::json_schema::{
        ActionEntityUID, ActionType, ActionTypeKind, ApplySpec, CommonType, EntityType,
        EntityTypeKind, Fragment, NamespaceDefinition, RecordType, Type, TypeOfAttribute,
        TypeVariant,
    };
}

/// Built schemas, and the steps that build them.
pub mod schema {
    pub use cedar_schema_builder::{DefsOfFragments, extension_types};
    pub use cedar_schema_built::{
        ActionGroups, ActionsFor, Ancestors, LocatedCommonType, LocatedNamespace, LocatedType,
        UnresolvedDeclaration, UnresolvedDeclarations, ValidatorSchema, located_common_types,
        located_namespaces, request_types_of,
    };
    pub use cedar_schema_decl::{
        AllDefs, CommonTypeDefs, EntityTypeFragment, EntityTypesDef, resolve,
    };
    pub use cedar_schema_entries::{
        AppliesTo, StandardValidatorEntityType, ValidatorActionId, ValidatorEntityType,
        ValidatorEntityTypeKind,
    };
    pub use cedar_schema_fragments::{
        ActionFragment, ActionFragmentKind, ActionsDef, DeclaredNames, DeclaredNamespaces,
        ValidatorApplySpec, ValidatorNamespaceDef, ValidatorSchemaFragment,
    };
    pub use cedar_schema_resolver::{CommonTypes, TypeResolver, resolve_common_types};
    pub use cedar_schema_sound::{TryValidate, Unsound, first_unsound, try_validate};

    /// What fragments declare.
    pub mod all_defs {
        pub use cedar_schema_fragments::all_defs::{new, single_fragment};
    }

    /// Why declarations are refused.
    pub mod err {
        pub use cedar_schema_builder::SchemaError;
        pub use cedar_schema_built::UnresolvedExternalError;
        pub use cedar_schema_decl::{ShadowingError, TypeNotDefinedError};
        pub use cedar_schema_fragments::FragmentError;
        pub use cedar_schema_resolver::ResolveError;
        pub use cedar_schema_sound::UnsoundSchemaError;
    }
}

/// Types of a schema.
pub mod types {
    pub use cedar_schema_joins::{
        DeclaredAttributes, ValidationMode, are_types_disjoint, is_subtype, least_upper_bound,
        lookup_attribute_type, may_have_attr, reduce_to_least_upper_bound, typecheck_literal,
        typecheck_restricted_expr, typecheck_value,
    };
    pub use cedar_schema_sound::{
        AllAttributes, AllKnownAttrs, SchemaAttributes, all_attributes, all_known_attrs,
    };
    pub use cedar_schema_types::{
        AttributeType, Attributes, BoolType, EntityKind, EntityLUB, OpenTag, Type,
    };
}
