//! Each name that `cedar_schema` gives out, under each of its paths: a name that is lost there is missed here.
#![allow(unused_imports)]

mod core_types {
    use cedar_schema::core_types::{
        CoreAttributeType, CoreAttributes, CoreSchemaType, CoreTypeError, core_schema_type,
    };
}

mod json_schema {
    use cedar_schema::json_schema::{
        ActionEntityUID, ActionType, ActionTypeKind, ApplySpec, CommonType, EntityType,
        EntityTypeKind, Fragment, NamespaceDefinition, RecordType, Type, TypeOfAttribute,
        TypeVariant,
    };
}

mod schema {
    use cedar_schema::schema::{
        ActionFragment, ActionFragmentKind, ActionGroups, ActionsDef, ActionsFor, AllDefs,
        Ancestors, AppliesTo, CommonTypeDefs, CommonTypes, DeclaredNames, DeclaredNamespaces,
        DefsOfFragments, EntityTypeFragment, EntityTypesDef, LocatedCommonType, LocatedNamespace,
        LocatedType, StandardValidatorEntityType, TryValidate, TypeResolver, UnresolvedDeclaration,
        UnresolvedDeclarations, Unsound, ValidatorActionId, ValidatorApplySpec,
        ValidatorEntityType, ValidatorEntityTypeKind, ValidatorNamespaceDef, ValidatorSchema,
        ValidatorSchemaFragment, extension_types, first_unsound, resolve, resolve_common_types,
        try_validate,
    };
}

mod schema_all_defs {
    use cedar_schema::schema::all_defs::{new, single_fragment};
}

mod schema_err {
    use cedar_schema::schema::err::{
        FragmentError, ResolveError, SchemaError, ShadowingError, TypeNotDefinedError,
        UnresolvedExternalError, UnsoundSchemaError,
    };
}

mod types {
    use cedar_schema::types::{
        AllAttributes, AllKnownAttrs, AttributeType, Attributes, BoolType, DeclaredAttributes,
        EntityKind, EntityLUB, OpenTag, SchemaAttributes, Type, ValidationMode, all_attributes,
        all_known_attrs, are_types_disjoint, is_subtype, least_upper_bound, lookup_attribute_type,
        may_have_attr, reduce_to_least_upper_bound, typecheck_literal, typecheck_restricted_expr,
        typecheck_value,
    };
}

mod all {
    use cedar_schema::{
        ActionFragment, ActionFragmentKind, ActionGroups, ActionsDef, ActionsFor, AllAttributes,
        AllDefs, AllKnownAttrs, Ancestors, AppliesTo, AttributeType, Attributes, BoolType,
        CommonTypeDefs, CoreSchemaType, DeclaredAttributes, DefsOfFragments, EntityKind, EntityLUB,
        EntityTypeFragment, EntityTypesDef, FragmentError, LocatedCommonType, LocatedNamespace,
        LocatedType, OpenTag, SchemaAttributes, SchemaError, ShadowingError,
        StandardValidatorEntityType, TryValidate, Type, TypeNotDefinedError, UnresolvedDeclaration,
        UnresolvedDeclarations, UnresolvedExternalError, UnsoundSchemaError, ValidationMode,
        ValidatorActionId, ValidatorApplySpec, ValidatorEntityType, ValidatorEntityTypeKind,
        ValidatorNamespaceDef, ValidatorSchema, ValidatorSchemaFragment, all_attributes,
        all_known_attrs, are_types_disjoint, core_schema_type, first_unsound, is_subtype,
        least_upper_bound, lookup_attribute_type, may_have_attr, reduce_to_least_upper_bound,
        resolve, try_validate, typecheck_literal, typecheck_restricted_expr, typecheck_value,
    };
}
