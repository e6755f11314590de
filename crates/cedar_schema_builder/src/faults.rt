//! What the steps of building refuse, as why no schema is built.

ghost use Rattle.std.specs.Prelude.{◌≡◌};
ghost use Rattle.cedar_schema_builder.specs.Faults.{of_shadowing, of_fragments, of_types, of_assembly};
ghost use Rattle.cedar_schema_builder.specs.declared.err.SchemaError.TheVariants.{OutOfMemory, ReservedName};

use crate::err::SchemaError;
use cedar_expr_names::ReservedNameError;
use cedar_schema_assembly::AssemblyError;
use cedar_schema_decl::ShadowingError;
use cedar_schema_resolver::ResolveError;
use std::alloc::{AllocError, AllocFailed};

impl From<AllocError> for SchemaError {
    ghost from_gives = { λ _ e. e ≡ OutOfMemory };

    fn from(_error: AllocError) -> SchemaError {
        SchemaError::OutOfMemory
    }
}

impl<T: Drop> From<AllocFailed<T>> for SchemaError {
    ghost from_gives = { λ _ e. e ≡ OutOfMemory };

    fn from(_error: AllocFailed<T>) -> SchemaError {
        SchemaError::OutOfMemory
    }
}

impl From<ReservedNameError> for SchemaError {
    ghost from_gives = { λ r e. e ≡ ReservedName r };

    fn from(error: ReservedNameError) -> SchemaError {
        SchemaError::ReservedName(error)
    }
}

impl From<ShadowingError> for SchemaError {
    ghost from_gives = { λ s e. e ≡ of_shadowing s };

    fn from(error: ShadowingError) -> SchemaError {
        match error {
            ShadowingError::OutOfMemory => SchemaError::OutOfMemory,
            ShadowingError::TypeShadowing { shadowing_def } => {
                SchemaError::TypeShadowing { shadowing_def }
            }
            ShadowingError::ActionShadowing { shadowing_def } => {
                SchemaError::ActionShadowing { shadowing_def }
            }
        }
    }
}

impl From<cedar_schema_fragments::FragmentError> for SchemaError {
    ghost from_gives = { λ f e. e ≡ of_fragments f };

    fn from(error: cedar_schema_fragments::FragmentError) -> SchemaError {
        match error {
            cedar_schema_fragments::FragmentError::OutOfMemory => SchemaError::OutOfMemory,
            cedar_schema_fragments::FragmentError::TypeNotDefined { undefined_type } => {
                SchemaError::TypeNotDefined { undefined_type }
            }
            cedar_schema_fragments::FragmentError::ActionNotDefined { ty, id } => {
                SchemaError::ActionNotDefined { ty, id }
            }
            cedar_schema_fragments::FragmentError::ReservedName(error) => {
                SchemaError::ReservedName(error)
            }
        }
    }
}

impl From<ResolveError> for SchemaError {
    ghost from_gives = { λ r e. e ≡ of_types r };

    fn from(error: ResolveError) -> SchemaError {
        match error {
            ResolveError::OutOfMemory => SchemaError::OutOfMemory,
            ResolveError::UnknownExtensionType { name } => {
                SchemaError::UnknownExtensionType { name }
            }
            ResolveError::ReservedName(error) => SchemaError::ReservedName(error),
            ResolveError::DuplicateCommonType { name } => SchemaError::DuplicateCommonType { name },
            ResolveError::CycleInCommonTypeReferences { name } => {
                SchemaError::CycleInCommonTypeReferences { name }
            }
        }
    }
}

impl From<AssemblyError> for SchemaError {
    ghost from_gives = { λ a e. e ≡ of_assembly a };

    fn from(error: AssemblyError) -> SchemaError {
        match error {
            AssemblyError::OutOfMemory => SchemaError::OutOfMemory,
            AssemblyError::DuplicateEntityType { ty } => SchemaError::DuplicateEntityType { ty },
            AssemblyError::DuplicateAction { uid } => SchemaError::DuplicateAction { uid },
            AssemblyError::CycleInActionHierarchy { uid } => {
                SchemaError::CycleInActionHierarchy { uid }
            }
            AssemblyError::ContextNotRecord { uid } => SchemaError::ContextNotRecord { uid },
            AssemblyError::UnknownExtensionType { name } => {
                SchemaError::UnknownExtensionType { name }
            }
            AssemblyError::ReservedName(error) => SchemaError::ReservedName(error),
        }
    }
}
