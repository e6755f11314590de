//! How the records are compared and hashed. Each function's contract is the theorem; its body does nothing.

ghost use Rattle.std.specs.Prelude.{◌≡◌, true};
ghost use Rattle.std.specs.Bool.{Decides};
ghost use Rattle.std.specs.Ordering.{is_eq};
ghost use Rattle.cedar_store_parts.specs.Views.{error_of, warning_of, kind_of, mode_seen};
ghost use Rattle.cedar_store_parts.specs.declared.diagnostics.ValidationError.{ValidationError as Fault};
ghost use Rattle.cedar_store_parts.specs.declared.diagnostics.ValidationWarning.{ValidationWarning as Warning};
ghost use Rattle.cedar_store_parts.specs.declared.request_type.RequestType.{RequestType as Kind};
ghost use Rattle.cedar_store_parts.specs.declared.validation_mode.ValidationMode.{ValidationMode as Mode};

use crate::diagnostics::{ValidationError, ValidationWarning};
use crate::request_type::RequestType;
use crate::validation_mode::ValidationMode;
use std::hash::Hash;

/// Errors are equal exactly where policy, place and what is wrong are the same, as far as texts, names, uids and numbers go.
/// They are equal where their order finds no difference, and are then hashed alike.
pub fn errors_agree()
    ensures order { (a b : Fault) → ⟦<ValidationError as PartialEq>⟧.eq a b ≡ is_eq (⟦<ValidationError as Ord>⟧.cmp a b) }
    ensures hash { (a b : Fault) → ⟦<ValidationError as PartialEq>⟧.eq a b ≡ true → ⟦<ValidationError as Hash>⟧.hash_input a ≡ ⟦<ValidationError as Hash>⟧.hash_input b }
    ensures equality { (a b : Fault) → Decides (⟦<ValidationError as PartialEq>⟧.eq a b) (error_of a ≡ error_of b) }
{}

/// Warnings are equal exactly where they are of one kind, of one policy at one place, and say the same. They are equal where
/// their order finds no difference, and are then hashed alike.
pub fn warnings_agree()
    ensures order { (a b : Warning) → ⟦<ValidationWarning as PartialEq>⟧.eq a b ≡ is_eq (⟦<ValidationWarning as Ord>⟧.cmp a b) }
    ensures hash { (a b : Warning) → ⟦<ValidationWarning as PartialEq>⟧.eq a b ≡ true → ⟦<ValidationWarning as Hash>⟧.hash_input a ≡ ⟦<ValidationWarning as Hash>⟧.hash_input b }
    ensures equality { (a b : Warning) → Decides (⟦<ValidationWarning as PartialEq>⟧.eq a b) (warning_of a ≡ warning_of b) }
{}

/// Types of requests are equal exactly where their types and uids are. They are equal where their order finds no difference,
/// and are then hashed alike.
pub fn request_types_agree()
    ensures order { (a b : Kind) → ⟦<RequestType as PartialEq>⟧.eq a b ≡ is_eq (⟦<RequestType as Ord>⟧.cmp a b) }
    ensures hash { (a b : Kind) → ⟦<RequestType as PartialEq>⟧.eq a b ≡ true → ⟦<RequestType as Hash>⟧.hash_input a ≡ ⟦<RequestType as Hash>⟧.hash_input b }
    ensures equality { (a b : Kind) → Decides (⟦<RequestType as PartialEq>⟧.eq a b) (kind_of a ≡ kind_of b) }
{}

/// Modes are equal exactly where they are the same. They are equal where their order finds no difference, and are then hashed
/// alike.
pub fn modes_agree()
    ensures order { (a b : Mode) → ⟦<ValidationMode as PartialEq>⟧.eq a b ≡ is_eq (⟦<ValidationMode as Ord>⟧.cmp a b) }
    ensures hash { (a b : Mode) → ⟦<ValidationMode as PartialEq>⟧.eq a b ≡ true → ⟦<ValidationMode as Hash>⟧.hash_input a ≡ ⟦<ValidationMode as Hash>⟧.hash_input b }
    ensures equality { (a b : Mode) → Decides (⟦<ValidationMode as PartialEq>⟧.eq a b) (mode_seen a ≡ mode_seen b) }
{}
