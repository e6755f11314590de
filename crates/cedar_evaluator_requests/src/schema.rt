//! Schemas by which requests are validated.

ghost use Rattle.std.specs.Prelude.{Option, IfOk, IfErr};
ghost use Rattle.cedar_expr_names.specs.Views.{uid_of};
ghost use Rattle.cedar_expr_model.specs.Uid.{Uid};
ghost use Rattle.cedar_evaluator_model.specs.Response.{PartialRequest};
ghost use Rattle.cedar_evaluator_model.specs.Scope.{Context as ModelContext};
ghost use Rattle.cedar_evaluator_requests.specs.Views.{request_of, context_of, uid_lent};

use crate::context::Context;
use crate::infallible::Infallible;
use crate::request::Request;
use cedar_expr_functions::Extensions;
use cedar_expr_names::EntityUID;
use std::alloc::AllocError;
use std::fmt::Display;
use thiserror::Error;

/// A schema by which requests are validated.
pub trait RequestSchema {
    /// What is said against a request.
    type Error: Drop;

    /// The schema passes this request.
    ghost passes_request: { Self → PartialRequest → Type 0 };
    /// The schema says this against the request.
    ghost refuses_request: { Self → PartialRequest → Self.Error → Type 0 };
    /// The schema passes this context of a request for the action.
    ghost passes_context: { Self → ModelContext → Uid → Type 0 };
    /// The schema says this against the context.
    ghost refuses_context: { Self → ModelContext → Uid → Self.Error → Type 0 };
    /// The schema passes this principal, action and resource, as far as they are known.
    ghost passes_variables: { Self → Option Uid → Option Uid → Option Uid → Type 0 };
    /// The schema says this against them.
    ghost refuses_variables: { Self → Option Uid → Option Uid → Option Uid → Self.Error → Type 0 };

    /// Passes the request, or says what is against it.
    fn validate_request(
        &self,
        request: &Request,
        extensions: &Extensions<'_>,
    ) -> Result<(), Self::Error>
        ensures passes { IfOk result (λ _. passes_request self.now (request_of request.now)) }
        ensures refuses { IfErr result (refuses_request self.now (request_of request.now)) };

    /// Passes the context of a request for this action, or says what is against it.
    fn validate_context(
        &self,
        context: &Context,
        action: &EntityUID,
        extensions: &Extensions<'_>,
    ) -> Result<(), Self::Error>
        ensures passes { IfOk result (λ _. passes_context self.now (context_of context.now) (uid_of action.now)) }
        ensures refuses { IfErr result (refuses_context self.now (context_of context.now) (uid_of action.now)) };

    /// Passes the principal, the action and the resource, as far as they are known, or says what is against them.
    fn validate_scope_variables(
        &self,
        principal: Option<&EntityUID>,
        action: Option<&EntityUID>,
        resource: Option<&EntityUID>,
    ) -> Result<(), Self::Error>
        ensures passes { IfOk result (λ _. passes_variables self.now (uid_lent principal.entry) (uid_lent action.entry) (uid_lent resource.entry)) }
        ensures refuses { IfErr result (refuses_variables self.now (uid_lent principal.entry) (uid_lent action.entry) (uid_lent resource.entry)) };
}

/// Why a request isn't made.
#[derive(Debug, Clone, PartialEq, Eq, Drop, Error)]
#[error_bound(E: Display)]
pub enum RequestError<E> {
    /// There is no memory for it.
    #[error("out of memory")]
    OutOfMemory,

    /// The schema says this against it.
    #[error("{0}")]
    Schema(E),
}

impl<E: Drop> From<AllocError> for RequestError<E> {
    ghost use Rattle.std.specs.Prelude.{◌≡◌};
    ghost use Rattle.cedar_evaluator_requests.specs.declared.schema.RequestError.TheVariants.{OutOfMemory};

    ghost from_gives = { λ _ e. e ≡ OutOfMemory };

    fn from(_error: AllocError) -> RequestError<E> {
        RequestError::OutOfMemory
    }
}

/// The schema that passes everything.
#[derive(Debug, Clone, Drop)]
pub struct RequestSchemaAllPass;

impl RequestSchema for RequestSchemaAllPass {
    type Error = Infallible;

    ghost passes_request = { λ s q. Unit {0} };

    ghost refuses_request = { λ s q e. ⊥ };

    ghost passes_context = { λ s c u. Unit {0} };

    ghost refuses_context = { λ s c u e. ⊥ };

    ghost passes_variables = { λ s p a r. Unit {0} };

    ghost refuses_variables = { λ s p a r e. ⊥ };

    fn validate_request(
        &self,
        _request: &Request,
        _extensions: &Extensions<'_>,
    ) -> Result<(), Infallible> {
        Ok(())
    }

    fn validate_context(
        &self,
        _context: &Context,
        _action: &EntityUID,
        _extensions: &Extensions<'_>,
    ) -> Result<(), Infallible> {
        Ok(())
    }

    fn validate_scope_variables(
        &self,
        _principal: Option<&EntityUID>,
        _action: Option<&EntityUID>,
        _resource: Option<&EntityUID>,
    ) -> Result<(), Infallible> {
        Ok(())
    }
}
