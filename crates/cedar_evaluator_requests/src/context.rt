//! The contexts of requests.

ghost use Rattle.std.specs.Prelude.{◌≡◌, true};
ghost use Rattle.cedar_expr_model.specs.Restricted.{is_restricted};
ghost use Rattle.cedar_expr_model.specs.Unknowns.{has_unknown};
ghost use Rattle.cedar_evaluator_requests.specs.Fields.{fields_tree};

use cedar_expr_partial::PartialValue;
use cedar_expr_trees::Expr;
use cedar_expr_values::{ExtValue, Record, Value};
use std::alloc::{AllocError, Global};
use std::collections::BTreeMap;
use std::rc::{Rc, RcStr};

/// The context of a request: a record of values, or one of which something is unknown.
#[derive(Debug, PartialEq, Eq, Drop)]
pub enum Context {
    /// The fields, each a value.
    Value(Record<ExtValue>),
    /// The fields, of which at least one has an unknown.
    RestrictedResidual(RestrictedFields),
}

/// The fields of a record that isn't a value yet. Each is a restricted expression, and at least one has an unknown.
#[derive(Debug, PartialEq, Eq, Drop)]
pub struct RestrictedFields {
    fields: Rc<BTreeMap<RcStr, Expr>>,
    ghost restricted: { is_restricted (fields_tree fields.value.entries) ≡ true },
    ghost unfinished: { has_unknown (fields_tree fields.value.entries) ≡ true },
}

impl RestrictedFields {
    ghost use Rattle.cedar_evaluator_requests.specs.Views.{restricted_tree};

    /// These fields: restricted expressions, of which at least one has an unknown.
    pub fn new(fields: Rc<BTreeMap<RcStr, Expr>>) -> RestrictedFields
        requires restricted { is_restricted (fields_tree fields.value.entries) ≡ true }
        requires unfinished { has_unknown (fields_tree fields.value.entries) ≡ true }
        ensures { restricted_tree result ≡ fields_tree fields.value.entries }
    {
        RestrictedFields { fields }
    }

    /// The fields, by their names.
    pub fn fields(&self) -> &Rc<BTreeMap<RcStr, Expr>>
        ensures tree { fields_tree result.now.value.entries ≡ restricted_tree self.now }
        ensures restricted { is_restricted (restricted_tree self.now) ≡ true }
        ensures unfinished { has_unknown (restricted_tree self.now) ≡ true }
    {
        &self.fields
    }
}

impl Clone for RestrictedFields {
    ghost use Rattle.cedar_evaluator_requests.specs.Views.{restricted_tree};

    ghost is_clone = { λ r copy. restricted_tree copy ≡ restricted_tree r };

    fn clone(&self) -> Result<RestrictedFields, AllocError> {
        Ok(RestrictedFields {
            fields: self.fields.clone()?,
        })
    }
}

impl Clone for Context {
    ghost use Rattle.cedar_evaluator_requests.specs.Views.{context_of};

    ghost is_clone = { λ c copy. context_of copy ≡ context_of c };

    fn clone(&self) -> Result<Context, AllocError> {
        match self {
            Context::Value(fields) => Ok(Context::Value(fields.clone()?)),
            Context::RestrictedResidual(fields) => Ok(Context::RestrictedResidual(fields.clone()?)),
        }
    }
}

impl Context {
    ghost use Rattle.std.specs.Prelude.{IfOk, length};
    ghost use Rattle.cedar_expr_model.specs.Made.{no_made_fields};
    ghost use Rattle.cedar_evaluator_model.specs.Scope.{closed};
    ghost use Rattle.cedar_evaluator_model.specs.Evaluation.{context_left};
    ghost use Rattle.cedar_evaluator_errors.specs.Outcomes.{left_seen};
    ghost use Rattle.cedar_evaluator_requests.specs.Views.{context_of, keys_of_context};

    /// The context without fields.
    pub fn empty(alloc: Global) -> Result<Context, AllocError>
        ensures { IfOk result (λ c. context_of c ≡ closed no_made_fields) }
    {
        Ok(Context::Value(Record::empty(alloc)?))
    }

    /// How many fields there are.
    pub fn num_keys(&self) -> usize
        ensures { result ≡ length (keys_of_context self.now) }
    {
        match self {
            Context::Value(fields) => fields.as_map().len(),
            Context::RestrictedResidual(fields) => fields.fields.len(),
        }
    }

    /// The record of the fields: a value, or what is left of an expression.
    pub fn into_partial_value(self) -> PartialValue<ExtValue>
        ensures { left_seen result ≡ context_left (context_of self) }
    {
        match self {
            Context::Value(fields) => PartialValue::Value(Value::record_arc(fields, None)),
            Context::RestrictedResidual(fields) => {
                PartialValue::Residual(Expr::record_arc(fields.fields))
            }
        }
    }
}
