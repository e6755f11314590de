//! The errors of evaluation, with what each keeps.

ghost use Rattle.std.specs.Prelude.{◌≡◌};

use cedar_expr_functions::{ExtensionFunctionLookupError, FuncDoesNotExistError};
use cedar_expr_leaves::{BinaryOp, NonEmpty, SlotId, UnaryOp};
use cedar_expr_names::{EntityUID, Loc, Name};
use cedar_expr_trees::Expr;
use cedar_expr_values::{ExtValue, Type, Value};
use std::alloc::{AllocError, Global};
use std::fmt;
use std::fmt::{Display, Formatter, Write};
use std::rc::{Rc, RcStr};
use thiserror::Error;

/// An entity was asked for that doesn't exist.
#[derive(Debug, Clone, PartialEq, Eq, Drop, Error)]
#[error("entity `{uid}` does not exist")]
pub struct EntityDoesNotExistError {
    /// Its uid.
    pub uid: Rc<EntityUID>,
    /// The place of the error.
    pub source_loc: Option<Loc>,
}

/// An entity was asked for an attribute, or a tag, that it doesn't have.
#[derive(Debug, Clone, PartialEq, Eq, Drop)]
pub struct EntityAttrDoesNotExistError {
    /// The entity.
    pub entity: Rc<EntityUID>,
    /// The name of the attribute or tag.
    pub attr_or_tag: RcStr,
    /// Whether an attribute was asked for, and not a tag.
    pub was_attr: bool,
    /// Whether the entity has a tag of that name where an attribute was asked for, or an attribute where a tag was.
    pub exists_the_other_kind: bool,
    /// The names of the entity's attributes, or of its tags, in their order: at most the first five.
    pub available_attrs_or_tags: Vec<RcStr>,
    /// How many attributes, or tags, the entity has.
    pub total_attrs_or_tags: usize,
    /// The place of the error.
    pub source_loc: Option<Loc>,
}

impl Display for EntityAttrDoesNotExistError {
    fn fmt<W: Write>(&self, f: &mut Formatter<W>) -> fmt::Result {
        let kind = if self.was_attr { "attribute" } else { "tag" };
        write!(
            f,
            "`{}` does not have the {} `{}`",
            self.entity, kind, self.attr_or_tag
        )
    }
}

/// A record was asked for a field that it doesn't have.
#[derive(Debug, Clone, PartialEq, Eq, Drop, Error)]
#[error("record does not have the attribute `{attr}`")]
pub struct RecordAttrDoesNotExistError {
    /// The name of the field.
    pub attr: RcStr,
    /// The names of the record's fields, in their order: at most the first five.
    pub available_attrs: Vec<RcStr>,
    /// How many fields the record has.
    pub total_attrs: usize,
    /// The place of the error.
    pub source_loc: Option<Loc>,
}

/// A value isn't of a type that is asked for.
#[derive(Debug, PartialEq, Eq, Drop)]
pub struct TypeError {
    /// The types of which one is asked for.
    pub expected: NonEmpty<Type>,
    /// The type of the value.
    pub actual: Type,
    /// What may help.
    pub advice: Option<String>,
    /// The place of the error.
    pub source_loc: Option<Loc>,
}

impl Clone for TypeError {
    ghost use Rattle.cedar_evaluator_errors.specs.Contents.{told_of_type};

    ghost is_clone = { λ e copy. (told_of_type copy ≡ told_of_type e) × (copy.source_loc ≡ e.source_loc) };

    #[tactic(auto, using(crate::proofs::Copied::types_copied))]
    fn clone(&self) -> Result<TypeError, AllocError> {
        let head = self.expected.head.clone()?;
        let tail = self.expected.tail.clone()?;
        Ok(TypeError {
            expected: NonEmpty { head, tail },
            actual: self.actual.clone()?,
            advice: self.advice.clone()?,
            source_loc: self.source_loc,
        })
    }
}

impl Display for TypeError {
    fn fmt<W: Write>(&self, f: &mut Formatter<W>) -> fmt::Result {
        let several = !self.expected.tail.is_empty();
        let start = if several { "one of [" } else { "" };
        write!(f, "type error: expected {}{}", start, self.expected.head)?;
        for ty in &self.expected.tail {
            write!(f, ", {ty}")?;
        }
        let end = if several { "]" } else { "" };
        write!(f, "{}, got {}", end, self.actual)
    }
}

/// A function doesn't take so many arguments.
#[derive(Debug, Clone, PartialEq, Eq, Drop, Error)]
#[error("wrong number of arguments provided to extension function `{function_name}`: expected {expected}, got {actual}")]
pub struct WrongNumArgumentsError {
    /// The name of the function.
    pub function_name: Name,
    /// How many types of arguments it has.
    pub expected: usize,
    /// How many arguments there were.
    pub actual: usize,
    /// The place of the error.
    pub source_loc: Option<Loc>,
}

/// Two whole numbers have a sum, a difference or a product that isn't of 64 bits.
#[derive(Debug, Clone, PartialEq, Eq, Drop)]
pub struct BinaryOpOverflowError {
    /// The operator.
    pub op: BinaryOp,
    /// The first operand.
    pub arg1: Value<ExtValue>,
    /// The second operand.
    pub arg2: Value<ExtValue>,
    /// The place of the error.
    pub source_loc: Option<Loc>,
}

impl Display for BinaryOpOverflowError {
    fn fmt<W: Write>(&self, f: &mut Formatter<W>) -> fmt::Result {
        let does = match self.op {
            BinaryOp::Add => "add",
            BinaryOp::Sub => "subtract",
            BinaryOp::Mul => "multiply",
            _ => "perform an operation on",
        };
        write!(
            f,
            "integer overflow while attempting to {does} the values `x` and `y`"
        )
    }
}

/// A whole number has a negation that isn't of 64 bits.
#[derive(Debug, Clone, PartialEq, Eq, Drop)]
pub struct UnaryOpOverflowError {
    /// The operator.
    pub op: UnaryOp,
    /// The operand.
    pub arg: Value<ExtValue>,
    /// The place of the error.
    pub source_loc: Option<Loc>,
}

impl Display for UnaryOpOverflowError {
    fn fmt<W: Write>(&self, f: &mut Formatter<W>) -> fmt::Result {
        let does = match self.op {
            UnaryOp::Neg => "negate",
            _ => "perform an operation on",
        };
        write!(
            f,
            "integer overflow while attempting to {does} the value `x`"
        )
    }
}

/// An operator's result isn't a whole number of 64 bits.
#[derive(Debug, PartialEq, Eq, Drop, Error)]
pub enum IntegerOverflowError {
    /// Of an operator of two operands.
    #[error(transparent)]
    BinaryOp(BinaryOpOverflowError),

    /// Of an operator of one operand.
    #[error(transparent)]
    UnaryOp(UnaryOpOverflowError),
}

impl Clone for IntegerOverflowError {
    ghost use Rattle.cedar_evaluator_errors.specs.Contents.{told_of_overflow};
    ghost use Rattle.cedar_evaluator_errors.specs.Places.{overflow_place};

    ghost is_clone = { λ e copy. (told_of_overflow copy ≡ told_of_overflow e) × (overflow_place copy ≡ overflow_place e) };

    fn clone(&self) -> Result<IntegerOverflowError, AllocError> {
        match self {
            IntegerOverflowError::BinaryOp(e) => Ok(IntegerOverflowError::BinaryOp(e.clone()?)),
            IntegerOverflowError::UnaryOp(e) => Ok(IntegerOverflowError::UnaryOp(e.clone()?)),
        }
    }
}

impl From<BinaryOpOverflowError> for IntegerOverflowError {
    ghost use Rattle.cedar_evaluator_errors.specs.declared.evaluation_errors.IntegerOverflowError.TheVariants as overflow;

    ghost from_gives = { λ x e. e ≡ overflow.BinaryOp x };

    fn from(error: BinaryOpOverflowError) -> IntegerOverflowError {
        IntegerOverflowError::BinaryOp(error)
    }
}

impl From<UnaryOpOverflowError> for IntegerOverflowError {
    ghost use Rattle.cedar_evaluator_errors.specs.declared.evaluation_errors.IntegerOverflowError.TheVariants as overflow;

    ghost from_gives = { λ x e. e ≡ overflow.UnaryOp x };

    fn from(error: UnaryOpOverflowError) -> IntegerOverflowError {
        IntegerOverflowError::UnaryOp(error)
    }
}

impl IntegerOverflowError {
    ghost use Rattle.cedar_evaluator_errors.specs.Places.{overflow_place, overflow_moved};

    /// The place of the error, if it has one.
    pub fn source_loc(&self) -> Option<Loc>
        ensures { result ≡ overflow_place self.now }
    {
        match self {
            IntegerOverflowError::BinaryOp(e) => e.source_loc,
            IntegerOverflowError::UnaryOp(e) => e.source_loc,
        }
    }

    /// The error at this place, or without one. All else is as it was.
    pub fn with_maybe_source_loc(self, source_loc: Option<Loc>) -> IntegerOverflowError
        ensures { result ≡ overflow_moved source_loc self }
    {
        match self {
            IntegerOverflowError::BinaryOp(e) => {
                IntegerOverflowError::BinaryOp(BinaryOpOverflowError { source_loc, ..e })
            }
            IntegerOverflowError::UnaryOp(e) => {
                IntegerOverflowError::UnaryOp(UnaryOpOverflowError { source_loc, ..e })
            }
        }
    }
}

/// The divisor of a remainder is zero.
#[derive(Debug, Clone, PartialEq, Eq, Drop, Error)]
#[error("remainder by zero")]
pub struct ZeroDivisorError {
    /// The place of the error.
    pub source_loc: Option<Loc>,
}

/// A slot isn't bound.
#[derive(Debug, Clone, PartialEq, Eq, Drop, Error)]
#[error("template slot `{slot}` was not linked")]
pub struct UnlinkedSlotError {
    /// The slot.
    pub slot: SlotId,
    /// The place of the error.
    pub source_loc: Option<Loc>,
}

/// A function of an extension failed.
#[derive(Debug, Clone, PartialEq, Eq, Drop, Error)]
#[error("error while evaluating `{extension_name}` extension function: {msg}")]
pub struct ExtensionFunctionExecutionError {
    /// The name of the extension.
    pub extension_name: Name,
    /// What failed.
    pub msg: String,
    /// What may help.
    pub advice: Option<String>,
    /// The place of the error.
    pub source_loc: Option<Loc>,
}

impl ExtensionFunctionExecutionError {
    ghost use Rattle.std.specs.Prelude.{IfOk};
    ghost use Rattle.std.specs.String.{string_bytes};
    ghost use Rattle.cedar_expr_model.specs.Name.{name_text};
    ghost use Rattle.cedar_expr_names.specs.Views.{plain_name_of};

    /// The text of the extension's name.
    pub fn extension_name(&self, alloc: Global) -> Result<String, AllocError>
        ensures { IfOk result (λ s. string_bytes s ≡ name_text (plain_name_of self.now.extension_name)) }
    {
        self.extension_name.to_string(alloc)
    }
}

/// An expression has unknowns and so no value.
#[derive(Debug, Clone, PartialEq, Eq, Drop, Error)]
#[error("the expression contains unknown(s)")]
pub struct NonValueError {
    /// The expression.
    pub expr: Expr,
    /// The place of the error.
    pub source_loc: Option<Loc>,
}

/// An expression nests deeper than the limit.
#[derive(Debug, Clone, PartialEq, Eq, Drop, Error)]
#[error("recursion limit reached")]
pub struct RecursionLimitError {
    /// The place of the error.
    pub source_loc: Option<Loc>,
}

ghost use Rattle.cedar_evaluator_errors.specs.Outcomes.{is_lookup_memory};
ghost use Rattle.cedar_evaluator_errors.specs.Places.{lookup_place, lookup_moved};

// The place of a look-up that failed, if it has one.
pub(crate) fn lookup_loc(error: &ExtensionFunctionLookupError) -> Option<Loc>
    ensures { result ≡ lookup_place error.now }
{
    match error {
        ExtensionFunctionLookupError::OutOfMemory => None,
        ExtensionFunctionLookupError::FuncDoesNotExist(e) => e.source_loc,
    }
}

// Whether memory was wanting for the refusal of a look-up.
pub(crate) fn is_lookup_memory(error: &ExtensionFunctionLookupError) -> bool
    ensures { result ≡ is_lookup_memory error.now }
{
    match error {
        ExtensionFunctionLookupError::OutOfMemory => true,
        ExtensionFunctionLookupError::FuncDoesNotExist(_) => false,
    }
}

// A look-up that failed, at another place.
pub(crate) fn lookup_at(
    error: ExtensionFunctionLookupError,
    source_loc: Option<Loc>,
) -> ExtensionFunctionLookupError
    ensures moved { result ≡ lookup_moved source_loc error }
    ensures memory { is_lookup_memory result ≡ is_lookup_memory error }
{
    match error {
        ExtensionFunctionLookupError::OutOfMemory => ExtensionFunctionLookupError::OutOfMemory,
        ExtensionFunctionLookupError::FuncDoesNotExist(e) => {
            let name = e.name;
            let e = FuncDoesNotExistError { name, source_loc };
            ExtensionFunctionLookupError::FuncDoesNotExist(e)
        }
    }
}
