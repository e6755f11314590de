//! Extension values.

ghost use Rattle.std.specs.Prelude.{◌≡◌, IfOk, map};
ghost use Rattle.std.specs.Ordering.{is_eq};
ghost use Rattle.cedar_expr_model.specs.Tree.{extension_core};
ghost use Rattle.cedar_expr_names.specs.Views.{plain_name_of};
ghost use Rattle.cedar_expr_leaves.specs.Literals.{literal_of};
ghost use Rattle.cedar_expr_values.specs.Extension.{Extension, extension_cmp};
ghost use Rattle.cedar_expr_values.specs.Extensions.{extension_of};

use crate::types::{StaticallyTyped, Type};
use cedar_expr_leaves::Literal;
use cedar_expr_names::Name;
use std::alloc::AllocError;
use std::cmp::Ordering;
use std::rc::Rc;

/// An extension value. It has a type, a key, and a call that makes it, and is ordered by the name of the type and then by the
/// bytes of the key.
pub trait ExtensionValue: Ord + Drop {
    /// What the value is.
    ghost seen: { Self → Extension };

    /// The name of the value's type.
    fn typename(&self) -> &Name
        ensures { plain_name_of result.now ≡ (seen self.now).kind };

    /// The bytes of the value's key.
    fn key_bytes(&self) -> &[u8]
        ensures { result.now ≡ (seen self.now).key };

    /// The order is that of the types and then of the keys.
    ghost ordered: { (x y : Self) → Self.Ord.cmp x y ≡ extension_cmp (seen x) (seen y) };
}

/// The comparisons of extension values by methods of their own.
pub trait InternalExtensionValue: ExtensionValue {
    /// Whether this is the same value as the other: what `==` answers.
    fn equals_extvalue(&self, other: &Self) -> bool
        ensures { result ≡ is_eq (extension_cmp (Self.seen self.now) (Self.seen other.now)) }
    {
        self == other
    }

    /// The order of this value and the other: what `cmp` answers.
    fn cmp_extvalue(&self, other: &Self) -> Ordering
        ensures { result ≡ extension_cmp (Self.seen self.now) (Self.seen other.now) }
    {
        self.cmp(other)
    }
}

/// An extension value that a function of a table makes: the name of its type, its key, and the function and the literals of
/// the call. Values are compared by the name of the type and then by the bytes of the key; the call doesn't count.
#[derive(Debug)]
#[derive_where(PartialEq, Eq, PartialOrd, Ord, Hash)]
pub struct ExtValue {
    type_name: Name,
    key: Vec<u8>,
    #[derive_where(skip(EqHashOrd))]
    function: Name,
    #[derive_where(skip(EqHashOrd))]
    literals: Vec<Literal>,
}

// prover: see ARCHITECTURE
impl Drop for ExtValue {
    fn drop(self) {
        let ExtValue {
            type_name: _,
            key: _,
            function: _,
            literals: _,
        } = self;
    }
}

impl ExtValue {
    /// The value of a type and a key, with the call that makes it.
    pub fn new(type_name: Name, constructor: Name, args: Vec<Literal>, key: Vec<u8>) -> ExtValue
        ensures kind { (extension_of result).kind ≡ plain_name_of type_name }
        ensures key { (extension_of result).key ≡ key.items }
        ensures function { (extension_of result).function ≡ plain_name_of constructor }
        ensures arguments { (extension_of result).arguments ≡ map literal_of args.items }
    {
        ExtValue {
            type_name,
            key,
            function: constructor,
            literals: args,
        }
    }

    /// The bytes of the key.
    pub fn key(&self) -> &[u8]
        ensures { result.now ≡ (extension_of self.now).key }
    {
        self.key.as_slice()
    }

    /// The function of the call that makes the value.
    pub fn constructor(&self) -> &Name
        ensures { plain_name_of result.now ≡ (extension_of self.now).function }
    {
        &self.function
    }

    /// The arguments of the call that makes the value.
    pub fn args(&self) -> &[Literal]
        ensures { map literal_of result.now ≡ (extension_of self.now).arguments }
    {
        self.literals.as_slice()
    }
}

impl ExtensionValue for ExtValue {
    ghost use Rattle.cedar_expr_values.specs.Extensions.{extension_of, by_type_and_key};

    ghost seen = { extension_of };

    ghost ordered = { by_type_and_key };

    fn typename(&self) -> &Name {
        &self.type_name
    }

    fn key_bytes(&self) -> &[u8] {
        self.key()
    }
}

impl InternalExtensionValue for ExtValue {}

impl StaticallyTyped for ExtValue {
    ghost core_type = { λ x. extension_core (extension_of x).kind };

    fn type_of(&self) -> Result<Type, AllocError> {
        Ok(Type::Extension {
            name: self.type_name.clone()?,
        })
    }
}

/// An extension value with the function and the literals of a call that makes it. It is compared by the value alone.
#[derive_where(Debug, PartialEq, Eq, PartialOrd, Ord, Hash; X)]
pub struct RepresentableExtensionValue<X> {
    value: Rc<X>,
    #[derive_where(skip(EqHashOrd))]
    called: Name,
    #[derive_where(skip(EqHashOrd))]
    args: Vec<Literal>,
}

// prover: see ARCHITECTURE
impl<X: Drop> Drop for RepresentableExtensionValue<X> {
    fn drop(self) {
        let RepresentableExtensionValue {
            value: _,
            called: _,
            args: _,
        } = self;
    }
}

impl<X: ExtensionValue> RepresentableExtensionValue<X> {
    ghost use Rattle.cedar_expr_values.specs.Extensions.{with_call, value_held};

    /// The value with the call of this function on these literals.
    pub fn new(value: Rc<X>, func: Name, args: Vec<Literal>) -> RepresentableExtensionValue<X>
        ensures value { value_held result ≡ value.value }
        ensures kind { (with_call X.seen result).kind ≡ (X.seen value.value).kind }
        ensures key { (with_call X.seen result).key ≡ (X.seen value.value).key }
        ensures function { (with_call X.seen result).function ≡ plain_name_of func }
        ensures arguments { (with_call X.seen result).arguments ≡ map literal_of args.items }
    {
        RepresentableExtensionValue {
            value,
            called: func,
            args,
        }
    }

    /// The value without the call.
    pub fn value(&self) -> &X
        ensures value { result.now ≡ value_held self.now }
        ensures kind { (X.seen result.now).kind ≡ (with_call X.seen self.now).kind }
        ensures key { (X.seen result.now).key ≡ (with_call X.seen self.now).key }
    {
        self.value.as_ref()
    }

    /// The function of the call.
    pub fn func(&self) -> &Name
        ensures { plain_name_of result.now ≡ (with_call X.seen self.now).function }
    {
        &self.called
    }

    /// The arguments of the call.
    pub fn args(&self) -> &[Literal]
        ensures { map literal_of result.now ≡ (with_call X.seen self.now).arguments }
    {
        self.args.as_slice()
    }
}

impl<X: Drop> Clone for RepresentableExtensionValue<X> {
    ghost use Rattle.cedar_expr_values.specs.Extensions.{with_call};

    ghost is_clone = { λ x copy. (seen : X → Extension) → with_call seen copy ≡ with_call seen x };

    /// A copy that shares the value, with a copy of the call.
    fn clone(&self) -> Result<RepresentableExtensionValue<X>, AllocError> {
        Ok(RepresentableExtensionValue {
            value: self.value.clone()?,
            called: self.called.clone()?,
            args: self.args.clone()?,
        })
    }
}

impl<X: ExtensionValue> ExtensionValue for RepresentableExtensionValue<X> {
    ghost use Rattle.cedar_expr_values.specs.Extensions.{with_call};

    ghost seen = { with_call X.seen };

    ghost ordered = { λ x y. X.ordered x.value.value y.value.value };

    fn typename(&self) -> &Name {
        self.value.typename()
    }

    fn key_bytes(&self) -> &[u8] {
        self.value.key_bytes()
    }
}

impl<X: ExtensionValue> InternalExtensionValue for RepresentableExtensionValue<X> {}

impl<X: ExtensionValue> StaticallyTyped for RepresentableExtensionValue<X> {
    ghost use Rattle.cedar_expr_values.specs.Extensions.{with_call};

    ghost core_type = { λ x. extension_core (with_call X.seen x).kind };

    fn type_of(&self) -> Result<Type, AllocError> {
        Ok(Type::Extension {
            name: self.value.typename().clone()?,
        })
    }
}
