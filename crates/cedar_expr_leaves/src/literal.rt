//! Literals.

ghost use Rattle.std.specs.Prelude.{◌≡◌, IfOk, Some, string_bytes};
ghost use Rattle.std.specs.Ordering.{is_eq};
ghost use Rattle.std.specs.Rc.{rc_str_bytes};
ghost use Rattle.cedar_expr_model.specs.Value.{truth, long, text as text_literal, entity};
ghost use Rattle.cedar_expr_model.specs.Order.{literal_cmp};
ghost use Rattle.cedar_expr_names.specs.Views.{uid_of};
ghost use Rattle.cedar_expr_leaves.specs.Literals.{literal_of, is_uid, literal_text};

use cedar_expr_names::{EntityUID, Quoted};
use std::alloc::{AllocError, Global};
use std::cmp::Ordering;
use std::fmt;
use std::fmt::{Display, Formatter, Write};
use std::rc::{Rc, RcStr};

/// A literal. Literals are compared by kind, and those of one kind by what they hold; the places of uids don't count.
#[derive(Debug, PartialEq, Eq, PartialOrd, Ord, Hash, Drop)]
pub enum Literal {
    /// A truth value.
    Bool(bool),
    /// A whole number of 64 bits with its sign.
    Long(i64),
    /// A text.
    String(RcStr),
    /// The uid of an entity.
    EntityUID(Rc<EntityUID>),
}

impl Literal {
    /// The literal of a copy of this text. Fails only when out of memory.
    pub fn from_str(alloc: Global, text: &str) -> Result<Literal, AllocError>
        ensures { IfOk result (λ l. literal_of l ≡ text_literal text.now) }
    {
        let text = RcStr::from_str(alloc, text)?;
        Ok(Literal::String(text))
    }

    /// The literal of this text. Fails only when out of memory.
    pub fn from_string(text: String) -> Result<Literal, AllocError>
        ensures { IfOk result (λ l. literal_of l ≡ text_literal (string_bytes text)) }
    {
        let text = RcStr::from_string(text)?;
        Ok(Literal::String(text))
    }

    /// The literal of this uid. Fails only when out of memory.
    pub fn from_entity_uid(alloc: Global, uid: EntityUID) -> Result<Literal, AllocError>
        ensures { IfOk result (λ l. literal_of l ≡ entity (uid_of uid)) }
    {
        let uid = Rc::new(alloc, uid)?;
        Ok(Literal::EntityUID(uid))
    }

    /// Whether the literal is a uid.
    pub fn is_ref(&self) -> bool
        ensures { result ≡ is_uid (literal_of self.now) }
    {
        match self {
            Literal::EntityUID(_) => true,
            Literal::Bool(_) | Literal::Long(_) | Literal::String(_) => false,
        }
    }

    /// Whether this is the same literal as the other: what `==` answers, which doesn't look at places.
    pub fn same(&self, other: &Literal) -> bool
        ensures { result ≡ is_eq (literal_cmp (literal_of self.now) (literal_of other.now)) }
    {
        self == other
    }

    /// The order of this literal and the other: what `cmp` answers.
    pub fn order(&self, other: &Literal) -> Ordering
        ensures { result ≡ literal_cmp (literal_of self.now) (literal_of other.now) }
    {
        self.cmp(other)
    }
}

impl From<bool> for Literal {
    ghost from_gives = { λ b l. literal_of l ≡ truth b };

    fn from(b: bool) -> Literal {
        Literal::Bool(b)
    }
}

impl From<i64> for Literal {
    ghost from_gives = { λ n l. literal_of l ≡ long n };

    fn from(n: i64) -> Literal {
        Literal::Long(n)
    }
}

impl From<RcStr> for Literal {
    ghost from_gives = { λ s l. literal_of l ≡ text_literal (rc_str_bytes s) };

    fn from(text: RcStr) -> Literal {
        Literal::String(text)
    }
}

impl From<Rc<EntityUID>> for Literal {
    ghost from_gives = { λ u l. literal_of l ≡ entity (uid_of u.value) };

    fn from(uid: Rc<EntityUID>) -> Literal {
        Literal::EntityUID(uid)
    }
}

impl Clone for Literal {
    ghost is_clone = { λ l copy. literal_of copy ≡ literal_of l };

    fn clone(&self) -> Result<Literal, AllocError> {
        match self {
            Literal::Bool(b) => Ok(Literal::Bool(*b)),
            Literal::Long(n) => Ok(Literal::Long(*n)),
            Literal::String(text) => Ok(Literal::String(text.clone()?)),
            Literal::EntityUID(uid) => Ok(Literal::EntityUID(uid.clone()?)),
        }
    }
}

impl Display for Literal {
    ghost output = { λ l. Some (literal_text (literal_of l)) };

    fn fmt<W: Write>(&self, f: &mut Formatter<W>) -> fmt::Result {
        match self {
            Literal::Bool(b) => Display::fmt(b, f),
            Literal::Long(n) => Display::fmt(n, f),
            Literal::String(text) => Display::fmt(&Quoted::new(text.as_str()), f),
            Literal::EntityUID(uid) => Display::fmt(uid.as_ref(), f),
        }
    }
}
