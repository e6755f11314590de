//! Expressions.

ghost use Rattle.std.specs.Prelude.{◌≡◌};

use crate::copies::{and_of, attribute_of, binary_of, choice_of, is_of, like_of, or_of, test_of};
use cedar_expr_leaves::{BinaryOp, Literal, NonEmpty, Pattern, SlotId, UnaryOp, Var};
use cedar_expr_names::{EntityType, Loc, Name, Quoted};
use cedar_expr_values::Type;
use std::alloc::AllocError;
use std::collections::BTreeMap;
use std::fmt;
use std::fmt::{Display, Formatter, Write};
use std::rc::{Rc, RcStr};

/// An unknown: its name, and the type that it is annotated with, if it has one.
#[derive(Debug, PartialEq, Eq, PartialOrd, Ord, Hash, Drop)]
pub struct Unknown {
    /// The name.
    pub name: RcStr,
    /// The annotation.
    pub type_annotation: Option<Type>,
}

/// An expression, with its place and the data that its maker gives it. Expressions are compared by what they are and by their
/// data; places don't count.
#[derive_where(Debug, PartialEq, Eq, Hash; T)]
#[cycle(expr)]
pub struct Expr<T = ()> {
    pub(crate) expr_kind: ExprKind<T>,
    #[derive_where(skip(EqHashOrd))]
    pub(crate) source_loc: Option<Loc>,
    pub(crate) data: T,
}

// A drop of its own is one step to the proof of a function that may drop an expression; a derived one is a step for each field.
// A chain of attributes is dropped by a loop: it may be as long as a bundle.
impl<T: Drop> Drop for Expr<T> {
    fn drop(self) {
        let mut kind = self.into_expr_kind();
        while let ExprKind::GetAttr { expr, attr: _ } = kind {
            match Rc::into_inner(expr) {
                Some(of) => kind = of.into_expr_kind(),
                None => return,
            }
        }
    }
}

/// The kind of an expression, with its parts.
#[derive(Drop)]
#[derive_where(Debug, PartialEq, Eq, Hash; T)]
#[cycle(expr)]
pub enum ExprKind<T = ()> {
    /// A literal.
    Lit(Literal),
    /// A variable of the request.
    Var(Var),
    /// A slot of a template.
    Slot(SlotId),
    /// An unknown.
    Unknown(Unknown),
    /// A choice between two expressions.
    If {
        /// What decides.
        test_expr: Rc<Expr<T>>,
        /// What is taken where that is true.
        then_expr: Rc<Expr<T>>,
        /// What is taken where that is false.
        else_expr: Rc<Expr<T>>,
    },
    /// A conjunction: the right side matters only where the left side is true.
    And {
        /// The left side.
        left: Rc<Expr<T>>,
        /// The right side.
        right: Rc<Expr<T>>,
    },
    /// A disjunction: the right side matters only where the left side is false.
    Or {
        /// The left side.
        left: Rc<Expr<T>>,
        /// The right side.
        right: Rc<Expr<T>>,
    },
    /// An operator of one operand.
    UnaryApp {
        /// The operator.
        op: UnaryOp,
        /// Its operand.
        arg: Rc<Expr<T>>,
    },
    /// An operator of two operands.
    BinaryApp {
        /// The operator.
        op: BinaryOp,
        /// Its first operand.
        arg1: Rc<Expr<T>>,
        /// Its second operand.
        arg2: Rc<Expr<T>>,
    },
    /// A call of a function.
    ExtensionFunctionApp {
        /// The name of the function.
        fn_name: Name,
        /// Its arguments.
        args: Rc<Vec<Expr<T>>>,
    },
    /// The value of an attribute.
    GetAttr {
        /// What has it.
        expr: Rc<Expr<T>>,
        /// Its name.
        attr: RcStr,
    },
    /// Whether an attribute is there.
    HasAttr {
        /// What may have it.
        expr: Rc<Expr<T>>,
        /// Its name.
        attr: RcStr,
    },
    /// Whether attributes are there, one after the other.
    ExtHasAttr {
        /// What may have the first.
        expr: Rc<Expr<T>>,
        /// Their names.
        attrs: Rc<NonEmpty<RcStr>>,
    },
    /// Whether a text matches a pattern.
    Like {
        /// The text.
        expr: Rc<Expr<T>>,
        /// The pattern.
        pattern: Pattern,
    },
    /// Whether an entity is of a type.
    Is {
        /// The entity.
        expr: Rc<Expr<T>>,
        /// The type.
        entity_type: EntityType,
    },
    /// A set, by its members.
    Set(Rc<Vec<Expr<T>>>),
    /// A record: expressions by the names of its fields.
    Record(Rc<BTreeMap<RcStr, Expr<T>>>),
}

impl Unknown {
    ghost use Rattle.std.specs.Prelude.{Some, None};
    ghost use Rattle.std.specs.Rc.{rc_str_bytes};
    ghost use Rattle.cedar_expr_values.specs.Types.{core_of};
    ghost use Rattle.cedar_expr_trees.specs.Unknowns.{unknown_of};

    /// The unknown of this name, without annotation.
    pub fn new_untyped(name: RcStr) -> Unknown
        ensures name { (unknown_of result).name ≡ rc_str_bytes name }
        ensures annotation { (unknown_of result).annotation ≡ None }
    {
        Unknown {
            name,
            type_annotation: None,
        }
    }

    /// The unknown of this name, annotated with this type.
    pub fn new_with_type(name: RcStr, ty: Type) -> Unknown
        ensures name { (unknown_of result).name ≡ rc_str_bytes name }
        ensures annotation { (unknown_of result).annotation ≡ Some (core_of ty) }
    {
        Unknown {
            name,
            type_annotation: Some(ty),
        }
    }
}

impl Clone for Unknown {
    ghost use Rattle.cedar_expr_trees.specs.Unknowns.{unknown_of};

    ghost is_clone = { λ u copy. unknown_of copy ≡ unknown_of u };

    fn clone(&self) -> Result<Unknown, AllocError> {
        let name = self.name.clone()?;
        let type_annotation = match &self.type_annotation {
            None => None,
            Some(ty) => Some(ty.clone()?),
        };
        Ok(Unknown {
            name,
            type_annotation,
        })
    }
}

impl Display for Unknown {
    ghost use Rattle.std.specs.Prelude.{Some};
    ghost use Rattle.cedar_expr_trees.specs.Unknowns.{unknown_of, unknown_text};

    ghost output = { λ u. Some (unknown_text (unknown_of u)) };

    fn fmt<W: Write>(&self, f: &mut Formatter<W>) -> fmt::Result {
        write!(f, "unknown({})", Quoted::new(self.name.as_str()))
    }
}

impl<T> Expr<T> {
    ghost use Rattle.cedar_expr_trees.specs.Trees.{tree_of, kind_tree, kind_of, place_of, data_of};

    /// The expression of this kind, at this place, with this data.
    pub fn new(expr_kind: ExprKind<T>, source_loc: Option<Loc>, data: T) -> Expr<T>
        ensures kind { kind_of result ≡ expr_kind }
        ensures tree { tree_of result ≡ kind_tree expr_kind }
        ensures place { place_of result ≡ source_loc }
        ensures data { data_of result ≡ «data» }
    {
        Expr {
            expr_kind,
            source_loc,
            data,
        }
    }

    /// The kind of the expression, with its parts.
    pub fn expr_kind(&self) -> &ExprKind<T>
        ensures kind { result.now ≡ kind_of self.now }
        ensures tree { kind_tree result.now ≡ tree_of self.now }
    {
        &self.expr_kind
    }

    /// The place of the expression in its source, where it has one.
    pub fn source_loc(&self) -> Option<Loc>
        ensures { result ≡ place_of self.now }
    {
        self.source_loc
    }

    /// The data that its maker gave the expression.
    pub fn data(&self) -> &T
        ensures { result.now ≡ data_of self.now }
    {
        &self.data
    }
}

impl<T: Drop> Expr<T> {
    ghost use Rattle.cedar_expr_trees.specs.Trees.{tree_of, kind_tree, kind_of, place_of, data_of};

    /// The kind of the expression, without a copy.
    pub fn into_expr_kind(self) -> ExprKind<T>
        ensures kind { result ≡ kind_of self }
        ensures tree { kind_tree result ≡ tree_of self }
    {
        let (expr_kind, _, data) = self.into_parts();
        drop(data);
        expr_kind
    }

    /// The data of the expression, without a copy.
    pub fn into_data(self) -> T
        ensures { result ≡ data_of self }
    {
        let (expr_kind, _, data) = self.into_parts();
        drop(expr_kind);
        data
    }

    /// The kind of the expression, its place and its data.
    pub fn into_parts(self) -> (ExprKind<T>, Option<Loc>, T)
        ensures kind { result.0 ≡ kind_of self }
        ensures tree { kind_tree result.0 ≡ tree_of self }
        ensures place { result.1 ≡ place_of self }
        ensures data { result.2 ≡ data_of self }
    {
        let Expr {
            expr_kind,
            source_loc,
            data,
        } = self;
        (expr_kind, source_loc, data)
    }

    /// The expression with its kind and its data, at this place, or without one.
    pub fn with_maybe_source_loc(self, source_loc: Option<Loc>) -> Expr<T>
        ensures kind { kind_of result ≡ kind_of self }
        ensures tree { tree_of result ≡ tree_of self }
        ensures place { place_of result ≡ source_loc }
        ensures data { data_of result ≡ data_of self }
    {
        let (expr_kind, _, data) = self.into_parts();
        Expr {
            expr_kind,
            source_loc,
            data,
        }
    }

    /// Gives the expression other data.
    pub fn set_data(&mut self, data: T)
        ensures kind { kind_of self.new ≡ kind_of self.old }
        ensures tree { tree_of self.new ≡ tree_of self.old }
        ensures place { place_of self.new ≡ place_of self.old }
        ensures data { data_of self.new ≡ «data» }
    {
        self.data = data;
    }
}

impl<T: Drop> Clone for ExprKind<T> {
    ghost use Rattle.cedar_expr_trees.specs.Trees.{kind_tree};
    ghost use Rattle.cedar_expr_trees.specs.Positions.{below};

    ghost is_clone = { λ k copy. (kind_tree copy ≡ kind_tree k) × (below copy ≡ below k) };

    /// A copy of the kind that shares its parts.
    fn clone(&self) -> Result<ExprKind<T>, AllocError> {
        match self {
            ExprKind::Lit(literal) => Ok(ExprKind::Lit(literal.clone()?)),
            ExprKind::Var(v) => Ok(ExprKind::Var(*v)),
            ExprKind::Slot(s) => Ok(ExprKind::Slot(*s)),
            ExprKind::Unknown(u) => Ok(ExprKind::Unknown(u.clone()?)),
            ExprKind::If {
                test_expr,
                then_expr,
                else_expr,
            } => choice_of(test_expr, then_expr, else_expr),
            ExprKind::And { left, right } => and_of(left, right),
            ExprKind::Or { left, right } => or_of(left, right),
            ExprKind::UnaryApp { op, arg } => Ok(ExprKind::UnaryApp {
                op: *op,
                arg: arg.clone()?,
            }),
            ExprKind::BinaryApp { op, arg1, arg2 } => binary_of(*op, arg1, arg2),
            ExprKind::ExtensionFunctionApp { fn_name, args } => {
                Ok(ExprKind::ExtensionFunctionApp {
                    fn_name: fn_name.clone()?,
                    args: args.clone()?,
                })
            }
            ExprKind::GetAttr { expr, attr } => attribute_of(expr, attr),
            ExprKind::HasAttr { expr, attr } => test_of(expr, attr),
            ExprKind::ExtHasAttr { expr, attrs } => Ok(ExprKind::ExtHasAttr {
                expr: expr.clone()?,
                attrs: attrs.clone()?,
            }),
            ExprKind::Like { expr, pattern } => like_of(expr, pattern),
            ExprKind::Is { expr, entity_type } => is_of(expr, entity_type),
            ExprKind::Set(members) => Ok(ExprKind::Set(members.clone()?)),
            ExprKind::Record(fields) => Ok(ExprKind::Record(fields.clone()?)),
        }
    }
}

impl<T: Clone + Drop> Clone for Expr<T> {
    ghost use Rattle.cedar_expr_trees.specs.Trees.{tree_of, kind_of, place_of, data_of};
    ghost use Rattle.cedar_expr_trees.specs.Positions.{below};

    ghost is_clone = { λ e copy. (tree_of copy ≡ tree_of e) × (place_of copy ≡ place_of e) × T.is_clone (data_of e) (data_of copy) × (below (kind_of copy) ≡ below (kind_of e)) };

    /// A copy of the expression that shares its parts, with a copy of its data.
    fn clone(&self) -> Result<Expr<T>, AllocError> {
        let data = self.data.clone()?;
        let expr_kind = self.expr_kind.clone()?;
        Ok(Expr {
            expr_kind,
            source_loc: self.source_loc,
            data,
        })
    }
}
