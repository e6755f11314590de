//! What makes expressions: the trait of builders.

ghost use Rattle.std.specs.Prelude.{◌≡◌, List, Option, Some, None, map, IfOk, IfErr, OnOk};
ghost use Rattle.std.specs.Rc.{rc_str_bytes};
ghost use Rattle.cedar_expr_names.specs.Views.{plain_name_of, type_name_of};
ghost use Rattle.cedar_expr_leaves.specs.Literals.{literal_of};
ghost use Rattle.cedar_expr_names.specs.declared.loc.Loc.{Loc};
ghost use Rattle.cedar_expr_leaves.specs.Patterns.{pattern_of};
ghost use Rattle.cedar_expr_leaves.specs.Slots.{slot_of};
ghost use Rattle.cedar_expr_leaves.specs.Variables.{var_of};
ghost use Rattle.cedar_expr_model.specs.Name.{Name as BareName};
ghost use Rattle.cedar_expr_model.specs.Builder.{Builder};
ghost use Rattle.cedar_expr_model.specs.BuilderForm.{IsLawful};
ghost use Rattle.cedar_expr_model.specs.Records.{in_order};
ghost use Rattle.cedar_expr_model.specs.Repeats.{repeated_name};
ghost use Rattle.cedar_expr_model.specs.Tree.{negation, minus, is_empty, equal, less, less_or_equal, plus, difference, times, remainder, is_in, contains, contains_all, contains_any, get_tag, has_tag};
ghost use Rattle.cedar_expr_leaves.specs.Operators.{unary_op_of, binary_op_of};
ghost use Rattle.cedar_expr_trees.specs.Unknowns.{unknown_of};
ghost use Rattle.cedar_expr_trees.specs.Trees.{named};
ghost use Rattle.cedar_expr_trees.specs.Refusals.{RefusesRecord};
ghost use Rattle.cedar_expr_builders.specs.Refusing.{IsRefusal};
ghost use Rattle.cedar_expr_builders.specs.Views.{meant};

use crate::err::BuildFault;
use cedar_expr_leaves::{Literal, Pattern, SlotId, Var};
use cedar_expr_names::{EntityType, Loc, Name};
use cedar_expr_trees::records::field_map;
use cedar_expr_trees::sharing::share_three;
use cedar_expr_trees::{BinaryOp, ExpressionConstructionError, NonEmpty, UnaryOp, Unknown};
use std::alloc::{AllocError, Global};
use std::collections::BTreeMap;
use std::rc::{Rc, RcStr};

/// Makes expressions of a kind of its own. A builder has a place and data, which it gives to what it makes; each constructor uses
/// it up. What it makes means what the builder's steps make of the parts, whatever the place and the data. It makes of `and` and
/// of `or` of two literal truth values what it makes of their literal, and of a path of one attribute what `has_attr` makes. Want
/// of memory aside it refuses nothing but calls, and records in which a name is repeated.
pub trait ExprBuilder: Clone + Drop {
    /// What it makes.
    type Expr: Drop;

    /// What it adds to what it makes.
    type Data: Default;

    /// Why it refuses a call.
    type BuildError: Drop;

    /// What its expressions mean, and its refusals.
    ghost Meaning: { Type 0 };

    ghost Refusal: { Type 0 };

    ghost means: { Self.Expr → Meaning };

    ghost says: { Self.BuildError → Refusal };

    /// What it makes of each kind of the parts, and which calls it refuses.
    ghost steps: { Builder Meaning };

    ghost refuses: { BareName → List Meaning → Option Refusal };

    /// The place and the data that it gives.
    ghost placed: { Self → Option Loc };

    ghost held: { Self → Self.Data };

    /// The builder that gives this data and no place.
    fn with_data(data: Self::Data) -> Self
        ensures place { placed result ≡ None }
        ensures data { held result ≡ «data» };

    /// The builder with its data, which gives this place or none.
    fn with_maybe_source_loc(self, maybe_source_loc: Option<Loc>) -> Self
        ensures place { placed result ≡ maybe_source_loc }
        ensures data { held result ≡ held self };

    /// The place that it gives.
    fn loc(&self) -> Option<Loc>
        ensures { result ≡ placed self.now };

    /// The data that it gives.
    fn data(&self) -> &Self::Data
        ensures { result.now ≡ held self.now };

    /// A literal. Fails only when out of memory.
    fn val(self, alloc: Global, v: Literal) -> Result<Self::Expr, AllocError>
        ensures { IfOk result (λ r. means r ≡ steps.of_lit (literal_of v)) };

    /// A variable of the request. Fails only when out of memory.
    fn var(self, alloc: Global, v: Var) -> Result<Self::Expr, AllocError>
        ensures { IfOk result (λ r. means r ≡ steps.of_var (var_of v)) };

    /// An unknown. Fails only when out of memory.
    fn unknown(self, alloc: Global, u: Unknown) -> Result<Self::Expr, AllocError>
        ensures { IfOk result (λ r. means r ≡ steps.of_unknown (unknown_of u).name (unknown_of u).annotation) };

    /// A slot. Fails only when out of memory.
    fn slot(self, alloc: Global, s: SlotId) -> Result<Self::Expr, AllocError>
        ensures { IfOk result (λ r. means r ≡ steps.of_slot (slot_of s)) };

    /// The choice between two expressions by a test, which are shared. Fails only when out of memory.
    fn ite_arc(
        self,
        alloc: Global,
        test_expr: Rc<Self::Expr>,
        then_expr: Rc<Self::Expr>,
        else_expr: Rc<Self::Expr>,
    ) -> Result<Self::Expr, AllocError>
        ensures { IfOk result (λ r. means r ≡ steps.of_choice (means test_expr.value) (means then_expr.value) (means else_expr.value)) };

    /// The conjunction. Fails only when out of memory.
    fn and(self, alloc: Global, e1: Self::Expr, e2: Self::Expr) -> Result<Self::Expr, AllocError>
        ensures { IfOk result (λ r. means r ≡ steps.of_both (means e1) (means e2)) };

    /// The disjunction. Fails only when out of memory.
    fn or(self, alloc: Global, e1: Self::Expr, e2: Self::Expr) -> Result<Self::Expr, AllocError>
        ensures { IfOk result (λ r. means r ≡ steps.of_either (means e1) (means e2)) };

    /// An operator of one operand. Fails only when out of memory.
    fn unary_app(
        self,
        alloc: Global,
        op: UnaryOp,
        arg: Self::Expr,
    ) -> Result<Self::Expr, AllocError>
        ensures { IfOk result (λ r. means r ≡ steps.of_unary (unary_op_of op) (means arg)) };

    /// An operator of two operands. Fails only when out of memory.
    fn binary_app(
        self,
        alloc: Global,
        op: BinaryOp,
        arg1: Self::Expr,
        arg2: Self::Expr,
    ) -> Result<Self::Expr, AllocError>
        ensures { IfOk result (λ r. means r ≡ steps.of_binary (binary_op_of op) (means arg1) (means arg2)) };

    /// A call of a function. Refuses what the builder refuses, and fails when out of memory.
    fn call_extension_fn(
        self,
        alloc: Global,
        fn_name: Name,
        args: Vec<Self::Expr>,
    ) -> Result<Self::Expr, BuildFault<Self::BuildError>>
        ensures made { IfOk result (λ r. means r ≡ steps.of_call (plain_name_of fn_name) (map means args.items)) }
        ensures allowed { OnOk result (refuses (plain_name_of fn_name) (map means args.items) ≡ None) }
        ensures refused { IfErr result (λ f. IsRefusal says (refuses (plain_name_of fn_name) (map means args.items)) f) };

    /// The value of an attribute. Fails only when out of memory.
    fn get_attr(
        self,
        alloc: Global,
        expr: Self::Expr,
        attr: RcStr,
    ) -> Result<Self::Expr, AllocError>
        ensures { IfOk result (λ r. means r ≡ steps.of_get (means expr) (rc_str_bytes attr)) };

    /// Whether an attribute is there. Fails only when out of memory.
    fn has_attr(
        self,
        alloc: Global,
        expr: Self::Expr,
        attr: RcStr,
    ) -> Result<Self::Expr, AllocError>
        ensures { IfOk result (λ r. means r ≡ steps.of_has (means expr) (rc_str_bytes attr)) };

    /// Whether attributes are there, one after the other. Fails only when out of memory.
    fn extended_has_attr(
        self,
        alloc: Global,
        expr: Self::Expr,
        attrs: Rc<NonEmpty<RcStr>>,
    ) -> Result<Self::Expr, AllocError>
        ensures { IfOk result (λ r. means r ≡ steps.of_path (means expr) (rc_str_bytes attrs.value.head) (map rc_str_bytes attrs.value.tail.items)) };

    /// Whether a text matches a pattern. Fails only when out of memory.
    fn like(
        self,
        alloc: Global,
        expr: Self::Expr,
        pattern: Pattern,
    ) -> Result<Self::Expr, AllocError>
        ensures { IfOk result (λ r. means r ≡ steps.of_like (means expr) (pattern_of pattern)) };

    /// Whether an entity is of a type. Fails only when out of memory.
    fn is_entity_type(
        self,
        alloc: Global,
        expr: Self::Expr,
        entity_type: EntityType,
    ) -> Result<Self::Expr, AllocError>
        ensures { IfOk result (λ r. means r ≡ steps.of_is (means expr) (type_name_of entity_type)) };

    /// A set, by its members. Fails only when out of memory.
    fn set(self, alloc: Global, exprs: Vec<Self::Expr>) -> Result<Self::Expr, AllocError>
        ensures { IfOk result (λ r. means r ≡ steps.of_set (map means exprs.items)) };

    /// A record, by its fields, which are shared. Fails only when out of memory.
    fn record_arc(
        self,
        alloc: Global,
        map: Rc<BTreeMap<RcStr, Self::Expr>>,
    ) -> Result<Self::Expr, AllocError>
        ensures { IfOk result (λ r. means r ≡ steps.of_record (named (meant means map.value.entries))) };

    /// The builder that gives default data and no place.
    fn new() -> Self
        ensures place { placed result ≡ None }
        ensures data { Self.Data.is_default (held result) }
    {
        Self::with_data(Self::Data::default())
    }

    /// The builder with its data, which gives this place.
    fn with_source_loc(self, source_loc: Loc) -> Self
        ensures place { placed result ≡ Some source_loc }
        ensures data { held result ≡ held self }
    {
        self.with_maybe_source_loc(Some(source_loc))
    }

    /// A record, by pairs of names and expressions. Refuses a name that is repeated, whatever stands under it, and fails when
    /// out of memory.
    fn record(
        self,
        alloc: Global,
        pairs: Vec<(RcStr, Self::Expr)>,
    ) -> Result<Self::Expr, ExpressionConstructionError>
        ensures made { IfOk result (λ r. means r ≡ steps.of_record (in_order (named (meant means pairs.items)))) }
        ensures distinct { OnOk result (repeated_name (named pairs.items) ≡ None) }
        ensures refused { IfErr result (λ f. RefusesRecord (named pairs.items) f) }
    {
        let fields = field_map(alloc, pairs)?;
        let fields = Rc::new(alloc, fields)?;
        Ok(self.record_arc(alloc, fields)?)
    }

    /// The choice between two expressions by a test. Fails only when out of memory.
    fn ite(
        self,
        alloc: Global,
        test_expr: Self::Expr,
        then_expr: Self::Expr,
        else_expr: Self::Expr,
    ) -> Result<Self::Expr, AllocError>
        ensures { IfOk result (λ r. means r ≡ steps.of_choice (means test_expr) (means then_expr) (means else_expr)) }
    {
        let (test_expr, then_expr, else_expr) = share_three(
            alloc, test_expr, then_expr, else_expr,
        )?;
        self.ite_arc(alloc, test_expr, then_expr, else_expr)
    }

    /// The negation of a truth value. Fails only when out of memory.
    fn not(self, alloc: Global, e: Self::Expr) -> Result<Self::Expr, AllocError>
        ensures { IfOk result (λ r. means r ≡ steps.of_unary negation (means e)) }
    {
        self.unary_app(alloc, UnaryOp::Not, e)
    }

    /// Whether two values are equal. Fails only when out of memory.
    fn is_eq(self, alloc: Global, e1: Self::Expr, e2: Self::Expr) -> Result<Self::Expr, AllocError>
        ensures { IfOk result (λ r. means r ≡ steps.of_binary equal (means e1) (means e2)) }
    {
        self.binary_app(alloc, BinaryOp::Eq, e1, e2)
    }

    /// Whether two values are not equal: the negation of `is_eq`. Fails only when out of memory.
    fn noteq(self, alloc: Global, e1: Self::Expr, e2: Self::Expr) -> Result<Self::Expr, AllocError>
        ensures { IfOk result (λ r. means r ≡ steps.of_unary negation (steps.of_binary equal (means e1) (means e2))) }
    {
        let e = self.clone()?.is_eq(alloc, e1, e2)?;
        self.not(alloc, e)
    }

    /// Whether a value is below another. Fails only when out of memory.
    fn less(self, alloc: Global, e1: Self::Expr, e2: Self::Expr) -> Result<Self::Expr, AllocError>
        ensures { IfOk result (λ r. means r ≡ steps.of_binary less (means e1) (means e2)) }
    {
        self.binary_app(alloc, BinaryOp::Less, e1, e2)
    }

    /// Whether a value is below another or equal to it. Fails only when out of memory.
    fn lesseq(self, alloc: Global, e1: Self::Expr, e2: Self::Expr) -> Result<Self::Expr, AllocError>
        ensures { IfOk result (λ r. means r ≡ steps.of_binary less_or_equal (means e1) (means e2)) }
    {
        self.binary_app(alloc, BinaryOp::LessEq, e1, e2)
    }

    /// Whether a value is above another: the negation of `lesseq`. Fails only when out of memory.
    fn greater(
        self,
        alloc: Global,
        e1: Self::Expr,
        e2: Self::Expr,
    ) -> Result<Self::Expr, AllocError>
        ensures { IfOk result (λ r. means r ≡ steps.of_unary negation (steps.of_binary less_or_equal (means e1) (means e2))) }
    {
        let e = self.clone()?.lesseq(alloc, e1, e2)?;
        self.not(alloc, e)
    }

    /// Whether a value is above another or equal to it: the negation of `less`. Fails only when out of memory.
    fn greatereq(
        self,
        alloc: Global,
        e1: Self::Expr,
        e2: Self::Expr,
    ) -> Result<Self::Expr, AllocError>
        ensures { IfOk result (λ r. means r ≡ steps.of_unary negation (steps.of_binary less (means e1) (means e2))) }
    {
        let e = self.clone()?.less(alloc, e1, e2)?;
        self.not(alloc, e)
    }

    /// The sum of two whole numbers. Fails only when out of memory.
    fn add(self, alloc: Global, e1: Self::Expr, e2: Self::Expr) -> Result<Self::Expr, AllocError>
        ensures { IfOk result (λ r. means r ≡ steps.of_binary plus (means e1) (means e2)) }
    {
        self.binary_app(alloc, BinaryOp::Add, e1, e2)
    }

    /// The difference of two whole numbers. Fails only when out of memory.
    fn sub(self, alloc: Global, e1: Self::Expr, e2: Self::Expr) -> Result<Self::Expr, AllocError>
        ensures { IfOk result (λ r. means r ≡ steps.of_binary difference (means e1) (means e2)) }
    {
        self.binary_app(alloc, BinaryOp::Sub, e1, e2)
    }

    /// The product of two whole numbers. Fails only when out of memory.
    fn mul(self, alloc: Global, e1: Self::Expr, e2: Self::Expr) -> Result<Self::Expr, AllocError>
        ensures { IfOk result (λ r. means r ≡ steps.of_binary times (means e1) (means e2)) }
    {
        self.binary_app(alloc, BinaryOp::Mul, e1, e2)
    }

    /// What the division of two whole numbers leaves, with the sign of the first. Fails only when out of memory.
    fn rem(self, alloc: Global, e1: Self::Expr, e2: Self::Expr) -> Result<Self::Expr, AllocError>
        ensures { IfOk result (λ r. means r ≡ steps.of_binary remainder (means e1) (means e2)) }
    {
        self.binary_app(alloc, BinaryOp::Rem, e1, e2)
    }

    /// The negation of a whole number. Fails only when out of memory.
    fn neg(self, alloc: Global, e: Self::Expr) -> Result<Self::Expr, AllocError>
        ensures { IfOk result (λ r. means r ≡ steps.of_unary minus (means e)) }
    {
        self.unary_app(alloc, UnaryOp::Neg, e)
    }

    /// Whether an entity is another, or one of a set, or below it. Fails only when out of memory.
    fn is_in(self, alloc: Global, e1: Self::Expr, e2: Self::Expr) -> Result<Self::Expr, AllocError>
        ensures { IfOk result (λ r. means r ≡ steps.of_binary is_in (means e1) (means e2)) }
    {
        self.binary_app(alloc, BinaryOp::In, e1, e2)
    }

    /// Whether a set has this member. Fails only when out of memory.
    fn contains(
        self,
        alloc: Global,
        e1: Self::Expr,
        e2: Self::Expr,
    ) -> Result<Self::Expr, AllocError>
        ensures { IfOk result (λ r. means r ≡ steps.of_binary contains (means e1) (means e2)) }
    {
        self.binary_app(alloc, BinaryOp::Contains, e1, e2)
    }

    /// Whether a set has each member of another. Fails only when out of memory.
    fn contains_all(
        self,
        alloc: Global,
        e1: Self::Expr,
        e2: Self::Expr,
    ) -> Result<Self::Expr, AllocError>
        ensures { IfOk result (λ r. means r ≡ steps.of_binary contains_all (means e1) (means e2)) }
    {
        self.binary_app(alloc, BinaryOp::ContainsAll, e1, e2)
    }

    /// Whether two sets have a member in common. Fails only when out of memory.
    fn contains_any(
        self,
        alloc: Global,
        e1: Self::Expr,
        e2: Self::Expr,
    ) -> Result<Self::Expr, AllocError>
        ensures { IfOk result (λ r. means r ≡ steps.of_binary contains_any (means e1) (means e2)) }
    {
        self.binary_app(alloc, BinaryOp::ContainsAny, e1, e2)
    }

    /// Whether a set has no member. Fails only when out of memory.
    fn is_empty(self, alloc: Global, e: Self::Expr) -> Result<Self::Expr, AllocError>
        ensures { IfOk result (λ r. means r ≡ steps.of_unary is_empty (means e)) }
    {
        self.unary_app(alloc, UnaryOp::IsEmpty, e)
    }

    /// The value of an entity's tag. Fails only when out of memory.
    fn get_tag(
        self,
        alloc: Global,
        expr: Self::Expr,
        tag: Self::Expr,
    ) -> Result<Self::Expr, AllocError>
        ensures { IfOk result (λ r. means r ≡ steps.of_binary get_tag (means expr) (means tag)) }
    {
        self.binary_app(alloc, BinaryOp::GetTag, expr, tag)
    }

    /// Whether an entity has a tag. Fails only when out of memory.
    fn has_tag(
        self,
        alloc: Global,
        expr: Self::Expr,
        tag: Self::Expr,
    ) -> Result<Self::Expr, AllocError>
        ensures { IfOk result (λ r. means r ≡ steps.of_binary has_tag (means expr) (means tag)) }
    {
        self.binary_app(alloc, BinaryOp::HasTag, expr, tag)
    }

    ghost lawful: { IsLawful steps };
}
