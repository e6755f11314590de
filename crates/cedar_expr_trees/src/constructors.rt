//! The constructors of expressions. They make expressions without place and data.

ghost use Rattle.std.specs.Prelude.{◌≡◌, IfOk, None, map};
ghost use Rattle.std.specs.Rc.{rc_str_bytes};
ghost use Rattle.cedar_expr_names.specs.Views.{plain_name_of, type_name_of};
ghost use Rattle.cedar_expr_leaves.specs.Literals.{literal_of};
ghost use Rattle.cedar_expr_leaves.specs.Patterns.{pattern_of};
ghost use Rattle.cedar_expr_leaves.specs.Slots.{slot_of};
ghost use Rattle.cedar_expr_leaves.specs.Variables.{var_of};
ghost use Rattle.cedar_expr_model.specs.Builder.{trees, tree_fields, written_truth, conjunction, disjunction, path_test};
ghost use Rattle.cedar_expr_model.specs.Tree.{lit, var, slot, unknown, choice, unary, binary, call, get_attr, has_attr, like, is_type, set_literal, record_literal, negation, minus, is_empty, equal, less, less_or_equal, plus, difference, times, remainder, is_in, contains, contains_all, contains_any, get_tag, has_tag};
ghost use Rattle.cedar_expr_leaves.specs.Operators.{unary_op_of, binary_op_of};
ghost use Rattle.cedar_expr_trees.specs.Unknowns.{unknown_of};
ghost use Rattle.cedar_expr_trees.specs.Trees.{tree_of, kind_tree, place_of, named, field_trees};

use crate::expr::{Expr, ExprKind, Unknown};
use crate::sharing::{share_three, share_two};
use cedar_expr_leaves::{BinaryOp, Literal, NonEmpty, Pattern, SlotId, UnaryOp, Var};
use cedar_expr_names::{EntityType, Name};
use std::alloc::{AllocError, Global};
use std::collections::BTreeMap;
use std::rc::{Rc, RcStr};

impl Expr {
    /// A literal.
    pub fn val(value: Literal) -> Expr
        ensures tree { tree_of result ≡ lit (literal_of value) }
        ensures place { place_of result ≡ None }
    {
        Expr::of_kind(ExprKind::Lit(value))
    }

    /// An unknown.
    pub fn unknown(u: Unknown) -> Expr
        ensures tree { tree_of result ≡ unknown (unknown_of u).name (unknown_of u).annotation }
        ensures place { place_of result ≡ None }
    {
        Expr::of_kind(ExprKind::Unknown(u))
    }

    /// A variable of the request.
    pub fn var(v: Var) -> Expr
        ensures tree { tree_of result ≡ var (var_of v) }
        ensures place { place_of result ≡ None }
    {
        Expr::of_kind(ExprKind::Var(v))
    }

    /// A slot.
    pub fn slot(s: SlotId) -> Expr
        ensures tree { tree_of result ≡ slot (slot_of s) }
        ensures place { place_of result ≡ None }
    {
        Expr::of_kind(ExprKind::Slot(s))
    }

    /// The choice between two expressions by a test. Fails only when out of memory.
    pub fn ite(
        alloc: Global,
        test_expr: Expr,
        then_expr: Expr,
        else_expr: Expr,
    ) -> Result<Expr, AllocError>
        ensures tree { IfOk result (λ r. tree_of r ≡ choice (tree_of test_expr) (tree_of then_expr) (tree_of else_expr)) }
        ensures place { IfOk result (λ r. place_of r ≡ None) }
    {
        let (test_expr, then_expr, else_expr) = share_three(
            alloc, test_expr, then_expr, else_expr,
        )?;
        Ok(Expr::ite_arc(test_expr, then_expr, else_expr))
    }

    /// The choice between two expressions by a test, which are shared.
    pub fn ite_arc(test_expr: Rc<Expr>, then_expr: Rc<Expr>, else_expr: Rc<Expr>) -> Expr
        ensures tree { tree_of result ≡ choice (tree_of test_expr.value) (tree_of then_expr.value) (tree_of else_expr.value) }
        ensures place { place_of result ≡ None }
    {
        Expr::of_kind(ExprKind::If {
            test_expr,
            then_expr,
            else_expr,
        })
    }

    /// The negation of a truth value. Fails only when out of memory.
    pub fn not(alloc: Global, e: Expr) -> Result<Expr, AllocError>
        ensures tree { IfOk result (λ r. tree_of r ≡ unary negation (tree_of e)) }
        ensures place { IfOk result (λ r. place_of r ≡ None) }
    {
        Expr::unary_app(alloc, UnaryOp::Not, e)
    }

    /// Whether two values are equal. Fails only when out of memory.
    pub fn is_eq(alloc: Global, e1: Expr, e2: Expr) -> Result<Expr, AllocError>
        ensures tree { IfOk result (λ r. tree_of r ≡ binary equal (tree_of e1) (tree_of e2)) }
        ensures place { IfOk result (λ r. place_of r ≡ None) }
    {
        Expr::binary_app(alloc, BinaryOp::Eq, e1, e2)
    }

    /// Whether two values are not equal: the negation of `is_eq`. Fails only when out of memory.
    pub fn noteq(alloc: Global, e1: Expr, e2: Expr) -> Result<Expr, AllocError>
        ensures tree { IfOk result (λ r. tree_of r ≡ unary negation (binary equal (tree_of e1) (tree_of e2))) }
        ensures place { IfOk result (λ r. place_of r ≡ None) }
    {
        let e = Expr::is_eq(alloc, e1, e2)?;
        Expr::not(alloc, e)
    }

    /// The conjunction. Of two literal truth values it is their literal. Fails only when out of memory.
    pub fn and(alloc: Global, e1: Expr, e2: Expr) -> Result<Expr, AllocError>
        ensures tree { IfOk result (λ r. tree_of r ≡ conjunction (tree_of e1) (tree_of e2)) }
        ensures place { IfOk result (λ r. place_of r ≡ None) }
    {
        if let (Some(a), Some(b)) = (truth_of(&e1), truth_of(&e2)) {
            drop(e1);
            drop(e2);
            return Ok(Expr::val(Literal::Bool(a && b)));
        }
        let (left, right) = share_two(alloc, e1, e2)?;
        Ok(Expr::of_kind(ExprKind::And { left, right }))
    }

    /// The disjunction. Of two literal truth values it is their literal. Fails only when out of memory.
    pub fn or(alloc: Global, e1: Expr, e2: Expr) -> Result<Expr, AllocError>
        ensures tree { IfOk result (λ r. tree_of r ≡ disjunction (tree_of e1) (tree_of e2)) }
        ensures place { IfOk result (λ r. place_of r ≡ None) }
    {
        if let (Some(a), Some(b)) = (truth_of(&e1), truth_of(&e2)) {
            drop(e1);
            drop(e2);
            return Ok(Expr::val(Literal::Bool(a || b)));
        }
        let (left, right) = share_two(alloc, e1, e2)?;
        Ok(Expr::of_kind(ExprKind::Or { left, right }))
    }

    /// Whether a value is below another. Fails only when out of memory.
    pub fn less(alloc: Global, e1: Expr, e2: Expr) -> Result<Expr, AllocError>
        ensures tree { IfOk result (λ r. tree_of r ≡ binary less (tree_of e1) (tree_of e2)) }
        ensures place { IfOk result (λ r. place_of r ≡ None) }
    {
        Expr::binary_app(alloc, BinaryOp::Less, e1, e2)
    }

    /// Whether a value is below another or equal to it. Fails only when out of memory.
    pub fn lesseq(alloc: Global, e1: Expr, e2: Expr) -> Result<Expr, AllocError>
        ensures tree { IfOk result (λ r. tree_of r ≡ binary less_or_equal (tree_of e1) (tree_of e2)) }
        ensures place { IfOk result (λ r. place_of r ≡ None) }
    {
        Expr::binary_app(alloc, BinaryOp::LessEq, e1, e2)
    }

    /// Whether a value is above another: the negation of `lesseq`. Fails only when out of memory.
    pub fn greater(alloc: Global, e1: Expr, e2: Expr) -> Result<Expr, AllocError>
        ensures tree { IfOk result (λ r. tree_of r ≡ unary negation (binary less_or_equal (tree_of e1) (tree_of e2))) }
        ensures place { IfOk result (λ r. place_of r ≡ None) }
    {
        let e = Expr::lesseq(alloc, e1, e2)?;
        Expr::not(alloc, e)
    }

    /// Whether a value is above another or equal to it: the negation of `less`. Fails only when out of memory.
    pub fn greatereq(alloc: Global, e1: Expr, e2: Expr) -> Result<Expr, AllocError>
        ensures tree { IfOk result (λ r. tree_of r ≡ unary negation (binary less (tree_of e1) (tree_of e2))) }
        ensures place { IfOk result (λ r. place_of r ≡ None) }
    {
        let e = Expr::less(alloc, e1, e2)?;
        Expr::not(alloc, e)
    }

    /// The sum of two whole numbers. Fails only when out of memory.
    pub fn add(alloc: Global, e1: Expr, e2: Expr) -> Result<Expr, AllocError>
        ensures tree { IfOk result (λ r. tree_of r ≡ binary plus (tree_of e1) (tree_of e2)) }
        ensures place { IfOk result (λ r. place_of r ≡ None) }
    {
        Expr::binary_app(alloc, BinaryOp::Add, e1, e2)
    }

    /// The difference of two whole numbers. Fails only when out of memory.
    pub fn sub(alloc: Global, e1: Expr, e2: Expr) -> Result<Expr, AllocError>
        ensures tree { IfOk result (λ r. tree_of r ≡ binary difference (tree_of e1) (tree_of e2)) }
        ensures place { IfOk result (λ r. place_of r ≡ None) }
    {
        Expr::binary_app(alloc, BinaryOp::Sub, e1, e2)
    }

    /// The product of two whole numbers. Fails only when out of memory.
    pub fn mul(alloc: Global, e1: Expr, e2: Expr) -> Result<Expr, AllocError>
        ensures tree { IfOk result (λ r. tree_of r ≡ binary times (tree_of e1) (tree_of e2)) }
        ensures place { IfOk result (λ r. place_of r ≡ None) }
    {
        Expr::binary_app(alloc, BinaryOp::Mul, e1, e2)
    }

    /// What the division of two whole numbers leaves, with the sign of the first. Fails only when out of memory.
    pub fn rem(alloc: Global, e1: Expr, e2: Expr) -> Result<Expr, AllocError>
        ensures tree { IfOk result (λ r. tree_of r ≡ binary remainder (tree_of e1) (tree_of e2)) }
        ensures place { IfOk result (λ r. place_of r ≡ None) }
    {
        Expr::binary_app(alloc, BinaryOp::Rem, e1, e2)
    }

    /// The negation of a whole number. Fails only when out of memory.
    pub fn neg(alloc: Global, e: Expr) -> Result<Expr, AllocError>
        ensures tree { IfOk result (λ r. tree_of r ≡ unary minus (tree_of e)) }
        ensures place { IfOk result (λ r. place_of r ≡ None) }
    {
        Expr::unary_app(alloc, UnaryOp::Neg, e)
    }

    /// Whether an entity is another, or one of a set, or below it. Fails only when out of memory.
    pub fn is_in(alloc: Global, e1: Expr, e2: Expr) -> Result<Expr, AllocError>
        ensures tree { IfOk result (λ r. tree_of r ≡ binary is_in (tree_of e1) (tree_of e2)) }
        ensures place { IfOk result (λ r. place_of r ≡ None) }
    {
        Expr::binary_app(alloc, BinaryOp::In, e1, e2)
    }

    /// Whether a set has this member. Fails only when out of memory.
    pub fn contains(alloc: Global, e1: Expr, e2: Expr) -> Result<Expr, AllocError>
        ensures tree { IfOk result (λ r. tree_of r ≡ binary contains (tree_of e1) (tree_of e2)) }
        ensures place { IfOk result (λ r. place_of r ≡ None) }
    {
        Expr::binary_app(alloc, BinaryOp::Contains, e1, e2)
    }

    /// Whether a set has each member of another. Fails only when out of memory.
    pub fn contains_all(alloc: Global, e1: Expr, e2: Expr) -> Result<Expr, AllocError>
        ensures tree { IfOk result (λ r. tree_of r ≡ binary contains_all (tree_of e1) (tree_of e2)) }
        ensures place { IfOk result (λ r. place_of r ≡ None) }
    {
        Expr::binary_app(alloc, BinaryOp::ContainsAll, e1, e2)
    }

    /// Whether two sets have a member in common. Fails only when out of memory.
    pub fn contains_any(alloc: Global, e1: Expr, e2: Expr) -> Result<Expr, AllocError>
        ensures tree { IfOk result (λ r. tree_of r ≡ binary contains_any (tree_of e1) (tree_of e2)) }
        ensures place { IfOk result (λ r. place_of r ≡ None) }
    {
        Expr::binary_app(alloc, BinaryOp::ContainsAny, e1, e2)
    }

    /// Whether a set has no member. Fails only when out of memory.
    pub fn is_empty(alloc: Global, e: Expr) -> Result<Expr, AllocError>
        ensures tree { IfOk result (λ r. tree_of r ≡ unary is_empty (tree_of e)) }
        ensures place { IfOk result (λ r. place_of r ≡ None) }
    {
        Expr::unary_app(alloc, UnaryOp::IsEmpty, e)
    }

    /// The value of an entity's tag. Fails only when out of memory.
    pub fn get_tag(alloc: Global, expr: Expr, tag: Expr) -> Result<Expr, AllocError>
        ensures tree { IfOk result (λ r. tree_of r ≡ binary get_tag (tree_of expr) (tree_of tag)) }
        ensures place { IfOk result (λ r. place_of r ≡ None) }
    {
        Expr::binary_app(alloc, BinaryOp::GetTag, expr, tag)
    }

    /// Whether an entity has a tag. Fails only when out of memory.
    pub fn has_tag(alloc: Global, expr: Expr, tag: Expr) -> Result<Expr, AllocError>
        ensures tree { IfOk result (λ r. tree_of r ≡ binary has_tag (tree_of expr) (tree_of tag)) }
        ensures place { IfOk result (λ r. place_of r ≡ None) }
    {
        Expr::binary_app(alloc, BinaryOp::HasTag, expr, tag)
    }

    /// A set, by its members. Fails only when out of memory.
    #[tactic(auto, using(crate::proofs::Trees::set_tree))]
    pub fn set(alloc: Global, exprs: Vec<Expr>) -> Result<Expr, AllocError>
        ensures tree { IfOk result (λ r. tree_of r ≡ set_literal (trees (map tree_of exprs.items))) }
        ensures place { IfOk result (λ r. place_of r ≡ None) }
    {
        let exprs = Rc::new(alloc, exprs)?;
        Ok(Expr::of_kind(ExprKind::Set(exprs)))
    }

    /// A record, by its fields, which are shared.
    #[tactic(auto, using(crate::proofs::Trees::record_tree))]
    pub fn record_arc(map: Rc<BTreeMap<RcStr, Expr>>) -> Expr
        ensures tree { tree_of result ≡ record_literal (tree_fields (named (field_trees map.value.entries))) }
        ensures place { place_of result ≡ None }
    {
        Expr::of_kind(ExprKind::Record(map))
    }

    /// A call of a function. Fails only when out of memory.
    #[tactic(auto, using(crate::proofs::Trees::call_tree))]
    pub fn call_extension_fn(
        alloc: Global,
        fn_name: Name,
        args: Vec<Expr>,
    ) -> Result<Expr, AllocError>
        ensures tree { IfOk result (λ r. tree_of r ≡ call (plain_name_of fn_name) (trees (map tree_of args.items))) }
        ensures place { IfOk result (λ r. place_of r ≡ None) }
    {
        let args = Rc::new(alloc, args)?;
        Ok(Expr::of_kind(ExprKind::ExtensionFunctionApp { fn_name, args }))
    }

    /// An operator of one operand. Fails only when out of memory.
    pub fn unary_app(alloc: Global, op: UnaryOp, arg: Expr) -> Result<Expr, AllocError>
        ensures tree { IfOk result (λ r. tree_of r ≡ unary (unary_op_of op) (tree_of arg)) }
        ensures place { IfOk result (λ r. place_of r ≡ None) }
    {
        let arg = Rc::new(alloc, arg)?;
        Ok(Expr::of_kind(ExprKind::UnaryApp { op, arg }))
    }

    /// An operator of two operands. Fails only when out of memory.
    pub fn binary_app(
        alloc: Global,
        op: BinaryOp,
        arg1: Expr,
        arg2: Expr,
    ) -> Result<Expr, AllocError>
        ensures tree { IfOk result (λ r. tree_of r ≡ binary (binary_op_of op) (tree_of arg1) (tree_of arg2)) }
        ensures place { IfOk result (λ r. place_of r ≡ None) }
    {
        let (arg1, arg2) = share_two(alloc, arg1, arg2)?;
        Ok(Expr::of_kind(ExprKind::BinaryApp { op, arg1, arg2 }))
    }

    /// The value of an attribute. Fails only when out of memory.
    pub fn get_attr(alloc: Global, expr: Expr, attr: RcStr) -> Result<Expr, AllocError>
        ensures tree { IfOk result (λ r. tree_of r ≡ get_attr (tree_of expr) (rc_str_bytes attr)) }
        ensures place { IfOk result (λ r. place_of r ≡ None) }
    {
        let expr = Rc::new(alloc, expr)?;
        Ok(Expr::of_kind(ExprKind::GetAttr { expr, attr }))
    }

    /// Whether an attribute is there. Fails only when out of memory.
    pub fn has_attr(alloc: Global, expr: Expr, attr: RcStr) -> Result<Expr, AllocError>
        ensures tree { IfOk result (λ r. tree_of r ≡ has_attr (tree_of expr) (rc_str_bytes attr)) }
        ensures place { IfOk result (λ r. place_of r ≡ None) }
    {
        let expr = Rc::new(alloc, expr)?;
        Ok(Expr::of_kind(ExprKind::HasAttr { expr, attr }))
    }

    /// Whether attributes are there, one after the other. Of one attribute it is `has_attr`. Fails only when out of memory.
    pub fn extended_has_attr(
        alloc: Global,
        expr: Expr,
        attrs: NonEmpty<RcStr>,
    ) -> Result<Expr, AllocError>
        ensures tree { IfOk result (λ r. tree_of r ≡ path_test (tree_of expr) (rc_str_bytes attrs.head) (map rc_str_bytes attrs.tail.items)) }
        ensures place { IfOk result (λ r. place_of r ≡ None) }
    {
        if attrs.tail.is_empty() {
            return Expr::has_attr(alloc, expr, attrs.head);
        }
        let expr = Rc::new(alloc, expr)?;
        let attrs = Rc::new(alloc, attrs)?;
        Ok(Expr::of_kind(ExprKind::ExtHasAttr { expr, attrs }))
    }

    /// Whether a text matches a pattern. Fails only when out of memory.
    pub fn like(alloc: Global, expr: Expr, pattern: Pattern) -> Result<Expr, AllocError>
        ensures tree { IfOk result (λ r. tree_of r ≡ like (tree_of expr) (pattern_of pattern)) }
        ensures place { IfOk result (λ r. place_of r ≡ None) }
    {
        let expr = Rc::new(alloc, expr)?;
        Ok(Expr::of_kind(ExprKind::Like { expr, pattern }))
    }

    /// Whether an entity is of a type. Fails only when out of memory.
    pub fn is_entity_type(
        alloc: Global,
        expr: Expr,
        entity_type: EntityType,
    ) -> Result<Expr, AllocError>
        ensures tree { IfOk result (λ r. tree_of r ≡ is_type (tree_of expr) (type_name_of entity_type)) }
        ensures place { IfOk result (λ r. place_of r ≡ None) }
    {
        let expr = Rc::new(alloc, expr)?;
        Ok(Expr::of_kind(ExprKind::Is { expr, entity_type }))
    }

    // The expression of this kind.
    fn of_kind(expr_kind: ExprKind) -> Expr
        ensures tree { tree_of result ≡ kind_tree expr_kind }
        ensures place { place_of result ≡ None }
    {
        Expr::new(expr_kind, None, ())
    }
}

/// The truth value that the expression writes, if it is one's literal.
pub fn truth_of<T>(e: &Expr<T>) -> Option<bool>
    ensures { result ≡ written_truth (tree_of e.now) }
{
    match e.expr_kind() {
        ExprKind::Lit(Literal::Bool(b)) => Some(*b),
        _ => None,
    }
}
