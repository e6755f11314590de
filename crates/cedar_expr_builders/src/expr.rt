//! The builder of expressions.

ghost use Rattle.std.specs.Prelude.{◌≡◌, ◌++◌, [], None, map, IfOk, IfErr, OnOk, refl};
ghost use Rattle.std.specs.List.{flat_map};
ghost use Rattle.std.specs.Map.{values_of};
ghost use Rattle.std.specs.Rc.{rc_str_bytes};
ghost use Rattle.std.specs.declared.convert.Infallible.{Infallible};
ghost use Rattle.cedar_expr_names.specs.Views.{plain_name_of, type_name_of};
ghost use Rattle.cedar_expr_leaves.specs.Literals.{literal_of};
ghost use Rattle.cedar_expr_leaves.specs.Patterns.{pattern_of};
ghost use Rattle.cedar_expr_leaves.specs.Slots.{slot_of};
ghost use Rattle.cedar_expr_leaves.specs.Variables.{var_of};
ghost use Rattle.cedar_expr_model.specs.Builder.{tree_builder, trees, tree_fields, conjunction, disjunction, path_test};
ghost use Rattle.cedar_expr_model.specs.Tree.{Tree, lit, var, slot, unknown, choice, unary, binary, call, get_attr, has_attr, like, is_type, set_literal, record_literal};
ghost use Rattle.cedar_expr_leaves.specs.Operators.{unary_op_of, binary_op_of};
ghost use Rattle.cedar_expr_trees.specs.Unknowns.{unknown_of};
ghost use Rattle.cedar_expr_model.specs.Records.{record_tree, in_order};
ghost use Rattle.cedar_expr_model.specs.Repeats.{repeated_name};
ghost use Rattle.cedar_expr_trees.specs.Refusals.{RefusesRecord};
ghost use Rattle.cedar_expr_trees.specs.Positions.{below, positions};
ghost use Rattle.cedar_expr_trees.specs.Trees.{tree_of, kind_tree, kind_of, place_of, data_of, named, field_trees};
ghost use Rattle.cedar_expr_builders.specs.Views.{builder_place, builder_data, refuses_nothing, beside};
ghost use Rattle.cedar_expr_builders.specs.declared.err.BuildFault.TheVariants.{OutOfMemory};
ghost use Rattle.cedar_expr_model.proofs.Agreeing.{trees_are_lawful};

use crate::err::BuildFault;
use crate::expr_builder;
use cedar_expr_leaves::{Literal, Pattern, SlotId, Var};
use cedar_expr_names::{EntityType, Loc, Name};
use cedar_expr_trees::constructors::truth_of;
use cedar_expr_trees::records::field_map;
use cedar_expr_trees::sharing::share_two;
use cedar_expr_trees::{
    BinaryOp, Expr, ExprKind, ExpressionConstructionError, NonEmpty, UnaryOp, Unknown,
};
use std::alloc::{AllocError, Global};
use std::collections::BTreeMap;
use std::convert::Infallible;
use std::rc::{Rc, RcStr};

/// Makes expressions at a place, with data of a type of the caller's. What it makes means its bare tree. It folds `and` and `or`
/// of two literal truth values into their literal, makes `has_attr` of a path of one attribute, and refuses no call.
#[derive(Debug, Drop)]
pub struct ExprBuilder<T> {
    source_loc: Option<Loc>,
    data: T,
}

impl<T: Drop> ExprBuilder<T> {
    /// The expression of this kind, at the builder's place, with its data.
    pub fn with_expr_kind(self, expr_kind: ExprKind<T>) -> Expr<T>
        ensures kind { kind_of result ≡ expr_kind }
        ensures tree { tree_of result ≡ kind_tree expr_kind }
        ensures place { place_of result ≡ builder_place self }
        ensures data { data_of result ≡ builder_data self }
    {
        Expr::new(expr_kind, self.source_loc, self.data)
    }

    /// The builder with its data, which gives the place of this expression.
    pub fn with_same_source_loc<U>(self, expr: &Expr<U>) -> ExprBuilder<T>
        ensures place { builder_place result ≡ place_of expr.now }
        ensures data { builder_data result ≡ builder_data self }
    {
        ExprBuilder {
            source_loc: expr.source_loc(),
            data: self.data,
        }
    }
}

impl<T: Clone> Clone for ExprBuilder<T> {
    ghost is_clone = { λ b copy. (builder_place copy ≡ builder_place b) × T.is_clone (builder_data b) (builder_data copy) };

    fn clone(&self) -> Result<ExprBuilder<T>, AllocError> {
        Ok(ExprBuilder {
            source_loc: self.source_loc,
            data: self.data.clone()?,
        })
    }
}

impl<T: Default + Clone + Drop> expr_builder::ExprBuilder for ExprBuilder<T> {
    type Expr = Expr<T>;

    type Data = T;

    type BuildError = Infallible;

    ghost Meaning = { Tree };

    ghost Refusal = { Infallible };

    ghost means = { tree_of };

    ghost says = { λ e. e };

    ghost steps = { tree_builder };

    ghost refuses = { refuses_nothing };

    ghost placed = { builder_place };

    ghost held = { builder_data };

    ghost lawful = { trees_are_lawful };

    fn with_data(data: T) -> ExprBuilder<T> {
        ExprBuilder {
            source_loc: None,
            data,
        }
    }

    fn with_maybe_source_loc(self, maybe_source_loc: Option<Loc>) -> ExprBuilder<T> {
        ExprBuilder {
            source_loc: maybe_source_loc,
            data: self.data,
        }
    }

    fn loc(&self) -> Option<Loc> {
        self.source_loc
    }

    fn data(&self) -> &T {
        &self.data
    }

    fn val(self, alloc: Global, v: Literal) -> Result<Expr<T>, AllocError>
        ensures made { IfOk result (λ e. tree_of e ≡ lit (literal_of v)) }
        ensures place { IfOk result (λ e. place_of e ≡ builder_place self) }
        ensures data { IfOk result (λ e. data_of e ≡ builder_data self) }
        ensures parts { IfOk result (λ e. below (kind_of e) ≡ []) }
    {
        Ok(self.with_expr_kind(ExprKind::Lit(v)))
    }

    fn var(self, alloc: Global, v: Var) -> Result<Expr<T>, AllocError>
        ensures made { IfOk result (λ e. tree_of e ≡ var (var_of v)) }
        ensures place { IfOk result (λ e. place_of e ≡ builder_place self) }
        ensures data { IfOk result (λ e. data_of e ≡ builder_data self) }
        ensures parts { IfOk result (λ e. below (kind_of e) ≡ []) }
    {
        Ok(self.with_expr_kind(ExprKind::Var(v)))
    }

    fn unknown(self, alloc: Global, u: Unknown) -> Result<Expr<T>, AllocError>
        ensures made { IfOk result (λ e. tree_of e ≡ unknown (unknown_of u).name (unknown_of u).annotation) }
        ensures place { IfOk result (λ e. place_of e ≡ builder_place self) }
        ensures data { IfOk result (λ e. data_of e ≡ builder_data self) }
        ensures parts { IfOk result (λ e. below (kind_of e) ≡ []) }
    {
        Ok(self.with_expr_kind(ExprKind::Unknown(u)))
    }

    fn slot(self, alloc: Global, s: SlotId) -> Result<Expr<T>, AllocError>
        ensures made { IfOk result (λ e. tree_of e ≡ slot (slot_of s)) }
        ensures place { IfOk result (λ e. place_of e ≡ builder_place self) }
        ensures data { IfOk result (λ e. data_of e ≡ builder_data self) }
        ensures parts { IfOk result (λ e. below (kind_of e) ≡ []) }
    {
        Ok(self.with_expr_kind(ExprKind::Slot(s)))
    }

    fn ite_arc(
        self,
        alloc: Global,
        test_expr: Rc<Expr<T>>,
        then_expr: Rc<Expr<T>>,
        else_expr: Rc<Expr<T>>,
    ) -> Result<Expr<T>, AllocError>
        ensures made { IfOk result (λ e. tree_of e ≡ choice (tree_of test_expr.value) (tree_of then_expr.value) (tree_of else_expr.value)) }
        ensures place { IfOk result (λ e. place_of e ≡ builder_place self) }
        ensures data { IfOk result (λ e. data_of e ≡ builder_data self) }
        ensures parts { IfOk result (λ e. below (kind_of e) ≡ positions test_expr.value ++ (positions then_expr.value ++ positions else_expr.value)) }
    {
        Ok(self.with_expr_kind(ExprKind::If {
            test_expr,
            then_expr,
            else_expr,
        }))
    }

    fn and(self, alloc: Global, e1: Expr<T>, e2: Expr<T>) -> Result<Expr<T>, AllocError>
        ensures made { IfOk result (λ e. tree_of e ≡ conjunction (tree_of e1) (tree_of e2)) }
        ensures place { IfOk result (λ e. place_of e ≡ builder_place self) }
        ensures data { IfOk result (λ e. data_of e ≡ builder_data self) }
        ensures parts { IfOk result (λ e. below (kind_of e) ≡ beside e1 e2) }
    {
        if let (Some(a), Some(b)) = (truth_of(&e1), truth_of(&e2)) {
            drop(e1);
            drop(e2);
            return Ok(self.with_expr_kind(ExprKind::Lit(Literal::Bool(a && b))));
        }
        let (left, right) = share_two(alloc, e1, e2)?;
        Ok(self.with_expr_kind(ExprKind::And { left, right }))
    }

    fn or(self, alloc: Global, e1: Expr<T>, e2: Expr<T>) -> Result<Expr<T>, AllocError>
        ensures made { IfOk result (λ e. tree_of e ≡ disjunction (tree_of e1) (tree_of e2)) }
        ensures place { IfOk result (λ e. place_of e ≡ builder_place self) }
        ensures data { IfOk result (λ e. data_of e ≡ builder_data self) }
        ensures parts { IfOk result (λ e. below (kind_of e) ≡ beside e1 e2) }
    {
        if let (Some(a), Some(b)) = (truth_of(&e1), truth_of(&e2)) {
            drop(e1);
            drop(e2);
            return Ok(self.with_expr_kind(ExprKind::Lit(Literal::Bool(a || b))));
        }
        let (left, right) = share_two(alloc, e1, e2)?;
        Ok(self.with_expr_kind(ExprKind::Or { left, right }))
    }

    fn unary_app(self, alloc: Global, op: UnaryOp, arg: Expr<T>) -> Result<Expr<T>, AllocError>
        ensures made { IfOk result (λ e. tree_of e ≡ unary (unary_op_of op) (tree_of arg)) }
        ensures place { IfOk result (λ e. place_of e ≡ builder_place self) }
        ensures data { IfOk result (λ e. data_of e ≡ builder_data self) }
        ensures parts { IfOk result (λ e. below (kind_of e) ≡ positions arg) }
    {
        let arg = Rc::new(alloc, arg)?;
        Ok(self.with_expr_kind(ExprKind::UnaryApp { op, arg }))
    }

    fn binary_app(
        self,
        alloc: Global,
        op: BinaryOp,
        arg1: Expr<T>,
        arg2: Expr<T>,
    ) -> Result<Expr<T>, AllocError>
        ensures made { IfOk result (λ e. tree_of e ≡ binary (binary_op_of op) (tree_of arg1) (tree_of arg2)) }
        ensures place { IfOk result (λ e. place_of e ≡ builder_place self) }
        ensures data { IfOk result (λ e. data_of e ≡ builder_data self) }
        ensures parts { IfOk result (λ e. below (kind_of e) ≡ positions arg1 ++ positions arg2) }
    {
        let (arg1, arg2) = share_two(alloc, arg1, arg2)?;
        Ok(self.with_expr_kind(ExprKind::BinaryApp { op, arg1, arg2 }))
    }

    #[tactic(auto, using(crate::proofs::Kept::kind_trees))]
    fn call_extension_fn(
        self,
        alloc: Global,
        fn_name: Name,
        args: Vec<Expr<T>>,
    ) -> Result<Expr<T>, BuildFault<Infallible>>
        ensures made { IfOk result (λ e. tree_of e ≡ call (plain_name_of fn_name) (trees (map tree_of args.items))) }
        ensures place { IfOk result (λ e. place_of e ≡ builder_place self) }
        ensures data { IfOk result (λ e. data_of e ≡ builder_data self) }
        ensures parts { IfOk result (λ e. below (kind_of e) ≡ flat_map positions args.items) }
        ensures want { IfErr result (λ f. f ≡ OutOfMemory) }
    {
        let args = Rc::new(alloc, args)?;
        Ok(self.with_expr_kind(ExprKind::ExtensionFunctionApp { fn_name, args }))
    }

    fn get_attr(self, alloc: Global, expr: Expr<T>, attr: RcStr) -> Result<Expr<T>, AllocError>
        ensures made { IfOk result (λ e. tree_of e ≡ get_attr (tree_of expr) (rc_str_bytes attr)) }
        ensures place { IfOk result (λ e. place_of e ≡ builder_place self) }
        ensures data { IfOk result (λ e. data_of e ≡ builder_data self) }
        ensures parts { IfOk result (λ e. below (kind_of e) ≡ positions expr) }
    {
        let expr = Rc::new(alloc, expr)?;
        Ok(self.with_expr_kind(ExprKind::GetAttr { expr, attr }))
    }

    fn has_attr(self, alloc: Global, expr: Expr<T>, attr: RcStr) -> Result<Expr<T>, AllocError>
        ensures made { IfOk result (λ e. tree_of e ≡ has_attr (tree_of expr) (rc_str_bytes attr)) }
        ensures place { IfOk result (λ e. place_of e ≡ builder_place self) }
        ensures data { IfOk result (λ e. data_of e ≡ builder_data self) }
        ensures parts { IfOk result (λ e. below (kind_of e) ≡ positions expr) }
    {
        let expr = Rc::new(alloc, expr)?;
        Ok(self.with_expr_kind(ExprKind::HasAttr { expr, attr }))
    }

    fn extended_has_attr(
        self,
        alloc: Global,
        expr: Expr<T>,
        attrs: Rc<NonEmpty<RcStr>>,
    ) -> Result<Expr<T>, AllocError>
        ensures made { IfOk result (λ e. tree_of e ≡ path_test (tree_of expr) (rc_str_bytes attrs.value.head) (map rc_str_bytes attrs.value.tail.items)) }
        ensures place { IfOk result (λ e. place_of e ≡ builder_place self) }
        ensures data { IfOk result (λ e. data_of e ≡ builder_data self) }
        ensures parts { IfOk result (λ e. below (kind_of e) ≡ positions expr) }
    {
        let expr = Rc::new(alloc, expr)?;
        if attrs.tail.is_empty() {
            let attr = attrs.head.clone()?;
            return Ok(self.with_expr_kind(ExprKind::HasAttr { expr, attr }));
        }
        Ok(self.with_expr_kind(ExprKind::ExtHasAttr { expr, attrs }))
    }

    fn like(self, alloc: Global, expr: Expr<T>, pattern: Pattern) -> Result<Expr<T>, AllocError>
        ensures made { IfOk result (λ e. tree_of e ≡ like (tree_of expr) (pattern_of pattern)) }
        ensures place { IfOk result (λ e. place_of e ≡ builder_place self) }
        ensures data { IfOk result (λ e. data_of e ≡ builder_data self) }
        ensures parts { IfOk result (λ e. below (kind_of e) ≡ positions expr) }
    {
        let expr = Rc::new(alloc, expr)?;
        Ok(self.with_expr_kind(ExprKind::Like { expr, pattern }))
    }

    fn is_entity_type(
        self,
        alloc: Global,
        expr: Expr<T>,
        entity_type: EntityType,
    ) -> Result<Expr<T>, AllocError>
        ensures made { IfOk result (λ e. tree_of e ≡ is_type (tree_of expr) (type_name_of entity_type)) }
        ensures place { IfOk result (λ e. place_of e ≡ builder_place self) }
        ensures data { IfOk result (λ e. data_of e ≡ builder_data self) }
        ensures parts { IfOk result (λ e. below (kind_of e) ≡ positions expr) }
    {
        let expr = Rc::new(alloc, expr)?;
        Ok(self.with_expr_kind(ExprKind::Is { expr, entity_type }))
    }

    #[tactic(auto, using(crate::proofs::Kept::kind_trees))]
    fn set(self, alloc: Global, exprs: Vec<Expr<T>>) -> Result<Expr<T>, AllocError>
        ensures made { IfOk result (λ e. tree_of e ≡ set_literal (trees (map tree_of exprs.items))) }
        ensures place { IfOk result (λ e. place_of e ≡ builder_place self) }
        ensures data { IfOk result (λ e. data_of e ≡ builder_data self) }
        ensures parts { IfOk result (λ e. below (kind_of e) ≡ flat_map positions exprs.items) }
    {
        let exprs = Rc::new(alloc, exprs)?;
        Ok(self.with_expr_kind(ExprKind::Set(exprs)))
    }

    #[tactic(auto, using(crate::proofs::Kept::kind_trees))]
    fn record_arc(
        self,
        alloc: Global,
        map: Rc<BTreeMap<RcStr, Expr<T>>>,
    ) -> Result<Expr<T>, AllocError>
        ensures made { IfOk result (λ e. tree_of e ≡ record_literal (tree_fields (named (field_trees map.value.entries)))) }
        ensures place { IfOk result (λ e. place_of e ≡ builder_place self) }
        ensures data { IfOk result (λ e. data_of e ≡ builder_data self) }
        ensures parts { IfOk result (λ e. below (kind_of e) ≡ flat_map positions (values_of map.value.entries)) }
    {
        Ok(self.with_expr_kind(ExprKind::Record(map)))
    }

    fn record(
        self,
        alloc: Global,
        pairs: Vec<(RcStr, Expr<T>)>,
    ) -> Result<Expr<T>, ExpressionConstructionError>
        ensures made { IfOk result (λ e. tree_of e ≡ record_tree (named (field_trees pairs.items))) }
        ensures distinct { OnOk result (repeated_name (named pairs.items) ≡ None) }
        ensures refused { IfErr result (λ f. RefusesRecord (named pairs.items) f) }
        ensures place { IfOk result (λ e. place_of e ≡ builder_place self) }
        ensures data { IfOk result (λ e. data_of e ≡ builder_data self) }
        ensures parts { IfOk result (λ e. below (kind_of e) ≡ flat_map positions (values_of (in_order (named pairs.items)))) }
    {
        let fields = field_map(alloc, pairs)?;
        let fields = Rc::new(alloc, fields)?;
        Ok(self.record_arc(alloc, fields)?)
    }
}
