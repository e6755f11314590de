//! The own builder without data, as a type with no parameter.

ghost use Rattle.std.specs.Prelude.{◌≡◌, None, map, IfOk, IfErr, OnOk};
ghost use Rattle.std.specs.Rc.{rc_str_bytes};
ghost use Rattle.std.specs.declared.convert.Infallible.{Infallible};
ghost use Rattle.cedar_expr_names.specs.Views.{plain_name_of, type_name_of};
ghost use Rattle.cedar_expr_leaves.specs.Literals.{literal_of};
ghost use Rattle.cedar_expr_leaves.specs.Operators.{unary_op_of, binary_op_of};
ghost use Rattle.cedar_expr_leaves.specs.Patterns.{pattern_of};
ghost use Rattle.cedar_expr_leaves.specs.Slots.{slot_of};
ghost use Rattle.cedar_expr_leaves.specs.Variables.{var_of};
ghost use Rattle.cedar_expr_model.specs.Builder.{tree_builder, trees, tree_fields, conjunction, disjunction, path_test};
ghost use Rattle.cedar_expr_model.specs.Records.{record_tree};
ghost use Rattle.cedar_expr_model.specs.Repeats.{repeated_name};
ghost use Rattle.cedar_expr_model.specs.Tree.{Tree, lit, var, slot, unknown, choice, unary, binary, call, get_attr, has_attr, like, is_type, set_literal, record_literal};
ghost use Rattle.cedar_expr_model.proofs.Agreeing.{trees_are_lawful};
ghost use Rattle.cedar_expr_trees.specs.Refusals.{RefusesRecord};
ghost use Rattle.cedar_expr_trees.specs.Trees.{tree_of, place_of, named, field_trees};
ghost use Rattle.cedar_expr_trees.specs.Unknowns.{unknown_of};
ghost use Rattle.cedar_expr_builders.specs.Views.{builder_place, builder_data, refuses_nothing};
ghost use Rattle.cedar_expr_builders.specs.declared.err.BuildFault.TheVariants.{OutOfMemory};

use crate::expr_builder::ExprBuilder as Builds;
use crate::{BuildFault, ExprBuilder};
use cedar_expr_leaves::{Literal, Pattern, SlotId, Var};
use cedar_expr_names::{EntityType, Loc, Name};
use cedar_expr_trees::{BinaryOp, Expr, ExpressionConstructionError, NonEmpty, UnaryOp, Unknown};
use std::alloc::{AllocError, Global};
use std::collections::BTreeMap;
use std::convert::Infallible;
use std::rc::{Rc, RcStr};

/// The own builder of expressions without data. It makes what the builder that it holds makes, and means the same. Name it where a
/// call takes the type of a builder, as `e.into_expr::<PlainBuilder>(alloc)`: a call that names `ExprBuilder<()>` can't be proved.
#[derive(Debug, Drop)]
pub struct PlainBuilder(pub ExprBuilder<()>);

impl Clone for PlainBuilder {
    ghost is_clone = { λ b copy. builder_place copy.0 ≡ builder_place b.0 };

    fn clone(&self) -> Result<PlainBuilder, AllocError>
        ensures { IfOk result (λ copy. builder_place copy.0 ≡ builder_place self.now.0) }
    {
        Ok(PlainBuilder(self.0.clone()?))
    }
}

impl Builds for PlainBuilder {
    type Expr = Expr<()>;

    type Data = ();

    type BuildError = Infallible;

    ghost Meaning = { Tree };

    ghost Refusal = { Infallible };

    ghost means = { tree_of };

    ghost says = { λ e. e };

    ghost steps = { tree_builder };

    ghost refuses = { refuses_nothing };

    ghost placed = { λ b. builder_place b.0 };

    ghost held = { λ b. builder_data b.0 };

    ghost lawful = { trees_are_lawful };

    fn with_data(data: ()) -> PlainBuilder {
        PlainBuilder(Builds::with_data(data))
    }

    fn with_maybe_source_loc(self, maybe_source_loc: Option<Loc>) -> PlainBuilder {
        PlainBuilder(self.0.with_maybe_source_loc(maybe_source_loc))
    }

    fn loc(&self) -> Option<Loc> {
        self.0.loc()
    }

    fn data(&self) -> &() {
        self.0.data()
    }

    fn val(self, alloc: Global, v: Literal) -> Result<Expr<()>, AllocError>
        ensures made { IfOk result (λ e. tree_of e ≡ lit (literal_of v)) }
        ensures place { IfOk result (λ e. place_of e ≡ builder_place self.0) }
    {
        self.0.val(alloc, v)
    }

    fn var(self, alloc: Global, v: Var) -> Result<Expr<()>, AllocError>
        ensures made { IfOk result (λ e. tree_of e ≡ var (var_of v)) }
        ensures place { IfOk result (λ e. place_of e ≡ builder_place self.0) }
    {
        self.0.var(alloc, v)
    }

    fn unknown(self, alloc: Global, u: Unknown) -> Result<Expr<()>, AllocError>
        ensures made { IfOk result (λ e. tree_of e ≡ unknown (unknown_of u).name (unknown_of u).annotation) }
        ensures place { IfOk result (λ e. place_of e ≡ builder_place self.0) }
    {
        self.0.unknown(alloc, u)
    }

    fn slot(self, alloc: Global, s: SlotId) -> Result<Expr<()>, AllocError>
        ensures made { IfOk result (λ e. tree_of e ≡ slot (slot_of s)) }
        ensures place { IfOk result (λ e. place_of e ≡ builder_place self.0) }
    {
        self.0.slot(alloc, s)
    }

    fn ite_arc(
        self,
        alloc: Global,
        test_expr: Rc<Expr<()>>,
        then_expr: Rc<Expr<()>>,
        else_expr: Rc<Expr<()>>,
    ) -> Result<Expr<()>, AllocError>
        ensures made { IfOk result (λ e. tree_of e ≡ choice (tree_of test_expr.value) (tree_of then_expr.value) (tree_of else_expr.value)) }
        ensures place { IfOk result (λ e. place_of e ≡ builder_place self.0) }
    {
        self.0.ite_arc(alloc, test_expr, then_expr, else_expr)
    }

    fn and(self, alloc: Global, e1: Expr<()>, e2: Expr<()>) -> Result<Expr<()>, AllocError>
        ensures made { IfOk result (λ e. tree_of e ≡ conjunction (tree_of e1) (tree_of e2)) }
        ensures place { IfOk result (λ e. place_of e ≡ builder_place self.0) }
    {
        self.0.and(alloc, e1, e2)
    }

    fn or(self, alloc: Global, e1: Expr<()>, e2: Expr<()>) -> Result<Expr<()>, AllocError>
        ensures made { IfOk result (λ e. tree_of e ≡ disjunction (tree_of e1) (tree_of e2)) }
        ensures place { IfOk result (λ e. place_of e ≡ builder_place self.0) }
    {
        self.0.or(alloc, e1, e2)
    }

    fn unary_app(self, alloc: Global, op: UnaryOp, arg: Expr<()>) -> Result<Expr<()>, AllocError>
        ensures made { IfOk result (λ e. tree_of e ≡ unary (unary_op_of op) (tree_of arg)) }
        ensures place { IfOk result (λ e. place_of e ≡ builder_place self.0) }
    {
        self.0.unary_app(alloc, op, arg)
    }

    fn binary_app(
        self,
        alloc: Global,
        op: BinaryOp,
        arg1: Expr<()>,
        arg2: Expr<()>,
    ) -> Result<Expr<()>, AllocError>
        ensures made { IfOk result (λ e. tree_of e ≡ binary (binary_op_of op) (tree_of arg1) (tree_of arg2)) }
        ensures place { IfOk result (λ e. place_of e ≡ builder_place self.0) }
    {
        self.0.binary_app(alloc, op, arg1, arg2)
    }

    fn call_extension_fn(
        self,
        alloc: Global,
        fn_name: Name,
        args: Vec<Expr<()>>,
    ) -> Result<Expr<()>, BuildFault<Infallible>>
        ensures made { IfOk result (λ e. tree_of e ≡ call (plain_name_of fn_name) (trees (map tree_of args.items))) }
        ensures place { IfOk result (λ e. place_of e ≡ builder_place self.0) }
        ensures want { IfErr result (λ f. f ≡ OutOfMemory) }
    {
        self.0.call_extension_fn(alloc, fn_name, args)
    }

    fn get_attr(self, alloc: Global, expr: Expr<()>, attr: RcStr) -> Result<Expr<()>, AllocError>
        ensures made { IfOk result (λ e. tree_of e ≡ get_attr (tree_of expr) (rc_str_bytes attr)) }
        ensures place { IfOk result (λ e. place_of e ≡ builder_place self.0) }
    {
        self.0.get_attr(alloc, expr, attr)
    }

    fn has_attr(self, alloc: Global, expr: Expr<()>, attr: RcStr) -> Result<Expr<()>, AllocError>
        ensures made { IfOk result (λ e. tree_of e ≡ has_attr (tree_of expr) (rc_str_bytes attr)) }
        ensures place { IfOk result (λ e. place_of e ≡ builder_place self.0) }
    {
        self.0.has_attr(alloc, expr, attr)
    }

    fn extended_has_attr(
        self,
        alloc: Global,
        expr: Expr<()>,
        attrs: Rc<NonEmpty<RcStr>>,
    ) -> Result<Expr<()>, AllocError>
        ensures made { IfOk result (λ e. tree_of e ≡ path_test (tree_of expr) (rc_str_bytes attrs.value.head) (map rc_str_bytes attrs.value.tail.items)) }
        ensures place { IfOk result (λ e. place_of e ≡ builder_place self.0) }
    {
        self.0.extended_has_attr(alloc, expr, attrs)
    }

    fn like(self, alloc: Global, expr: Expr<()>, pattern: Pattern) -> Result<Expr<()>, AllocError>
        ensures made { IfOk result (λ e. tree_of e ≡ like (tree_of expr) (pattern_of pattern)) }
        ensures place { IfOk result (λ e. place_of e ≡ builder_place self.0) }
    {
        self.0.like(alloc, expr, pattern)
    }

    fn is_entity_type(
        self,
        alloc: Global,
        expr: Expr<()>,
        entity_type: EntityType,
    ) -> Result<Expr<()>, AllocError>
        ensures made { IfOk result (λ e. tree_of e ≡ is_type (tree_of expr) (type_name_of entity_type)) }
        ensures place { IfOk result (λ e. place_of e ≡ builder_place self.0) }
    {
        self.0.is_entity_type(alloc, expr, entity_type)
    }

    fn set(self, alloc: Global, exprs: Vec<Expr<()>>) -> Result<Expr<()>, AllocError>
        ensures made { IfOk result (λ e. tree_of e ≡ set_literal (trees (map tree_of exprs.items))) }
        ensures place { IfOk result (λ e. place_of e ≡ builder_place self.0) }
    {
        self.0.set(alloc, exprs)
    }

    fn record_arc(
        self,
        alloc: Global,
        map: Rc<BTreeMap<RcStr, Expr<()>>>,
    ) -> Result<Expr<()>, AllocError>
        ensures made { IfOk result (λ e. tree_of e ≡ record_literal (tree_fields (named (field_trees map.value.entries)))) }
        ensures place { IfOk result (λ e. place_of e ≡ builder_place self.0) }
    {
        self.0.record_arc(alloc, map)
    }

    fn record(
        self,
        alloc: Global,
        pairs: Vec<(RcStr, Expr<()>)>,
    ) -> Result<Expr<()>, ExpressionConstructionError>
        ensures made { IfOk result (λ e. tree_of e ≡ record_tree (named (field_trees pairs.items))) }
        ensures distinct { OnOk result (repeated_name (named pairs.items) ≡ None) }
        ensures refused { IfErr result (λ f. RefusesRecord (named pairs.items) f) }
        ensures place { IfOk result (λ e. place_of e ≡ builder_place self.0) }
    {
        self.0.record(alloc, pairs)
    }
}
