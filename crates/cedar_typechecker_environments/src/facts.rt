//! Facts, and sets of them.

ghost use Rattle.std.specs.Prelude.{◌≡◌, IfOk};
ghost use Rattle.std.specs.Rc.{rc_str_bytes};
ghost use Rattle.cedar_expr_trees.specs.Trees.{tree_of};
ghost use Rattle.cedar_typechecker_model.specs.Facts.{no_facts, fact, union, intersection, attribute_part, tag_part};
ghost use Rattle.cedar_typechecker_environments.specs.Facts.{capability_of, facts_of, facts_among};
ghost use Rattle.cedar_typechecker_environments.specs.Along.{AlongPath};

use crate::sorted::SortedKeys;
use cedar_expr_shapes::ExprShapeOnly;
use cedar_expr_trees::Expr;
use std::alloc::{AllocError, Global};
use std::rc::RcStr;

/// That an expression has an attribute, or the tag that another expression names. Expressions count by their shape: their places
/// don't tell facts apart.
#[derive(PartialEq, Eq, PartialOrd, Ord, Hash, Drop)]
pub enum Capability<'a> {
    /// An attribute.
    Attribute {
        /// What has it.
        on_expr: ExprShapeOnly<'a>,
        /// Its name.
        attribute: RcStr,
    },
    /// A tag.
    Tag {
        /// What has it.
        on_expr: ExprShapeOnly<'a>,
        /// What names it.
        tag: ExprShapeOnly<'a>,
    },
}

impl<'a> Capability<'a> {
    /// That the expression, which is borrowed, has the attribute.
    pub fn new_attribute(on_expr: &'a Expr, attribute: RcStr) -> Capability<'a>
        ensures { capability_of result ≡ (tree_of on_expr.entry.now, attribute_part (rc_str_bytes attribute)) }
    {
        Capability::Attribute {
            on_expr: ExprShapeOnly::new_from_borrowed(on_expr),
            attribute,
        }
    }

    /// That the expression, which is handed over, has the attribute.
    pub fn new_attribute_owned(on_expr: Expr, attribute: RcStr) -> Capability<'a>
        ensures { capability_of result ≡ (tree_of on_expr, attribute_part (rc_str_bytes attribute)) }
    {
        Capability::Attribute {
            on_expr: ExprShapeOnly::new_from_owned(on_expr),
            attribute,
        }
    }

    /// That the expression has the tag that the other expression names. Both are borrowed.
    pub fn new_borrowed_tag(on_expr: &'a Expr, tag: &'a Expr) -> Capability<'a>
        ensures { capability_of result ≡ (tree_of on_expr.entry.now, tag_part (tree_of tag.entry.now)) }
    {
        Capability::Tag {
            on_expr: ExprShapeOnly::new_from_borrowed(on_expr),
            tag: ExprShapeOnly::new_from_borrowed(tag),
        }
    }

    /// That the expression, which is borrowed, has the tag that the other expression names, which is handed over.
    pub fn new_owned_tag(on_expr: &'a Expr, tag: Expr) -> Capability<'a>
        ensures { capability_of result ≡ (tree_of on_expr.entry.now, tag_part (tree_of tag)) }
    {
        Capability::Tag {
            on_expr: ExprShapeOnly::new_from_borrowed(on_expr),
            tag: ExprShapeOnly::new_from_owned(tag),
        }
    }
}

impl<'a> Clone for Capability<'a> {
    ghost is_clone = { λ c copy. capability_of copy ≡ capability_of c };

    /// A copy. Expressions that are borrowed stay borrowed.
    fn clone(&self) -> Result<Capability<'a>, AllocError> {
        match self {
            Capability::Attribute { on_expr, attribute } => Ok(Capability::Attribute {
                on_expr: on_expr.clone()?,
                attribute: attribute.clone()?,
            }),
            Capability::Tag { on_expr, tag } => Ok(Capability::Tag {
                on_expr: on_expr.clone()?,
                tag: tag.clone()?,
            }),
        }
    }
}

/// A set of facts, kept in the order of facts.
pub struct CapabilitySet<'a> {
    capabilities: SortedKeys<Capability<'a>>,
}

// prover: see ARCHITECTURE
impl<'a> Drop for CapabilitySet<'a> {
    fn drop(self) {
        let CapabilitySet { capabilities: _ } = self;
    }
}

impl<'a> CapabilitySet<'a> {
    /// No facts.
    pub fn new(alloc: Global) -> CapabilitySet<'a>
        ensures { facts_of result ≡ no_facts }
    {
        CapabilitySet {
            capabilities: SortedKeys::new(alloc),
        }
    }

    /// One fact alone.
    pub fn singleton(alloc: Global, e: Capability<'a>) -> Result<CapabilitySet<'a>, AllocError>
        ensures { IfOk result (λ c. facts_of c ≡ fact (capability_of e.entry).0 (capability_of e.entry).1) }
    {
        let capabilities = SortedKeys::singleton(alloc, e)?;
        Ok(CapabilitySet { capabilities })
    }

    /// These facts of attributes along a path, one after the other. Only the first two are compared.
    pub fn along(facts: Vec<Capability<'a>>) -> CapabilitySet<'a>
        requires { AlongPath facts.items }
        ensures { facts_of result ≡ facts_among facts.entry.items }
    {
        CapabilitySet {
            capabilities: SortedKeys::in_order(facts),
        }
    }

    /// The facts of either set. Each set is gone along once.
    pub fn union(&self, other: &CapabilitySet<'a>) -> Result<CapabilitySet<'a>, AllocError>
        ensures { IfOk result (λ c. facts_of c ≡ union (facts_of self.now) (facts_of other.now)) }
    {
        let capabilities = self.capabilities.union(&other.capabilities)?;
        Ok(CapabilitySet { capabilities })
    }

    /// The facts that both sets have. Each set is gone along once.
    pub fn intersect(&self, other: &CapabilitySet<'a>) -> Result<CapabilitySet<'a>, AllocError>
        ensures { IfOk result (λ c. facts_of c ≡ intersection (facts_of self.now) (facts_of other.now)) }
    {
        let capabilities = self.capabilities.intersect(&other.capabilities)?;
        Ok(CapabilitySet { capabilities })
    }

    /// Whether this is one of the facts. It is looked for by halving.
    pub fn contains(&self, e: &Capability<'a>) -> bool
        ensures { result ≡ facts_of self.now (capability_of e.now).0 (capability_of e.now).1 }
    {
        self.capabilities.contains(e)
    }
}
