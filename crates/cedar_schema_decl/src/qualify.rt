//! From names as they are written to names that may stand for one of several, and from these to what they mean.

ghost use Rattle.std.specs.Prelude.{◌≡◌, refl, None, IfOk, IfErr};
ghost use Rattle.std.proofs.Common.{ap};
ghost use Rattle.std.specs.declared.result.Result.TheVariants.{Ok};
ghost use Rattle.cedar_expr_model.specs.Name.{Name};
ghost use Rattle.cedar_expr_names.specs.Views.{name_of};
ghost use Rattle.cedar_expr_names.specs.Namespaces.{space_of};
ghost use Rattle.cedar_expr_leaves.specs.Views.{raw_name_of};
ghost use Rattle.cedar_schema_decl.specs.Conditional.{Conditional, conditional_of, qualifying};
ghost use Rattle.cedar_schema_decl.specs.Defined.{defined_of, resolving};
ghost use Rattle.cedar_schema_decl.specs.Refusals.{undefined, Refuses};
ghost use Rattle.cedar_schema_decl.specs.Requalified.{requalified, qualified_in};
ghost use Rattle.cedar_schema_decl.specs.Trees.{type_form};

use crate::all_defs::{AllDefs, resolve};
use crate::err::TypeNotDefinedError;
use crate::json_schema::Type;
use crate::requalify::{Requalify, requalify_type};
use cedar_expr_leaves::{ConditionalName, RawName, ReferenceType};
use cedar_expr_names::InternalName;
use std::alloc::{AllocError, Global};

/// A namespace in which names are written, or the empty one.
#[derive(Drop)]
pub struct Within<'a>(
    /// Its name.
    pub Option<&'a InternalName>,
);

impl<'a> Requalify for Within<'a> {
    type From = RawName;

    type To = ConditionalName;

    type Fault = AllocError;

    ghost Before = { Name };

    ghost After = { Conditional };

    ghost before = { raw_name_of };

    ghost after = { conditional_of };

    ghost renames = { λ w. qualifying (space_of w.0) };

    ghost tells = { λ f. None };

    ghost memory_tells_none = { λ a f g. refl };

    fn requalify(
        &self,
        alloc: Global,
        name: &RawName,
        kind: ReferenceType,
    ) -> Result<ConditionalName, AllocError> {
        let name = name.clone()?;
        name.conditionally_qualify_with(alloc, self.0, kind)
    }
}

impl Requalify for AllDefs {
    type From = ConditionalName;

    type To = InternalName;

    type Fault = TypeNotDefinedError;

    ghost Before = { Conditional };

    ghost After = { Name };

    ghost before = { conditional_of };

    ghost after = { name_of };

    ghost renames = { λ d. resolving (defined_of d) };

    ghost tells = { undefined };

    ghost memory_tells_none = { λ a f g. ap undefined g };

    fn requalify(
        &self,
        _alloc: Global,
        name: &ConditionalName,
        _kind: ReferenceType,
    ) -> Result<InternalName, TypeNotDefinedError> {
        resolve(name, self)
    }
}

impl Type<RawName> {
    /// The type with each name as what it may stand for where it is written in this namespace, or in the empty one. Fails only when
    /// out of memory.
    pub fn conditionally_qualify_type_references(
        self,
        alloc: Global,
        namespace: Option<&InternalName>,
    ) -> Result<Type<ConditionalName>, AllocError>
        ensures { IfOk result (λ r. qualified_in (space_of namespace.entry) (type_form raw_name_of self) ≡ Ok (type_form conditional_of r)) }
    {
        requalify_type(alloc, &self, &Within(namespace))
    }
}

impl Type<ConditionalName> {
    /// The type with each name replaced by that of the type that it means. Refuses the first name that means none, and fails
    /// when out of memory.
    pub fn fully_qualify_type_references(
        self,
        alloc: Global,
        all_defs: &AllDefs,
    ) -> Result<Type<InternalName>, TypeNotDefinedError>
        ensures resolved { IfOk result (λ r. requalified (resolving (defined_of all_defs.now)) (type_form conditional_of self) ≡ Ok (type_form name_of r)) }
        ensures refused { IfErr result (Refuses (requalified (resolving (defined_of all_defs.now)) (type_form conditional_of self))) }
    {
        requalify_type(alloc, &self, all_defs)
    }
}
