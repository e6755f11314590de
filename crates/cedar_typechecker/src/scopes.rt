//! What the environments of policies and the scope rules ask.

ghost use Rattle.std.specs.Prelude.{◌≡◌, IfOk, map, not};
ghost use Rattle.std.specs.List.{filter};
ghost use Rattle.cedar_expr_model.specs.Name.{name_eq};
ghost use Rattle.cedar_expr_names.specs.Views.{type_name_of, eid_text};
ghost use Rattle.cedar_schema_built.specs.Iterators.{ancestors_left};
ghost use Rattle.cedar_schema_model.specs.Types.{Attributes as ModelAttributes};
ghost use Rattle.cedar_schema_entries.specs.Kinds.{kind_with};
ghost use Rattle.cedar_typechecker_model.specs.ScopeRules.{has_id};

use crate::environments::environments_of;
use crate::schema_and_functions::SchemaAndFunctions;
use cedar_expr_names::{Eid, EntityType, EntityUID};
use cedar_schema_built::Ancestors;
use cedar_schema_entries::ValidatorEntityTypeKind;
use cedar_typechecker_environments::RequestEnv;
use cedar_typechecker_scopes::{SchemaEnvironments, ScopeSchema};
use std::alloc::{AllocError, Global};

impl SchemaEnvironments for SchemaAndFunctions<'_, '_, '_> {
    fn environments(&self, alloc: Global) -> Result<Vec<RequestEnv>, AllocError> {
        environments_of(alloc, self.schema.action_ids())
    }

    fn types_above(&self, alloc: Global, ty: &EntityType) -> Result<Vec<EntityType>, AllocError> {
        match self.schema.ancestors(ty) {
            Some(ancestors) => others_of(alloc, ancestors, ty),
            None => Ok(Vec::new(alloc)),
        }
    }
}

impl ScopeSchema for SchemaAndFunctions<'_, '_, '_> {
    fn is_action_type(&self, ty: &EntityType) -> bool {
        self.action_types.contains(ty)
    }

    fn is_no_unknown_member(&self, uid: &EntityUID) -> bool {
        match self.schema.get_entity_type(uid.entity_type()) {
            Some(entity_type) => may_have_id(entity_type.kind(), uid.eid()),
            None => true,
        }
    }
}

// Copies of those of these entity types that aren't this one. Fails only when out of memory.
fn others_of(
    alloc: Global,
    types: Ancestors<'_>,
    ty: &EntityType,
) -> Result<Vec<EntityType>, AllocError>
    ensures { IfOk result (λ ts. map type_name_of ts.items ≡ filter (λ m. not (name_eq m (type_name_of ty.now))) (ancestors_left types.entry)) }
{
    let mut others = Vec::new(alloc);
    for above in types {
        if !above.same(ty) {
            others.push(above.clone()?)?;
        }
    }
    Ok(others)
}

// Whether an entity of a type of this kind may have the id: one of the members, where the type is enumerated.
fn may_have_id(kind: &ValidatorEntityTypeKind, id: &Eid) -> bool
    ensures { (as_ : ModelAttributes) → result ≡ has_id (kind_with as_ kind.now) (eid_text id.now) }
{
    match kind {
        ValidatorEntityTypeKind::Enum(members) => members.contains(id.as_str()),
        ValidatorEntityTypeKind::Standard(_) | ValidatorEntityTypeKind::External => true,
    }
}
