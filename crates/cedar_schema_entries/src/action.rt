//! Actions with what descends from them.

ghost use Rattle.std.specs.Prelude.{◌≡◌, [], map, true, false, not, IfOk};
ghost use Rattle.std.specs.List.{list_any};
ghost use Rattle.cedar_expr_model.specs.Name.{name_eq};
ghost use Rattle.cedar_expr_model.specs.Uid.{uid_eq};
ghost use Rattle.cedar_expr_model.specs.Lists.{is_nil};
ghost use Rattle.cedar_expr_names.specs.Views.{type_name_of, uid_of};
ghost use Rattle.cedar_schema_model.specs.Types.{record_type, no_attributes, is_closed};
ghost use Rattle.cedar_schema_types.specs.Types.{type_of};
ghost use Rattle.cedar_schema_entries.specs.Views.{applied_seen, action_seen, action_place};

use crate::applies_to::AppliesTo;
use cedar_expr_names::{EntityType, EntityUID, Loc};
use cedar_schema_types::{OpenTag, Type};
use std::alloc::{AllocError, Global};
use std::collections::BTreeSet;
use std::collections::btree_set::Iter;

/// An action: its uid, what it applies to, the type of its context, the actions that descend from it, and its place.
#[derive(Debug)]
pub struct ValidatorActionId {
    name: EntityUID,
    pub(crate) applies_to: AppliesTo,
    pub(crate) descendants: BTreeSet<EntityUID>,
    context: Type,
    is_external: bool,
    loc: Option<Loc>,
}

// A drop of its own is one step to the proof of a function that may drop an action.
impl Drop for ValidatorActionId {
    fn drop(self) {
        let ValidatorActionId {
            name: _,
            applies_to: _,
            descendants: _,
            context: _,
            is_external: _,
            loc: _,
        } = self;
    }
}

impl ValidatorActionId {
    /// The action of this uid that applies to these types, with these descendants and this type of its context, at this place.
    pub fn new_defined(
        name: EntityUID,
        applies_to: AppliesTo,
        descendants: BTreeSet<EntityUID>,
        context: Type,
        loc: Option<Loc>,
    ) -> ValidatorActionId
        ensures kept { action_seen result ≡ record { uid = uid_of name; applied = applied_seen applies_to; context = type_of context; is_external = false; descendants = map uid_of descendants.keys } }
        ensures place { action_place result ≡ loc }
    {
        ValidatorActionId {
            name,
            applies_to,
            descendants,
            context,
            is_external: false,
            loc,
        }
    }

    /// The action of this uid that is declared elsewhere, with these descendants, at this place. It applies to nothing, and its
    /// context is empty. Fails only when out of memory.
    pub fn new_external(
        alloc: Global,
        name: EntityUID,
        descendants: BTreeSet<EntityUID>,
        loc: Option<Loc>,
    ) -> Result<ValidatorActionId, AllocError>
        ensures kept { IfOk result (λ a. action_seen a ≡ record { uid = uid_of name; applied = record { principals = []; resources = [] }; context = record_type no_attributes is_closed; is_external = true; descendants = map uid_of descendants.keys }) }
        ensures place { IfOk result (λ a. action_place a ≡ loc) }
    {
        let context = Type::record_with_attributes(
            alloc,
            Vec::new(alloc),
            OpenTag::ClosedAttributes,
        )?;
        Ok(ValidatorActionId {
            name,
            applies_to: AppliesTo::new(BTreeSet::new(alloc), BTreeSet::new(alloc)),
            descendants,
            context,
            is_external: true,
            loc,
        })
    }

    /// The uid.
    pub fn name(&self) -> &EntityUID
        ensures { uid_of result.now ≡ (action_seen self.now).uid }
    {
        &self.name
    }

    /// The place.
    pub fn loc(&self) -> Option<Loc>
        ensures { result ≡ action_place self.now }
    {
        self.loc
    }

    /// Goes over the actions that descend from this one, in the order of their uids.
    pub fn descendants(&self) -> Iter<'_, EntityUID>
        ensures { map uid_of result ≡ (action_seen self.now).descendants }
    {
        self.descendants.iter()
    }

    /// Whether the action is declared elsewhere.
    pub fn is_external(&self) -> bool
        ensures { result ≡ (action_seen self.now).is_external }
    {
        self.is_external
    }

    /// The type of the context.
    pub fn context(&self) -> &Type
        ensures { type_of result.now ≡ (action_seen self.now).context }
    {
        &self.context
    }

    /// A copy of the type of the context, whose parts are shared. Fails only when out of memory.
    pub fn context_type(&self) -> Result<Type, AllocError>
        ensures { IfOk result (λ t. type_of t ≡ (action_seen self.now).context) }
    {
        self.context.clone()
    }

    /// What the action applies to.
    pub fn applies_to(&self) -> &AppliesTo
        ensures { applied_seen result.now ≡ (action_seen self.now).applied }
    {
        &self.applies_to
    }

    /// Goes over the types of principals that the action applies to, in the order of their names.
    pub fn principals(&self) -> Iter<'_, EntityType>
        ensures { map type_name_of result ≡ (action_seen self.now).applied.principals }
    {
        self.applies_to.applicable_principal_types()
    }

    /// Goes over the types of resources that the action applies to, in the order of their names.
    pub fn resources(&self) -> Iter<'_, EntityType>
        ensures { map type_name_of result ≡ (action_seen self.now).applied.resources }
    {
        self.applies_to.applicable_resource_types()
    }

    /// Goes over the types of principals that the action applies to, in the order of their names, as `principals` does.
    pub fn applies_to_principals(&self) -> Iter<'_, EntityType>
        ensures { map type_name_of result ≡ (action_seen self.now).applied.principals }
    {
        self.principals()
    }

    /// Goes over the types of resources that the action applies to, in the order of their names, as `resources` does.
    pub fn applies_to_resources(&self) -> Iter<'_, EntityType>
        ensures { map type_name_of result ≡ (action_seen self.now).applied.resources }
    {
        self.resources()
    }

    /// Whether the action applies to principals of this type.
    pub fn is_applicable_principal_type(&self, ty: &EntityType) -> bool
        ensures { result ≡ list_any (name_eq (type_name_of ty.now)) (action_seen self.now).applied.principals }
    {
        self.applies_to.is_applicable_principal_type(ty)
    }

    /// Whether the action applies to resources of this type.
    pub fn is_applicable_resource_type(&self, ty: &EntityType) -> bool
        ensures { result ≡ list_any (name_eq (type_name_of ty.now)) (action_seen self.now).applied.resources }
    {
        self.applies_to.is_applicable_resource_type(ty)
    }

    /// Whether the action of this uid descends from this one.
    pub fn has_descendant(&self, uid: &EntityUID) -> bool
        ensures { result ≡ list_any (uid_eq (uid_of uid.now)) (action_seen self.now).descendants }
    {
        self.descendants.contains(uid)
    }

    /// Whether some action descends from this one.
    pub fn is_group(&self) -> bool
        ensures { result ≡ not (is_nil (action_seen self.now).descendants) }
    {
        !self.descendants.is_empty()
    }
}
