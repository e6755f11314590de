//! What is declared, and what names mean by it.

ghost use Rattle.std.specs.Prelude.{◌≡◌, IfOk, IfErr, OnOk, OnErr, None, find, map, option_map};
ghost use Rattle.std.specs.declared.result.Result.TheVariants.{Ok};
ghost use Rattle.std.specs.List.{list_any};
ghost use Rattle.std.specs.Option.{option_copied};
ghost use Rattle.cedar_expr_model.specs.Name.{name_eq};
ghost use Rattle.cedar_expr_names.specs.Views.{name_of, uid_of};
ghost use Rattle.cedar_schema_decl.specs.Conditional.{kind_of, conditional_of};
ghost use Rattle.cedar_schema_decl.specs.Refusals.{Refuses};
ghost use Rattle.cedar_schema_decl.specs.Shadowing.{is_type, type_shadows, action_shadows, first_shadowing, TellsShadowing};
ghost use Rattle.cedar_schema_decl.specs.Defined.{defined_of, nothing_defined, is_defined_action, tells, resolved, with_common, with_entity, with_action};

use crate::err::{ShadowingError, TypeNotDefinedError};
use cedar_expr_leaves::{ConditionalName, ReferenceType};
use cedar_expr_names::{EntityType, EntityUID, InternalName, Name};
use std::alloc::{AllocError, Global};
use std::collections::BTreeSet;

/// The names of all entity types and common types that are declared, and the uids of all actions.
pub struct AllDefs {
    entity_defs: BTreeSet<InternalName>,
    common_defs: BTreeSet<InternalName>,
    action_defs: BTreeSet<EntityUID>,
}

// prover: see ARCHITECTURE
impl Drop for AllDefs {
    fn drop(self) {
        let AllDefs {
            entity_defs: _,
            common_defs: _,
            action_defs: _,
        } = self;
    }
}

impl AllDefs {
    /// Without any declaration.
    pub fn empty(alloc: Global) -> AllDefs
        ensures { defined_of result ≡ nothing_defined }
    {
        AllDefs {
            entity_defs: BTreeSet::new(alloc),
            common_defs: BTreeSet::new(alloc),
            action_defs: BTreeSet::new(alloc),
        }
    }

    /// Whether an entity type of this name is declared.
    pub fn is_defined_as_entity(&self, name: &InternalName) -> bool
        ensures { result ≡ list_any (name_eq (name_of name.now)) (defined_of self.now).entities }
    {
        self.entity_defs.contains(name)
    }

    /// Whether a common type of this name is declared.
    pub fn is_defined_as_common(&self, name: &InternalName) -> bool
        ensures { result ≡ list_any (name_eq (name_of name.now)) (defined_of self.now).commons }
    {
        self.common_defs.contains(name)
    }

    /// Whether this action is declared.
    pub fn is_defined_as_action(&self, uid: &EntityUID) -> bool
        ensures { result ≡ is_defined_action (defined_of self.now) (uid_of uid.now) }
    {
        self.action_defs.contains(uid)
    }

    /// Takes an entity type of this name as declared. Fails only when out of memory.
    pub fn mark_as_defined_as_entity_type(&mut self, name: InternalName) -> Result<(), AllocError>
        ensures marked { OnOk result (defined_of self.new ≡ with_entity (name_of name) (defined_of self.old)) }
        ensures unchanged { OnErr result (defined_of self.new ≡ defined_of self.old) }
    {
        self.entity_defs.insert(name)?;
        Ok(())
    }

    /// Takes a common type of this name as declared. Fails only when out of memory.
    pub fn mark_as_defined_as_common_type(&mut self, name: InternalName) -> Result<(), AllocError>
        ensures marked { OnOk result (defined_of self.new ≡ with_common (name_of name) (defined_of self.old)) }
        ensures unchanged { OnErr result (defined_of self.new ≡ defined_of self.old) }
    {
        self.common_defs.insert(name)?;
        Ok(())
    }

    /// Takes this action as declared. Fails only when out of memory.
    pub fn mark_as_defined_as_action(&mut self, uid: EntityUID) -> Result<(), AllocError>
        ensures marked { OnOk result (defined_of self.new ≡ with_action (uid_of uid) (defined_of self.old)) }
        ensures unchanged { OnErr result (defined_of self.new ≡ defined_of self.old) }
    {
        self.action_defs.insert(uid)?;
        Ok(())
    }

    /// Checks that nothing that is declared in a namespace shadows what is declared in the empty one. Refuses the first type that
    /// has the last name of a type of the empty namespace, and the first action that has the id of an action of it. Fails only when
    /// out of memory.
    pub fn rfc_70_shadowing_checks(&self, alloc: Global) -> Result<(), ShadowingError>
        ensures passed { IfOk result (λ _. first_shadowing (defined_of self.now) ≡ None) }
        ensures refused { IfErr result (TellsShadowing (first_shadowing (defined_of self.now))) }
    {
        if let Some(name) = self.first_shadowing_type(alloc, &self.common_defs)? {
            let shadowing_def = name.clone()?;
            return Err(ShadowingError::TypeShadowing { shadowing_def });
        }
        if let Some(name) = self.first_shadowing_type(alloc, &self.entity_defs)? {
            let shadowing_def = name.clone()?;
            return Err(ShadowingError::TypeShadowing { shadowing_def });
        }
        if let Some(uid) = self.first_shadowing_action(alloc, &self.action_defs)? {
            let shadowing_def = uid.clone()?;
            return Err(ShadowingError::ActionShadowing { shadowing_def });
        }
        Ok(())
    }

    // The first of these types that has the last name of a type of the empty namespace.
    fn first_shadowing_type<'a>(
        &self,
        alloc: Global,
        names: &'a BTreeSet<InternalName>,
    ) -> Result<Option<&'a InternalName>, AllocError>
        ensures { IfOk result (λ f. option_map (λ n. name_of n.now) f ≡ find (type_shadows (defined_of self.now)) (map name_of names.now.keys)) }
    {
        for name in names.iter() {
            if self.type_shadows(alloc, name)? {
                return Ok(Some(name));
            }
        }
        Ok(None)
    }

    // The first of these actions that has the id of an action of the empty namespace.
    fn first_shadowing_action<'a>(
        &self,
        alloc: Global,
        uids: &'a BTreeSet<EntityUID>,
    ) -> Result<Option<&'a EntityUID>, AllocError>
        ensures { IfOk result (λ f. option_map (λ u. uid_of u.now) f ≡ find (action_shadows (defined_of self.now)) (map uid_of uids.now.keys)) }
    {
        for uid in uids.iter() {
            if self.action_shadows(alloc, uid)? {
                return Ok(Some(uid));
            }
        }
        Ok(None)
    }

    // Whether a type of this name is one of a namespace, and has the last name of a type of the empty one.
    fn type_shadows(&self, alloc: Global, name: &InternalName) -> Result<bool, AllocError>
        ensures { IfOk result (λ b. b ≡ type_shadows (defined_of self.now) (name_of name.now)) }
    {
        if name.is_unqualified() {
            return Ok(false);
        }
        let last = InternalName::unqualified_name(alloc, name.basename().clone()?)?;
        Ok(self.is_type(&last))
    }

    // Whether a type of either kind of this name is declared.
    fn is_type(&self, name: &InternalName) -> bool
        ensures { result ≡ is_type (defined_of self.now) (name_of name.now) }
    {
        self.is_defined_as_common(name) || self.is_defined_as_entity(name)
    }

    // Whether this action is one of a namespace, and has the id of an action of the empty one.
    fn action_shadows(&self, alloc: Global, uid: &EntityUID) -> Result<bool, AllocError>
        ensures { IfOk result (λ b. b ≡ action_shadows (defined_of self.now) (uid_of uid.now)) }
    {
        let name = uid.entity_type().name();
        if name.is_unqualified() {
            return Ok(false);
        }
        let last = Name::unqualified_name(alloc, name.basename()?)?;
        let id = uid.eid().clone()?;
        let last = EntityUID::from_components(EntityType::from_name(last), id, None);
        Ok(self.is_defined_as_action(&last))
    }

    // Whether a type of this name is declared, of the kind that is due.
    fn defines(&self, kind: ReferenceType, name: &InternalName) -> bool
        ensures { result ≡ tells (defined_of self.now) (kind_of kind) (name_of name.now) }
    {
        match kind {
            ReferenceType::Common => self.is_defined_as_common(name),
            ReferenceType::Entity => self.is_defined_as_entity(name),
            ReferenceType::CommonOrEntity => {
                self.is_defined_as_common(name) || self.is_defined_as_entity(name)
            }
        }
    }

    // The first of these names of which a type of the kind that is due is declared.
    fn first_defined<'a>(
        &self,
        kind: ReferenceType,
        names: &'a [InternalName],
    ) -> Option<&'a InternalName>
        ensures { option_copied result ≡ find (λ n. tells (defined_of self.now) (kind_of kind) (name_of n)) names.now }
    {
        for name in names {
            if self.defines(kind, name) {
                return Some(name);
            }
        }
        None
    }
}

/// The name of the type that a name means: the first of those that it may stand for that is declared. Refuses a name that means
/// none, and fails when out of memory.
pub fn resolve(
    name: &ConditionalName,
    all_defs: &AllDefs,
) -> Result<InternalName, TypeNotDefinedError>
    ensures resolved { IfOk result (λ n. resolved (defined_of all_defs.now) (conditional_of name.now) ≡ Ok (name_of n)) }
    ensures refused { IfErr result (Refuses (resolved (defined_of all_defs.now) (conditional_of name.now))) }
{
    match all_defs.first_defined(name.reference_type(), name.possibilities().as_slice()) {
        Some(found) => Ok(found.clone()?),
        None => Err(TypeNotDefinedError::Undefined {
            undefined_type: name.clone()?,
        }),
    }
}
