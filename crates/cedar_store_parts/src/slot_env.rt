//! What the slots of a policy are bound to.

ghost use Rattle.std.specs.Prelude.{◌≡◌, None, option_map, IfOk};
ghost use Rattle.cedar_expr_names.specs.Views.{uid_of, uid_loc};
ghost use Rattle.cedar_expr_leaves.specs.Slots.{slot_of};
ghost use Rattle.cedar_store_model.specs.Policy.{no_bindings, binding_of};
ghost use Rattle.cedar_store_parts.specs.Parts.{bindings_of, binding_places, place_bound, with_binding, with_place};

use cedar_expr_leaves::SlotId;
use cedar_expr_names::EntityUID;
use std::alloc::AllocError;
use std::rc::Rc;

/// What the slots of a policy are bound to: uids by slots.
#[derive(Debug, PartialEq, Eq)]
pub struct SlotEnv {
    principal: Option<Rc<EntityUID>>,
    resource: Option<Rc<EntityUID>>,
}

// prover: see ARCHITECTURE
impl Drop for SlotEnv {
    fn drop(self) {
        let SlotEnv {
            principal: _,
            resource: _,
        } = self;
    }
}

impl SlotEnv {
    /// No slot is bound.
    pub fn new() -> SlotEnv
        ensures bindings { bindings_of result ≡ no_bindings }
        ensures places { binding_places result ≡ record { principal = None; resource = None } }
    {
        SlotEnv {
            principal: None,
            resource: None,
        }
    }

    /// The uid that the slot is bound to, if it is bound.
    pub fn get(&self, slot: SlotId) -> Option<&Rc<EntityUID>>
        ensures uid { option_map (λ u. uid_of u.now.value) result ≡ binding_of (bindings_of self.now) (slot_of slot) }
        ensures place { option_map (λ u. uid_loc u.now.value) result ≡ place_bound (binding_places self.now) (slot_of slot) }
    {
        if slot.is_principal() {
            self.principal.as_ref()
        } else {
            self.resource.as_ref()
        }
    }

    /// Binds the slot to the uid, and gives the uid that it was bound to.
    pub fn insert(&mut self, slot: SlotId, uid: Rc<EntityUID>) -> Option<Rc<EntityUID>>
        ensures bound { bindings_of self.new ≡ with_binding (bindings_of self.old) (slot_of slot) (uid_of uid.value) }
        ensures before { option_map (λ u. uid_of u.value) result ≡ binding_of (bindings_of self.old) (slot_of slot) }
        ensures placed { binding_places self.new ≡ with_place (binding_places self.old) (slot_of slot) (uid_loc uid.value) }
        ensures placed_before { option_map (λ u. uid_loc u.value) result ≡ place_bound (binding_places self.old) (slot_of slot) }
    {
        if slot.is_principal() {
            self.principal.replace(uid)
        } else {
            self.resource.replace(uid)
        }
    }
}

impl Clone for SlotEnv {
    ghost is_clone = { λ b copy. (bindings_of copy ≡ bindings_of b) × (binding_places copy ≡ binding_places b) };

    /// A copy of the bindings that shares the uids.
    fn clone(&self) -> Result<SlotEnv, AllocError> {
        Ok(SlotEnv {
            principal: shared(&self.principal)?,
            resource: shared(&self.resource)?,
        })
    }
}

// The uid, if there is one, shared.
fn shared(uid: &Option<Rc<EntityUID>>) -> Result<Option<Rc<EntityUID>>, AllocError>
    ensures uid { IfOk result (λ copy. option_map (λ u. uid_of u.value) copy ≡ option_map (λ u. uid_of u.value) uid.now) }
    ensures place { IfOk result (λ copy. option_map (λ u. uid_loc u.value) copy ≡ option_map (λ u. uid_loc u.value) uid.now) }
{
    match uid {
        None => Ok(None),
        Some(uid) => Ok(Some(uid.clone()?)),
    }
}
