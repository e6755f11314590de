//! Sets of policies.

ghost use Rattle.std.specs.Prelude.{◌≡◌, true};
ghost use Rattle.cedar_store_model.specs.OfLaws.Distinct.{has_distinct_ids};
ghost use Rattle.cedar_store_policies.specs.SetParts.{keys_in, templates_in, policies_in, ids_of, set_made};

use crate::entries::{has_key, put};
use crate::policy::Policy;
use crate::static_policy::StaticPolicy;
use crate::template::Template;
use cedar_store_parts::{LinkingError, PolicyID, PolicySetError, SlotEnv};
use indexmap::IndexMap;
use indexmap::map::Values;
use std::alloc::Global;
use std::rc::Rc;

/// A set of templates and policies, in the order in which they were put in. No id is repeated in it, be it a template's or a
/// policy's.
pub struct PolicySet {
    templates: IndexMap<PolicyID, Rc<Template>>,
    links: IndexMap<PolicyID, Policy>,
    ghost templates_named: { keys_in templates.entries ≡ ids_of (templates_in templates.entries) },
    ghost links_named: { keys_in links.entries ≡ ids_of (policies_in links.entries) },
    ghost distinct: { has_distinct_ids (set_made templates.entries links.entries) ≡ true },
}

// prover: see ARCHITECTURE
impl Drop for PolicySet {
    fn drop(self) {
        let PolicySet {
            templates: _,
            links: _,
        } = self;
    }
}

impl PolicySet {
    ghost use Rattle.std.specs.Prelude.{false, [], Some, IfOk, IfErr, OnOk, OnErr, map, option_map};
    ghost use Rattle.std.specs.List.{list_any};
    ghost use Rattle.std.specs.Str.{bytes_eq};
    ghost use Rattle.cedar_expr_model.specs.Name.{Text};
    ghost use Rattle.cedar_store_model.specs.PolicySet.{template_of as find_template, add_template, add_policy, link};
    ghost use Rattle.cedar_store_parts.specs.Parts.{id_text, bindings_of, binding_places};
    ghost use Rattle.cedar_store_policies.specs.Templates.{template_of};
    ghost use Rattle.cedar_store_policies.specs.Policies.{static_of, policy_of};
    ghost use Rattle.cedar_store_policies.specs.SetRefusals.{RefusesId, RefusesIds, RefusesLink, FitsBindings};
    ghost use Rattle.cedar_store_policies.specs.PolicySets.{set_of, set_seen, find_policy};
    ghost use Rattle.cedar_store_policies.specs.Seen.{template_seen, static_seen, policy_seen, with_template_seen, with_policy_seen, find_seen, linked_seen};

    /// The set without templates and policies.
    pub fn new(alloc: Global) -> PolicySet
        ensures set { set_of result ≡ record { templates = []; policies = [] } }
        ensures seen { set_seen result ≡ record { templates = []; policies = [] } }
    {
        PolicySet {
            templates: IndexMap::new(alloc),
            links: IndexMap::new(alloc),
        }
    }

    /// The set of these policies, in this order. Refuses an id that is repeated, and fails when out of memory.
    pub fn try_from_iter(alloc: Global, policies: Vec<Policy>) -> Result<PolicySet, PolicySetError>
        ensures made { IfOk result (λ s. set_of s ≡ record { templates = []; policies = map policy_of policies.items }) }
        ensures distinct { IfOk result (λ s. has_distinct_ids (set_of s) ≡ true) }
        ensures seen { IfOk result (λ s. set_seen s ≡ record { templates = []; policies = map policy_seen policies.items }) }
        ensures refused { IfErr result (RefusesIds (ids_of (map policy_of policies.items))) }
    {
        let mut set = PolicySet::new(alloc);
        for policy in policies {
            set.add(policy)?;
        }
        Ok(set)
    }

    /// Puts a policy at the end. Refuses an id that is present, and fails when out of memory.
    pub fn add(&mut self, policy: Policy) -> Result<(), PolicySetError>
        ensures added { OnOk result (add_policy (set_of self.old) (policy_of policy) ≡ Some (set_of self.new)) }
        ensures unchanged { OnErr result (set_of self.new ≡ set_of self.old) }
        ensures refused { IfErr result (RefusesId (set_of self.old) (policy_of policy).id) }
        ensures seen { OnOk result (set_seen self.new ≡ with_policy_seen (set_seen self.old) (policy_seen policy)) }
        ensures seen_unchanged { OnErr result (set_seen self.new ≡ set_seen self.old) }
    {
        let id = self.fresh_id(policy.id())?;
        put(&mut self.links, id, policy)?;
        Ok(())
    }

    /// Puts a policy without slots at the end. Refuses an id that is present, and fails when out of memory.
    pub fn add_static(&mut self, policy: StaticPolicy) -> Result<(), PolicySetError>
        ensures added { OnOk result (add_policy (set_of self.old) (static_of policy) ≡ Some (set_of self.new)) }
        ensures unchanged { OnErr result (set_of self.new ≡ set_of self.old) }
        ensures refused { IfErr result (RefusesId (set_of self.old) (static_of policy).id) }
        ensures seen { OnOk result (set_seen self.new ≡ with_policy_seen (set_seen self.old) (static_seen policy)) }
        ensures seen_unchanged { OnErr result (set_seen self.new ≡ set_seen self.old) }
    {
        let policy = Policy::from_static_policy(*self.links.allocator(), policy)?;
        self.add(policy)
    }

    /// Puts a template at the end of the templates. Refuses an id that is present, and fails when out of memory.
    pub fn add_template(&mut self, template: Template) -> Result<(), PolicySetError>
        ensures added { OnOk result (add_template (set_of self.old) (template_of template) ≡ Some (set_of self.new)) }
        ensures unchanged { OnErr result (set_of self.new ≡ set_of self.old) }
        ensures refused { IfErr result (RefusesId (set_of self.old) (template_of template).id) }
        ensures seen { OnOk result (set_seen self.new ≡ with_template_seen (set_seen self.old) (template_seen template)) }
        ensures seen_unchanged { OnErr result (set_seen self.new ≡ set_seen self.old) }
    {
        let template = Rc::new(*self.templates.allocator(), template)?;
        self.add_shared(template)
    }

    // Puts a shared template at the end of the templates. Refuses an id that is present.
    fn add_shared(&mut self, template: Rc<Template>) -> Result<(), PolicySetError>
        ensures added { OnOk result (add_template (set_of self.old) (template_of template.value) ≡ Some (set_of self.new)) }
        ensures unchanged { OnErr result (set_of self.new ≡ set_of self.old) }
        ensures refused { IfErr result (RefusesId (set_of self.old) (template_of template.value).id) }
        ensures seen { OnOk result (set_seen self.new ≡ with_template_seen (set_seen self.old) (template_seen template.value)) }
        ensures seen_unchanged { OnErr result (set_seen self.new ≡ set_seen self.old) }
    {
        let id = self.fresh_id(template.id())?;
        put(&mut self.templates, id, template)?;
        Ok(())
    }

    /// Puts the policy of a template at the end, under a new id and with these bindings. Refuses an id that is present, a slot
    /// of the template that isn't bound, a bound slot that isn't the template's, and an id that no template has, and fails
    /// when out of memory.
    pub fn link(
        &mut self,
        template_id: &PolicyID,
        new_id: PolicyID,
        values: SlotEnv,
    ) -> Result<(), LinkingError>
        ensures linked { OnOk result (link (set_of self.old) (id_text template_id.now) (id_text new_id) (bindings_of values) ≡ Some (set_of self.new)) }
        ensures unchanged { OnErr result (set_of self.new ≡ set_of self.old) }
        ensures refused { IfErr result (RefusesLink (set_of self.old) (id_text template_id.now) (id_text new_id) (bindings_of values)) }
        ensures seen { OnOk result (option_map (λ t. with_policy_seen (set_seen self.old) (linked_seen t (id_text new_id) (binding_places values))) (find_seen (id_text template_id.now) (set_seen self.old).templates) ≡ Some (set_seen self.new)) }
        ensures seen_unchanged { OnErr result (set_seen self.new ≡ set_seen self.old) }
    {
        let template = self.template_to_link(template_id, &values)?;
        let id = self.fresh_id(&new_id)?;
        put(
            &mut self.links,
            id,
            Policy::new(template, Some(new_id), values),
        )?;
        Ok(())
    }

    // A copy of an id under which no entry stands. Refuses one that is present.
    fn fresh_id(&self, id: &PolicyID) -> Result<PolicyID, PolicySetError>
        ensures copied { IfOk result (λ k. id_text k ≡ id_text id.now) }
        ensures no_template { OnOk result (list_any (bytes_eq (id_text id.now)) (keys_in self.now.templates.entries) ≡ false) }
        ensures no_policy { OnOk result (list_any (bytes_eq (id_text id.now)) (keys_in self.now.links.entries) ≡ false) }
        ensures refused { IfErr result (RefusesId (set_of self.now) (id_text id.now)) }
    {
        if has_key(&self.templates, id) || has_key(&self.links, id) {
            return Err(PolicySetError::Occupied { id: id.clone()? });
        }
        Ok(id.clone()?)
    }

    /// The policy of this id, if there is one.
    pub fn get(&self, id: &PolicyID) -> Option<&Policy>
        ensures policy { option_map (λ p. policy_of p.now) result ≡ find_policy (id_text id.now) (set_of self.now) }
        ensures seen { option_map (λ p. policy_seen p.now) result ≡ find_seen (id_text id.now) (set_seen self.now).policies }
    {
        self.links.get(id)
    }

    /// The template of this id, if there is one; it is shared.
    pub fn get_template(&self, id: &PolicyID) -> Option<&Rc<Template>>
        ensures template { option_map (λ t. template_of t.now.value) result ≡ find_template (id_text id.now) (set_of self.now) }
        ensures seen { option_map (λ t. template_seen t.now.value) result ≡ find_seen (id_text id.now) (set_seen self.now).templates }
    {
        self.templates.get(id)
    }

    // The template of this id, whose slots are those that are bound.
    fn template_to_link(
        &self,
        id: &PolicyID,
        values: &SlotEnv,
    ) -> Result<Rc<Template>, LinkingError>
        ensures found { IfOk result (λ t. find_template (id_text id.now) (set_of self.now) ≡ Some (template_of t.value)) }
        ensures seen { IfOk result (λ t. find_seen (id_text id.now) (set_seen self.now).templates ≡ Some (template_seen t.value)) }
        ensures fits { IfOk result (λ t. FitsBindings (template_of t.value) (bindings_of values.now)) }
        ensures refused { (new_id : Text) → IfErr result (RefusesLink (set_of self.now) (id_text id.now) new_id (bindings_of values.now)) }
    {
        match self.get_template(id) {
            None => Err(LinkingError::NoSuchTemplate { id: id.clone()? }),
            Some(template) => match template.check_bindings(values) {
                Err(fault) => Err(fault),
                Ok(()) => Ok(template.clone()?),
            },
        }
    }

    /// Goes over the policies, in their order.
    pub fn policies(&self) -> Values<'_, PolicyID, Policy>
        ensures policies { map policy_of result ≡ (set_of self.now).policies }
        ensures seen { map policy_seen result ≡ (set_seen self.now).policies }
    {
        self.links.values()
    }

    /// Goes over the templates, in their order.
    pub fn templates(&self) -> Values<'_, PolicyID, Rc<Template>>
        ensures templates { map (λ t. template_of t.value) result ≡ (set_of self.now).templates }
        ensures seen { map (λ t. template_seen t.value) result ≡ (set_seen self.now).templates }
    {
        self.templates.values()
    }
}
