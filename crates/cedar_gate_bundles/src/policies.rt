//! Policies.
ghost use Rattle.std.specs.Prelude.{◌≡◌, [], Some, None, IfOk, IfErr};
ghost use Rattle.serde_json.specs.View.{view};
ghost use Rattle.cedar_store_model.specs.Policy as model;
ghost use Rattle.cedar_store_model.specs.Policy.{permit, forbid};
ghost use Rattle.cedar_store_parts.specs.Parts.{effect_of, annotations_of};
ghost use Rattle.cedar_store_policies.specs.Policies.{policy_of};
ghost use Rattle.cedar_gate_model.specs.Reading.{has_only};
ghost use Rattle.cedar_gate_model.specs.ReadingForms.{word_of};
ghost use Rattle.cedar_gate_model.specs.ReadingPolicy.{policy_read};
ghost use Rattle.cedar_gate_bundles.specs.Policies.{effect_words, policy_keys};
ghost use Rattle.cedar_gate_expressions.specs.Forms.{version_of};
ghost use Rattle.cedar_gate_expressions.specs.declared.fault.ReadFault.TheVariants.{Unreadable};

use crate::scopes::{optional_action, optional_bindings, optional_scope};
use cedar_gate_expressions::{
    ExpressionReader, ReadFault, Reader, Version, has_only, optional, required, text,
};
use cedar_store_parts::{Annotations, Effect, PolicyID, PrincipalConstraint, ResourceConstraint};
use cedar_store_policies::{Policy, Template};
use serde_json::Value;
use std::alloc::{AllocError, Global};
use std::rc::Rc;

// Reads policies of a bundle of a version. All share the annotations, of which there are none.
#[derive(Drop)]
pub(crate) struct PolicyReader {
    version: Version,
    annotations: Rc<Annotations>,
    ghost bare: { annotations_of annotations.value ≡ [] },
}

impl PolicyReader {
    // A reader of policies of this version.
    pub(crate) fn new(alloc: Global, version: Version) -> Result<PolicyReader, AllocError>
        ensures { IfOk result (λ r. r.version ≡ version) }
    {
        let annotations = Rc::new(alloc, Annotations::new(alloc))?;
        Ok(PolicyReader {
            version,
            annotations,
        })
    }
}

impl Reader for PolicyReader {
    type Item = Policy;

    ghost Meaning = { model.Policy };

    ghost reading = { λ r. policy_read (version_of r.version) };

    ghost seen = { policy_of };

    fn read(&self, alloc: Global, value: &Value) -> Result<Policy, ReadFault> {
        if !has_keys(value) {
            return Err(ReadFault::Unreadable);
        }
        let annotations = self.annotations.clone()?;
        let id = PolicyID::from_string(alloc, text(required(value, "id")?)?)?;
        let effect = read_effect(required(value, "effect")?)?;
        let principal = PrincipalConstraint {
            constraint: optional_scope(alloc, value, "principal")?,
        };
        let action = optional_action(alloc, value)?;
        let resource = ResourceConstraint {
            constraint: optional_scope(alloc, value, "resource")?,
        };
        let reader = ExpressionReader {
            version: self.version,
        };
        let body = match optional(alloc, &reader, value, "when")? {
            None => None,
            Some(body) => Some(Rc::new(alloc, body)?),
        };
        let template = Template::new_shared(
            alloc,
            id,
            None,
            annotations,
            effect,
            principal,
            action,
            resource,
            body,
        )?;
        let template = Rc::new(alloc, template)?;
        Ok(Policy::new(template, None, optional_bindings(alloc, value)?))
    }
}

// Whether the value has the keys of a policy alone.
fn has_keys(value: &Value) -> bool
    ensures { result ≡ has_only policy_keys (view value.now) }
{
    let keys = [
        "id",
        "effect",
        "principal",
        "action",
        "resource",
        "when",
        "link",
    ];
    has_only(value, &keys)
}

// Reads an effect.
fn read_effect(value: &Value) -> Result<Effect, ReadFault>
    ensures ok { IfOk result (λ e. word_of effect_words (view value.now) ≡ Some (effect_of e)) }
    ensures unreadable { IfErr result (λ f. (f ≡ Unreadable) × (word_of effect_words (view value.now) ≡ None)) }
{
    match text(value)? {
        "permit" => Ok(Effect::Permit),
        "forbid" => Ok(Effect::Forbid),
        _ => Err(ReadFault::Unreadable),
    }
}
