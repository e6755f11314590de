//! Questions on what is read from the schema that was built last.

use crate::places::places;
use crate::said::{add, show, tell, tell_all};
use cedar_schema_built::ValidatorSchema;
use cedar_schema_examples::listed;
use cedar_schema_joins::{lookup_attribute_type, may_have_attr};
use cedar_schema_sound::{AllAttributes, AllKnownAttrs, SchemaAttributes};
use cedar_schema_types::{AttributeType, Attributes, EntityKind, EntityLUB, OpenTag, Type};
use cedar_test_exprs::{both, entity_type, kept, uid};
use std::alloc::{AllocError, Global};

// Answers a question. Fails where it is none.
pub fn answer(
    alloc: Global,
    schema: &ValidatorSchema,
    verb: &str,
    rest: &str,
    said: &mut String,
) -> Result<(), AllocError> {
    match verb {
        "complete" => complete(alloc, schema, said),
        "requests" => requests(alloc, schema, said),
        "action_entities" => tell_all(alloc, schema.action_entities(alloc), said),
        "attributes" => attributes(alloc, schema, rest, said),
        "places" => places(alloc, schema, said),
        _ => Err(AllocError),
    }
}

// Whether all is declared in the schema, or the refusal.
fn complete(alloc: Global, schema: &ValidatorSchema, said: &mut String) -> Result<(), AllocError> {
    match schema.check_complete() {
        Ok(()) => add(said, "yes"),
        Err(error) => {
            let text = format!(in alloc; "refused {}: {error}", error.number())?;
            add(said, text.as_str())
        }
    }
}

// The types of principals of each action in turn, those of resources, and the environments.
fn requests(alloc: Global, schema: &ValidatorSchema, said: &mut String) -> Result<(), AllocError> {
    add_listed(said, listed(alloc, schema.principals(alloc)?))?;
    add_listed(said, listed(alloc, schema.resources(alloc)?))?;
    tell_all(alloc, schema.unlinked_request_envs(alloc), said)
}

// Says these, which have a space before each.
fn add_listed(said: &mut String, listed: Result<String, AllocError>) -> Result<(), AllocError> {
    add(said, listed?.as_str().trim_start())
}

fn single(alloc: Global, text: &str) -> Result<EntityLUB, AllocError> {
    EntityLUB::single_entity(alloc, entity_type(alloc, text)?)
}

// The type of the entities of a type, or of two with `or` between them.
fn entities(alloc: Global, text: &str) -> Result<Type, AllocError> {
    let (first, other) = text.split_once(" or ").unwrap_or((text, text));
    let (first, other) = both(single(alloc, first), single(alloc, other))?;
    Ok(Type::Entity(EntityKind::Entity(first.union(alloc, &other)?)))
}

// The type of any entity, of the entities of some types, or, behind `context`, of the context of an action.
fn ty(alloc: Global, schema: &ValidatorSchema, text: &str) -> Result<Type, AllocError> {
    if let Some(action) = text.strip_prefix("context ") {
        let action = uid(alloc, action)?;
        let action = schema.get_action_id(&action).ok_or(AllocError)?;
        return action.context_type();
    }
    match text {
        "any entity" => Ok(Type::any_entity_reference()),
        _ => entities(alloc, text),
    }
}

// All attributes of the values of a type, or what is declared of one, whose name stands behind `|`.
fn attributes(
    alloc: Global,
    schema: &ValidatorSchema,
    rest: &str,
    said: &mut String,
) -> Result<(), AllocError> {
    let (of, name) = rest.split_once(" | ").unwrap_or((rest, ""));
    let ty = kept(alloc, ty(alloc, schema, of))?;
    let schema = SchemaAttributes::new(schema);
    if name.is_empty() {
        all_attributes(alloc, &schema, &ty, said)
    } else {
        attribute(alloc, &schema, &ty, name, said)
    }
}

// Whether these attributes are those that are known of the entities of a type. Of another type nothing is known.
fn are_known(
    alloc: Global,
    schema: &SchemaAttributes<'_>,
    ty: &Type,
    all: &Attributes,
) -> Result<bool, AllocError> {
    match ty {
        Type::Entity(kind) => Ok(kind.all_known_attrs(alloc, schema)? == *all),
        _ => Ok(true),
    }
}

// All attributes of the values of a type, as a record type.
fn all_attributes(
    alloc: Global,
    schema: &SchemaAttributes<'_>,
    ty: &Type,
    said: &mut String,
) -> Result<(), AllocError> {
    let all = kept(alloc, ty.all_attributes(alloc, schema))?;
    if are_known(alloc, schema, ty, &all)? {
        tell(alloc, record(&all), said)
    } else {
        add(said, "others are known")
    }
}

// The type of the records of these attributes.
fn record(attributes: &Attributes) -> Result<Type, AllocError> {
    Ok(Type::Record {
        attrs: attributes.clone()?,
        open_attributes: OpenTag::ClosedAttributes,
    })
}

// What is declared of an attribute for all values of a type, `not known` where some may have it, and `not there` where none may.
fn attribute(
    alloc: Global,
    schema: &SchemaAttributes<'_>,
    ty: &Type,
    name: &str,
    said: &mut String,
) -> Result<(), AllocError> {
    let found = kept(alloc, lookup_attribute_type(alloc, schema, ty, name))?;
    let Some(declared) = &*found else {
        let is_there = may_have_attr(schema, ty, name);
        return add(said, if is_there { "not known" } else { "not there" });
    };
    say_declared(alloc, declared, said)
}

// What is declared of an attribute, by its type.
fn say_declared(
    alloc: Global,
    declared: &AttributeType,
    said: &mut String,
) -> Result<(), AllocError> {
    show(alloc, &declared.attr_type, said)?;
    said.push_str(if declared.is_required() {
        ""
    } else {
        ", perhaps"
    })
}
