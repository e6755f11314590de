//! Declarations as they are written, from short lines.

use crate::naming::{WrittenName, id, name, names, placed, raw};
use crate::types::{record, ty};
use cedar_expr_leaves::{NonEmpty, RawName, ReferenceType};
use cedar_expr_names::{Id, InternalName, Loc};
use cedar_schema_decl::json_schema::{
    ActionEntityUID, ActionType, ActionTypeKind, ApplySpec, CommonType, EntityType, EntityTypeKind,
    Fragment, NamespaceDefinition, Type,
};
use std::alloc::{AllocError, Global};
use std::collections::BTreeMap;
use std::rc::RcStr;

// The first part of a line, and what is behind it.
fn parts(line: &str) -> (&str, &str) {
    line.split_once(" | ").unwrap_or((line, ""))
}

// The texts, with commas between them.
fn texts(alloc: Global, text: &str) -> Result<NonEmpty<RcStr>, AllocError> {
    let (first, others) = text.split_once(", ").unwrap_or((text, ""));
    let mut texts = NonEmpty::singleton(alloc, RcStr::from_str(alloc, first)?);
    for other in others.split(", ") {
        if !other.is_empty() {
            texts.tail.push(RcStr::from_str(alloc, other)?)?;
        }
    }
    Ok(texts)
}

// The type of tags of this text. Without a text there are no tags.
fn tags<N: WrittenName>(alloc: Global, text: &str) -> Result<Option<Type<N>>, AllocError> {
    if text.is_empty() {
        return Ok(None);
    }
    Ok(Some(ty(alloc, text)?))
}

// What is declared of a standard entity type: its parents, attributes and tags.
fn standard<N: WrittenName>(alloc: Global, line: &str) -> Result<EntityTypeKind<N>, AllocError> {
    let (parents, line) = parts(line);
    let (shape, of_tags) = parts(line);
    let member_of_types = names(alloc, parents)?;
    let shape = record(alloc, shape)?;
    let tags = tags(alloc, of_tags)?;
    Ok(EntityTypeKind::Standard {
        member_of_types,
        shape,
        tags,
    })
}

/// What is declared of an entity type of this kind, as behind its name in a line of `fragment`: `entity`, `enum`, or another word for
/// one that is declared elsewhere. Fails where the line declares nothing of one, and when out of memory.
pub fn kind<N: WrittenName>(
    alloc: Global,
    kind: &str,
    line: &str,
) -> Result<EntityTypeKind<N>, AllocError> {
    match kind {
        "entity" => standard(alloc, line),
        "enum" => Ok(EntityTypeKind::Enum {
            choices: texts(alloc, line)?,
        }),
        _ => Ok(EntityTypeKind::External {
            member_of_types: names(alloc, line)?,
        }),
    }
}

// The common type of this line, behind `type`.
fn common_type(alloc: Global, line: &str) -> Result<(Id, CommonType<RawName>), AllocError> {
    let (word, text) = parts(line);
    let (word, loc, of_type) = placed(word);
    let mut ty = ty(alloc, text)?;
    ty.loc = of_type;
    Ok((id(alloc, word)?, CommonType { ty, loc }))
}

// The entity type of this kind and line.
fn entity_type(
    alloc: Global,
    word: &str,
    line: &str,
) -> Result<(Id, EntityType<RawName>), AllocError> {
    let (name, line) = parts(line);
    let (name, loc, _) = placed(name);
    let name = id(alloc, name)?;
    let kind = kind(alloc, word, line)?;
    Ok((name, EntityType { kind, loc }))
}

// The actions that are named as parents, each by its type and its id.
fn parents(alloc: Global, text: &str) -> Result<Vec<ActionEntityUID<RawName>>, AllocError> {
    let mut parents = Vec::new(alloc);
    for parent in text.split(", ") {
        if let Some((ty, id)) = parent.split_once(' ') {
            let ty = raw(alloc, ty)?;
            let id = RcStr::from_str(alloc, id)?;
            parents.push(ActionEntityUID { ty, id })?;
        }
    }
    Ok(parents)
}

// What an action applies to: types of principals, types of resources, and the type of its context.
fn applied(alloc: Global, line: &str) -> Result<Option<ApplySpec<RawName>>, AllocError> {
    if line.is_empty() {
        return Ok(None);
    }
    let (principals, line) = parts(line);
    let (resources, context) = parts(line);
    let principal_types = names(alloc, principals)?;
    let resource_types = names(alloc, resources)?;
    let context = ty(alloc, context)?;
    Ok(Some(ApplySpec {
        principal_types,
        resource_types,
        context,
    }))
}

// What is declared of an action of this kind, beside its parents.
fn action_kind(
    alloc: Global,
    kind: &str,
    line: &str,
) -> Result<ActionTypeKind<RawName>, AllocError> {
    if kind == "action" {
        let applies_to = applied(alloc, line)?;
        Ok(ActionTypeKind::Declared { applies_to })
    } else if line.is_empty() {
        Ok(ActionTypeKind::External)
    } else {
        Err(AllocError)
    }
}

// The action of this kind and line.
fn action(
    alloc: Global,
    word: &str,
    line: &str,
) -> Result<(RcStr, ActionType<RawName>), AllocError> {
    let (id, line) = parts(line);
    let (above, line) = parts(line);
    let (id, loc, _) = placed(id);
    let id = RcStr::from_str(alloc, id)?;
    let member_of = parents(alloc, above)?;
    let kind = action_kind(alloc, word, line)?;
    Ok((
        id,
        ActionType {
            member_of,
            kind,
            loc,
        },
    ))
}

// Puts what the line declares into the namespace.
fn declare(
    alloc: Global,
    line: &str,
    space: &mut NamespaceDefinition<RawName>,
) -> Result<(), AllocError> {
    let (word, line) = line.split_once(' ').unwrap_or(("", line));
    match word {
        "type" => put(&mut space.common_types, common_type(alloc, line)),
        "entity" | "enum" | "extern" => {
            put(&mut space.entity_types, entity_type(alloc, word, line))
        }
        "action" | "outside" => put(&mut space.actions, action(alloc, word, line)),
        _ => Ok(()),
    }
}

// Puts what was made into the map. Fails where it wasn't made.
fn put<K: Ord + Drop, V: Drop>(
    map: &mut BTreeMap<K, V>,
    made: Result<(K, V), AllocError>,
) -> Result<(), AllocError> {
    let (key, value) = made?;
    map.insert(key, value)?;
    Ok(())
}

/// What the lines declare in a namespace, one declaration a line: common types, as `type Name | Set of Long`; entity types with their
/// parents, attributes and tags, as `entity User | Group, Team | name: String, age?: Long | Long`; those with members alone, as
/// `enum Color | red, green`; those that are declared elsewhere with their parents, as `extern Team | Group`; actions with their
/// parents, types of principals, types of resources and context, as `action view | Action read | User, Bot | Doc | {}`, where what
/// it applies to may be missing; and those that are declared elsewhere with their parents, as `outside view | Action read`. A name
/// that is declared may have its place behind it, and that of a common type its type's too. Fails where a line isn't such a
/// declaration, and when out of memory.
pub fn definition(alloc: Global, lines: &str) -> Result<NamespaceDefinition<RawName>, AllocError> {
    let mut space = NamespaceDefinition {
        common_types: BTreeMap::new(alloc),
        entity_types: BTreeMap::new(alloc),
        actions: BTreeMap::new(alloc),
        loc: None,
    };
    for line in lines.lines() {
        declare(alloc, line, &mut space)?;
    }
    Ok(space)
}

// The namespace of this text, at this place.
fn namespace(
    alloc: Global,
    text: &str,
    loc: Option<Loc>,
) -> Result<Option<InternalName>, AllocError> {
    let name = name(alloc, text)?;
    match loc {
        None => Ok(Some(name)),
        Some(_) => Ok(Some(InternalName::new(alloc, id(alloc, text)?, Vec::new(alloc), loc)?)),
    }
}

// The namespace of this text, and what its lines declare in it.
fn spaced(
    alloc: Global,
    part: &str,
) -> Result<(Option<InternalName>, NamespaceDefinition<RawName>), AllocError> {
    let (space, lines) = part.split_once('\n').unwrap_or((part, ""));
    let (space, loc, of_definition) = placed(space);
    let mut definition = definition(alloc, lines)?;
    definition.loc = of_definition;
    Ok((namespace(alloc, space, loc)?, definition))
}

/// The fragment that the lines declare: those of the empty namespace, and behind each line `namespace N` those of the namespace `N`. The
/// name of a namespace may have its place behind it, and that of its definition. Fails where a declaration isn't whole, where the name
/// of a namespace with a place has more than one part, and when out of memory.
pub fn fragment(alloc: Global, text: &str) -> Result<Fragment<RawName>, AllocError> {
    let mut namespaces = BTreeMap::new(alloc);
    let mut parts = text.split("namespace ");
    let first = parts.next().unwrap_or("");
    if !first.is_empty() {
        namespaces.insert(None, definition(alloc, first)?)?;
    }
    for part in parts {
        put(&mut namespaces, spaced(alloc, part))?;
    }
    Ok(Fragment(namespaces))
}
