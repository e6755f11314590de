//! Fragments from their lines.

use cedar_expr_leaves::ConditionalName;
use cedar_schema_decl::json_schema::CommonType;
use cedar_schema_examples::{definition, fragment, id, name, ty};
use cedar_schema_fragments::{FragmentError, ValidatorNamespaceDef, ValidatorSchemaFragment};
use cedar_test_exprs::both;
use std::alloc::{AllocError, Global};
use std::collections::BTreeMap;

pub type Written = ValidatorSchemaFragment<ConditionalName, ConditionalName>;

type Space = ValidatorNamespaceDef<ConditionalName, ConditionalName>;

// The fragment of these lines, or of one line `common A | Set of T` or `commons A | Set of T`, or of the lines behind a line `apart N`.
pub fn written(alloc: Global, lines: &str) -> Result<Written, FragmentError> {
    let (verb, rest) = lines.trim_end().split_once(' ').unwrap_or((lines, ""));
    let space = match verb {
        "common" | "commons" => common_type(alloc, verb, rest)?,
        "apart" => apart(alloc, rest)?,
        _ => return Written::from_schema_fragment(alloc, fragment(alloc, lines)?),
    };
    Ok(Written::from_namespaces(vec![in alloc; space]?))
}

// The namespace of this name, and what the lines behind it declare.
fn apart(alloc: Global, text: &str) -> Result<Space, FragmentError> {
    let (space, lines) = text.split_once('\n').unwrap_or((text, ""));
    let (space, definition) = both(name(alloc, space), definition(alloc, lines))?;
    Space::from_namespace_definition(alloc, Some(space), definition)
}

// The empty namespace with this common type alone, by itself or as that of a list. A name `N/T` in its type is `T`, written in the
// namespace `N`.
fn common_type(alloc: Global, verb: &str, text: &str) -> Result<Space, AllocError> {
    let (word, text) = text.split_once(" | ").unwrap_or((text, ""));
    let (word, ty) = both(id(alloc, word), ty(alloc, text))?;
    let common = CommonType { ty, loc: None };
    if verb == "common" {
        Space::from_common_type_def(alloc, None, (word, common))
    } else {
        Space::from_common_type_defs(alloc, None, one(alloc, word, common)?)
    }
}

// The map of one value.
fn one<K: Ord + Drop, V: Drop>(
    alloc: Global,
    key: K,
    value: V,
) -> Result<BTreeMap<K, V>, AllocError> {
    let mut map = BTreeMap::new(alloc);
    map.insert(key, value)?;
    Ok(map)
}
