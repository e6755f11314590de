//! Reading a request with its store and its steps.

use cedar_expr_functions::Extensions;
use cedar_gate_bundles::{Bundle, ReadFault, read_bundle};
use cedar_gate_expressions::read_json;
use serde_json::Value;
use std::alloc::Global;

// What a bundle says besides its request, store and steps, where nothing is declared.
const LEFT_OUT: [(&str, &str); 5] = [
    ("version", "2"),
    ("level", "0"),
    ("limit", "1"),
    ("schema", "[]"),
    ("policies", "[]"),
];

/// The request, the store and the steps of a line: an object with these members of a bundle. What else stands in it is read over.
pub fn read_request(
    alloc: Global,
    table: &Extensions<'_>,
    line: &str,
) -> Result<Bundle, ReadFault> {
    let mut root = read_json(alloc, line.as_bytes())?;
    if let Value::Object(members) = &mut root {
        for (key, value) in LEFT_OUT {
            let key = String::from_str(alloc, key)?;
            let value = read_json(alloc, value.as_bytes())?;
            drop(members.insert(key, value)?);
        }
    }
    read_bundle(alloc, table, &root)
}
