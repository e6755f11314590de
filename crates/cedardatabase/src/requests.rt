//! Reading a request with its store and its steps.

use cedar_gate_bundles::ReadFault;
use cedar_gate_expressions::read_json;
use serde_json::Value;
use std::alloc::Global;

// What a bundle says besides its request and steps, where nothing is declared and nothing put in.
const LEFT_OUT: [(&str, &str); 6] = [
    ("version", "2"),
    ("level", "0"),
    ("limit", "1"),
    ("schema", "[]"),
    ("policies", "[]"),
    ("store", "[]"),
];

/// The JSON of a bundle in which nothing is declared, with the request and the steps of a line, and with its store, where it has one.
pub fn read_request(alloc: Global, line: &str) -> Result<Value, ReadFault> {
    let mut root = read_json(alloc, line.as_bytes())?;
    let has_store = root.get("store").is_some();
    if let Value::Object(members) = &mut root {
        for (key, value) in LEFT_OUT {
            if has_store && key == "store" {
                continue;
            }
            let key = String::from_str(alloc, key)?;
            let value = read_json(alloc, value.as_bytes())?;
            drop(members.insert(key, value)?);
        }
    }
    Ok(root)
}
