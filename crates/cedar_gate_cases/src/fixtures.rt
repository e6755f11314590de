//! The schemas, stores and policies that cases name. Of each text a paragraph is a fixture: its name, then its JSON.

// Of users each has a boss; a document has an owner. Users view documents.
pub const SCHEMAS: &str = r#"documents [{"": {
"entityTypes": {"User": {"attrs": {"boss": {"entity": "User"}, "ok": "Bool", "nick": {"optional": "String"}}},
    "Doc": {"attrs": {"owner": {"entity": "User"}}}},
"actions": {"view": {"principals": ["User"], "resources": ["Doc"]}}}}]

in_two_fragments [{"": {
"entityTypes": {"User": {"attrs": {"boss": {"entity": "User"}, "ok": "Bool", "nick": {"optional": "String"}}}}}}, {"": {
"entityTypes": {"Doc": {"attrs": {"owner": {"entity": "User"}}}},
"actions": {"view": {"principals": ["User"], "resources": ["Doc"]}}}}]

with_users_twice [{"": {
"entityTypes": {"User": {"attrs": {"boss": {"entity": "User"}, "ok": "Bool", "nick": {"optional": "String"}}}}}}, {"": {
"entityTypes": {"User": {"attrs": {"boss": {"entity": "User"}, "ok": "Bool", "nick": {"optional": "String"}}},
    "Doc": {"attrs": {"owner": {"entity": "User"}}}},
"actions": {"view": {"principals": ["User"], "resources": ["Doc"]}}}}]

with_an_external_type [{"": {
"entityTypes": {"User": {"attrs": {"boss": {"entity": "User"}, "ok": "Bool", "nick": {"optional": "String"}}},
    "Doc": {"attrs": {"owner": {"entity": "User"}}}, "X": {"external": []}},
"actions": {"view": {"principals": ["User"], "resources": ["Doc"]}}}}]

with_colors [{"": {
"entityTypes": {"User": {"attrs": {"boss": {"entity": "User"}, "ok": "Bool", "nick": {"optional": "String"}}},
    "Doc": {"attrs": {"owner": {"entity": "User"}}}, "Color": {"enum": ["red"]}},
"actions": {"view": {"principals": ["User"], "resources": ["Doc"]}}}}]

with_robots [{"": {
"entityTypes": {"User": {"attrs": {"boss": {"entity": "User"}, "ok": "Bool", "nick": {"optional": "String"}}},
    "Doc": {"attrs": {"owner": {"entity": "User"}}}, "Robot": {}},
"actions": {"view": {"principals": ["User", "Robot"], "resources": ["Doc"]}}}}]

with_a_tier [{"": {
"entityTypes": {"User": {"attrs": {"r": {"ext": "tier"}}}},
"actions": {"view": {"principals": ["User"], "resources": ["User"]}}}}]

tier_in_context [{"": {
"entityTypes": {"User": {}},
"actions": {"go": {"principals": ["User"], "resources": ["User"], "context": {"record": {"r": {"ext": "tier"}}}}}}}]

number_in_context [{"": {
"entityTypes": {"User": {}},
"actions": {"go": {"principals": ["User"], "resources": ["User"], "context": {"record": {"r": {"record": {"s": "Long"}}}}}}}}]

plain [{"": {
"entityTypes": {"User": {}},
"actions": {"view": {"principals": ["User"], "resources": ["User"]}}}}]"#;

// b owns the document, and a is the boss of b and of itself.
pub const STORES: &str = r#"people [
{"uid": ["User", "a"], "attrs": {"boss": ["uid", "User", "a"], "ok": true}},
{"uid": ["User", "b"], "attrs": {"boss": ["uid", "User", "a"], "ok": true}},
{"uid": ["User", "z"], "attrs": {"boss": ["uid", "User", "z"], "ok": true}},
{"uid": ["Doc", "d"], "attrs": {"owner": ["uid", "User", "b"]}}]

without_the_owner [
{"uid": ["User", "a"], "attrs": {"boss": ["uid", "User", "a"], "ok": true}},
{"uid": ["User", "z"], "attrs": {"boss": ["uid", "User", "z"], "ok": true}},
{"uid": ["Doc", "d"], "attrs": {"owner": ["uid", "User", "b"]}}]

with_a_stranger [
{"uid": ["User", "a"], "attrs": {"boss": ["uid", "User", "a"], "ok": true}},
{"uid": ["User", "b"], "attrs": {"boss": ["uid", "User", "a"], "ok": true}},
{"uid": ["User", "y"], "attrs": {"ok": 7}},
{"uid": ["User", "z"], "attrs": {"boss": ["uid", "User", "z"], "ok": true}},
{"uid": ["Doc", "d"], "attrs": {"owner": ["uid", "User", "b"]}}]

where_a_is_not_ok [
{"uid": ["User", "a"], "attrs": {"boss": ["uid", "User", "a"], "ok": false}},
{"uid": ["User", "b"], "attrs": {"boss": ["uid", "User", "a"], "ok": true}},
{"uid": ["Doc", "d"], "attrs": {"owner": ["uid", "User", "b"]}}]

where_the_boss_is_missing [
{"uid": ["User", "a"], "attrs": {"boss": ["uid", "User", "b"], "ok": true}},
{"uid": ["Doc", "d"], "attrs": {"owner": ["uid", "User", "b"]}}]

of_a_chain [
{"uid": ["Doc", "d"], "attrs": {"owner": ["uid", "User", "b"]}},
{"uid": ["User", "b"], "attrs": {"boss": ["uid", "User", "a"], "ok": true}},
{"uid": ["User", "a"], "attrs": {"boss": ["uid", "User", "z"], "ok": true}},
{"uid": ["User", "z"], "attrs": {"boss": ["uid", "User", "z"], "ok": true}}]

of_a_tier [{"uid": ["User", "a"], "attrs": {"r": ["call", "tier", "007"]}}]

empty []"#;

// What the boss of the owner may view; what a may; who is ok may not; no one may; and others.
pub const POLICIES: &str = r#"boss {"id": "boss", "effect": "permit",
    "when": ["eq", ["get", ["get", ["var", "resource"], "owner"], "boss"], ["var", "principal"]]}

only_a {"id": "only_a", "effect": "permit", "principal": {"eq": ["User", "a"]}}

not_ok {"id": "not_ok", "effect": "forbid", "when": ["get", ["var", "principal"], "ok"]}

nobody {"id": "nobody", "effect": "forbid"}

linked {"id": "linked", "effect": "permit", "principal": {"in": "?"}, "link": {"?principal": ["User", "a"]}}

unlinked {"id": "unlinked", "effect": "permit", "principal": {"in": "?"}}

slot_in_body {"id": "slot_in_body", "effect": "permit", "principal": {"in": "?"}, "link": {"?principal": ["User", "a"]},
    "when": ["eq", ["var", "principal"], ["slot", "?principal"]]}

in_view {"id": "in_view", "effect": "permit", "action": {"in": [["Action", "view"]]}}"#;

/// The JSON of the fixture of this name, or the text itself where it is JSON.
pub fn fixture<'t>(texts: &'t str, name: &'t str) -> Option<&'t str> {
    if name.starts_with('[') || name.starts_with('{') {
        return Some(name);
    }
    for text in texts.split("\n\n") {
        match text.split_once(' ') {
            Some((named, json)) if named == name => return Some(json),
            _ => {}
        }
    }
    None
}
