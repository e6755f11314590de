//! The forms of a bundle's parts: which parts each has, the least object that has one, and what is expected in its place.

// A form, by its name.
pub(crate) type Form = &'static str;

// The forms of the members of each form by their keys, where `*` is any key and `[]` any item of a list.
const PARTS: &str = "\
bundle version:version level:level limit:limit schema:schema policies:policies request:request store:store steps:steps
schema []:fragment
fragment *:namespace
namespace commonTypes:types entityTypes:kinds actions:actions
types *:type
kinds *:kind
actions *:action
kind parents:names external:names enum:ids attrs:attributes tags:type
action in:uids principals:names resources:names context:type
attributes *:attribute
attribute optional:type set:type record:attributes entity:name common:name ext:name
type set:type record:attributes entity:name common:name ext:name
names []:name
ids []:text
uids []:uid
policies []:policy
policy id:text effect:effect principal:scope action:action_scope resource:scope when:expression link:link
scope eq:target in:target is:name
action_scope eq:uid in:uids
link ?principal:uid ?resource:uid
request principal:entry action:entry resource:entry context:context
entry unknown:name
context *:residual
store []:entity
entity uid:uid attrs:values tags:values ancestors:uids
values *:value
steps []:step
step bind:text value:value
";

// What is expected in the place of each form.
const EXPECTED: &str = "\
bundle an object with version, level, limit, schema, policies, request, store and perhaps steps
version 1 or 2
level a whole number from 0 to 4294967295
limit a whole number from 1 to 512
schema a list of fragments
fragment an object of namespaces
namespace under a name, an object with perhaps commonTypes, entityTypes and actions
types an object of types by identifiers
kinds an object of entity types by identifiers
actions an object of actions by ids
kind under an identifier, an object with perhaps parents, attrs and tags, or one of enum or external
action an object with perhaps in, principals, resources and context
attributes an object of types, each perhaps in {\"optional\": type}
attribute a type, or {\"optional\": type}
type \"Bool\", \"Long\", \"String\", or an object with one of set, record, entity, common and ext
name a name: identifiers joined by ::, none of them a keyword
names a list of names
text a text
ids a list of one text or more
uid a uid: [type, id]
uids a list of uids
new_uid a uid that no other entity of the store has
policies a list of policies
policy an object with id, effect and perhaps principal, action, resource, when and link
effect \"permit\" or \"forbid\"
scope an object with one of eq, in and is, or with is and in
action_scope an object with eq, a uid, or in, a list of uids
target a uid, [type, id], or the slot, \"?\"
link an object with perhaps ?principal and ?resource, each a uid
request an object with principal, action, resource and perhaps context
entry a uid, [type, id], \"unknown\" or {\"unknown\": type}
context \"unknown\" or an object of values in which unknowns may stand
residual a value in which unknowns may stand: a literal, set, record or call that evaluates
store a list of entities, each under another uid
entity an object with uid and perhaps attrs, tags and ancestors
values an object of values
value a value: a literal, set, record or call that evaluates, without unknowns
steps a list of steps
step \"load\", \"decide\" or an object with bind, a name, and value, a value
expression an expression: a truth value, a whole number of 64 bits, a text, or a list that begins with a word
surplus no member of this name
";

// What follows the word of each list that is an expression. Each other word is followed by two expressions.
const FOLLOWED: &str = "\
uid a type and an id
var principal, action, resource or context
slot ?principal or ?resource
unknown a name and perhaps a type
if three expressions
not one expression
neg one expression
isEmpty one expression
get an expression and an attribute
has an expression and one attribute or more
like an expression and a list of texts and nulls
is an expression and a type
call the name of a function and expressions
set expressions
record an object of expressions
rem version 2, and two expressions
";

// The words that are followed by two expressions.
const OPERATORS: &str =
    "and or eq less lesseq add sub mul in contains containsAll containsAny getTag hasTag";

// What stands after the first word of the row that begins with this word.
fn after(rows: &'static str, word: &str) -> Option<&'static str> {
    for row in rows.lines() {
        if let Some((first, rest)) = row.split_once(' ') {
            if first == word {
                return Some(rest);
            }
        }
    }
    None
}

// The form of the part at the key of a form: `[]` stands for an item.
pub(crate) fn part_form(form: Form, key: &str) -> Option<Form> {
    for part in after(PARTS, form).unwrap_or("").split_whitespace() {
        if let Some((at, of)) = part.split_once(':') {
            if at == key || at == "*" {
                return Some(of);
            }
        }
    }
    None
}

// Whether an object of the form has members with forms.
pub(crate) fn has_members(form: Form) -> bool {
    match after(PARTS, form) {
        Some(parts) => !parts.starts_with("[]"),
        None => false,
    }
}

// What is expected in the place of a part of the form.
pub(crate) fn expected(form: Form) -> &'static str {
    after(EXPECTED, form).unwrap_or(form)
}

// What is expected after this word of a list that is an expression.
pub(crate) fn expected_after(word: &str) -> &'static str {
    match after(FOLLOWED, word) {
        Some(expected) => expected,
        None if is_operator(word) => "two expressions",
        None => "another word",
    }
}

// Whether the word is followed by two expressions.
fn is_operator(word: &str) -> bool {
    for operator in OPERATORS.split(' ') {
        if operator == word {
            return true;
        }
    }
    false
}

// The keys that an object of the form has to have.
pub(crate) fn required_keys(form: Form) -> &'static str {
    match form {
        "bundle" => "version level limit schema policies request store",
        "policy" => "id effect",
        "request" => "principal action resource",
        "entity" => "uid",
        "step" => "bind value",
        _ => "",
    }
}

// The least object to which one member of the form may be added, as JSON.
pub(crate) fn least_object(form: Form) -> &'static str {
    match form {
        "bundle" => {
            r#"{"version": 1, "level": 0, "limit": 16, "schema": [], "policies": [], "store": [],
                "request": {"principal": "unknown", "action": "unknown", "resource": "unknown"}}"#
        }
        "policy" => r#"{"id": "x", "effect": "permit"}"#,
        "request" => r#"{"principal": "unknown", "action": "unknown", "resource": "unknown"}"#,
        "entity" => r#"{"uid": ["X", "x"]}"#,
        "step" => r#"{"bind": "x", "value": true}"#,
        _ => "{}",
    }
}

// Whether an item of a list that begins with this word is an expression.
pub(crate) fn is_expression_at(word: &str, i: usize) -> bool {
    match word {
        "uid" | "var" | "slot" | "unknown" | "record" => false,
        "get" | "has" | "like" | "is" => i == 1,
        "call" => i > 1,
        _ => i > 0,
    }
}
