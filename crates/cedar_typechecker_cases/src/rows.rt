//! The rows.

ghost use Rattle.cedar_schema_built.specs.Views.{schema_kept};
ghost use Rattle.cedar_typechecker_model.specs.Seen.{IsClosed};

use crate::built::built;
use crate::checked::checked;
use crate::typed::typed;
use cedar_expr_functions::Extensions;
use cedar_schema_builder::SchemaError;
use cedar_schema_built::ValidatorSchema;
use cedar_test_exprs::{made, parted, say};
use std::alloc::{AllocError, Global};

// Users may be in groups and have a boss, documents have an owner and a color, and one action of a group of actions applies to them.
const LINES: &str =
    "entity Group\nenum Color | red, green\nentity User | Group | boss: User, ok: Bool, nick?: String, home: {of: User, zip?: Long} | String\nentity Doc |  | owner: User, color: Color\naction read\naction view | Action read | User | Doc | {}\n";

// A row is a call, what it is asked of, ` : ` and what it says. `type` and `loose_type` tell the type of an expression in the strict and the
// permissive mode, and `env` those of the parts of the environment of users who view documents. A policy is its scope and, behind ` when `,
// its body; without a scope it is its body. `check` and `loose` are `typecheck_policy` in the two modes, and `envs` the checks in all
// environments; `types`, `actions`, `members` and `fits` are passes of the validator, `linked_types` and
// `linked_fits` those over a policy whose principal's slot is bound to the uid before it, and `level N` is `validate_policy_with_level`.
const ROWS: &str = r#"# literals, variables, slots and unknowns
type true : __cedar::internal::True
type false : __cedar::internal::False
type 1 : Long
type "x : String
type User::a : User
type Action::view : Action
type Ghost::g : none
type principal : User
type resource : Doc
type context : {}
type ?principal : __cedar::internal::AnyEntity
type $t : none
# facts reach the right side of a conjunction and the first branch of a choice, wherever their expressions stand
type principal .nick "x == : none
type principal has=nick principal .nick "x == && : Bool
type principal@1 has=nick principal@2 .nick "x == && : Bool
type principal has=nick principal .ok || principal .nick "x == && : none
type principal has=nick principal has=nick || principal .nick "x == && : Bool
type principal has=nick false || principal .nick "x == && : Bool
type principal has=nick principal .nick "x == true if : Bool
type principal has=nick true principal .nick "x == if : none
type principal .ok principal has=nick principal has=nick if principal .nick "x == && : Bool
type principal .ok principal has=nick principal .ok if principal .nick "x == && : none
type principal .ok principal .ok && : Bool
# what isn't reached isn't typed
type false Ghost::g principal == && : __cedar::internal::False
type true Ghost::g principal == && : none
type true Ghost::g principal == || : __cedar::internal::True
type false Ghost::g principal == || : none
type true 1 Ghost::g if : Long
type false Ghost::g 1 if : Long
type principal .ok 1 Ghost::g if : none
type principal .ok 1 true if : none
type 1 true && : none
type true 1 && : none
# operators
type true ! : __cedar::internal::False
type principal .ok ! : Bool
type 1 neg : Long
type true neg : none
type 1 2 < : Bool
type 1 2 + : Long
type 1 true + : none
type 1 2 % : Long
type 1 0 % : Long
type 1 true % : none
type 1 1 == : Bool
type 1 true == : none
loose_type 1 true == : Bool
type principal resource == : __cedar::internal::False
type User::a User::a == : __cedar::internal::True
type User::a User::b == : __cedar::internal::False
type "x like=a*b : Bool
type 1 like=a : none
type 1 2 set=2 1 contains : Bool
type 1 2 set=2 true contains : none
type 1 2 set=2 1 set=1 containsAll : Bool
type 1 set=1 isEmpty : Bool
# membership and tests of types
type principal User::a in : Bool
type principal Doc::a in : __cedar::internal::False
type resource principal in : __cedar::internal::False
type principal User::a User::b set=2 in : Bool
type principal 1 in : none
type action Action::view in : __cedar::internal::True
type action Action::view set=1 in : __cedar::internal::True
type action Action::view Action::edit set=2 in : none
type principal is=User : __cedar::internal::True
type principal is=Doc : __cedar::internal::False
type ?principal is=Doc : Bool
type 1 is=Doc : none
# attributes and tags
type principal .ok : Bool
type principal .none : none
type principal has=ok : Bool
type principal has=none : __cedar::internal::False
type resource has=ok : __cedar::internal::False
type context has=x : __cedar::internal::False
type 1 has=x : none
type 1 record=a has=a : __cedar::internal::True
type principal has=boss.nick principal .boss .nick "x == && : Bool
type principal has=boss.nick principal .nick "x == && : none
type principal has=boss.nick.x : none
type principal has=ok.nick : none
type principal has=none.nick : __cedar::internal::False
type principal "t hasTag : Bool
type resource "t hasTag : __cedar::internal::False
type principal 1 hasTag : none
type principal "t getTag : none
type principal "t hasTag principal "t getTag "x == && : Bool
type principal "t hasTag principal "u getTag "x == && : none
type principal "t hasTag principal "t hasTag || principal "t getTag "x == && : Bool
# sets, records and calls
type 1 2 set=2 : Set<Long>
type 1 true set=2 : none
type true false set=2 : Set<Bool>
type set=0 : none
loose_type set=0 : Set<__cedar::internal::Never>
type principal Ghost::g set=2 : none
type 1 true record=a,b : {"a": Long, "b": __cedar::internal::True}
type 1 true record=b,a .b : Long
type 1 Ghost::g record=a,b : none
type 1 call=f/1 : none
# a copy of the environment, with the principal's slot bound to a group: principal, action, resource, context, and that slot
env : User Action Doc {} Group
# a policy passes, or doesn't
check principal .ok : passes
check principal .nick "x == : 1 wrong
check principal has=nick principal .nick "x == && : passes
check principal has=nick principal .ok || principal .nick "x == && : 1 wrong
check principal has=nick false || principal .nick "x == && : passes
check principal has=nick principal .nick "x == true if : passes
check 1 : 1 wrong
check $t : 1 wrong
# one that is False everywhere is warned of
check false Phantom::g principal == && : passes impossible
check principal is=Doc : passes impossible
check principal is=User : passes
check principal == User::a, action == Action::view, resource == Doc::d when false : passes impossible
check principal == Doc::d when true : passes impossible
# the permissive mode takes more
check set=0 isEmpty : 1 wrong
loose set=0 isEmpty : passes
check 1 true == : 1 wrong
loose 1 true == : passes
# the checks in all environments, together and one by one
envs principal .ok : success
envs principal is=Doc : irrelevant
envs principal .nick "x == : unsafe nick
envs principal .none true == : unsafe none
envs principal "t getTag "x == : unsafe tag
envs resource "t getTag "x == : unsafe tag
envs 1 true + 3 == : unexpected
envs 1 true set=2 1 contains : incompatible
envs set=0 isEmpty : empty
envs 1 call=f/1 : unexpected
envs 1 : unexpected
envs principal Ghost::g == : unexpected
# with slots there are several
envs principal == ?principal when principal ?principal == : success
envs principal in ?principal when principal .ok : success success
envs resource in ?resource when principal .nick "x == : unsafe nick
# passes over the scope and the body, also where typing doesn't reach
types false Phantom::g principal == && : type Phantom
types principal is=Ghost Ghost::g principal == || : type Ghost type Ghost
types principal == Ghost::g, action in Action::read, resource is Robot when true : type Ghost type Robot
types principal .ok : nothing
actions false action Action::edit == && : action Action::"edit"
actions action == Action::edit when true : action Action::"edit"
actions action in Action::read when action Action::view == : nothing
members false Color::blue principal == && : member Color::"blue"
members resource .color Color::red == : nothing
# the scope fits a declared action with its types, or none
fits principal == User::a, action == Action::view, resource == Doc::d when true : nothing
fits principal in Group::g, action in Action::read when true : nothing
fits principal == Group::g when true : fits none, but with `in` in the principal
fits principal == Doc::d when true : fits none
fits action == Action::read when true : fits none
fits principal == ?principal, resource in ?resource when true : nothing
# of a linked policy what the slot is bound to counts
linked_types User::a | principal == ?principal when true : nothing
linked_types Ghost::g | principal == ?principal when true : type Ghost
linked_fits User::a | principal == ?principal when true : nothing
linked_fits Group::g | principal in ?principal when true : nothing
linked_fits Group::g | principal == ?principal when true : fits none, but with `in` in the principal
linked_fits Doc::d | principal == ?principal when true : fits none
# steps into the store, and the levels that they need
level 0 principal principal == : nothing
level 0 principal .ok : level 1
level 1 principal .ok : nothing
level 0 principal .boss .ok : level 2
level 1 principal .boss .ok : level 2
level 2 principal .boss .ok : nothing
level 1 resource .owner .boss principal == : level 2
level 0 principal has=nick : level 1
level 0 principal has=boss.boss.ok : level 3
level 2 principal has=boss.boss.ok : level 3
level 3 principal has=boss.boss.ok : nothing
level 0 principal "t hasTag : level 1
level 1 principal "t hasTag principal "t getTag "x == && : nothing
level 0 principal Group::g in : level 1
level 1 principal Group::g in : nothing
# literals and slots are no place to step from, whatever the level
level 1 User::a .ok : no level
level 0 User::a .ok : level 1 no level
level 1 principal == ?principal when ?principal principal .boss == : nothing
# records and choices as what is stepped from
level 0 principal record=foo .foo .ok : level 1
level 1 principal record=foo .foo .ok : nothing
level 0 principal record=foo .foo is=User : nothing
level 1 principal .home .of .ok : level 2
level 2 principal .home .of .ok : nothing
level 0 principal .ok principal .boss principal if .ok : level 2 level 1
level 1 principal .ok principal .boss principal if .ok : level 2
level 1 principal .ok principal principal .boss if .ok : level 2
level 2 principal .ok principal .boss principal if .ok : nothing
# what typing doesn't reach has no level, but a test that decides has
level 0 false principal .ok && : impossible
level 0 principal is=User true principal .ok if : nothing
level 0 true principal .ok || : nothing
# what the passes and typing report comes first
level 0 principal .nick "x == resource is=Ghost || : type Ghost unsafe nick
level 0 1 : unexpected
"#;

// By the schema that declares nothing, which has no environments: every policy passes, and is impossible.
const OF_NOTHING: &str = r#"check true : passes impossible
check principal .none : passes impossible
envs true : nothing
types principal is=User : type User
fits when true : fits none
"#;

// What a row says.
fn said(
    alloc: Global,
    schema: &ValidatorSchema,
    functions: &Extensions<'_>,
    verb: &str,
    rest: &str,
) -> Result<String, AllocError>
    requires { IsClosed (schema_kept schema.now) }
{
    let mut said = String::new(alloc);
    match verb {
        "type" | "loose_type" | "env" => typed(alloc, &mut said, schema, functions, (verb, rest))?,
        _ => checked(alloc, &mut said, schema, functions, (verb, rest))?,
    }
    if said.is_empty() {
        say(&mut said, "")?;
    }
    Ok(said)
}

// The first row that is wrong, with what is said in place of it.
fn first_wrong(
    alloc: Global,
    schema: &ValidatorSchema,
    functions: &Extensions<'_>,
    rows: &str,
) -> Result<String, AllocError>
    requires { IsClosed (schema_kept schema.now) }
{
    for row in rows.lines() {
        if let Some((verb, rest, wanted)) = parted(row) {
            let said = said(alloc, schema, functions, verb, rest)?;
            if said.as_str() != wanted {
                return format!(in alloc; "{row}: {said}");
            }
        }
    }
    Ok(String::new(alloc))
}

// The first row that is wrong by the schema of these lines.
fn wrong_of(alloc: Global, lines: &str, rows: &str) -> Result<String, SchemaError> {
    let functions = Extensions::none(alloc);
    let schema = built(alloc, lines, &functions)?;
    let wrong = first_wrong(alloc, &schema, &functions, rows);
    drop(schema);
    Ok(wrong?)
}

/// The first row on expressions and policies that says something else, with what it says; nothing where all hold. Fails when out of memory.
pub fn wrong_row(alloc: Global) -> Result<String, AllocError> {
    for (lines, rows) in [(LINES, ROWS), ("", OF_NOTHING)] {
        let wrong = made(wrong_of(alloc, lines, rows))?;
        if !wrong.is_empty() {
            return Ok(wrong);
        }
    }
    Ok(String::new(alloc))
}
