//! Rows of sessions of which parts of the request are unknown.

use crate::rows::hold;
use cedar_gate_cases::Made;

const OPENING: &str = r#"# an unknown of the context may not be named as an entity is written
policies only_a
request User::a Action::view Doc::d {"x":["unknown","User::\"a\""]}
accept : done
open : refused 1
# nor as a variable
policies only_a
request User::a Action::view Doc::d {"x":["unknown","principal"]}
accept : done
open : refused 2
# nor as the context
policies only_a
request User::a Action::view Doc::d {"x":["unknown","context"]}
accept : done
open : refused 2
# nor where it stands inside a set or a record
policies only_a
request User::a Action::view Doc::d {"x":["record",{"y":["set",["unknown","resource"]]}]}
accept : done
open : refused 2
# any other name is open
policies only_a
request User::a Action::view Doc::d {"x":["unknown","t"]}
accept : done
open : done
wanted : nothing
answer : refused 1
"#;

#[test]
fn a_session_is_opened_unless_a_name_means_something_else(rt: HostRuntime) -> Made<()> {
    hold(&rt, rt.alloc(), OPENING)
}

const BINDING: &str = r#"# a forbid that always holds decides, whoever asks
policies nobody
request ? Action::view Doc::d
accept : done
open : done
wanted : nothing
decision : Deny
answer : refused 1
# a principal that is bound late is loaded late
level 2
policies boss
request ? Action::view Doc::d
accept : done
open : done
wanted : Doc::"d"
supply Doc::d : done
wanted : User::"b"
supply User::b : done
wanted : nothing
decision : None
answer : refused 1
bind principal User::b : done
wanted : User::"a"
decision : Deny
answer : refused 2
supply User::a : done
wanted : nothing
answer : Deny
# a forbid is decided once its principal is bound and loaded
level 2
store where_a_is_not_ok
policies boss only_a not_ok
request ? Action::view Doc::d
accept : done
open : done
wanted : Doc::"d"
answer : refused 1
supply Doc::d : done
supply User::b : done
decision : None
bind principal User::b : done
wanted : User::"a"
answer : refused 2
decision : Deny
supply User::a : done
bounds : must not_ok may not_ok
answer : Deny not_ok
# the resource first, then the principal
level 2
policies boss
request ? Action::view ?
accept : done
open : done
wanted : nothing
bind resource Doc::d : done
wanted : Doc::"d"
supply Doc::d : done
wanted : User::"b"
supply User::b : done
wanted : nothing
bind principal User::a : done
wanted : User::"a"
supply User::a : done
wanted : nothing
answer : Allow boss
# the other order
level 2
policies boss
request ? Action::view ?
accept : done
open : done
bind principal User::a : done
wanted : User::"a"
supply User::a : done
wanted : nothing
bind resource Doc::d : done
wanted : Doc::"d"
supply Doc::d : done
wanted : User::"b"
supply User::b : done
wanted : nothing
answer : Allow boss
# a value has to fit the annotation, and a name is bound once
level 2
policies boss
request ?User Action::view Doc::d
accept : done
open : done
bind principal Doc::d : refused 2
wanted : Doc::"d"
bind principal 5 : refused 3
wanted : Doc::"d"
bind resource Doc::d : refused 1
bind other User::a : refused 1
wanted : Doc::"d"
decision : None
bind principal User::a : done
wanted : Doc::"d" User::"a"
bind principal User::a : refused 1
wanted : Doc::"d" User::"a"
# without an annotation any entity is taken, and the answer is refused where the request doesn't conform
policies only_a
request ? Action::view Doc::d
accept : done
open : done
bind principal 5 : refused 3
bind principal Doc::d : done
wanted : nothing
answer : refused 3
# an unknown context is bound to a record
policies only_a
request User::a Action::view Doc::d "unknown"
accept : done
open : done
wanted : nothing
bind context 5 : refused 3
bind context 1 record=x : done
answer : refused 3
# an unknown context is bound to the record that is declared
policies only_a
request User::a Action::view Doc::d "unknown"
accept : done
open : done
bind context record= : done
decision : Allow
answer : Allow only_a
"#;

#[test]
fn names_are_bound_in_any_order_and_once(rt: HostRuntime) -> Made<()> {
    hold(&rt, rt.alloc(), BINDING)
}

const NEARER: &str = r#"# a principal that was loaded as the owner leads one step further
level 2
store of_a_chain
policies boss
request ? Action::view Doc::d
accept : done
open : done
wanted : Doc::"d"
supply Doc::d : done
wanted : User::"b"
supply User::b : done
wanted : nothing
bind principal User::b : done
wanted : User::"a"
supply User::a : done
wanted : nothing
answer : Deny
# what was loaded before comes nearer, and what it mentions is wanted
level 3
store of_a_chain
policies boss
request ? Action::view Doc::d
accept : done
open : done
supply Doc::d : done
wanted : User::"b"
supply User::b : done
wanted : User::"a"
supply User::a : done
wanted : nothing
bind principal User::b : done
wanted : User::"z"
supply User::z : done
wanted : nothing
answer : Deny
# a refused call leaves what is wanted as it was
level 2
store of_a_chain
policies boss
request ?User Action::view Doc::d
accept : done
open : done
supply Doc::d User::b : refused 1
wanted : Doc::"d"
supply Doc::d : done
supply User::b : done
bind principal Doc::d : refused 2
bind principal 5 : refused 3
wanted : nothing
bind principal User::b : done
wanted : User::"a"
supply User::a User::z : refused 1
supply User::a=User::z : refused 4
wanted : User::"a"
bind principal User::z : refused 1
wanted : User::"a"
supply User::a : done
wanted : nothing
decision : Deny
answer : Deny
"#;

#[test]
fn a_late_binding_brings_what_was_loaded_nearer(rt: HostRuntime) -> Made<()> {
    hold(&rt, rt.alloc(), NEARER)
}

const DEPTH: &str =
    r#"# a field that is evaluated again counts one level more, so that nothing is decided while it is open
limit 6
schema number_in_context
store empty
permit q ["eq",["get",["var","context"],"r"],["get",["var","context"],"r"]]
request User::a Action::go User::a {"r":["record",{"s":["unknown","u"]}]}
accept : done
open : done
wanted : nothing
decision : None
bounds : None
answer : refused 1
bind u 1 : done
decision : Allow
bounds : must q may q
answer : Allow q
# the same at a limit that is enough
limit 7
schema number_in_context
store empty
permit q ["eq",["get",["var","context"],"r"],["get",["var","context"],"r"]]
request User::a Action::go User::a {"r":["record",{"s":["unknown","u"]}]}
accept : done
open : done
decision : None
bounds : must may q
bind u 1 : done
answer : Allow q
# at a lower limit the gate refuses it
limit 5
schema number_in_context
store empty
permit q ["eq",["get",["var","context"],"r"],["get",["var","context"],"r"]]
accept : refused 7
"#;

#[test]
fn a_policy_that_meets_the_limit_decides_nothing(rt: HostRuntime) -> Made<()> {
    hold(&rt, rt.alloc(), DEPTH)
}
