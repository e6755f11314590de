//! Rows of entities and requests that conform to a schema, and of what is wrong with those that don't.

use crate::Made;
use crate::rows::hold;

const ENTITIES: &str = r#"# entities of a standard type
accept : done
check_entity {"uid":["User","a"],"attrs":{"boss":["uid","User","a"],"ok":true}} : done
check_entity {"uid":["User","a"],"attrs":{"boss":["uid","User","a"],"ok":true,"nick":"x"}} : done
check_entity {"uid":["User","a"],"attrs":{"boss":["uid","User","gone"],"ok":true}} : done
check_entity {"uid":["Doc","d"],"attrs":{"owner":["uid","User","b"]}} : done
check_entity {"uid":["Ghost","g"]} : refused 1
check_entity {"uid":["User","a"],"attrs":{"boss":["uid","User","a"]}} : refused 4
check_entity {"uid":["User","a"],"attrs":{"boss":["uid","User","a"],"ok":true,"age":1}} : refused 5
check_entity {"uid":["User","a"],"attrs":{"boss":["uid","User","a"],"ok":7}} : refused 6
check_entity {"uid":["User","a"],"attrs":{"boss":["uid","Doc","d"],"ok":true}} : refused 6
check_entity {"uid":["User","a"],"attrs":{"boss":["uid","User","a"],"ok":true,"nick":1}} : refused 6
check_entity {"uid":["User","a"],"attrs":{"boss":["uid","User","a"],"ok":true},"tags":{"t":1}} : refused 7
check_entity {"uid":["User","a"],"attrs":{"boss":["uid","User","a"],"ok":true},"ancestors":[["Doc","d"]]} : refused 8
check_entity {"uid":["User","a"],"attrs":{"boss":["uid","User","a"],"ok":true},"ancestors":[["User","b"]]} : refused 8
check_unknown Doc::d owner : refused 10
# declared actions stand as they are declared
accept : done
check_entity {"uid":["Action","view"]} : done
check_entity {"uid":["Action","edit"]} : refused 1
check_entity {"uid":["Action","view"],"ancestors":[["Action","edit"]]} : refused 8
check_entity {"uid":["Action","view"],"attrs":{"a":1}} : refused 5
check_entity {"uid":["Action","view"],"tags":{"t":1}} : refused 7
# members of an enumerated type
schema with_colors
accept : done
check_entity {"uid":["Color","red"]} : done
check_entity {"uid":["Color","blue"]} : refused 3
check_entity {"uid":["Color","red"],"attrs":{"a":1}} : refused 5
check_entity {"uid":["Color","red"],"tags":{"t":1}} : refused 7
check_entity {"uid":["Color","red"],"ancestors":[["User","a"]]} : refused 8
"#;

#[test]
fn an_entity_conforms_or_has_a_fault_of_this_number(rt: HostRuntime) -> Made<()> {
    hold(&rt, rt.alloc(), ENTITIES)
}

const REQUESTS: &str = r#"# requests
accept : done
check_request User::a Action::view Doc::d : done
check_request User::gone Action::view Doc::gone : done
check_request User::a Action::edit Doc::d : refused 1
check_request Doc::d Action::view Doc::d : refused 2
check_request User::a Action::view User::b : refused 2
check_request User::a Action::view Doc::d {"x":1} : refused 9
check_request ? Action::view Doc::d : refused 10
check_request ?User Action::view Doc::d : refused 10
check_request User::a ? Doc::d : refused 10
check_request User::a Action::view ? : refused 10
check_request User::a Action::view Doc::d "unknown" : refused 10
# a context with what is declared
schema number_in_context
accept : done
check_request User::a Action::go User::a {"r":["record",{"s":1}]} : done
check_request User::a Action::go User::a : refused 9
check_request User::a Action::go User::a {"r":["record",{"s":true}]} : refused 9
check_request User::a Action::go User::a {"r":["record",{"s":1}],"t":1} : refused 9
check_request User::a Action::go User::a {"r":["record",{"s":["unknown","u"]}]} : refused 10
"#;

#[test]
fn a_request_conforms_or_has_a_fault_of_this_number(rt: HostRuntime) -> Made<()> {
    hold(&rt, rt.alloc(), REQUESTS)
}
