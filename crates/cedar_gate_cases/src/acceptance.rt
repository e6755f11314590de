//! Rows of what the gate accepts and refuses, of its warnings, and of which policies may decide.

use crate::Made;
use crate::rows::hold;
use cedar_gate::NestLimit;

const REACH: &str = r#"# the boss of the owner lies two steps away
level 1
policies boss
accept : refused 12
violation : boss requires 2 at resource .owner .boss
# from level 2 on it is admitted
level 2
policies boss
accept : done
# of a choice the longer branch counts, and the whole access is named
level 2
permit q ["get",["if",["get",["var","principal"],"ok"],["get",["var","principal"],"boss"],["get",["get",["var","resource"],"owner"],"boss"]],"ok"]
accept : refused 12
violation : q requires 3 at principal .ok principal .boss resource .owner .boss if .ok
# from level 3 on that is admitted
level 3
permit q ["get",["if",["get",["var","principal"],"ok"],["get",["var","principal"],"boss"],["get",["get",["var","resource"],"owner"],"boss"]],"ok"]
accept : done
# of a record the field that is asked for counts: a literal there is never admitted
level 1
permit q ["get",["get",["record",{"foo":["uid","User","alice"],"bar":["uid","User","bob"]}],"foo"],"ok"]
accept : refused 12
violation : q is never admitted at User::alice
# a field that is the principal lies no step away
permit q ["get",["get",["record",{"foo":["var","principal"]}],"foo"],"ok"]
accept : refused 12
violation : q requires 1 at principal record=foo .foo .ok
# from level 1 on that field is admitted
level 1
permit q ["get",["get",["record",{"foo":["var","principal"]}],"foo"],"ok"]
accept : done
# the type of an entity is known without a look
permit q ["is",["get",["record",{"foo":["var","principal"]}],"foo"],"User"]
accept : done
# whether the action is in a group is looked up
policies in_view
accept : refused 12
violation : in_view requires 1 at action Action::view set=1 in
# from level 1 on it is admitted
level 1
policies in_view
accept : done
# so is whether the principal is in another
permit q ["in",["var","principal"],["uid","User","a"]]
accept : refused 12
violation : q requires 1 at principal User::a in
# violations of several policies stand in policy order, each with the id of its policy
level 1
policies boss only_a
permit q ["and",["get",["var","principal"],"ok"],["get",["get",["var","principal"],"boss"],"ok"]]
policies nobody
accept : refused 12
violation : boss requires 2 at resource .owner .boss
violation : q requires 2 at principal .boss .ok
# a policy may reach too far at several places
permit q ["and",["get",["var","principal"],"ok"],["get",["get",["var","principal"],"boss"],"ok"]]
accept : refused 12
violation : q requires 1 at principal .ok
violation : q requires 2 at principal .boss .ok
"#;

#[test]
fn each_policy_that_reaches_too_far_is_told(rt: HostRuntime) -> Made<()> {
    hold(&rt, rt.alloc(), REACH)
}

const REFUSED: &str = r#"# two fragments declare a type
schema with_users_twice
policies nobody
accept : refused 1 by 1
# a type is declared elsewhere
schema with_an_external_type
policies nobody
accept : refused 2
# two policies have one id
policies nobody nobody
accept : refused 3
# a slot is not bound
level 1
policies unlinked
accept : refused 4
# a slot stands in the body
level 1
policies slot_in_body
accept : refused 5
# an unknown stands in a condition, even where it is never reached
permit q ["and",false,["unknown","u"]]
accept : refused 6
# a condition nests deeper than the limit
level 1
limit 4
policies not_ok
accept : refused 7
# one level more is enough
level 1
limit 5
policies not_ok
accept : done
# an entity type is not declared, even where it is never reached
permit q ["and",false,["eq",["uid","Phantom","g"],["var","principal"]]]
accept : refused 8
# an action is not declared
permit q ["and",false,["eq",["uid","Action","edit"],["var","action"]]]
accept : refused 9
# an entity is no member of its enumerated type
schema with_colors
permit q ["and",false,["eq",["uid","Color","blue"],["var","principal"]]]
accept : refused 10
# a member may be named
schema with_colors
permit q ["and",false,["eq",["uid","Color","red"],["var","principal"]]]
accept : done
# an optional attribute is asked for, and it is not known that it is there
level 1
permit q ["eq",["get",["var","principal"],"nick"],"x"]
accept : refused 11
# where it is known that it is there it may be asked for
level 1
permit q ["and",["has",["var","principal"],"nick"],["eq",["get",["var","principal"],"nick"],"x"]]
accept : done
"#;

#[test]
fn a_refusal_has_the_number_of_its_fault(rt: HostRuntime) -> Made<()> {
    hold(&rt, rt.alloc(), REFUSED)
}

const RELEVANT: &str = r#"# what asks whether a user is a document is impossible
permit q ["is",["var","principal"],"Doc"]
accept : done
warnings : q
policies_for User Action::view Doc : none
run : answer Deny
# without it the answer is the same
accept : done
warnings : none
run : answer Deny
# warnings stand in policy order
permit q ["is",["var","principal"],"Doc"]
policies only_a
forbid r false
accept : done
warnings : q r
policies_for User Action::view Doc : only_a
run : answer Allow only_a
# each policy is relevant for one type of principal, so that there is no warning
schema with_robots
permit of_users ["is",["var","principal"],"User"]
permit of_robots ["is",["var","principal"],"Robot"]
accept : done
warnings : none
policies_for User Action::view Doc : of_users
policies_for Robot Action::view Doc : of_robots
policies_for Doc Action::view User : none
policies_for User Action::edit Doc : none
run : answer Allow of_users
# the relevant ones alone give the same answer
schema with_robots
permit of_users ["is",["var","principal"],"User"]
accept : done
run : answer Allow of_users
# a bound slot decides for which types a policy is relevant
level 1
schema with_robots
policies linked
accept : done
policies_for User Action::view Doc : linked
policies_for Robot Action::view Doc : none
"#;

#[test]
fn impossible_policies_are_warned_of_and_irrelevant_ones_left_out(rt: HostRuntime) -> Made<()> {
    hold(&rt, rt.alloc(), RELEVANT)
}

const SPLIT: &str = r#"# declarations in one fragment
level 2
policies boss not_ok
accept : done
warnings : none
run : round Doc::"d" User::"a" round User::"b" answer Deny not_ok
# the same in two
level 2
schema in_two_fragments
policies boss not_ok
accept : done
warnings : none
run : round Doc::"d" User::"a" round User::"b" answer Deny not_ok
"#;

#[test]
fn it_does_not_matter_how_declarations_are_split(rt: HostRuntime) -> Made<()> {
    hold(&rt, rt.alloc(), SPLIT)
}

#[test]
fn a_limit_on_nesting_is_one_to_512(rt: HostRuntime) {
    for (levels, is_one) in [(0, false), (1, true), (512, true), (513, false)] {
        let limit = NestLimit::new(levels);
        assert_eq!(rt; limit.is_some(), is_one, "{levels}");
        assert!(rt; limit.is_none_or(|it| it.levels() == levels));
    }
}
