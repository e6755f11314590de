//! Rows of sessions whose request is known: rounds, early decisions, bounds and answers.

use crate::rows::hold;
use cedar_gate_cases::Made;

const ROUNDS: &str = r#"# the owner comes in the second round, and a stranger never
level 2
policies boss
accept : done
open : done
wanted : Doc::"d" User::"a"
decision : None
answer : refused 2
wanted : Doc::"d" User::"a"
supply Doc::d User::a : done
wanted : User::"b"
decision : None
answer : refused 2
supply User::b : done
wanted : nothing
decision : Allow
bounds : must boss may boss
answer : Allow boss
# the order of what is supplied doesn't matter
level 2
policies boss
accept : done
open : done
supply User::a Doc::d : done
wanted : User::"b"
supply User::b : done
answer : Allow boss
# at a higher level there is no third round, since b and d lead to a alone
level 3
policies boss
accept : done
open : done
supply Doc::d User::a : done
supply User::b : done
wanted : nothing
answer : Allow boss
# the owner is absent: what looks it up errs
level 2
store without_the_owner
policies boss
accept : done
open : done
supply Doc::d User::a : done
wanted : User::"b"
decision : None
supply User::b=absent : done
wanted : nothing
decision : Deny
bounds : must may
answer : Deny error while evaluating policy `boss`: entity `User::"b"` does not exist
# a boss is absent where a forbid looks it up, and it is known that it doesn't hold
level 2
store where_the_boss_is_missing
policies only_a
forbid by_boss ["get",["get",["var","principal"],"boss"],"ok"]
accept : done
open : done
wanted : Doc::"d" User::"a"
supply Doc::d User::a : done
decision : None
supply User::b=absent : done
decision : Allow
answer : Allow only_a error while evaluating policy `by_boss`: entity `User::"b"` does not exist
# a permit that holds stays, whatever else errs
level 2
store without_the_owner
policies boss only_a
accept : done
open : done
supply Doc::d User::a : done
supply User::b=absent : done
wanted : nothing
decision : Allow
bounds : must only_a may only_a
answer : Allow only_a error while evaluating policy `boss`: entity `User::"b"` does not exist
# nothing is wanted at level 0
policies only_a
accept : done
open : done
wanted : nothing
decision : Allow
answer : Allow only_a
# an overflow is an error, and no one is permitted
permit overflow ["eq",["add",9223372036854775807,1],0]
accept : done
open : done
wanted : nothing
decision : Deny
answer : Deny error while evaluating policy `overflow`: integer overflow while attempting to add the values `x` and `y`
"#;

#[test]
fn entities_are_wanted_round_by_round(rt: HostRuntime) -> Made<()> {
    hold(&rt, rt.alloc(), ROUNDS)
}

const EARLY: &str = r#"# a permit that holds decides, whatever the others come to
level 2
policies boss only_a
accept : done
open : done
wanted : Doc::"d" User::"a"
decision : Allow
# a forbid that may hold keeps the decision open
level 2
store where_a_is_not_ok
policies boss only_a not_ok
accept : done
open : done
decision : None
bounds : must may boss only_a not_ok
supply Doc::d User::a : done
wanted : User::"b"
decision : Allow
bounds : must only_a may boss only_a
answer : refused 2
supply User::b : done
decision : Allow
bounds : must boss only_a may boss only_a
answer : Allow boss only_a
# a single look decides
level 1
permit q ["get",["var","principal"],"ok"]
accept : done
open : done
decision : None
bounds : must may q
supply Doc::d User::a : done
wanted : nothing
decision : Allow
answer : Allow q
# a linked policy: its principal is looked up, though it is the one that is asked for
level 1
policies linked
accept : done
open : done
wanted : Doc::"d" User::"a"
decision : None
supply Doc::d User::a : done
wanted : nothing
decision : Allow
answer : Allow linked
# a forbid that holds decides
level 2
policies boss nobody
accept : done
open : done
decision : Deny
supply Doc::d User::a : done
supply User::b : done
bounds : must nobody may nobody
answer : Deny nobody
"#;

#[test]
fn a_decision_comes_as_soon_as_what_is_known_forces_it(rt: HostRuntime) -> Made<()> {
    hold(&rt, rt.alloc(), EARLY)
}

const HOSTILE: &str = r#"# each wrong answer is refused, and the same is wanted as before
level 2
policies boss
accept : done
open : done
supply Doc::d User::a User::z : refused 1
wanted : Doc::"d" User::"a"
supply Doc::d : refused 2
wanted : Doc::"d" User::"a"
supply Doc::d User::a Doc::d : refused 3
wanted : Doc::"d" User::"a"
supply Doc::d User::a=User::b : refused 4
wanted : Doc::"d" User::"a"
supply Doc::d User::a={"uid":["User","a"],"attrs":{"boss":["uid","User","a"]}} : refused 4
wanted : Doc::"d" User::"a"
supply Doc::d User::a={"uid":["User","a"],"attrs":{"boss":["uid","User","a"],"ok":7}} : refused 4
wanted : Doc::"d" User::"a"
decision : None
answer : refused 2
supply Doc::d User::a : done
wanted : User::"b"
supply User::b User::a : refused 1
wanted : User::"b"
supply User::b={"uid":["User","b"],"attrs":{"ok":true}} : refused 4
wanted : User::"b"
supply User::b : done
wanted : nothing
answer : Allow boss
# where nothing is wanted anything is too much, and what is known isn't bound
policies only_a
accept : done
open : done
bind principal User::a : refused 1
supply User::a : refused 1
wanted : nothing
answer : Allow only_a
"#;

#[test]
fn a_wrong_answer_is_refused_and_nothing_changes(rt: HostRuntime) -> Made<()> {
    hold(&rt, rt.alloc(), HOSTILE)
}
