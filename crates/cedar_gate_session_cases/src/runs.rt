//! Rows of runs: what they did, and the answer or why they stopped.

use crate::rows::hold;
use cedar_gate_cases::Made;

const ANSWERED: &str = r#"# a run loads round by round, asks for what is near alone, and answers
level 2
policies boss
accept : done
run : round Doc::"d" User::"a" round User::"b" answer Allow boss
asked : round Doc::"d" User::"a" round User::"b"
failures : 0
# a decision may be asked for between the rounds
level 2
policies boss
accept : done
run decide load decide load decide load decide : decided None round Doc::"d" User::"a" decided None round User::"b" decided Allow decided Allow answer Allow boss
asked : round Doc::"d" User::"a" round User::"b"
# at a higher level nothing more is asked for, since all that is near is loaded
level 3
policies boss
accept : done
run : round Doc::"d" User::"a" round User::"b" answer Allow boss
asked : round Doc::"d" User::"a" round User::"b"
# what is not near is not asked for, even if it does not conform
level 2
store with_a_stranger
policies boss
accept : done
run : round Doc::"d" User::"a" round User::"b" answer Allow boss
asked : round Doc::"d" User::"a" round User::"b"
# at level 0 nothing is asked for
permit overflow ["eq",["add",9223372036854775807,1],0]
accept : done
run : answer Deny error while evaluating policy `overflow`: integer overflow while attempting to add the values `x` and `y`
asked : nothing
# what is missing is an error of the policy that looks it up
level 2
store without_the_owner
policies boss
accept : done
run : round Doc::"d" User::"a" round User::"b" answer Deny error while evaluating policy `boss`: entity `User::"b"` does not exist
# a binding is noted, and what it brings near is loaded
level 2
policies boss
request ? Action::view Doc::d
accept : done
run load load decide principal=User::b decide : round Doc::"d" round User::"b" decided None bound principal decided Deny round User::"a" answer Deny
asked : round Doc::"d" round User::"b" round User::"a"
"#;

#[test]
fn a_run_asks_for_its_rounds_and_answers(rt: HostRuntime) -> Made<()> {
    hold(&rt, rt.alloc(), ANSWERED)
}

const STOPPED: &str = r#"# a host fails at its second fetch: its count of failures rises by one
level 2
policies boss
host fails 2
accept : done
run : round Doc::"d" User::"a" stopped 1 since the host failed
asked : round Doc::"d" User::"a"
failures : 1
# a host that fails at once
level 2
policies boss
host fails 1
accept : done
run decide : decided None stopped 1 since the host failed
asked : nothing
failures : 1
# a host leaves one out: nothing is done yet
level 2
policies boss
host answers User::a
accept : done
run : stopped 3 since what is supplied is refused, by refusal 2
asked : round Doc::"d" User::"a"
failures : 0
# it leaves one out in the second round
level 2
policies boss
host answers Doc::d User::a
accept : done
run : round Doc::"d" User::"a" stopped 3 since what is supplied is refused, by refusal 2
asked : round Doc::"d" User::"a" round User::"b"
# it answers twice to one
level 2
policies boss
host answers Doc::d User::a User::a
accept : done
run : stopped 3 since what is supplied is refused, by refusal 3
# it answers to one that is not wanted
level 2
policies boss
host answers Doc::d User::a User::z
accept : done
run : stopped 3 since what is supplied is refused, by refusal 1
# it answers with the entity of another
level 2
policies boss
host answers Doc::d User::a=User::b
accept : done
run : stopped 3 since what is supplied is refused, by refusal 4
# it answers with an entity that does not conform
level 2
store [{"uid":["User","a"],"attrs":{"boss":["uid","User","a"],"ok":7}},{"uid":["Doc","d"],"attrs":{"owner":["uid","User","b"]}}]
policies boss
accept : done
run : stopped 3 since what is supplied is refused, by refusal 4
# the session is not opened
request User::a Action::view Doc::d {"x":["unknown","User::\"a\""]}
policies only_a
accept : done
run decide : stopped 2 since no session is opened, by refusal 1
asked : nothing
# a binding is refused, after what was done by then
level 2
policies boss
request ?User Action::view Doc::d
accept : done
run load principal=Doc::d decide : round Doc::"d" stopped 4 since a binding is refused, by refusal 2
run principal=5 : stopped 4 since a binding is refused, by refusal 3
# no answer while something is unbound
policies nobody
request ? Action::view Doc::d
accept : done
run decide : decided Deny stopped 5 since no answer is given, by refusal 1
# no answer to a request that does not conform
policies nobody
request ? Action::view Doc::d
accept : done
run principal=Doc::d : bound principal stopped 5 since no answer is given, by refusal 3
"#;

#[test]
fn a_run_that_stops_tells_why_and_what_it_did(rt: HostRuntime) -> Made<()> {
    hold(&rt, rt.alloc(), STOPPED)
}

const HONEST: &str =
    r#"# an honest host fails in the second round: the run ends there, and each failure is counted
level 2
policies boss
host fails 2
accept : done
failures : 0
asked : nothing
run decide load decide : decided None round Doc::"d" User::"a" decided None stopped 1 since the host failed
failures : 1
asked : round Doc::"d" User::"a"
run : stopped 1 since the host failed
failures : 2
asked : round Doc::"d" User::"a"
# it fails in a round that isn't reached, and nothing is counted
level 2
policies boss
host fails 3
accept : done
run : round Doc::"d" User::"a" round User::"b" answer Allow boss
failures : 0
asked : round Doc::"d" User::"a" round User::"b"
"#;

#[test]
fn an_honest_host_that_fails_ends_the_run(rt: HostRuntime) -> Made<()> {
    hold(&rt, rt.alloc(), HONEST)
}
