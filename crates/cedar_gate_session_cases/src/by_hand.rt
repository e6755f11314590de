//! Rows of services that fetch their entities themselves, round by round: what is loaded, and the decision, as soon as there is one.

use crate::rows::hold;
use cedar_gate_cases::Made;

const LOADED: &str = r#"# the owner is loaded in a second round, and then there is a decision
level 2
policies boss
accept : done
by_hand : Doc::"d" User::"a" User::"b" Allow
# there is one after the first round
level 2
policies boss only_a
accept : done
by_hand : Doc::"d" User::"a" Allow
"#;

#[test]
fn a_service_loads_until_there_is_a_decision(rt: HostRuntime) -> Made<()> {
    hold(&rt, rt.alloc(), LOADED)
}
