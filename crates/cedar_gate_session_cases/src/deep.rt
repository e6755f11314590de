//! Rows of conditions as deep as the greatest limit allows, and one level deeper. A condition has three levels more than its body.

use crate::rows::hold;
use cedar_gate_cases::Made;

const AS_DEEP: &str = r#"# a condition of 511 levels is evaluated
limit 512
negated 506
accept : done
open : done
answer : Allow p
# so is one of 512
limit 512
negated 507
accept : done
open : done
answer : Deny
"#;

#[test]
fn what_is_as_deep_as_the_limit_is_evaluated(rt: HostRuntime) -> Made<()> {
    hold(&rt, rt.alloc(), AS_DEEP)
}

const DEEPER: &str = r#"# a condition of 513 levels is refused
limit 512
negated 508
accept : refused 7
"#;

#[test]
fn what_is_deeper_than_the_limit_is_refused(rt: HostRuntime) -> Made<()> {
    hold(&rt, rt.alloc(), DEEPER)
}
