//! The rows. Expressions are written with their operands before their operator, as `cedar_test_exprs` reads them.

use crate::desk::{Desk, Made};
use crate::policies;
use cedar_expr_functions::Extensions;
use std::alloc::Global;

const ROWS: &str =
    r##"# a permit of the principal, a forbid that is false, and a permit that isn't known
permit 1 principal test_entity_type::p ==
forbid 2 principal test_entity_type::p == false &&
permit 3 principal test_entity_type::p == $test &&
request test_entity_type::p Action::a test_entity_type::r ; core : done
decision : Allow
satisfied : permit 1
left : permit 3
left_ids : 3
left_forbids : nothing
erred : nothing
must : permit 1
may : permit 1 permit 3
all : permit 1 permit 3 forbid 2
get 2 : forbid 2
get 4 : nothing
body 1 : true
body 2 : false
body 3 : true true true true $test && && && &&
concrete : Allow 1, while evaluating policy `3`: the expression contains unknown(s)
answer : Allow 1, while evaluating policy `3`: the expression contains unknown(s)
# a forbid that isn't known
permit 1 false
forbid 2 $a
core : done
decision : Deny
must : nothing
may : forbid 2
concrete : Deny, while evaluating policy `2`: the expression contains unknown(s)
# what is unknown decides, one way and the other
permit 1 false
permit 2 $a
core : done
decision : None
let a false ; again : done
decision : Deny
left : nothing
concrete : Deny
let a true ; again : done
decision : Allow
concrete : Allow 2
concrete : Deny, while evaluating policy `2`: the expression contains unknown(s)
forbid 3 true
core : done
decision : Deny
satisfied : forbid 3
left : permit 2
erred : nothing
# a forbid that isn't known decides
permit 1 true
forbid 2 $test
core : done
decision : None
satisfied : permit 1
left : forbid 2
let test false ; again : done
concrete : Allow 1
let test true ; again : done
concrete : Deny 2
# no permit is satisfied, and then a forbid is
core : done
decision : Deny
permit 1 false
core : done
decision : Deny
forbid 2 $a
core : done
decision : Deny
forbid 3 true
permit 4 true
core : done
decision : Deny
satisfied : permit 4 forbid 3
left : forbid 2
erred : nothing
# a context with an unknown in it
permit 0 true
residual $name record=test ; request User::p Action::a User::r ; answer : Allow 0
forbid 1 context .test
answer : Allow, while evaluating policy `1`: the expression contains unknown(s)
# a forbid alone that isn't known
forbid 1 context .test
residual $name record=test ; request User::p Action::a User::r ; answer : Deny, while evaluating policy `1`: the expression contains unknown(s)
# a permit alone that isn't known
permit 1 context .test
residual $name record=test ; request User::p Action::a User::r ; answer : Deny, while evaluating policy `1`: the expression contains unknown(s)
# values come in two steps
permit 1 principal NS::a == resource NS::b == &&
forbid 2 context .c context .d 10 == &&
residual $c $d record=c,d ; request NS::a ? ? ; core : done
asked : NS::"a" ? ?
decision : None
let resource NS::b ; again : done
asked : NS::"a" ? NS::"b"
decision : None
satisfied : permit 1
left : forbid 2
let c true ; let d 10 ; again : done
decision : Deny
satisfied : permit 1 forbid 2
concrete : Deny 2
- from the second response again, with another value
let c true ; let d 11 ; again : done
decision : Allow
# refusals: a known entry, a value that is no entity, a known context
permit 1 principal NS::a == resource NS::b == &&
residual $c record=c ; request NS::a ? ?NS ; core : done
let principal NS::a ; again : concretizing existing value of principal
let principal 5 ; again : invalid value of principal: expected type entity
let action 1 set=1 ; again : invalid value of action: expected type entity
let resource 5 ; again : invalid value of resource: expected type entity
let resource Other::b ; again : concretizing existing but unknown entity value of type NS of resource
let context 1 record=n ; again : concretizing existing value of context
let context 1 ; again : invalid value of context: expected type record
- the first of several is told
let action 5 ; let resource 5 ; let context 1 ; again : invalid value of action: expected type entity
let resource 5 ; let context 1 ; again : invalid value of resource: expected type entity
- a refused response is as it was
let resource NS::b ; again : done
decision : Allow
let action Action::a ; let c 1 ; again : done
asked : NS::"a" Action::"a" NS::"b"
# refusals of each variable: a known one, one of another type
request NS::a Action::v NS::r ; core : done
let principal NS::a ; again : concretizing existing value of principal
let action Action::v ; again : concretizing existing value of action
let resource NS::r ; again : concretizing existing value of resource
request ?User ?Action ?Doc ; core : done
let principal Doc::d ; again : concretizing existing but unknown entity value of type User of principal
let action User::a ; again : concretizing existing but unknown entity value of type Action of action
let resource User::a ; again : concretizing existing but unknown entity value of type Doc of resource
# an entity of the type that is known, and none of it
permit 1 principal User::a ==
request ?User ? ? ; core : done
decision : None
asked : User ? ?
let principal User::a ; again : done
decision : Allow
asked : User::"a" ? ?
# an unknown context
permit 1 context .n 1 ==
core : done
decision : None
let context 1 ; again : invalid value of context: expected type record
let context User::a ; again : invalid value of context: expected type record
let context 1 record=n ; again : done
decision : Allow
let context 2 record=n ; again : concretizing existing value of context
# a known context has no unknowns
permit 1 context .n $t ==
context 1 record=n ; request User::a Action::v User::b ; core : done
let n 5 ; let t 1 ; again : done
decision : Allow
# a context that doesn't evaluate with the values
permit 1 context .r 1 ==
residual $t call=f/1 record=r ; request ? ? ? ; core : done
decision : None
let t 7 ; again : extension function `f` does not exist
again : done
decision : None
# a context that stays open
permit 1 context .a 1 ==
permit 2 context .b 2 ==
residual $x $y record=a,b ; request ? ? ? ; core : done
let x 1 ; again : done
decision : Allow
left : permit 2
let y 2 ; again : done
satisfied : permit 1 permit 2
# a value against an annotation is taken in a context; in what is left of a policy it is an error
permit 1 context .t
permit 3 true
permit 2 $u:Long 5 <
residual $t:Long record=t ; request ? ? ? ; core : done
let t true ; let u true ; again : done
satisfied : permit 3
erred : 1 2
concrete : Allow 3, while evaluating policy `1`: type error: expected long, got bool, while evaluating policy `2`: type error: expected long, got bool
# a value for an entity that isn't loaded
permit 1 User::a .ok
partial ; core : done
decision : None
attr ok true ; entity User::a ; store ; let User::"a" User::a ; again : done
decision : Allow
# an id stands twice
true_permit a ; false_forbid a ; left_permit b $t ; groups : done
again : duplicate template or policy id `a`
get a : permit a
# of two variables and a repeated id the id is told
true_permit a ; true_forbid a ; groups : done
let principal 5 ; again : duplicate template or policy id `a`
# earlier errors become false
permit 1 9223372036854775807 1 + 0 ==
permit 2 $t
core : done
erred : 1
copy : done
concrete : Deny, while evaluating policy `2`: the expression contains unknown(s), while evaluating policy `1`: integer overflow while attempting to add the values `x` and `y`
decision : None
let t true ; again : done
erred : nothing
all : permit 2 permit 1
body 1 : false
concrete : Allow 2
# policies in each group
true_permit a ; erred_permit b ; false_permit c ; left_permit d 1 2 + ; true_forbid e ; erred_forbid f ; false_forbid g ; left_forbid h 3 4 + ; groups : done
satisfied : permit a forbid e
erred : b f
may : forbid e forbid h
must : forbid e
left : permit d forbid h
left_ids : d h
all : permit a permit b permit c permit d forbid e forbid f forbid g forbid h
get b : permit b
get c : permit c
get e : forbid e
get f : forbid f
get g : forbid g
get h : forbid h
get i : nothing
body a : true
body d : 1 2 +
body e : true
body f : false
body h : 3 4 +
# policies in groups
true_permit a@x ; erred_permit b ; false_permit c ; left_permit d $t ; true_forbid e ; left_forbid h $u ; groups : done
must : forbid e
may : forbid e forbid h
erred : b
decision : Deny
satisfied : permit a id x forbid e
left : permit d forbid h
left_ids : d h
left_forbids : forbid h
all : permit a id x permit b permit c permit d forbid e forbid h
get a : permit a id x
get d : permit d
scope a : any any any
scope c : any any any
scope h : any any any
body b : false
body h : $u
copy : done
all : permit a id x permit b permit c permit d forbid e forbid h
concrete : Deny e, while evaluating policy `h`: the expression contains unknown(s), while evaluating policy `d`: the expression contains unknown(s)
# an id that is repeated in a group keeps its place and the last value
true_permit a@1 ; true_permit b@2 ; true_permit a@3 ; groups : done
satisfied : permit a id 3 permit b id 2
# an id in two groups is looked up in the residual ones first, permits first
left_permit a@l $t ; true_permit a@t ; true_forbid a@f ; false_forbid b@f ; true_forbid b@t ; groups : done
get a : permit a id l
get b : forbid b id t
# decisions of groups
true_permit a ; left_forbid b $t ; groups : done
decision : None
must : nothing
may : permit a forbid b
concrete : Allow, while evaluating policy `b`: the expression contains unknown(s)
left_permit a $t ; groups : done
decision : None
concrete : Deny, while evaluating policy `a`: the expression contains unknown(s)
left_permit a $t ; true_forbid b ; groups : done
decision : Deny
erred_permit a ; left_forbid b $t ; groups : done
decision : Deny
groups : done
decision : Deny
concrete : Deny
# answers
permit 1 true
permit 2 context .bad 2 ==
forbid 3 context .bad 2 ==
context record= ; request User::a Action::v User::b ; answer : Allow 1, while evaluating policy `2`: record does not have the attribute `bad`, while evaluating policy `3`: record does not have the attribute `bad`
forbid 4 true
answer : Deny 4, while evaluating policy `2`: record does not have the attribute `bad`, while evaluating policy `3`: record does not have the attribute `bad`
# no policies, a permit, and a forbid
answer : Deny
permit 0 true
answer : Allow 0
forbid 1 true
answer : Deny 1
# a condition that is no truth value
permit 1 7
answer : Deny, while evaluating policy `1`: type error: expected bool, got long
# the limit
permit 1 true ! !
limit 6 ; core : done
decision : Allow
limit 5 ; core : done
decision : Deny at the limit
erred : 1
concrete : Deny, while evaluating policy `1`: recursion limit reached
# a policy by itself
permit 1 1 1 ==
permit 2 1 2 ==
permit 3 $u
permit 4 7
permit 5 1 true +
truth 1 : true
truth 2 : false
truth 3 : the expression contains unknown(s)
truth 4 : type error: expected bool, got long
truth 5 : type error: expected long, got bool
verdict 1 : true
verdict 2 : false
verdict 3 : true true true $u && && &&
verdict 4 : type error: expected bool, got long
verdict 5 : type error: expected long, got bool
limit 5 ; truth 1 : true
limit 4 ; truth 1 : recursion limit reached
limit 4 ; verdict 1 : recursion limit reached
# out of memory
lacking : out of memory out of memory
# an authorizer is shown by its extensions
shown : <Authorizer with no extensions>
shown a b : <Authorizer with the following extensions: [a, b]>
"##;

// Whether the row says what stands in it. Fails where a command isn't known or lacks what it needs.
fn holds(desk: &mut Desk, table: &Extensions<'_>, row: &str, said: &mut String) -> Made<bool> {
    if row.starts_with('#') {
        desk.clear();
    }
    if row.starts_with('#') || row.starts_with('-') {
        return Ok(true);
    }
    let (commands, wanted) = row.split_once(" : ").unwrap_or((row, ""));
    for command in commands.split(" ; ") {
        let (verb, rest) = command.split_once(' ').unwrap_or((command, ""));
        policies::done(desk, table, verb, rest, wanted, said)?;
    }
    Ok(said.trim_start() == wanted)
}

/// The first row that says something else, with what it says; nothing where all hold. No function is known. Fails when out of memory.
pub fn wrong_row(alloc: Global) -> Made<String> {
    let table = Extensions::none(alloc);
    let mut desk = Desk::new(alloc);
    for row in ROWS.lines() {
        let mut said = String::new(alloc);
        if !holds(&mut desk, &table, row, &mut said).unwrap_or(false) {
            return format!(in alloc; "{row}: {said}");
        }
    }
    Ok(String::new(alloc))
}
