//! What policies are, and what sets take and refuse. Conditions are written with their operands before their operator, as
//! `cedar_test_exprs` reads them.

use crate::desk::Made;
use crate::rows::wrong_row;
use std::alloc::Global;

const ROWS: &str = r##"# a link is added at the end
scope principal in ?principal ; template t ; add_template : done
forbid ; static z ; add_static : done
bind principal User::a ; link t l : done
set : t permit ?principal; z of z forbid; l of t permit ?principal a;
get l ; condition : principal ?principal in true &&
# links are refused, and the set stays as it was
scope principal in ?principal ; template t ; add_template : done
scope principal in ?principal, resource in ?resource ; template b ; add_template : done
forbid ; static z ; add_static : done
bind principal User::a ; link t l : done
bind principal User::a ; bind resource Doc::d ; link b m : done
set : t permit ?principal; b permit ?principal ?resource; z of z forbid; l of t permit ?principal a; m of b permit ?principal a ?resource d;
bind principal User::a ; link t l : 1 template-linked policy id `l` conflicts with an existing policy id
bind principal User::a ; link t t : 1 template-linked policy id `t` conflicts with an existing policy id
bind principal User::a ; link t z : 1 template-linked policy id `z` conflicts with an existing policy id
link t k : 2 the slot `?principal` was not provided as an argument
bind principal User::a ; bind resource Doc::d
link t k : 3 the slot `?resource` was provided as an argument, but did not exist in the template
bind principal User::c ; bind resource Doc::e ; link b m : 1 template-linked policy id `m` conflicts with an existing policy id
bind principal User::a ; link b k : 2 the slot `?resource` was not provided as an argument
bind resource Doc::d ; link b k : 2 the slot `?principal` was not provided as an argument
bind principal User::a ; link x k : 4 failed to find a template with id `x`
bind principal User::a ; link l k : 4 failed to find a template with id `l`
set : t permit ?principal; b permit ?principal ?resource; z of z forbid; l of t permit ?principal a; m of b permit ?principal a ?resource d;
# templates and policies share their ids
scope principal in ?principal ; template t ; add_template : done
forbid ; static z ; add_static : done
bind principal User::a ; link t l : done
template t ; add_template : duplicate template or policy id `t`
static t ; add_static : duplicate template or policy id `t`
static t ; whole ; add : duplicate template or policy id `t`
template z ; add_template : duplicate template or policy id `z`
static z ; add_static : duplicate template or policy id `z`
static z ; whole ; add : duplicate template or policy id `z`
template l ; add_template : duplicate template or policy id `l`
static l ; add_static : duplicate template or policy id `l`
static l ; whole ; add : duplicate template or policy id `l`
set : t permit ?principal; z of z forbid; l of t permit ?principal a;
# what is added stands last
set ; static z ; add_static : done
static a ; add_static : done
static m ; whole ; add : done
scope principal in ?principal ; template y ; add_template : done
scope resource == ?resource ; template b ; add_template : done
set : y permit ?principal; b permit ?resource; z of z permit; a of a permit; m of m permit;
# lists of policies make sets
static b ; whole ; static a ; whole ; scope principal in ?principal ; template t ; bind principal User::a ; linked l ; static c
whole ; listed : done
set : b of b permit; a of a permit; l of t permit ?principal a; c of c permit;
# lists in which an id stands twice don't: the first that is met again is told
static b ; whole ; static a ; whole ; static c ; whole ; static a ; whole ; static b ; whole
listed : duplicate template or policy id `a`
# what refusals say where memory is wanting
texts : out of memory out of memory out of memory out of memory
# a linked policy asks its slot, and names what that is bound to
scope principal in ?principal ; template t ; bind principal User::a ; linked l ; policy : l of t permit ?principal a;
condition : principal ?principal in true &&
asked principal : principal User::a in
asked action : true
asked resource : true
- a policy that isn't linked has its template's id, and a slot that isn't bound stays
scope principal in ?principal ; template t ; linked ; policy : t of t permit;
asked principal : principal ?principal in
# a policy keeps its annotations, of a name the last, and its bindings; so does a copy of it
forbid ; note b 1 ; note a 2 ; note b 3 ; body ?resource ; template t ; bind resource Doc::d ; linked l
policy : l of t forbid ?resource d a 2 b 3;
condition : true true true ?resource && && &&
add : done
get l ; policy : l of t forbid ?resource d a 2 b 3;
condition : true true true ?resource && && &&
# static policies have no slots
scope principal in ?principal ; static p : found slot `?principal` where slots are not allowed
body ?resource ; static p : found slot `?resource` where slots are not allowed
scope principal == ?principal ; body ?resource ; static p : found slot `?principal` where slots are not allowed
note a x ; body 1 2 == ; static q ; whole ; policy : q of q permit a x;
condition : true true true 1 2 == && && &&
# a policy without a body asks nothing
forbid ; static p ; whole ; policy : p of p forbid;
condition : true
asked principal : true
asked action : true
asked resource : true
# a policy of a body alone asks the body
body 1 2 + ; when foo ; policy : foo of foo permit;
condition : true true true 1 2 + && && &&
asked principal : true
asked action : true
asked resource : true
forbid ; body 1 2 == ; when bar ; policy : bar of bar forbid;
condition : true true true 1 2 == && && &&
# a condition joins the parts from the right
scope principal in ?principal, action in Action::view, resource is User ; body principal ; template m ; linked
condition : principal ?principal in action Action::view set=1 in resource is=User principal && && &&
asked principal : principal ?principal in
asked action : action Action::view set=1 in
asked resource : resource is=User
# each form of a scope
scope principal == User::a, action == Action::view, resource is Doc in ?resource ; template p ; linked
asked principal : principal User::a ==
asked action : action Action::view ==
asked resource : resource is=Doc resource ?resource in &&
scope principal == ?principal, action in Action::edit Action::view, resource is Doc in ?resource ; template p
bind principal User::a ; bind resource Folder::f ; linked ; asked principal : principal User::a ==
asked action : action Action::edit Action::view set=2 in
asked resource : resource is=Doc resource Folder::f in &&
scope principal is User in Team::t, resource in Folder::f ; template p ; linked
asked principal : principal is=User principal Team::t in &&
asked action : true
asked resource : resource Folder::f in
# slots of a scope and of a body keep their places in the condition, also where they are bound
scope principal in ?principal@2 ; body ?resource@3 ; template t ; bind principal User::a ; bind resource Doc::d
linked l ; condition : principal ?principal@2 in true true ?resource@3 && && &&
# a body keeps its place in the condition, whatever the scope asks
body context .n@4 ; when p ; condition : true true true context .n@4 && && &&
scope principal == User::a, action == Action::view, resource in Doc::d ; body context .n@4 ; template p ; linked
condition : principal User::a == action Action::view == resource Doc::d in context .n@4 && && &&
scope principal == User::a, action == Action::view, resource in Doc::d ; body true@4 ; template p ; linked
condition : principal User::a == action Action::view == resource Doc::d in true@4 && && &&
- where it is a truth value and the scope asks nothing, the condition is one literal, which has no place
body true@4 ; when p ; condition : true
"##;

/// The first row that says something else, with what it says; nothing where all hold. Fails when out of memory.
pub fn wrong_policy_row(alloc: Global) -> Made<String> {
    wrong_row(alloc, ROWS)
}
