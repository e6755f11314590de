//! The rows on expressions.

use crate::seen;
use cedar_test_exprs::parted;
use std::alloc::{AllocError, Global};

const ROWS: &str =
    r#"# the root of what is made: its operator, name or literal; two truth values make their literal
root true true && : true
root true false && : false
root false true || : true
root true $u && : &&
root 1 true || : ||
root true ! : !
root 1 : 1
root "a : "a"
root A::x : A::"x"
root principal : principal
root action : action
root resource : resource
root context : context
root ?principal : ?principal
root ?resource : ?resource
root $e : unknown("e")
root $e:Bool : unknown("e")
root $a 1 2 if : if
root 1 neg : -
root 1 isEmpty : isEmpty
root 1 2 == : ==
root 1 2 < : <
root 1 2 <= : <=
root 1 2 + : +
root 1 2 - : -
root 1 2 * : *
root 1 2 in : in
root 1 2 contains : contains
root 1 2 containsAll : containsAll
root 1 2 containsAny : containsAny
root 1 2 getTag : getTag
root 1 2 hasTag : hasTag
root 1 2 call=n::f/2 : n::f
root context .x : x
root context has=x : x
root context has=x.y : path
root context like=a* : a*
root context is=N::T : N::T
root 1 set=1 : set
root 1 record=a : record
# the constructors by name, of the numbers 1 and 2
relations : 1 2 == 1 2 == ! 1 2 < 1 2 <= 1 2 <= ! 1 2 < !
sums : 1 2 + 1 2 - 1 2 * 1 2 % 1 neg 1 ! 1 isEmpty 1 has=x
members : 1 2 in 1 2 contains 1 2 containsAll 1 2 containsAny 1 2 getTag 1 2 hasTag
# of the names of a record that stand twice the first that is met again is named, whatever stands under it
record b=1 a=2 b=1 : duplicate key `b` in record literal
record foo=37 foo="hello : duplicate key `foo` in record literal
record bar=true foo=37 a=1 foo="hello b=2 : duplicate key `foo` in record literal
record b=1 a=2 : done
no_memory : out of memory
# the places of all parts: a node before its children, children in order; each place once
places 1@3 2@4 +@2 3@5 <@1 : @1 @2 @3 @4 @5
places true@1 : @1
places ?principal@1 : @1
places true@2 1@3 2@4 if@1 : @1 @2 @3 @4
places principal@2 false@3 &&@1 : @1 @2 @3
places 1@3 true@2 ||@1 : @1 @3 @2
places 1@2 neg@1 : @1 @2
places context@2 has=x@1 : @1 @2
places action@2 like=*@1 : @1 @2
places action@2 is=A@1 : @1 @2
places 1@2 1@3 set=2@1 : @1 @2 @3
places 1@2 2@3 3@4 call=f/3@1 : @1 @2 @3 @4
places 1@3 1@2 record=b,a@1 : @1 @2 @3
# whether it is a reference, a slot, a set of references, and projectable
what A::x : yes no no yes
what ?principal : no yes no no
what A::x B::x set=2 : no no yes yes
what true ! : no no no no
# unknowns and slots, at each place where they stand, with the places of the slots
held $a ! $b 3 && $c if : a b c
held 1 $d call=f/2 : d
held $a $a + : a a
held 1 record=a : nothing
held ?principal@2 resource ?resource == || ?principal@2 && : ?principal @2 ?resource @nowhere ?principal @2
# whether two are the same, by equality and hash, by shape, and as keys, and how the shape of the first stands to that of the second; places
# do not count
same 1 2 +@1 | 1 2 + : yes yes yes same
same 1@1 2@2 set=2 | 1 2 set=2 : yes yes yes same
same 1 2 + | 2 1 + : no no no before
same context has=x | context .x : no no no behind
same context has=y.x | context has=x.y : no no no behind
same $e:Bool | $e : no no no behind
# a copy of the number 5 at the place 3 with the data 8; with the data 9; its place; and a copy of its kind
data : 5 @3 8 9 @3 5
# what is built anew is as it was, places kept
again 1@4 : 1@4
again principal : principal
again ?principal : ?principal
again $u:Bool@5 : $u:Bool@5
again principal 1 $u:Bool if : principal 1 $u:Bool if
again principal@2 $u:Bool@3 &&@1 : principal@2 $u:Bool@3 &&@1
again principal $u:Bool || : principal $u:Bool ||
again principal@2 !@1 : principal@2 !@1
again principal 3 < : principal 3 <
again principal .a : principal .a
again principal has=a : principal has=a
again principal has=a.b : principal has=a.b
again 2 $u:Bool call=f/2 : 2 $u:Bool call=f/2
again principal like=* : principal like=*
again principal is=User : principal is=User
again 2 $u:Bool set=2 : 2 $u:Bool set=2
again principal $u:Bool record=b,a : principal $u:Bool record=b,a
again record= : record=
# what the plain builder makes at the place 3 by the methods that each builder has, of the numbers 1 and 2
built_relations : 1 2 ==@3 1 2 ==@3 !@3 1 2 <@3 1 2 <=@3 1 2 <=@3 !@3 1 2 <@3 !@3
built_sums : 1 2 +@3 1 2 -@3 1 2 *@3 1 2 %@3 1 neg@3 1 !@3 1 isEmpty@3 1 2 1 if@3
built_members : 1 2 in@3 1 2 contains@3 1 2 containsAll@3 1 2 containsAny@3 1 2 getTag@3 1 2 hasTag@3
built_record b=1 a=1 : done
built_record a=1 a=1 : duplicate key `a` in record literal
# a builder takes the place of an expression over
taken_over 1@4 : @4
# bound unknowns become their values, whatever their annotation, where the values stand; what is made of them stands nowhere
put x=1 $x $z < : 1 $z <
put x=1 $x:Bool ! : 1 !
put x=1;y=true $y $x:Long $z if : true 1 $z if
put x=1;y=true $x $x set=2 $y record=a,b : 1 1 set=2 true record=a,b
put w=ext=decimal/"1.5/0 $w 2 == : "1.5 call=decimal/1 2 ==
put u=1@5 $u !@1 : 1@5 !
put u=1@5 2@3 !@1 : 2@3 !
put  $x $z < : $x $z <
# the typed form does so too; it refuses the first unknown that is bound to a value of another type than its annotation
typed x=1;y=true $z:Bool $x:Long $y if : $z:Bool 1 true if
typed x=1 $w:Bool $x:Long record=b,a : $w:Bool 1 record=b,a
typed w=2;x=1 $w:Bool $x:Bool record=b,a : expected a value of type bool, got a value of type long
typed x=1;y="s $x:Bool $y:Bool record=a,b : expected a value of type bool, got a value of type long
typed x=1;y="s $x:Bool $y:Bool record=b,a : expected a value of type bool, got a value of type string
# through a builder
through x=true $x true && : true
through y=true $x true && : $x true &&
through y=true $x $y set=2 : $x true set=2
through x=true $x:Bool ! : true !
# texts of faults
faults : out of memory 5 out of memory
"#;

/// The first row that says something else, with what it says; nothing where all hold. Fails when out of memory.
pub fn wrong_row(alloc: Global) -> Result<String, AllocError> {
    for row in ROWS.lines() {
        if let Some((verb, rest, wanted)) = parted(row) {
            let mut said = String::new(alloc);
            seen::done(alloc, &mut said, (verb, rest), wanted)?;
            if said.as_str() != wanted {
                return format!(in alloc; "{row}: {said}");
            }
        }
    }
    Ok(String::new(alloc))
}
