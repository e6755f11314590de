//! Rows of expressions in one world: a request, a store, a table and unknowns that are known.

pub const WORLD: &str = r##"# operators, choices, sets, records and texts
attr boss User::a ; attr ok true ; entity User::a
attr boss User::a ; attr ok true ; entity User::b
attr owner User::b ; attr fork "spoon ; attr spoon 787 ; tag spoon -121 ; tag knife 5 ; above Folder::top ; above Folder::f ; entity Doc::d
above Folder::root ; entity Folder::f
store
from_expr "Windows record=os_name 7 record=device_properties,n ; request User::a Action::view Doc::d
let t true ; slot User::c ; let low ext=rank/"7/7 ; let high ext=rank/"10/10 ; let mark ext=mark/"7/7
left 2 3 * : value 6
left -9223372036854775808 -1 * : integer overflow while attempting to multiply the values `x` and `y`
left 1 true + : type error: expected long, got bool
left false true < : type error: expected one of [long, rank], got bool
- what is not needed is not evaluated
left $t false && : value false
left $t ! 1 ! && : value false
left $t 1 && : type error: expected bool, got long
left 1 $t && : type error: expected bool, got long
left $t 9223372036854775807 1 + || : value true
left $t ! 1 || : type error: expected bool, got long
left $t ! false || : value false
left $t 1 9223372036854775807 1 + if : value 1
left $t ! 9223372036854775807 1 + 2 if : value 2
left 1 1 2 if : type error: expected bool, got long
left false false true if : value true
left false "hello 2 if : value 2
left false false 3 8 if -10 if : value -10
left true 3 true 8 -10 if if : value 3
left false record= .foo 3 if : value 3
- sets have no order and no member twice
left 2 1 1 set=3 : value 1 2 set=2
left 1 2 set=2 true contains : value false
left 1 2 set=2 isEmpty : value false
left 1 2 set=2 2 set=1 containsAll : value true
left 2 set=1 1 2 set=2 containsAll : value false
left 1 2 set=2 3 set=1 containsAny : value false
left set=0 .hello : type error: expected one of [record, (entity of type `any_entity_type`)], got set
left 8 2 set=2 13 702 set=2 3 set=1 set=3 .ham .eggs : type error: expected one of [record, (entity of type `any_entity_type`)], got set
left 8 2 set=2 2 8 set=2 3 set=1 set=3 : value 8 2 set=2 3 set=1 set=2
left 8 2 set=2 3 set=1 set=2 2 8 set=2 contains : value true
left "foo-bar like=f**r : value true
left "foo-baz like=f**r : value false
left 1 like=f**r : type error: expected string, got long
left User::a is=User : value true
left Doc::a is=User : value false
- of two errors the first is named
left 9223372036854775807 1 + 1 ! + : integer overflow while attempting to add the values `x` and `y`
left 1 ! 9223372036854775807 1 + + : type error: expected bool, got long
left 9223372036854775807 1 + 1 ! set=2 : integer overflow while attempting to add the values `x` and `y`
- the fields of a record
left 2 1 record=c,b 3 record=a,d .a .b : value 1
left 2 1 record=c,b 3 record=a,d .b : record does not have the attribute `b`
left 1 .b : type error: expected one of [record, (entity of type `any_entity_type`)], got long
left 2 1 record=c,b 3 record=a,d has=d : value true
left 2 1 record=c,b 3 record=a,d has=b : value false
left 2 1 record=c,b 3 record=a,d has=a.c : value true
left 2 1 record=c,b 3 record=a,d has=a.d : value false
left 2 1 record=c,b 3 record=a,d has=b.c : value false
left 2 1 record=c,b 3 record=a,d has=d.c : type error: expected one of [record, (entity of type `any_entity_type`)], got long
- the name of a field is any text, and its value anything
left 7 record=a+b%();-_?ü .a+b%();-_?ü : value 7
left 5 10 record=a+b,jkl; 2 record=bar,foo .bar .a+b : value 5
left "ham record=2 has=ham : value false
left 3 "why User::a record=ham,eggs,else .eggs : value "why
left 17 User::a has=spaghetti 3 7 if record=ham,eggs has=ham : value true
- fields are evaluated in the order of their names, and compared by them
left 9223372036854775807 1 + 1 ! record=b,a : type error: expected bool, got long
left 1 2 record=a,b 2 1 record=b,a == : value true
- parts of the context, and unknowns
left context .device_properties .os_name : value "Windows
left context .device_properties .n : record does not have the attribute `n`
left context has=device_properties.os_name : value true
left ?principal : value User::c
left $t : value true
left $s : residual $s
- the table orders the values of the type rank
left $low : value ext=rank/"7/7
left $low $high < : value true
left $high $low < : value false
left $low $low < : value false
left $low $mark < : type error: expected rank, got mark
left $mark $mark < : type error: expected one of [long, rank], got mark
left $low $t < : type error: expected rank, got bool
left $low $low == : value true
left $low $mark == : value false
- no entity User::x is there; the document has an attribute and a tag spoon, and a tag knife
left resource .owner .boss : value User::a
left resource .ok : `Doc::"d"` does not have the attribute `ok`
left User::x .ok : entity `User::"x"` does not exist
left resource has=owner : value true
left resource has=ok : value false
left User::x has=ok : value false
left resource has=owner.ok : value true
left resource has=owner.nick : value false
left Folder::f has=ok : value false
left resource .spoon : value 787
left resource .knife : `Doc::"d"` does not have the attribute `knife`
left resource has=knife : value false
- the name of a tag may be computed; it has to be a text
left resource "spoon getTag : value -121
left resource "owner getTag : `Doc::"d"` does not have the tag `owner`
left resource "spoon hasTag : value true
left resource "owner hasTag : value false
left resource 1 hasTag : type error: expected string, got long
left resource resource .fork hasTag : value true
left resource resource .fork getTag : value -121
left resource resource .owner getTag : type error: expected string, got (entity of type `User`)
left resource "knife getTag : value 5
left resource context .device_properties .os_name getTag : `Doc::"d"` does not have the tag `Windows`
left Folder::f "spoon hasTag : value false
left context "n getTag : type error: expected (entity of type `any_entity_type`), got record
left context "n hasTag : type error: expected (entity of type `any_entity_type`), got record
- of `in` the left side alone is looked up; a store computes no closure
left resource Doc::d in : value true
left resource Folder::f in : value true
left resource Folder::top in : value true
left Folder::f Folder::root in : value true
left resource Folder::root in : value false
left resource User::x in : value false
left User::x User::x in : value true
left User::x resource in : value false
left resource User::x Folder::top set=2 in : value true
left resource resource 1 set=2 in : type error: expected (entity of type `any_entity_type`), got long
left 1 resource in : type error: expected (entity of type `any_entity_type`), got long
- arguments come first, then the function
left 9223372036854775807 1 + call=none/1 : integer overflow while attempting to add the values `x` and `y`
- of a partial store the left side of `in` is asked for alone
partial ; left resource User::x in : value false
left resource Folder::f in : value true
left resource User::x Folder::top set=2 in : value true
left resource has=owner : value true
left resource has=ok : value false
# that a part is there is known, whatever it is
attr boss User::u ; attr ok $t ; tag spoon $t ; entity User::u ; store ; request User::u Action::view Doc::d
left User::u .ok : residual $t
left User::u has=ok : value true
left User::u has=boss.ok : value true
left User::u has=boss.boss.ok : value true
left User::u has=boss.nick : value false
left User::u "spoon getTag : residual $t
left User::u "spoon hasTag : value true
partial ; left User::u .boss : value User::u
left User::u has=ok : value true
left User::u has=boss.boss.ok : value true
left User::u has=boss.nick : value false
left User::u "spoon hasTag : value true
"##;
