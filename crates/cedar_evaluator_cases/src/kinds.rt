//! Rows of each kind of expression: values, residuals, errors, and the limit that it needs.

pub const KINDS: &str = r##"# literals
left true : value true
left -3 : value -3
left " : value "
left "Hello : value "Hello
left User::gone : value User::gone
limit 1 ; left 57 : value 57
limit 0 ; left 57 : recursion limit reached
# variables
from_expr 1 record=n ; request User::a Action::view Doc::d
left principal : value User::a
left action : value Action::view
left resource : value Doc::d
left context : value 1 record=n
left context .n : value 1
limit 1 ; left principal : value User::a
limit 0 ; left principal : recursion limit reached
# variables of which nothing is known
left principal : residual $principal
left action : residual $action
left resource : residual $resource
left context : residual $context
left context .n : residual $context .n
# a context with an unknown in it
from_expr $t 1 record=t,n ; request ? ? ?
left context : residual $t 1 record=t,n
left context .n : value 1
left context .t : residual $t
left context .gone : record does not have the attribute `gone`
left context has=t : value true
left context has=gone : value false
# an unknown principal of a known type
request ?User Action::view Doc::d
unknowns principal : unknown("principal") (entity of type `User`)
left principal is=Doc : value false
left principal is=User : value true
left principal Doc::d == : value false
left Doc::d principal == : value false
unknowns principal User::b == : unknown("principal") (entity of type `User`)
# slots
left ?principal : template slot `?principal` was not linked
left ?resource : template slot `?resource` was not linked
slot User::b ; left ?principal : value User::b
limit 1 ; left ?principal : value User::b
limit 0 ; left ?principal : recursion limit reached
# unknowns
left $u : residual $u
left $u:Bool : residual $u:Bool
value $u : the expression contains unknown(s)
let u 5 ; left $u : value 5
left $u:Long : value 5
left $u:Bool : type error: expected bool, got long
limit 1 ; left $u : value 5
limit 0 ; left $u : recursion limit reached
# if
empty ; request User::a Action::view Doc::d
left true 3 8 if : value 3
left false 3 8 if : value 8
left false principal resource if : value Doc::d
left true "hello 2 if : value "hello
left true true 3 8 if -10 if : value 3
left true false 3 8 if -10 if : value 8
left false "hello 3 8 if -10 if : value -10
left true false true if 3 8 if : value 8
left "hello 3 8 if : type error: expected bool, got string
left principal 3 8 if : type error: expected bool, got (entity of type `User`)
left true 3 record= .foo if : value 3
left false 3 record= .foo if : record does not have the attribute `foo`
left true record= .foo 3 if : record does not have the attribute `foo`
left $u $v 1 2 + if : residual $u $v 3 if
left $u $v 1 true + if : residual $u $v 1 true + if
limit 2 ; left true 3 8 if : value 3
limit 1 ; left true 3 8 if : recursion limit reached
- best effort meets the limit unseen
limit 2 ; left $u 1 2 + 3 if : residual $u 1 2 + 3 if
# and
left 1 1 == 1 1 == && : value true
left 1 1 == 1 2 == && : value false
left 1 2 == 1 true + && : value false
left false $u && : value false
left 1 1 == 7 && : type error: expected bool, got long
left 7 $u && : type error: expected bool, got long
left 1 true + $u && : type error: expected long, got bool
left 1 1 == 1 true + && : type error: expected long, got bool
left true $u && : residual true $u &&
left $u true && : residual $u true &&
left $u 1 1 == && : residual $u true &&
left $u 7 && : residual $u 7 &&
left $u 9223372036854775807 1 + 0 == && : residual $u 9223372036854775807 1 + 0 == &&
limit 3 ; left 1 1 == 1 2 == && : value false
limit 2 ; left 1 1 == 1 2 == && : recursion limit reached
limit 3 ; left $u true ! ! && : residual $u true ! ! &&
limit 4 ; left $u true ! ! && : residual $u true &&
let u true ; left true $u && : value true
# or
left 1 2 == 1 1 == || : value true
left 1 2 == 1 2 == || : value false
left 1 1 == 1 true + || : value true
left true $u || : value true
left 1 2 == 7 || : type error: expected bool, got long
left 7 $u || : type error: expected bool, got long
left 1 2 == 1 true + || : type error: expected long, got bool
left false $u || : residual false $u ||
left $u 1 1 == || : residual $u true ||
left $u 1 true + || : residual $u 1 true + ||
limit 3 ; left 1 2 == 1 2 == || : value false
limit 2 ; left 1 2 == 1 2 == || : recursion limit reached
# operators of one operand
left true ! : value false
left $u ! : residual $u !
left 1 ! : type error: expected bool, got long
left 5 neg : value -5
left $u neg : residual $u neg
left true neg : type error: expected long, got bool
left -9223372036854775808 neg : integer overflow while attempting to negate the value `x`
left set=0 isEmpty : value true
left 1 set=1 isEmpty : value false
left $u isEmpty : residual $u isEmpty
left 1 isEmpty : type error: expected set, got long
limit 3 ; left true ! ! : value true
limit 2 ; left true ! ! : recursion limit reached
limit 3 ; value true ! ! : true
limit 2 ; value true ! ! : recursion limit reached
limit 3 ; value $u ! ! : the expression contains unknown(s)
# equality
left 1 1 == : value true
left 1 true == : value false
left User::a User::gone == : value false
left 1 2 set=2 2 1 1 set=3 == : value true
left 1 true + 1 == : type error: expected long, got bool
left 1 1 true + == : type error: expected long, got bool
left $u 1 == : residual $u 1 ==
left 1 2 + $u == : residual 3 $u ==
limit 2 ; left 1 1 == : value true
limit 1 ; left 1 1 == : recursion limit reached
# order: the first type error that fits
let x ext=rank/"7/7 ; let y ext=rank/"8/8 ; let z ext=other/"8/8
left 1 2 < : value true
left 2 2 < : value false
left 2 2 <= : value true
left 3 2 <= : value false
left $x $y < : value true
left $y $x < : value false
left $x $x <= : value true
left $u 1 < : residual $u 1 <
left 1 $u <= : residual 1 $u <=
left 1 true < : type error: expected long, got bool
left "a 1 < : type error: expected long, got string
left "a true <= : type error: expected one of [long, rank], got string
left $x true < : type error: expected rank, got bool
left true $x < : type error: expected rank, got bool
left $x $z < : type error: expected rank, got other
left $z $x < : type error: expected rank, got other
left $z $z < : type error: expected one of [long, rank], got other
left $x 1 < : type error: expected long, got rank
# arithmetic
left 1 2 + : value 3
left 1 2 - : value -1
left 3 2 * : value 6
left $u 1 + : residual $u 1 +
left 1 $u 2 + * : residual 1 $u 2 + *
left true "a + : type error: expected long, got bool
left 1 true - : type error: expected long, got bool
left "a 1 * : type error: expected long, got string
left 9223372036854775807 1 + : integer overflow while attempting to add the values `x` and `y`
left -9223372036854775808 1 - : integer overflow while attempting to subtract the values `x` and `y`
left 9223372036854775807 2 * : integer overflow while attempting to multiply the values `x` and `y`
left 7 3 % : value 1
left -7 3 % : value -1
left 7 -3 % : value 1
left -7 -3 % : value -1
left 6 3 % : value 0
left 2 3 % : value 2
left -9223372036854775808 -1 % : value 0
left -9223372036854775808 3 % : value -2
left 9223372036854775807 -9223372036854775808 % : value 9223372036854775807
left 5 0 % : remainder by zero
left 0 0 % : remainder by zero
left "a 0 % : type error: expected long, got string
left 5 true % : type error: expected long, got bool
left $u 0 % : residual $u 0 %
left 5 0 % true + : remainder by zero
left $u 9223372036854775807 1 + + : integer overflow while attempting to add the values `x` and `y`
# arithmetic by its own call
arith + 1 2 : 3
arith - 1 2 : -1
arith * 3 2 : 6
arith % -7 3 : -1
arith % 7 -3 : 1
arith % -9223372036854775808 -1 : 0
arith % 5 0 : remainder by zero
arith % 1 true : type error: expected long, got bool
arith % "a 0 : type error: expected long, got string
arith + 9223372036854775807 1 : integer overflow while attempting to add the values `x` and `y`
# the other operators by their own calls, and the name of the type of any entity
unary ! true : false
unary neg 5 : -5
unary isEmpty set=0 : true
unary neg -9223372036854775808 : integer overflow while attempting to negate the value `x`
unary ! 5 : type error: expected bool, got long
relation == 1 true : false
relation < 1 2 : true
relation <= ext=rank/"7/7 ext=rank/"7/7 : true
relation < ext=mark/"7/7 ext=mark/"8/8 : type error: expected one of [long, rank], got mark
any_entity : any_entity_type
# sets
left 8 2 101 set=3 : value 8 2 101 set=3
left set=0 : value set=0
left "hello 2 true User::foo set=4 : value "hello 2 true User::foo set=4
left 8 2 set=2 13 702 set=2 3 set=1 set=3 : value 8 2 set=2 13 702 set=2 3 set=1 set=3
left $u 1 2 + set=2 : residual $u 3 set=2
left $u 1 true + set=2 : type error: expected long, got bool
left 1 2 set=2 2 contains : value true
left 1 2 set=2 3 contains : value false
left 1 set=1 set=1 1 set=1 contains : value true
left 1 1 contains : type error: expected set, got long
left $u 1 contains : residual $u 1 contains
left 1 2 set=2 2 1 set=2 containsAll : value true
left 1 set=1 1 2 set=2 containsAll : value false
left 1 set=1 1 containsAll : type error: expected set, got long
left true 1 containsAll : type error: expected set, got bool
left $u set=0 containsAll : residual $u set=0 containsAll
left 1 2 set=2 2 3 set=2 containsAny : value true
left 1 set=1 2 set=1 containsAny : value false
left 1 set=1 true containsAny : type error: expected set, got bool
left set=0 $u containsAny : residual set=0 $u containsAny
limit 2 ; left 8 set=1 : value 8 set=1
limit 1 ; left 8 set=1 : recursion limit reached
limit 1 ; left set=0 : value set=0
# calls
left "a call=yes/1 : value true
left $u call=yes/1 : residual $u call=yes/1
left 1 2 + $u call=yes/2 : residual 3 $u call=yes/2
left "a call=none/1 : extension function `none` does not exist
left call=yes/0 : wrong number of arguments provided to extension function `yes`: expected 1, got 0
left 1 2 call=yes/2 : wrong number of arguments provided to extension function `yes`: expected 1, got 2
left 1 call=yes/1 : type error: expected string, got long
left 1 true + call=none/1 : type error: expected long, got bool
left "a call=fail/1 : error while evaluating `rank` extension function: no
error "a call=fail/1 : rank
limit 2 ; left "a call=yes/1 : value true
limit 1 ; left "a call=yes/1 : recursion limit reached
# patterns
left "foobar like=f**r : value true
left "foobar like=f*x : value false
left " like= : value true
left "a like= : value false
left $u like=* : residual $u like=*
left 1 like=* : type error: expected string, got long
limit 2 ; left "a like=* : value true
limit 1 ; left "a like=* : recursion limit reached
# types of entities
empty ; request User::a Action::view Doc::d
left principal is=User : value true
left principal is=Doc : value false
left $u is=User : residual $u is=User
left 1 is=User : type error: expected (entity of type `any_entity_type`), got long
limit 2 ; left principal is=User : value true
limit 1 ; left principal is=User : recursion limit reached
# records
left 1 2 + record=a : value 3 record=a
left record= : value record=
left $u 1 2 + record=a,b : residual $u 3 record=a,b
left $u 1 true + record=a,b : type error: expected long, got bool
left 3 7 record=ham,eggs .ham : value 3
left 3 "why User::foo record=ham,eggs,else .else : value User::foo
left 1 2 record=some,more "why record=hams,eggs .hams .more : value 2
left 7 record=key+-_%() .key+-_%() : value 7
left 2 3 33 333 set=3 record=foo,bar .bar : value 3 33 333 set=3
left 2 4 77 record=foo,cake record=foo,bar .bar .foo : value 4
left 3 7 record=ham,eggs .what : record does not have the attribute `what`
error 3 7 record=ham,eggs .what : eggs ham 2
error 1 2 3 4 5 6 record=f,e,d,c,b,a .what : a b c d e 6
left 8 set=1 .hello : type error: expected one of [record, (entity of type `any_entity_type`)], got set
left $u .a : residual $u .a
left $u 1 record=a,b .b : value 1
left $u 1 record=a,b .c : record does not have the attribute `c`
left $u call=yes/1 1 record=a,b .b : residual $u call=yes/1 1 record=a,b .b
left $u call=yes/1 1 record=a,b .c : record does not have the attribute `c`
left 77 "x record=foo,bar has=foo : value true
left 77 "x record=foo,bar has=x : value false
left "ham record=2 has=2 : value true
left $u 1 record=a,b has=b : value true
left $u call=yes/1 1 record=a,b has=b : residual $u call=yes/1 1 record=a,b has=b
left $u has=a : residual $u has=a
left 1 has=a : type error: expected one of [record, (entity of type `any_entity_type`)], got long
left 1 record=b record=a has=a.b : value true
left 1 record=b record=a has=a.c : value false
left 1 record=b record=a has=c.b : value false
left 1 record=a has=a.b : type error: expected one of [record, (entity of type `any_entity_type`)], got long
left $u has=a.b : residual $u has=a.b
limit 3 ; left 1 record=a .a : value 1
limit 2 ; left 1 record=a .a : recursion limit reached
limit 2 ; left $u has=a : residual $u has=a
limit 1 ; left $u has=a : recursion limit reached
limit 2 ; left $u has=a.b : residual $u has=a.b
limit 1 ; left $u has=a.b : recursion limit reached
- a field that is evaluated again nests one deeper
limit 3 ; left $u $v record=a,b .b : residual $v
# places
at 1@4 2@5 +@6 : @6
at $u@4 2@5 +@6 : @6
at 1@4 true@5 +@6 : @5
at 1 true + : @nowhere
at 9223372036854775807 1 +@6 : @6
at "a call=none/1@7 : @7
"##;
