//! Rows of expressions that ask a store.

pub const STORES: &str = r##"# attributes and tags
attr spoon 787 ; attr fork "spoon ; attr tags "fun "good set=2 ; attr address "st "amazonia record=street,country ; tag spoon -121 ; entity E::both
tag spoon -121 ; entity E::tagged
entity E::bare
store
left E::bare has=gone : value false
left E::both has=gone : value false
left E::both has=tags : value true
left E::both .spoon : value 787
left E::both .tags "good contains : value true
left E::both .address .street : value "st
left E::both .gone : `E::"both"` does not have the attribute `gone`
error E::both .gone : address fork spoon tags 4 yes no
left E::tagged .spoon : `E::"tagged"` does not have the attribute `spoon`
error E::tagged .spoon : 0 yes yes
left E::gone has=foo : value false
left E::gone .foo : entity `E::"gone"` does not exist
error E::gone .foo : entity `E::"gone"` does not exist
left E::bare "gone hasTag : value false
left E::tagged "gone hasTag : value false
left E::both "address hasTag : value false
left E::tagged "spoon hasTag : value true
left E::tagged E::both .fork hasTag : value true
left E::tagged "spoon getTag : value -121
left E::tagged E::both .fork getTag : value -121
left E::tagged "gone getTag : `E::"tagged"` does not have the tag `gone`
error E::tagged "gone getTag : spoon 1 no no
error E::both "address getTag : spoon 1 no yes
left E::tagged E::both .address .country getTag : `E::"tagged"` does not have the tag `amazonia`
left E::gone "foo hasTag : value false
left E::gone "foo getTag : entity `E::"gone"` does not exist
left 78 record=spoon "spoon getTag : type error: expected (entity of type `any_entity_type`), got record
left 78 record=spoon "spoon hasTag : type error: expected (entity of type `any_entity_type`), got record
left E::tagged E::both .spoon getTag : type error: expected string, got long
left E::tagged E::both .spoon hasTag : type error: expected string, got long
left $u "a getTag : residual $u "a getTag
left E::both $u hasTag : residual E::both $u hasTag
left E::both has=address.street : value true
left E::both has=address.gone : value false
left E::both has=spoon.gone : type error: expected one of [record, (entity of type `any_entity_type`)], got long
left E::gone has=foo.bar : value false
limit 3 ; left E::both .address .street : value "st
limit 2 ; left E::both .address .street : recursion limit reached
# ancestors
above E::parent ; above E::grand ; entity E::child ; entity E::parent ; store
left E::child E::parent in : value true
left E::child E::child in : value true
left E::child E::gone E::grand set=2 in : value true
left E::child set=0 in : value false
left E::parent E::child in : value false
left E::gone E::gone in : value true
left E::gone E::parent in : value false
left 1 E::a in : type error: expected (entity of type `any_entity_type`), got long
left E::child 1 in : type error: expected one of [set, (entity of type `any_entity_type`)], got long
left E::child E::a 1 set=2 in : type error: expected (entity of type `any_entity_type`), got long
left $u E::a in : residual $u E::a in
left E::a $u in : residual E::a $u in
# attributes and tags that are unknown
attr child E::e ; entity E::parent ; attr foo $u ; attr sum $u 1 + ; tag t $u ; entity E::e ; store
left E::e .foo : residual $u
left E::parent .child .foo : residual $u
left E::e .foo 1 == : residual $u 1 ==
left E::e "t getTag : residual $u
left E::e has=foo : value true
left E::parent has=child.foo : value true
left E::parent has=child.missing : value false
left E::parent has=child.foo.bar : residual $u has=bar
left E::parent has=child.foo.bar.baz : residual $u has=bar.baz
let u 3 ; left E::e .foo : value 3
left E::e .sum : residual $u 1 +
left E::e "t getTag : residual $u
# a partial store
above E::parent ; attr n 1 ; tag color "red ; entity E::child ; store ; partial
left E::child E::parent in : value true
left E::child E::parent E::x set=2 in : value true
left E::child .n : value 1
left E::child has=n : value true
left E::child "color getTag : value "red
left E::child "size hasTag : value false
left E::child "size getTag : `E::"child"` does not have the tag `size`
left E::x E::x == : value true
unknowns E::x E::parent in : unknown("E::\"x\"") (entity of type `E`)
unknowns E::x 1 in : unknown("E::\"x\"") (entity of type `E`)
left E::x E::parent in : residual $E::"x":E E::parent in
left E::x .spoon : residual $E::"x":E .spoon
left E::x has=spoon : residual $E::"x":E has=spoon
left E::x "spoon getTag : residual $E::"x":E "spoon getTag
left E::x "spoon hasTag : residual $E::"x":E "spoon hasTag
# a recorded absence in a partial store
entity E::child ; store ; partial ; absent E::x
left E::x has=ok : value false
left E::x .ok : entity `E::"x"` does not exist
left E::x E::x in : value true
left E::x E::child in : value false
left E::x "ok hasTag : value false
left E::x "ok getTag : entity `E::"x"` does not exist
left E::x has=ok.more : value false
unknowns E::y .ok : unknown("E::\"y\"") (entity of type `E`)
"##;
