//! What entities and stores of them are.

use crate::desk::Made;
use crate::rows::wrong_row;
use std::alloc::Global;

const ENTITIES: &str =
    r##"# an entity has what it was made of: of an attribute that is given twice the last, and its ancestors in the order given
attr spoon 1 ; attr age 40 ; attr spoon 2 ; tag spoon -121 ; above Team::all@2 ; parent Team::red@3 ; entity User::a@1
shown : User::"a"@1 age 40 spoon 2 tag spoon -121 above Team::"all"@2 parent Team::"red"@3
below Team::all ; below Team::red ; below Team::blue : yes yes no
- what is added is recorded behind the others
add_parent Team::blue@4 : done
add_above Team::top@5 : done
shown : User::"a"@1 age 40 spoon 2 tag spoon -121 above Team::"all"@2 parent Team::"red"@3 parent Team::"blue"@4 above Team::"top"@5
below Team::blue ; below User::a : yes no
- an ancestor that is recorded again stands where it was recorded first; a parent stays one
add_parent Team::all@8 : done
add_above Team::red@9 : done
shown : User::"a"@1 age 40 spoon 2 tag spoon -121 parent Team::"all"@2 parent Team::"red"@3 parent Team::"blue"@4 above Team::"top"@5
copy
shown : User::"a"@1 age 40 spoon 2 tag spoon -121 parent Team::"all"@2 parent Team::"red"@3 parent Team::"blue"@4 above Team::"top"@5
# what is given as a parent and as another ancestor is a parent
above Team::all ; above Team::red ; parent Team::red ; entity User::a
shown : User::"a" above Team::"all" parent Team::"red"
# an entity of a uid alone has nothing else
attr age 40 ; parent Team::red ; bare User::a@1
shown : User::"a"@1
below Team::red : no
# an attribute and a tag may be no value yet
attr age 40 ; attr foo $u ; tag spoon $t:Bool ; above Team::all@2 ; parent Team::red@3 ; entity User::c@6
shown : User::"c"@6 age 40 foo unknown("u") tag spoon unknown("t") bool above Team::"all"@2 parent Team::"red"@3
copy
shown : User::"c"@6 age 40 foo unknown("u") tag spoon unknown("t") bool above Team::"all"@2 parent Team::"red"@3
# no uid stands twice in a store: of those that do, the first that is met again is told
entity User::a
entity User::a
store : duplicate entity entry `User::"a"`
entity User::b
entity User::a
entity User::a
entity User::b
store : duplicate entity entry `User::"a"`
entity User::b
entity User::a
store : done
# a store that has nothing is whole
find User::a : none
# a whole store knows what is missing, and a partial one has an unknown for it
attr age 40 ; attr foo $u ; tag spoon -121 ; above Team::all@2 ; parent Team::red@3 ; entity User::a@1
entity User::b
entity Team::red
store : done
find User::a@7 : User::"a"@1 age 40 foo unknown("u") tag spoon -121 above Team::"all"@2 parent Team::"red"@3
find User::b : User::"b"
find Team::red : Team::"red"
find User::missing : none
find Team::a : none
partial
find User::a@7 : User::"a"@1 age 40 foo unknown("u") tag spoon -121 above Team::"all"@2 parent Team::"red"@3
find User::b : User::"b"
find User::missing@7 : unknown("User::\"missing\"") (entity of type `User`)
find User::" : unknown("User::\"\\\"\"") (entity of type `User`)
find Team::a : unknown("Team::\"a\"") (entity of type `Team`)
# a recorded absence answers so in a partial store, and changes nothing in a whole one; what is recorded or there already is refused
entity User::a
store : done
absent User::b : done
absent User::b : entity `User::"b"` is recorded as absent already
absent User::a : entity `User::"a"` is in the store
find User::a : User::"a"
find User::b : none
find User::c : none
partial
find User::a : User::"a"
find User::b : none
find User::c : unknown("User::\"c\"") (entity of type `User`)
absent User::c : done
absent User::b : entity `User::"b"` is recorded as absent already
absent User::a : entity `User::"a"` is in the store
find User::c : none
find User::a : User::"a"
find User::d : unknown("User::\"d\"") (entity of type `User`)
# a partial store that is made whole knows what is missing
entity User::a
store : done
partial
absent User::b : done
find User::c : unknown("User::\"c\"") (entity of type `User`)
concrete
find User::a : User::"a"
find User::b : none
find User::c : none
absent User::b : entity `User::"b"` is recorded as absent already
# more entities stand behind the others; of a uid that is there, or that is given twice, the first stays
attr age 40 ; entity User::b
entity User::a
store : done
entity User::c
attr age 41 ; entity User::b
attr age 7 ; entity User::d
attr age 8 ; entity User::d
more : done
uids : User::"b" User::"a" User::"c" User::"d"
find User::b : User::"b" age 40
find User::c : User::"c"
find User::d : User::"d" age 7
entity User::d
more : done
uids : User::"b" User::"a" User::"c" User::"d"
absent User::c : entity `User::"c"` is in the store
- the store is whole yet
find User::e : none
# a store that is taken back to a mark is as it was there
attr age 40 ; entity User::b
store : done
partial
absent User::x : done
mark
entity User::a
entity User::b
more : done
absent User::y : done
find User::a : User::"a"
find User::y : none
reset
uids : User::"b"
find User::b : User::"b" age 40
find User::a : unknown("User::\"a\"") (entity of type `User`)
find User::x : none
find User::y : unknown("User::\"y\"") (entity of type `User`)
- and what was taken out may be put in again
absent User::a : done
entity User::y
more : done
find User::a : none
find User::y : User::"y"
- a mark of more than there is takes nothing away
mark
reset
uids : User::"b" User::"y"
find User::a : none
# a copy of a store has what the store has
attr age 40 ; attr foo $u ; above Team::all@2 ; entity User::a@1
entity User::b
store : done
partial
absent User::c : done
copy_store
uids : User::"a" User::"b"
find User::a : User::"a"@1 age 40 foo unknown("u") above Team::"all"@2
find User::b : User::"b"
find User::c : none
find User::d : unknown("User::\"d\"") (entity of type `User`)
absent User::c : entity `User::"c"` is recorded as absent already
entity User::a
entity User::d
more : done
uids : User::"a" User::"b" User::"d"
# the types and the action of a request
request_type User Action::view Doc : User Action::"view" Doc
"##;

/// The first row that says something else, with what it says; nothing where all hold. Fails when out of memory.
pub fn wrong_entity_row(alloc: Global) -> Made<String> {
    wrong_row(alloc, ENTITIES)
}
