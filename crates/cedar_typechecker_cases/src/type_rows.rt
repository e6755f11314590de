//! The rows on types.

use crate::asked::done;
use cedar_test_exprs::parted;
use std::alloc::{AllocError, Global};

const ROWS: &str =
    r#"# copies of types as they are shown: as a schema writes them, and with names in a namespace of their own where it can't
text Never : __cedar::internal::Never
text True : __cedar::internal::True
text False : __cedar::internal::False
text Bool : Bool
text Long : Long
text String : String
text Doc : Doc
text Doc or User : __cedar::internal::Union<Doc, User>
text any entity : __cedar::internal::AnyEntity
text any set : Set<__cedar::internal::Any>
text Set of Long : Set<Long>
text rank : rank
text {} : {}
text {..} : __cedar::internal::OpenRecord{}
text {a?: Bool} : {"a"?: Bool}
text {a: Long, b: Long} : {"a": Long, "b": Long}
text Set of {a: Bool} : Set<{"a": Bool}>
# joins of types without parts, where it says so another one in permissive mode
join Never | Long : Long
join True | False : Bool
join True | True : __cedar::internal::True
join True | Bool : Bool
join Long | Long : Long
join Long | String : none
join String | String : String
join Doc | Doc : Doc
join Doc | User : none permissively __cedar::internal::Union<Doc, User>
join Doc or User | User : none permissively __cedar::internal::Union<Doc, User>
join Doc or User | any entity : none permissively __cedar::internal::AnyEntity
join rank | rank : rank
join rank | ip : none
join rank | Long : none
join Doc | {} : none
# joins of sets and records: an attribute is required where both require it, and the join is closed where all names stay
join Set of True | Set of Bool : Set<Bool>
join Set of Never | Set of Doc : Set<Doc>
join Set of Long | any set : Set<__cedar::internal::Any>
join Set of Long | Set of Bool : none
join {a: Long} | {} : none permissively __cedar::internal::OpenRecord{}
join {a: True} | {a: False} : {"a": Bool}
join {a: True} | {a?: Bool} : none permissively {"a"?: Bool}
join {a: True} | {a: Long} : none permissively __cedar::internal::OpenRecord{}
join {a: True} | {a: Bool, ..} : none permissively __cedar::internal::OpenRecord{"a": Bool}
join {a: Long, b: Long} | {b?: Long, ..} : none permissively __cedar::internal::OpenRecord{"b"?: Long}
join {..} | {..} : __cedar::internal::OpenRecord{}
join Set of {a: True} | Set of {a: Bool} : Set<{"a": Bool}>
# the join of several types, one after the other; that of none is the type of no value
strict_join : __cedar::internal::Never
strict_join True, Never, False : Bool
permissive_join Doc, User, Doc : __cedar::internal::Union<Doc, User>
strict_join Doc, User, Doc : none
permissive_join Long, String, Never : none
# whether the one type is below the other, in the strict and in the permissive mode, and whether no value is of both
below True | Bool : yes yes
below Bool | True : no no
below Never | Long : yes yes
below Doc | Doc or User : no yes
below {a: Long} | {..} : no yes
below {a: Long} | {a?: Long} : no yes
disjoint Doc | User : yes
disjoint Doc or User | User : no
disjoint Long | String : no
# whether a value is of a type
value_of Long | 1 : yes
value_of Bool | 1 : no
value_of Set of Long | 1 2 set=2 : yes
value_of {a: Long} | 1 2 record=a,b : no
value_of rank | ext=rank/"7/7 : yes
# what a type is as one by which values can be read, and the first that stands in the way of one that can't be
core Never : no value can be read by the type of no value
core Bool : Bool
core True : Bool
core Long : Long
core String : String
core any entity : no value can be read by the type of any entity
core Doc or User : no value can be read by a union of several entity types
core Doc : entity Doc
core rank : extension rank
core any set : empty set
core Set of Long : set
core Set of True : set
core Set of Never : no value can be read by the type of no value
core Set of {a: Doc, b?: rank} : set
core {} : record
core {..} : open record
core {a: True, b?: any set, ..} : open record a b?
core {b: Never, a: any entity} : no value can be read by the type of any entity
core {b: Doc or User, a: Long} : no value can be read by a union of several entity types
no_memory : out of memory
# a union of one entity type alone has it as its only one, and one of two has none
only Doc or Doc : Doc
only Doc or User : none
# of a repeated name the last stands; attributes come in the order of their names
of_required b: Long, a: Doc or User, b: String : __cedar::internal::OpenRecord{"a": __cedar::internal::Union<Doc, User>, "b": String}
# the same by a call of its own, and with attributes that aren't required
required b: Long, a: Doc, b: String : a: Doc b: String
attributes b: Long, a?: Bool, b?: String : a?: Bool b?: String
# of two facts, whether the second is in the union of sets of one each, and whether it is in their intersection; places don't count
facts principal ok | principal nick : yes no
facts principal ok | principal@3 ok : yes yes
facts principal ok | resource ok : yes no
# whether an answer without facts has a type, and whether it has this one and the other
success Long | Bool : yes yes no
# literals, sets and records are of a type as values are; unknowns, variables and operators are of none
asked Bool | true : yes
asked True | true : yes
asked True | false : no
asked Long | 1 : yes
asked Bool | 1 : no
asked Never | 1 : no
asked String | "a : yes
asked Long | "a : no
asked User | User::a : yes
asked Doc | User::a : no
asked any entity | User::a : yes
asked String | User::a : no
asked Set of Long | set=0 : yes
asked any set | set=0 : yes
asked Long | set=0 : no
asked Set of Long | 1 2 set=2 : yes
asked Set of Long | 1 "a set=2 : no
asked any set | 1 "a set=2 : yes
asked Set of {a: Long} | 1 record=a set=1 : yes
asked Set of {a: Long} | "b record=a set=1 : no
asked {a: Long} | 1 set=1 : no
asked {} | record= : yes
asked {a: Long} | 1 record=a : yes
asked {a: Long} | "b record=a : no
asked {a: Long} | 1 record=b : no
asked {a: Long} | 1 2 record=a,b : no
asked {a: Long, ..} | 1 2 record=a,b : yes
asked {a: Long, b?: Long} | 1 record=a : yes
asked {a: Long, b?: Long} | 1 2 record=a,b : yes
asked {a: Long, b?: Long} | 1 "c record=a,b : no
asked {a?: Bool, ..} | 1 record=a : no
asked Long | 1 record=a : no
asked Bool | $u : no
asked Bool | $u:Bool : no
asked {..} | $u record=a : yes
asked any entity | principal : no
asked any entity | ?principal : no
asked Bool | true ! : no
asked Long | 1 2 + : no
asked Bool | $u true && : no
asked Long | $u 1 2 if : no
asked String | User::a .name : no
asked Bool | User::a has=name : no
# the function that is lacking is told where an extension type is asked for, unless something before it isn't of its type
asked rank | call=other/0 : lacks other
asked Long | call=other/0 : no
asked Never | call=other/0 : no
asked Set of rank | call=other/0 set=1 : lacks other
asked Set of rank | 1 call=other/0 set=2 : no
asked {r: rank} | call=other/0 record=r : lacks other
asked {r: rank, s: Long} | call=other/0 record=r : no
asked {a: Bool, r: rank} | 1 call=other/0 record=a,r : no
asked {..} | call=other/0 record=r : yes
"#;

/// The first row on types that says something else, with what it says; nothing where all hold. Fails when out of memory.
pub fn wrong_type_row(alloc: Global) -> Result<String, AllocError> {
    for row in ROWS.lines() {
        if let Some((verb, rest, wanted)) = parted(row) {
            let mut said = String::new(alloc);
            done(alloc, &mut said, verb, rest)?;
            if said.as_str() != wanted {
                return format!(in alloc; "{row}: {said}");
            }
        }
    }
    Ok(String::new(alloc))
}
