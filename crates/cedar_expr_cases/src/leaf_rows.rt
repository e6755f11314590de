//! The rows on names, leaves and values.

use crate::leaves;
use cedar_test_exprs::parted;
use std::alloc::{AllocError, Global};

const ROWS: &str =
    r#"# whether an id, an unreserved id, any id, an internal name, a name and a raw name are read from a text, and whether an internal name, a
# name and a raw name without a namespace are: `+` it is, `-` it writes none, `r` it is reserved
read _a9 : ++++++ +++
read a_1 : ++++++ +++
read If : ++++++ +++
read __cedar : +r++r+ +r+
read if : --+--- ---
read has : --+--- ---
read true : --+--- ---
read 9a : ------ ---
read 1a : ------ ---
read a b : ------ ---
read é : ------ ---
read : ------ ---
read a::b : ---+++ ---
read A::B : ---+++ ---
read __cedar::X : ---+r+ ---
read A:: : ------ ---
read ::A : ------ ---
read A:::B : ------ ---
read A:: B : ------ ---
read A::if : ------ ---
# whether a text is an identifier
ident a : yes
ident if : no
ident A::B : no
# copies of an id, an unreserved id, any id, an internal name, a name, an entity type and a raw name
copies a : a a a a a a a
# how names are shown, and how they are refused
name A::B : A::B
name a:: : not a normalized name
name __cedar::X : the name `__cedar::X` is reserved
name __cedar : the name `__cedar` is reserved
name A::__cedar : the name `A::__cedar` is reserved
borrowed A::B : A::B
borrowed A::__cedar : the name `A::__cedar` is reserved
unreserved a : a
unreserved __cedar : the name `__cedar` is reserved
no_memory : out of memory
# names of ids: two internal names and a name, and two raw names
makers T : __cedar T T T T
# a name of a namespace, by its parts and as a type
joined A T : A::T A::T
# the last part of a name, and its namespace
apart x : x nothing
apart a::x : x a
apart a::b::x : x a::b
# a name within a namespace: a name, and an internal one, as a name and as an internal one; and a raw one within both
within N::M a : N::M::a N::M::a N::M::a N::M::a N::M::a N::M::a
within N::M a::b : a::b a::b a::b a::b a::b a::b
within N::M a::b::c : a::b::c a::b::c a::b::c a::b::c a::b::c a::b::c
# what a raw name may stand for in a namespace, in order, behind the name; and a copy of one that stands for itself alone
possible A::B T : T A::B::T T
possible A::B C::T : C::T C::T
alone T : T T
# copies of a uid, of its type and of its id
uid User::a : User::"a" User a
uid A::B::a"b\é : A::B::"a\"b\\\u{e9}" A::B a"b\é
# the text of the uid of the type `User` whose id is an `a`, a quote, a `b`, a backslash, a line feed and an `é`
uid_of_lines : User::"a\"b\\\u{a}\u{e9}"
# a copy of a pattern; a `*` is a wildcard
pattern a*"é : a*\"\u{e9}
pattern : nothing
# whether a pattern matches a text, whole; a wildcard is any text, the empty one too
match f**r|foo bar : yes
match f**r|fr : yes
match f**r|foo bars : no
match *|foo : yes
match *r|foo : no
match | : yes
match |a : no
# copies of literals
literal true : true
literal -9223372036854775808 : -9223372036854775808
literal "a"b\ : "a\"b\\"
literal A::User::7 : A::User::"7"
string : ""
string x : "x"
# a copy of the literal of a uid keeps its place
reference A::User::8@3 : A::User::"8" @3
reference A::User::8 : A::User::"8" @nowhere
# whether two values are the same, by each way to compare them, which places don't count for; whether they stand at one place too; and whether
# they are the same keys
same 1 2 set=2 | 2 1 1 set=3 : yes yes yes yes yes
same 1 2 set=2 set=1 | 2 1 1 set=3 set=1 : yes yes yes yes yes
same 1 2 set=2 set=1 | 1 2 set=2 : no no no no no
same 1 2 3 record=b,a,b | 2 3 record=a,b : yes yes yes yes yes
same 1 2 3 record=b,a,b | 2 1 record=a,b : no no no no no
same 1@4 set=1@3 | 1 1 set=2 : yes yes yes no yes
same 1@4 set=1@3 | 1 1 set=2@3 : yes yes yes yes yes
same ext=decimal/"1.0/1 | ext=decimal/"1.00/1 : yes yes yes yes yes
same ext=decimal/"1.0/1 | ext=decimal/"2.0/2 : no no no no no
same 1 | true : no no no no no
same 1 set=1 2 set=1 set=2 | 2 set=1 1 set=1 2 set=1 set=3 : yes yes yes yes yes
same 1 set=1 2 set=1 set=2 | 1 set=1 3 set=1 set=2 : no no no no no
same 1 record=a 2 record=a set=2 | 2 record=a 1 record=a set=2 : yes yes yes yes yes
same 1 record=a 2 record=a set=2 | 1 record=a 2 record=b set=2 : no no no no no
same ext=decimal/"1.0/1 set=1 record=a | ext=decimal/"1.00/1 set=1 record=a : yes yes yes yes yes
same ext=decimal/"1.0/1 set=1 record=a | ext=decimal/"1.0/2 set=1 record=a : no no no no no
# how many members a set has, how many of them are hashed as literals (`none` where one is no literal), and whether it has a value
asked 1 2 1 set=3 | 2 : 2 2 yes
asked 1 2 1 set=3 | 3 : 2 2 no
asked 1 2 1 set=3 | 1 set=1 : 2 2 no
asked true 1 "a User::a set=4 | "a : 4 4 yes
asked true 1 "a User::a set=4 | User::a : 4 4 yes
asked 1 1 record=a set=2 | 1 record=a : 2 none yes
asked 1 1 record=a set=2 | 1 : 2 none yes
asked 1 1 record=a set=2 | 2 : 2 none no
asked 1 set=1 2 set=1 set=2 | 2 set=1 : 2 none yes
asked ext=decimal/"1.0/1 set=1 | ext=decimal/"1.00/1 : 1 none yes
asked set=0 | 1 : 0 0 no
# the members of a set of literals, each once, in rising order
from_literals 2 1 2 : 1 2
# whether the one set is a subset of the other, the other of the one, and whether they are disjoint, asked of each; also where one has many
# more members
sides 1 2 set=2 | 3 2 1 set=3 : yes no no no
sides 1 2 set=2 | 2 1 set=2 : yes yes no no
sides 1 2 set=2 | 3 4 set=2 : no no yes yes
sides 1 1 set=1 set=2 | 1 set=1 2 1 set=3 : yes no no no
sides set=0 | 1 set=1 : yes no yes yes
sides set=0 | set=0 : yes yes yes yes
sides 7 set=1 | 1 2 3 4 5 6 7 8 9 10 11 12 13 14 15 16 17 18 19 20 21 22 23 24 25 26 27 28 29 30 31 32 33 34 35 36 37 38 39 40 set=40 : yes no no no
sides 41 set=1 | 1 2 3 4 5 6 7 8 9 10 11 12 13 14 15 16 17 18 19 20 21 22 23 24 25 26 27 28 29 30 31 32 33 34 35 36 37 38 39 40 set=40 : no no yes yes
sides 7 set=1 set=1 | 1 2 3 4 5 6 7 8 9 10 11 12 13 14 15 16 17 18 19 20 21 22 23 24 25 26 27 28 29 30 31 32 33 34 35 36 37 38 39 40 set=40 : no no yes yes
sides 7 set=1 | 1 2 3 4 5 6 7 8 9 10 11 12 13 14 15 16 17 18 19 20 21 22 23 24 25 26 27 28 29 30 31 32 33 34 35 36 37 38 39 40 true record=a set=41 : yes no no no
sides 41 7 set=2 | 1 2 3 4 5 6 7 8 9 10 11 12 13 14 15 16 17 18 19 20 21 22 23 24 25 26 27 28 29 30 31 32 33 34 35 36 37 38 39 40 set=40 : no no no no
# the type that a value shows, and a copy of that of its kind
type true : bool bool
type 7 : long long
type " : string string
type A::B::x : (entity of type `A::B`) (entity of type `A::B`)
type 1 set=1 : set set
type 1 record=a : record record
type ext=decimal/"1.0/1 : decimal decimal
# a copy of an extension value with a call that it is given: its call, its types, and whether it is the same
given unit 7 ext=decimal/"1.0/1 : unit 7 decimal decimal yes yes
# the uids of a value, at any depth, not those of calls and of texts
uids A::x B::x "A::y set=3 A::x ext=decimal/A::z/1 record=s,u,e set=1 : A::"x" B::"x"
uids 1 : nothing
# copies of values at the place 3 as they are made: sets have each member once, in rising order; fields stand by their names, of a repeated
# name the last
made empty_set : nothing @3
made empty_record : nothing @3
made set 2 1 2 : 1 2 @3
made literals 2 1 2 : 1 2 @3
made record b=1 a=2 b=3 : a 2 b 3 @3
made shared b=1 a=2 b=3 : a 2 b 3 @3
"#;

/// The first row on leaves that says something else, with what it says; nothing where all hold. Fails when out of memory.
pub fn wrong_leaf_row(alloc: Global) -> Result<String, AllocError> {
    for row in ROWS.lines() {
        if let Some((verb, rest, wanted)) = parted(row) {
            let mut said = String::new(alloc);
            leaves::done(alloc, &mut said, verb, rest)?;
            if said.as_str() != wanted {
                return format!(in alloc; "{row}: {said}");
            }
        }
    }
    Ok(String::new(alloc))
}
