//! The rows of all cases.
//!
//! Of the fragments they ask:
//! - `names`: the namespaces of each fragment, and the names of what each of them declares
//! - `means DUE NAME`: what a name means where an `entity`, a `common` type or `either` is due, or whether it may be a `parent`; a name
//!   `N/T` is `T`, written in the namespace `N`
//! - `checked`: whether a name that is written is reserved, and whether a name of the first fragment shadows another of it
//! - `marked entity NAME`: whether a name shadows another where this entity type is declared too, or, with `common NAME` or `action UID`,
//!   this common type or action
//! - `schema`: the entity types and actions of the schema that is built, each over what descends from it, or the refusal; with
//!   `schema_without` no extension type is known
//! - `steps`: the same by a call for each step, in the order of the declarations, without the checks of names
//!
//! And of the schema that was built last:
//! - `complete`: whether nothing is declared elsewhere
//! - `requests`: the types of principals of each action in turn, those of resources, and the environments
//! - `action_entities`: the actions as entities
//! - `attributes TYPE`, `attributes TYPE | NAME`: all attributes of a type, or what is declared of one for all its values
//! - `places`: the common types, namespaces, entity types and actions, with their places and those of attributes
//! - `validate`: whether it is sound, or, in `validate A < B; B | Action::a`, the one with these entity types and actions, where the name
//!   behind a `<` is of what descends, and `Color` has members; with `validate_without` no extension type is known

ghost use Rattle.std.specs.Prelude.{◌≡◌, Err};
ghost use Rattle.cedar_expr_functions.specs.declared.err.CallFault.TheVariants.{OutOfMemory};

use crate::desk;
use cedar_expr_functions::{
    CallFault, CallStyle, Extension, ExtensionFunction, ExtensionOutputValue, Extensions, Func,
};
use cedar_expr_values::{ExtValue, Type, Value};
use cedar_test_exprs::{made, name};
use std::alloc::{AllocError, Global};

// The extension type `rank` is known, and no other.
const ROWS: &str = r#"## what fragments declare, and what names mean by it
# what is declared in a namespace stands under its full name
enum C | c
extern D
action view
namespace N::M
entity B
entity A | B
type T | A
action view
action edit
names => -; N::M; types entities C D actions Action::"view"; types N::M::T entities N::M::A N::M::B actions N::M::Action::"edit" N::M::Action::"view"
# so does a common type alone, and one of a list
common A | Long
fragment
commons B | Long
names => -; types A entities actions; -; types B entities actions
# what a namespace declares is the same by a call of its own
apart N::M
entity A
type T | A
action view
names => N::M; types N::M::T entities N::M::A actions N::M::Action::"view"
# no fragment declares nothing
names =>
# what several fragments declare is declared together
namespace N
type T | Long
fragment
namespace M
extern T
fragment
enum User | a
means either N/T => N::T
means either User => User
means entity M::T => M::T
# a name means what its own namespace declares, and else what the empty one does
entity User
namespace N
entity User
means entity N/User => N::User
means entity M/User => User
means entity N::User => N::User
means entity User => User
# a name without a namespace means nothing of another one, and a name with a namespace means that name and no other
entity User
namespace N::M
entity Bot
means entity Bot => failed to resolve type: Bot
means entity N/M::User => failed to resolve type: M::User
# of a name with a namespace too
namespace M
entity User
namespace N::M
entity User
means entity N/M::User => M::User
# an entity type and a common type of one name are two
entity User
type T | Long
namespace N
type User | Long
entity T
means entity N/User => User
means common N/User => N::User
means common N/T => T
means common User => failed to resolve type: User
# where either may stand the namespace counts before the kind, and at each of the two both have one name
type User | Long
namespace N
entity User
type Both | Long
entity Both
means either N/User => N::User
means either M/User => User
means either N/Both => N::Both
# an action is no type
action User
means either User => failed to resolve type: User
# a parent is an entity type
entity User
namespace N
type User | Long
means parent N/User => passed
means parent N::User => failed to resolve type: N::User
# names that shadow nothing, and texts that are no reserved names
action view
entity N
entity User | Group | __cedar: Long
type User | Long
enum Color | __cedar
namespace N
action edit
entity view
entity cedar | _cedar, __cedar_
action __cedar
namespace M
action edit
entity view
checked => passed; passed
# a type of a namespace may not have the last name of a type of the empty one, of whatever kind; the first in the order of names is told
entity C
entity B
entity A
namespace N::M
entity B
entity A
action view
checked => passed; definition of `N::M::A` illegally shadows a type of the empty namespace
# common types count before entity types
entity A
type B | Long
namespace N
entity A
type B | Long
checked => passed; definition of `N::B` illegally shadows a type of the empty namespace
# an action of a namespace may not have the id of one of the empty namespace
action view
namespace N
action view
checked => passed; definition of `N::Action::"view"` illegally shadows an action of the empty namespace
# no name is reserved: not that of a declaration
enum __cedar | red
checked => the name `__cedar` is reserved; passed
# not that of a namespace
namespace N::__cedar
entity User
checked => the name `N::__cedar::User` is reserved; passed
# nor one that is written, where that of a common type comes before an entity type, and this before an action
action view |  | __cedar::C | Doc | {}
entity User | __cedar::B
type T | Set of {a: {b: Long, c: common __cedar::A}}
checked => the name `__cedar::A` is reserved; passed
# of an entity type the parents come first
entity User | M::__cedar | a: __cedar::B | extension __cedar::ip
checked => the name `M::__cedar` is reserved; passed
# of an action too
action view | __cedar::A read | __cedar::B | Doc | {}
checked => the name `__cedar::A` is reserved; passed
# what shadows is looked for in the first fragment alone, and what is reserved in each
namespace N
entity User
fragment
entity User
type T | __cedar
checked => the name `__cedar` is reserved; passed
# a type or an action of the empty namespace that is marked as declared counts as one
namespace N
entity User
type T | Long
action view
marked entity Bot => passed
marked entity User => definition of `N::User` illegally shadows a type of the empty namespace
marked common T => definition of `N::T` illegally shadows a type of the empty namespace
marked action Action::view => definition of `N::Action::"view"` illegally shadows an action of the empty namespace
## schemas that are built, all at once and step by step, and those that are refused, with the numbers of the faults
# nothing is built of nothing
schema =>
steps =>
complete => yes
# a schema has its entity types and actions in the order of their names
entity User |  | boss: User, ok: Bool, nick?: String
entity Doc |  | owner: User
action view |  | User | Doc | {}
schema => Doc owner: User over; User boss: User nick?: String ok: Bool over; Action::"view" for User on Doc with {} over
steps => Doc owner: User over; User boss: User nick?: String ok: Bool over; Action::"view" for User on Doc with {} over
# whatever the order of the declarations and the fragments that they are split among
action view |  | User | Doc | {}
entity User |  | boss: User, ok: Bool, nick?: String
fragment
entity Doc |  | owner: User
schema => Doc owner: User over; User boss: User nick?: String ok: Bool over; Action::"view" for User on Doc with {} over
steps => User boss: User nick?: String ok: Bool over; Doc owner: User over; Action::"view" for User on Doc with {} over
# each entity type and each action has all that descend from it
entity A
entity B | A
entity C | A
entity D | B, C
action a
action b | Action a
action c | Action a
action d | Action b, Action c
schema => A over B C D; B over D; C over D; D over; Action::"a" for on with {} over Action::"b" Action::"c" Action::"d"; Action::"b" for on with {} over Action::"d"; Action::"c" for on with {} over Action::"d"; Action::"d" for on with {} over
# an entity type may descend from itself, straight or by way of another
entity A | A
entity B | A
entity C | D
entity D | C
schema => A over A B; B over; C over C D; D over C D
# a name means what its own namespace declares, and else what the empty one does
entity User
enum Color | red, green, red
type T | Long
action read
namespace N
type A | Set of B
type B | T
entity Bot | User, Group | c: Color, t: T | A
extern Group | Group
action all
action view | Action read, N::Action all | User | Bot | {a: A, b?: entity User}
outside write | Action all
schema => Color of green red over; N::Bot c: Color t: Long tags Set<Long> over; N::Group elsewhere over N::Bot N::Group; User over N::Bot; Action::"read" for on with {} over N::Action::"view"; N::Action::"all" for on with {} over N::Action::"view" N::Action::"write"; N::Action::"view" for User on N::Bot with {"a": Set<Long>, "b"?: User} over; N::Action::"write" elsewhere for on with {} over
steps => Color of green red over; User over N::Bot; N::Bot c: Color t: Long tags Set<Long> over; N::Group elsewhere over N::Bot N::Group; Action::"read" for on with {} over N::Action::"view"; N::Action::"all" for on with {} over N::Action::"view" N::Action::"write"; N::Action::"view" for User on N::Bot with {"a": Set<Long>, "b"?: User} over; N::Action::"write" elsewhere for on with {} over
# types nest, and those that a common type uses are replaced, in whatever order they are declared
type A | Set of B
type B | {c: C, d?: {e: Bool, f: String}}
type C | entity User
entity User |  | a: A, e: Set of {f: {g: Set of {}}} | Set of common C
steps => User a: Set<{"c": User, "d"?: {"e": Bool, "f": String}}> e: Set<{"f": {"g": Set<{}>}}> tags Set<User> over
# where either may stand the common type is meant, and where an entity type stands that
type Both | Long
entity Both |  | a: Both, b: entity Both, c: common Both
schema => Both a: Long b: Both c: Long over
# the types that an action applies to, each once, and its context as a closed record
entity User
entity Doc
type T | {n: Long}
action a |  | User, Doc, User | Doc | T
schema => Doc over; User over; Action::"a" for Doc User on Doc with {"n": Long} over
# attributes, tags and contexts may have an extension type that a function gives
type T | Set of extension rank
entity Doc |  | r: extension rank, s?: {r: extension rank}
entity User |  |  | T
action view |  | User | Doc | {r?: extension rank}
schema => Doc r: rank s?: {"r": rank} over; User tags Set<rank> over; Action::"view" for User on Doc with {"r"?: rank} over
steps => Doc r: rank s?: {"r": rank} over; User tags Set<rank> over; Action::"view" for User on Doc with {"r"?: rank} over
validate => passed
# a common type alone, and one of a list, whose names stand for what they mean in a namespace
entity User |  | a: A, b: B
type T | Long
namespace N
type S | String
fragment
common A | Set of T
fragment
commons B | {s: N/S}
schema => User a: Set<Long> b: {"s": String} over
# a refusal leaves the schema that was built before
entity User
schema => User over
extern X | Y
schema => refused 4: failed to resolve type: Y
complete => yes
# 1: an entity type is declared twice, with what is the same or not
entity User |  | boss: User
namespace N
entity Bot
fragment
enum User | a
namespace M
entity Bot
schema => refused 1: duplicate entity type `User`
steps => duplicate entity type `User`
# 2: a common type
type T | Long
namespace N
type S | Long
fragment
type T | Long
namespace M
type S | Long
schema => refused 2: duplicate common type `T`
steps => duplicate common type `T`
# 3: an action
namespace N
action a
action b
fragment
namespace M
action b
fragment
namespace N
outside b | Action a
schema => refused 3: duplicate action `N::Action::"b"`
steps => duplicate action `N::Action::"b"`
# 4: a type that isn't declared, as a parent
extern X
entity User | Missing
schema => refused 4: failed to resolve type: Missing
# deep in an attribute
entity User |  | a: {b: Set of {c: M::Missing}}
schema => refused 4: failed to resolve type: M::Missing
steps => failed to resolve type: M::Missing
# in a common type
type T | Set of common User
entity User
schema => refused 4: failed to resolve type: User
# as a resource of an action
entity User
action view |  | User | Missing | {}
schema => refused 4: failed to resolve type: Missing
# 5: an action that isn't declared
action read
outside view | Action read, N::Action edit
schema => refused 5: failed to resolve action: N::Action::"edit"
steps => failed to resolve action: N::Action::"edit"
# 6: a common type that uses itself
type S | Long
type T | {t: Set of T, s: S}
schema => refused 6: cycle in common type references: T
steps => cycle in common type references: T
# two that use each other
type T | common U
type U | common T
schema => refused 6: cycle in common type references: T
# 7: an action that descends from itself
action all | Action own
action own | Action own
schema => refused 7: cycle in action hierarchy containing `Action::"own"`
steps => cycle in action hierarchy containing `Action::"own"`
# two that descend from each other
action a | Action b
action b | Action a
schema => refused 7: cycle in action hierarchy containing `Action::"a"`
# 8: an entity type under the name of the types of actions
entity User
namespace N::M
enum Action | view
schema => refused 8: entity type `N::M::Action` is declared as the type of actions
# of those of the empty namespace too
entity Action
schema => refused 8: entity type `Action` is declared as the type of actions
# 9: a context that is no record
entity User
action edit |  | User | User | {}
action view |  | User | User | Set of {}
schema => refused 9: context of `Action::"view"` is not a record
steps => User over; context of `Action::"view"` is not a record
# or a number
entity User
action view |  | User | User | Long
schema => refused 9: context of `Action::"view"` is not a record
# 10: a reserved name, of an entity type
entity __cedar
schema => refused 10: the name `__cedar` is reserved
steps => the name `__cedar` is reserved
# deep in an attribute
entity User |  | a: {b: {c: entity __cedar::A}}
schema => refused 10: the name `__cedar::A` is reserved
# of a principal
namespace __cedar
entity A
fragment
action view |  | __cedar::A | __cedar::A | {}
schema => refused 10: the name `__cedar::A` is reserved
steps => the name `__cedar::A` is reserved
# of an extension type
type T | extension __cedar::rank
schema => refused 10: the name `__cedar::rank` is reserved
steps => the name `__cedar::rank` is reserved
# of the types of actions of a namespace
namespace N::__cedar
action view
schema => refused 10: the name `N::__cedar::Action` is reserved
steps => the name `N::__cedar::Action` is reserved
# 11: a type that shadows one of the empty namespace
entity T
namespace N
type T | Long
schema => refused 11: definition of `N::T` illegally shadows a type of the empty namespace
# one of its own kind
entity User
namespace N
entity User
schema => refused 11: definition of `N::User` illegally shadows a type of the empty namespace
# an action
action view
namespace N
action edit
action view
schema => refused 11: definition of `N::Action::"view"` illegally shadows an action of the empty namespace
# 12: an extension type that isn't known, in a common type
type T | {b: extension x, a: {b: Long, c: Set of {d: extension N::rank}}}
schema => refused 12: unknown extension type `N::rank`
steps => unknown extension type `N::rank`
# in an attribute and in a context
entity User |  | a: Set of {b: {r: extension ip}}
action view |  | User | User | {r: extension ip}
schema => refused 12: unknown extension type `ip`
steps => unknown extension type `ip`; unknown extension type `ip`
# in an attribute, where no function is known
entity User |  | a: extension rank
schema => User a: rank over
schema_without => refused 12: unknown extension type `rank`
# what graphs of names are refused for
refusal repeated => repeated name
refusal cycle => cycle in graph
refusal repeated memory => out of memory
refusal cycle memory => out of memory
## what is read from a built schema
# users, bots that descend from them, groups above both, documents, colors, and actions in groups
entity Group
entity User | Group | name: String, age?: Long | Set of Long
entity Bot | User
enum Color | red
entity Doc
action all
action read | Action all
action view | Action read | User, Bot | Doc | {by?: Color}
action edit | Action all | User | Doc, Color | {}
schema => Bot over; Color of red over; Doc over; Group over Bot User; User age?: Long name: String tags Set<Long> over Bot; Action::"all" for on with {} over Action::"edit" Action::"read" Action::"view"; Action::"edit" for User on Color Doc with {} over; Action::"read" for on with {} over Action::"view"; Action::"view" for Bot User on Doc with {"by"?: Color} over
requests => User Bot User; Color Doc Doc; User Action::"edit" Color; User Action::"edit" Doc; Bot Action::"view" Doc; User Action::"view" Doc
action_entities => Action::"all" in; Action::"edit" in Action::"all"; Action::"read" in Action::"all"; Action::"view" in Action::"all" Action::"read"
complete => yes
attributes context Action::view => {"by"?: Color}
attributes context Action::view | by => Color, perhaps
attributes context Action::view | at => not there
# the empty schema has nothing
requests =>
action_entities =>
places =>
complete => yes
# a schema in which something is declared elsewhere isn't complete: entity types come before actions
entity A | X
extern X
extern B
outside view
schema => A over; B elsewhere over; X elsewhere over A; Action::"view" elsewhere for on with {} over
complete => refused 13: entity type `B` is declared elsewhere
# an action alone
enum A | a
namespace N
outside view
schema => A of a over; N::Action::"view" elsewhere for on with {} over
complete => refused 13: action `N::Action::"view"` is declared elsewhere
# the attributes of an entity type are those that it declares; one with members alone has none, and one that isn't declared
entity User |  | name: String, age?: Long, rank: Long, boss: User
entity Bot |  | name: String, age: Long, rank: String, boss: Bot, model: String
enum Color | red
schema => Bot age: Long boss: Bot model: String name: String rank: String over; Color of red over; User age?: Long boss: User name: String rank: Long over
attributes User => {"age"?: Long, "boss": User, "name": String, "rank": Long}
attributes Color => {}
attributes Team => {}
attributes User | rank => Long
attributes User | model => not there
attributes Team | name => not there
# those of a union all its members declare, with types that join, required where all require them; of any entity nothing is known
entity User |  | age?: Long, rank: Long, boss: User
entity Bot |  | age: Long, rank: String, boss: Bot, model: String
enum Color | red
schema => Bot age: Long boss: Bot model: String rank: String over; Color of red over; User age?: Long boss: User rank: Long over
attributes User or Bot => {"age"?: Long, "boss": __cedar::internal::Union<Bot, User>}
attributes Bot or Color => {}
attributes any entity => {}
attributes User or Bot | age => Long, perhaps
attributes User or Bot | rank => not known
attributes User or Bot | model => not known
attributes User or Bot | other => not there
attributes any entity | age => not known
# common types and namespaces are listed in the order of their names, each once, whichever fragments have them; the empty namespace
# isn't listed, nor is one in which nothing is declared
namespace B::C
type T | Long
namespace A
type U | Bool
entity X
fragment
type Top | String
namespace A
type T | Long
namespace D
entity Z
namespace E
schema => A::X over; D::Z over
places => A::T; A::U; B::C::T; Top; A; B::C; D; A::X; D::Z
# names and definitions keep their places, and attributes too: those of records in others, and those of a common type
namespace N@10@20
type T@30@40 | {d@41: Long}
entity User@50 |  | a@51: {b@52: Long}
action view@60 |  | User | User | {c@61: common T}
schema => N::User a: {"b": Long} over; N::Action::"view" for N::User on N::User with {"c": {"d": Long}} over
places => N::T @30-31 @40-41; N @10-11 @20-21; N::User @50-51 a @51-52 b @52-53; N::Action::"view" @60-61 c @61-62 d @41-42
## what is wrong with a schema
# a schema of fragments is what it has to be
entity Group | Group
entity User | Group | name: String, boss?: User | Set of Long
entity Bot | User
extern Doc | Group
action all
action read | Action all
action view | Action read | User, Bot | Doc | {by?: Bot}
schema => Bot over; Doc elsewhere over; Group over Bot Doc Group User; User boss?: User name: String tags Set<Long> over Bot; Action::"all" for on with {} over Action::"read" Action::"view"; Action::"read" for on with {} over Action::"view"; Action::"view" for Bot User on Doc with {"by"?: Bot} over
validate => passed
# so is the empty one
validate => passed
# and some that are made by hand
validate A < A | Action::a => passed
validate A < B; B | Action::a < Action::b; Action::b => passed
validate Color | Action::a => passed
# an extension type has to be known
entity User |  |  | extension rank
schema => User tags rank over
validate_without => unknown extension type `rank`
# an entity type that descends from another has to be declared, and so has an action
validate A < B | Action::a => entity type `B` is not declared
validate A | Action::a < Action::b => action `Action::"b"` is not declared
# no entity type has the name of the types of actions, and an action's type has it
validate N::Action | Action::a => entity type `N::Action` has the name of the types of actions
validate A | Task::a => action `Task::"a"` has a type that is not one of actions
# a context is a closed record
validate A | Action::long => the context of action `Action::"long"` is not a closed record
# no action descends from itself
validate A | Action::a < Action::a => action `Action::"a"` descends from itself
# what descends from what descends is there too
validate A < B; B < C; C | Action::a => entity type `C` is left out of what descends from `A`
validate A < B; B < A | Action::a => entity type `A` is left out of what descends from `A`
validate A | Action::a < Action::b; Action::b < Action::c; Action::c => action `Action::"c"` is left out of what descends from `Action::"a"`
"#;

// It never has memory.
fn exhausted(_alloc: Global, _args: &[Value<ExtValue>]) -> Result<ExtensionOutputValue, CallFault>
    ensures { result ≡ Err OutOfMemory }
{
    Err(CallFault::OutOfMemory)
}

// What fragments declare, the schemas that are built of them, with an extension type that a function of the table gives, what is read
// from a built schema, and what is wrong with one.
/// The first row that says something else, with what it says; nothing where all hold. Fails when out of memory.
pub fn wrong_row(alloc: Global) -> Result<String, AllocError> {
    let func: Func = Box::new(
        alloc,
        |alloc: Global, args: &[Value<ExtValue>]| exhausted(alloc, args),
    )?;
    let rank = Type::Extension {
        name: name(alloc, "rank")?,
    };
    let style = CallStyle::FunctionStyle;
    let called = name(alloc, "least")?;
    let mut functions = Vec::new(alloc);
    functions.push(ExtensionFunction::nullary(alloc, called, style, func, rank))?;
    let extensions = [Extension::new(name(alloc, "ranks")?, functions, Vec::new(alloc))];
    let table = made(Extensions::specific_extensions(alloc, &extensions))?;
    desk::wrong_row(alloc, ROWS, &table)
}
