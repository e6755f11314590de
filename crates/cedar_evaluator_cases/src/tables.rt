//! The table of functions of the tests, and their rows.

ghost use Rattle.std.specs.Prelude.{◌≡◌, true, Some, None, option_map, IfSome};
ghost use Rattle.cedar_expr_model.specs.Name.{name_read};
ghost use Rattle.cedar_expr_model.specs.Tree.{bool_core};
ghost use Rattle.cedar_expr_model.specs.Value.{prim, truth};
ghost use Rattle.cedar_expr_model.specs.Table.{gives, fails};
ghost use Rattle.cedar_expr_functions.specs.Answers.{answer, is_of_result};

use crate::desk::Made;
use crate::kinds::KINDS;
use crate::rows::first_wrong;
use crate::stores::STORES;
use crate::world::WORLD;
use cedar_expr_functions::{
    CallFault, CallStyle, Extension, ExtensionFunction, ExtensionOutputValue, Extensions, Func,
};
use cedar_expr_leaves::Literal;
use cedar_expr_names::Name;
use cedar_expr_values::{ExtValue, Type, Value};
use cedar_test_exprs::{made, name};
use std::alloc::Global;

type V = Value<ExtValue>;

// It answers `true`, whatever it is asked.
fn yes(_alloc: Global, _args: &[V]) -> Result<ExtensionOutputValue, CallFault>
    ensures answers { answer result ≡ Some (gives (prim (truth true))) }
    ensures own { is_of_result (Some bool_core) result ≡ true }
{
    Ok(ExtensionOutputValue::Known(Value::from(Literal::from(true))))
}

// It always fails, as one of the extension of this name.
fn failing(alloc: Global, extension: &str) -> Result<ExtensionOutputValue, CallFault>
    ensures answers { IfSome (answer result) (λ c. option_map fails (name_read extension.now) ≡ Some c) }
    ensures own { is_of_result (Some bool_core) result ≡ true }
{
    let Ok(extension_name) = Name::from_normalized_str(alloc, extension) else {
        return Err(CallFault::OutOfMemory);
    };
    Err(CallFault::Fault {
        extension_name,
        message: String::from_str(alloc, "no")?,
        advice: None,
    })
}

const RESTRICTED: &str = r##"# literals, unknowns, calls, sets and records alone are restricted
restricted 1 : done
restricted $t:Bool : done
restricted "a call=yes/1 : done
restricted 1 true set=2 $t record=a,b : done
borrowed 1 true set=2 $t record=a,b : done
restricted principal : not allowed to use variables in a restricted expression
borrowed context : not allowed to use variables in a restricted expression
restricted ?principal : not allowed to use template slots in a restricted expression
restricted true 1 2 if : not allowed to use if-then-else in a restricted expression
restricted $t true && : not allowed to use && in a restricted expression
restricted $t true || : not allowed to use || in a restricted expression
restricted true ! : not allowed to use ! in a restricted expression
restricted 1 neg : not allowed to use - in a restricted expression
restricted set=0 isEmpty : not allowed to use isEmpty in a restricted expression
restricted 1 2 == : not allowed to use == in a restricted expression
restricted 1 2 < : not allowed to use < in a restricted expression
restricted 1 2 <= : not allowed to use <= in a restricted expression
restricted 1 2 + : not allowed to use + in a restricted expression
restricted 1 2 - : not allowed to use - in a restricted expression
restricted 1 2 * : not allowed to use * in a restricted expression
restricted User::a User::b in : not allowed to use in in a restricted expression
restricted set=0 1 contains : not allowed to use contains in a restricted expression
restricted set=0 set=0 containsAll : not allowed to use containsAll in a restricted expression
restricted set=0 set=0 containsAny : not allowed to use containsAny in a restricted expression
restricted User::a "b getTag : not allowed to use getTag in a restricted expression
restricted User::a "b hasTag : not allowed to use hasTag in a restricted expression
restricted User::a .b : not allowed to use attribute accesses in a restricted expression
restricted User::a has=b : not allowed to use 'has' in a restricted expression
restricted User::a has=b.c : not allowed to use 'has' in a restricted expression
restricted "a like=* : not allowed to use 'like' in a restricted expression
restricted User::a is=User : not allowed to use 'is' in a restricted expression
- the first that is refused, a node before its children, children in order
restricted 1 principal true ! record=a,b,c : not allowed to use variables in a restricted expression
part 1 principal true ! record=a,b,c : principal
part true ! principal set=2 : true !
part 1 ?resource call=f/2 : ?resource
part principal .a : principal .a
part 1 : nothing is refused
# the type that an expression shows
type 1 : long
type $t : none
type $t:Bool : bool
type "a call=yes/1 : bool
type 1 set=1 : set
# what stands in a set, a record and a call: whole numbers, behind the names of fields or that of the function
held 2 1 set=2 : 2 1
held 2 1 record=b,a : a 1 b 2
held 2 1 call=f/2 : f 2 1
# copies
copy 1@4 set=1@3 : yes yes @3
# made of parts
set 1 | $t : 1 $t set=2
set  : set=0
record b 1 | a $t : $t 1 record=a,b
record foo 37 | foo "hello : duplicate key `foo` in record literal
record foo 37 | foo 101 : duplicate key `foo` in record literal
record foo 37 | foo 37 : duplicate key `foo` in record literal
record bar -3 | foo 37 | spam "eggs | foo 37 | eggs "spam : duplicate key `foo` in record literal
record a 1 | b 2 | a 3 | b 4 : duplicate key `a` in record literal
call f | 1 | true : 1 true call=f/2
of_value 1 2 set=2 "x record=a,b : 1 2 set=2 "x record=a,b
of_value ext=rank/"7/7 : "7 call=rank/1
of_kind User::a : User::a
of_call rank "12 : "12 call=rank/1
of_left value 1 : 1
of_left $t set=1 : $t set=1
of_left $t principal set=2 : residual is not a valid restricted expression
"##;

const CONTEXTS: &str = r##"# contexts are records
empty ; context : value record=
empty ; fields : IntoIter(<context>)
from_expr 1 : expression is not a record
from_expr "1 : expression is not a record
from_expr "a call=yes/1 : expression is not a record
from_expr $t : expression is not a record
from_expr 2 1 record=b,a ; context : value 1 2 record=a,b
from_expr 2 $t record=b,a ; context : residual $t 2 record=a,b
from_expr 2 $t record=b,a ; whole : $t 2 record=a,b
from_expr 2 1 record=b,a ; whole : 1 2 record=a,b
from_expr 2 $t record=b,a ; fields : IntoIter(<context>) a unknown("t") b 2
from_expr 2 1 record=b,a ; fields : IntoIter(<context>) a 1 b 2
from_expr "a call=yes/1 record=a ; context : value true record=a
from_expr $t call=yes/1 record=a ; context : residual $t call=yes/1 record=a
from_expr "a call=none/1 record=a : extension function `none` does not exist
from_expr "a call=fail/1 record=a : error while evaluating `rank` extension function: no
from_expr 1 call=yes/1 record=a : type error: expected string, got long
from_expr call=yes/0 record=a : wrong number of arguments provided to extension function `yes`: expected 1, got 0
# of pairs
from_pairs b 2 | a $t ; context : residual $t 2 record=a,b
from_pairs foo 1 | foo 1 : duplicate key `foo` in context
from_pairs foo 1 | bar $t | foo "x : duplicate key `foo` in context
from_pairs a "x call=fail/1 : error while evaluating `rank` extension function: no
from_pairs a $t | b 1 call=yes/1 : type error: expected string, got long
from_pairs  ; context : value record=
# values in the place of unknowns
let t 3 ; from_expr 2 $t record=b,a ; substitute ; context : value 3 2 record=a,b
from_expr 2 $t $u record=b,a,c ; substitute ; context : residual 3 2 $u record=a,b,c
- no annotation is asked
from_expr $t:Bool record=a ; substitute ; context : value 3 record=a
- a context of values stays as it is
from_expr 1 record=a ; substitute ; context : value 1 record=a
from_expr $t call=yes/1 record=a ; substitute : type error: expected string, got long
from_expr $t call=none/1 record=a ; substitute : extension function `none` does not exist
# restricted expressions are evaluated
interpret 2 1 2 set=3 : 1 2 set=2
interpret "a call=yes/1 : true
interpret $t set=1 : the expression contains unknown(s)
partial_interpret $t 1 set=2 : residual $t 1 set=2
partial_interpret "a call=yes/1 $t set=2 : residual true $t set=2
partial_interpret "a call=yes/1 set=1 : value true set=1
"##;

const REQUESTS: &str = r##"# what the variables of requests are
variable principal User::a : value User::a
variable action ? : residual $action
# requests
empty ; new User::a Action::view Doc::d ; kind : User Action::"view" Doc
request User::a Action::view ? ; kind : none
asked_of_all User::a Action::view ?Doc ; kind : none
empty ; asked_of_all User::a Action::view Doc::d ; passes ; kind : yes User Action::"view" Doc
request User::a Action::view Doc::d ; kind : User Action::"view" Doc
"##;

/// The first row that says something else, with what it says; nothing where all hold. `yes` is always true, and `fail` always fails.
/// Fails when out of memory.
#[tactic(auto, using(crate::proofs::Alike::fails_alike))]
pub fn wrong_row(alloc: Global) -> Made<String> {
    let style = CallStyle::FunctionStyle;
    let mut functions = Vec::new(alloc);
    let called = name(alloc, "yes")?;
    let func: Func = Box::new(alloc, |alloc: Global, args: &[V]| yes(alloc, args))?;
    let asked = ExtensionFunction::unary(alloc, called, style, func, Type::Bool, Type::String)?;
    functions.push(asked)?;
    let called = name(alloc, "fail")?;
    let func: Func = Box::new(alloc, |alloc: Global, _args: &[V]| failing(alloc, "rank"))?;
    let asked = ExtensionFunction::unary(alloc, called, style, func, Type::Bool, Type::String)?;
    functions.push(asked)?;
    let ordered = vec![in alloc; name(alloc, "rank")?]?;
    let extensions = [Extension::new(name(alloc, "rank")?, functions, ordered)];
    let table = made(Extensions::specific_extensions(alloc, &extensions))?;
    let texts = [RESTRICTED, CONTEXTS, REQUESTS, KINDS, STORES, WORLD];
    first_wrong(alloc, &table, &texts)
}
