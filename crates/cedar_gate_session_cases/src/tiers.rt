//! Cases over a table of the tests' own: its function `tier` makes tiers, which are ordered.

ghost use Rattle.std.specs.Prelude.{◌≡◌, true, Some};
ghost use Rattle.cedar_expr_functions.specs.Answers.{answer, is_of_result};
ghost use Rattle.cedar_expr_functions.specs.Signatures.{bare_values};
ghost use Rattle.cedar_expr_model.specs.Table.{gives};
ghost use Rattle.cedar_expr_model.specs.Tree.{extension_core};
ghost use Rattle.cedar_expr_values.specs.Extensions.{extension_of};
ghost use Rattle.cedar_expr_values.specs.Values.{bare};
ghost use Rattle.cedar_expr_names.specs.Views.{plain_name_of};
ghost use Rattle.std.specs.Prelude.{IfOk};
ghost use Rattle.cedar_gate_session_cases.specs.Tiers.{tier_name, tier_number, tier_written, tier_called, GivesTier};

use cedar_expr_functions::{
    CallFault, CallStyle, Extension, ExtensionFunction, ExtensionOutputValue, Extensions, Func,
};
use cedar_expr_names::Name;
use cedar_expr_values::{ExtValue, Literal, Type, Value, ValueKind};
use cedar_gate_cases::{Made, first_wrong};
use cedar_test_exprs::made;
use std::alloc::{AllocError, Global};
use std::process::Abort;
use std::rc::Rc;

type V = Value<ExtValue>;

// The tier that a text writes: one of those of the tests.
fn tier_written(text: &str) -> Option<u8>
    ensures { result ≡ tier_written text.now }
{
    if text == "007" || text == "7" {
        Some(7)
    } else if text == "9" {
        Some(9)
    } else if text == "10" {
        Some(10)
    } else {
        None
    }
}

// The tier that the only argument writes.
fn tier_number(args: &[V]) -> Option<u8>
    ensures { result ≡ tier_number (bare_values args.now) }
{
    match args {
        [arg] => match arg.value_kind() {
            ValueKind::Lit(Literal::String(text)) => tier_written(text.as_str()),
            _ => None,
        },
        _ => None,
    }
}

// The name `tier`.
fn tier_name(alloc: Global) -> Result<Name, AllocError>
    ensures { IfOk result (λ n. plain_name_of n ≡ tier_name) }
{
    match Name::parse_unqualified_name(alloc, "tier") {
        Ok(name) => Ok(name),
        Err(_) => Err(AllocError),
    }
}

// The tier of a number, written as the call of `tier` on this text.
fn tier_of(alloc: Global, number: u8, written: &str) -> Result<V, AllocError>
    ensures { IfOk result (λ v. gives (bare extension_of v) ≡ tier_called (Some number)) }
{
    let mut args = Vec::new(alloc);
    args.push(Literal::from_string(String::from_str(alloc, written)?)?)?;
    let mut key = Vec::new(alloc);
    key.push(number)?;
    let tier = ExtValue::new(tier_name(alloc)?, tier_name(alloc)?, args, key);
    Ok(Value::new(ValueKind::ExtensionValue(Rc::new(alloc, tier)?), None))
}

// The tier that the only argument writes. Where `honest`, it is written as a call that gives it again; else as one that gives 9.
fn tier(alloc: Global, args: &[V], honest: bool) -> Result<ExtensionOutputValue, CallFault>
    ensures answers { GivesTier (tier_number (bare_values args.now)) (answer result) }
    ensures own { is_of_result (Some (extension_core tier_name)) result ≡ true }
{
    match tier_number(args) {
        Some(number) => {
            let written = if honest && number == 7 {
                "7"
            } else if honest && number == 10 {
                "10"
            } else {
                "9"
            };
            Ok(ExtensionOutputValue::Known(tier_of(alloc, number, written)?))
        }
        None => Err(CallFault::Fault {
            extension_name: tier_name(alloc)?,
            message: String::from_str(alloc, "not a tier")?,
            advice: None,
        }),
    }
}

// Asserts that all rows of the text hold over a table with `tier`.
#[tactic(auto, using(crate::proofs::Alike::tiers_alike))]
fn hold_over_tiers(rt: &impl Abort, alloc: Global, honest: bool, text: &str) -> Made<()> {
    let called = tier_name(alloc)?;
    let given = Type::Extension {
        name: tier_name(alloc)?,
    };
    let style = CallStyle::FunctionStyle;
    let func: Func = Box::new(
        alloc,
        move |alloc: Global, args: &[V]| tier(alloc, args, honest),
    )?;
    let asked = ExtensionFunction::unary(alloc, called, style, func, given, Type::String)?;
    hold_by(rt, alloc, ordering_tiers(alloc, asked), text)
}

// The extension of this function, in which tiers are ordered.
fn ordering_tiers(alloc: Global, function: ExtensionFunction) -> Made<Extension> {
    let functions = vec![in alloc; function]?;
    let ordered = vec![in alloc; tier_name(alloc)?]?;
    Ok(Extension::new(tier_name(alloc)?, functions, ordered))
}

// Asserts that all rows of the text hold over the table of the extension.
fn hold_by(rt: &impl Abort, alloc: Global, extension: Made<Extension>, text: &str) -> Made<()> {
    let extension = extension?;
    let table = made(Extensions::specific_extensions(alloc, std::slice::from_ref(&extension)))?;
    let wrong = first_wrong(alloc, &table, text)?;
    assert_eq!(rt; wrong.as_str(), "");
    Ok(())
}

const TIERS: &str = r#"# tiers are ordered by their number, not by the text that was written
level 1
schema with_a_tier
store of_a_tier
permit low ["less",["get",["var","principal"],"r"],["call","tier","10"]]
request User::a Action::view User::a
accept : done
run : round User::"a" answer Allow low
by_hand : User::"a" Allow
open : done
wanted : User::"a"
decision : None
supply User::a : done
wanted : nothing
decision : Allow
answer : Allow low
# an attribute of the principal lies one step away
schema with_a_tier
store of_a_tier
permit low ["less",["get",["var","principal"],"r"],["call","tier","10"]]
accept : refused 12
violation : low requires 1 at principal .r
# a refused binding leaves the name open, and another value is taken
schema tier_in_context
store empty
permit low ["lesseq",["get",["var","context"],"r"],["call","tier","9"]]
request User::a Action::go User::a {"r":["call","tier",["unknown","t"]]}
accept : done
open : done
wanted : nothing
decision : None
bounds : must may low
answer : refused 1
bind t "abc : refused 4
decision : None
answer : refused 1
bind t 5 : refused 4
bind u "7 : refused 1
decision : None
bind t "7 : done
decision : Allow
bounds : must low may low
answer : Allow low
bind t "7 : refused 1
# a tier above the bound
schema tier_in_context
store empty
permit low ["lesseq",["get",["var","context"],"r"],["call","tier","9"]]
request User::a Action::go User::a {"r":["call","tier",["unknown","t"]]}
accept : done
open : done
bind t "10 : done
decision : Deny
answer : Deny
# a run stops at the binding that is refused
schema tier_in_context
store empty
permit low ["lesseq",["get",["var","context"],"r"],["call","tier","9"]]
request User::a Action::go User::a {"r":["call","tier",["unknown","t"]]}
accept : done
run decide t="abc decide : decided None stopped 4 since a binding is refused, by refusal 4
run decide t="7 decide : decided None bound t decided Allow answer Allow low
# a fault of a function is an error of the policy that calls it
schema plain
store empty
permit p ["less",["call","tier","x"],["call","tier","9"]]
request User::a Action::view User::a
accept : done
run : answer Deny error while evaluating policy `p`: error while evaluating `tier` extension function: not a tier
"#;

#[test]
fn tiers_are_bound_loaded_and_compared(rt: HostRuntime) -> Made<()> {
    hold_over_tiers(&rt, rt.alloc(), true, TIERS)
}

// What is wanted of the calls isn't said here: only that each returns.
const UNFAIR: &str = r#"# a tier that is loaded
level 1
schema with_a_tier
store of_a_tier
permit low ["less",["get",["var","principal"],"r"],["call","tier","10"]]
request User::a Action::view User::a
accept : ..
warnings : ..
policies_for User Action::view User : ..
run decide load decide : ..
asked : ..
open : done
wanted : ..
decision : ..
bounds : ..
answer : ..
supply User::a : ..
wanted : ..
decision : ..
bounds : ..
answer : ..
# a tier that is bound
schema tier_in_context
store empty
permit low ["lesseq",["get",["var","context"],"r"],["call","tier","9"]]
request User::a Action::go User::a {"r":["call","tier",["unknown","t"]]}
accept : ..
warnings : ..
run decide t="abc decide : ..
run decide t="7 decide : ..
open : done
wanted : ..
decision : ..
bounds : ..
bind t "abc : ..
decision : ..
bind t "7 : ..
decision : ..
bounds : ..
answer : ..
"#;

#[test]
fn each_call_returns_where_values_are_not_written_as_calls_that_give_them(
    rt: HostRuntime,
) -> Made<()> {
    hold_over_tiers(&rt, rt.alloc(), false, UNFAIR)
}
