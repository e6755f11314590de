//! Tables of functions, calls, and the checks of expressions against tables.

ghost use Rattle.std.specs.Prelude.{◌≡◌, true, Some, Err};
ghost use Rattle.cedar_expr_model.specs.Table.{Signature, gives};
ghost use Rattle.cedar_expr_model.specs.Tree.{bool_core};
ghost use Rattle.cedar_expr_model.specs.Value.{prim, truth};
ghost use Rattle.cedar_expr_functions.specs.Answers.{IsStored, answer, is_of_result};
ghost use Rattle.cedar_expr_functions.specs.declared.err.CallFault.TheVariants.{OutOfMemory};

use cedar_expr_functions::util::collect_no_duplicates;
use cedar_expr_functions::{CheckExpr, ExprValidationError, *};
use cedar_expr_leaves::Literal;
use cedar_expr_values::{ExtValue, Type, Value, ValueKind};
use cedar_test_exprs::{both, expr, name, parted, refused, say, show, tell, value, word};
use std::alloc::{AllocError, Global};
use std::rc::RcStr;

type V = Value<ExtValue>;

// Cases, with an empty line between two. A case begins with the functions of a table, each with its name and kind, the type of its first
// argument and that of its result, where its kind has such. What is behind them is asked of the table.
const CASES: &str = r#"function rank unary String rank
function least variadic rank Long
function open leaves String String
function nearer binary Long Bool
function between ternary Long Bool
types : rank
typed : no
find rank : rank
find none : extension function `none` does not exist
check "a call=rank/1 : done
check call=rank/0 : wrong number of arguments provided to extension function `rank`: expected 1, got 0
check "a "a call=rank/2 : wrong number of arguments provided to extension function `rank`: expected 1, got 2
check "a call=least/1 : done
check "a "a "a call=least/3 : done
check call=least/0 : wrong number of arguments provided to extension function `least`: expected 1, got 0
check 1 2 call=nearer/2 : done
check 1 2 3 call=between/3 : done
check "a call=none/1 : extension function `none` does not exist
check "a "a call=rank/2 ! call=none/0 && : wrong number of arguments provided to extension function `rank`: expected 1, got 2
check call=rank/0 call=none/1 : extension function `none` does not exist
type true : bool
type 1 : long
type "a : string
type User::a : (entity of type `User`)
type principal : none
type ?principal : none
type $u : none
type $u:Set : set
type $u 1 2 if : long
type $u 1 true if : none
type $u 1 $u if : none
type $u 2 && : bool
type $u 2 || : bool
type "a call=rank/1 : rank
type "a call=least/1 : long
type "a call=open/1 : none
type "a call=none/1 : none
type 1 ! : bool
type 1 neg : long
type 1 isEmpty : bool
type 1 2 == : bool
type 1 2 + : long
type 1 2 getTag : none
type 1 2 hasTag : bool
type 1 .a : none
type 1 has=a : bool
type 1 has=a.a : bool
type set=0 : set
type record= : record

function f nullary rank rank
types : rank
typed : yes
find f : f
type call=f/0 : rank

function f unary String rank
function g unary String rank
function f unary String rank
refused : extension function `f` is defined multiple times

function f unary String rank
function f nullary rank rank
refused : extension function `f` is defined multiple times

function f unary String rank
function g unary String rank
refused : multiple extension constructors for the same extension type rank

call "a : true
call : wrong number of arguments provided to extension function `one`: expected 1, got 0
call "a "b : wrong number of arguments provided to extension function `one`: expected 1, got 2
call 1 : type error: expected string, got long
failed : error while evaluating `decimal` extension function: too many digits
typed : yes
collected b a : a b
collected b a c a b : duplicate key `a`
repeated : duplicate key `2`
no_memory : out of memory out of memory out of memory out of memory out of memory
"#;

/// The first row on tables of functions that says something else, with what it says; nothing where all hold. Fails when out of memory.
pub fn wrong_table_row(alloc: Global) -> Result<String, AllocError> {
    for case in CASES.split("\n\n") {
        let mut functions = Vec::new(alloc);
        for row in case.lines() {
            if let Some(row) = row.strip_prefix("function ") {
                let func: Func = Box::new(
                    alloc,
                    |alloc: Global, args: &[V]| exhausted(alloc, args),
                )?;
                functions.push(function(alloc, row, func)?)?;
            }
        }
        let wrong = wrong(alloc, case, functions)?;
        if !wrong.is_empty() {
            return Ok(wrong);
        }
    }
    Ok(String::new(alloc))
}

// It never has memory.
fn exhausted(_alloc: Global, _args: &[V]) -> Result<ExtensionOutputValue, CallFault>
    ensures { result ≡ Err OutOfMemory }
{
    Err(CallFault::OutOfMemory)
}

// The type of a word: an extension type, where it names no other.
fn core_type(alloc: Global, word: Option<&str>) -> Result<Type, AllocError> {
    match word {
        Some("Bool") => Ok(Type::Bool),
        Some("Long") => Ok(Type::Long),
        Some("String") => Ok(Type::String),
        Some(text) => Ok(Type::Extension {
            name: name(alloc, text)?,
        }),
        None => Err(AllocError),
    }
}

// The function of a row.
fn function(alloc: Global, row: &str, func: Func) -> Result<ExtensionFunction, AllocError>
    requires { (s : Signature) → IsStored s (pre func) (post func) }
{
    let (called, row) = row.split_once(' ').ok_or(AllocError)?;
    let mut words = row.split(' ');
    let kind = words.next();
    let of = core_type(alloc, words.next());
    let given = core_type(alloc, words.next());
    let ((of, given), called) = both(both(of, given), name(alloc, called))?;
    let style = CallStyle::FunctionStyle;
    match kind {
        Some("nullary") => Ok(ExtensionFunction::nullary(alloc, called, style, func, given)),
        Some("leaves") => ExtensionFunction::partial_eval_unknown(alloc, called, style, func, of),
        Some("unary") => ExtensionFunction::unary(alloc, called, style, func, given, of),
        Some("binary") => {
            let types = (of, Type::Long);
            ExtensionFunction::binary(alloc, called, style, func, given, types)
        }
        Some("ternary") => {
            let types = (of, Type::Long, Type::Long);
            ExtensionFunction::ternary(alloc, called, style, func, given, types)
        }
        _ => {
            let types = vec![in alloc; of]?;
            Ok(ExtensionFunction::variadic(called, style, func, given, types))
        }
    }
}

// The first wrong row of a case, with what it comes to; or nothing.
fn wrong(
    alloc: Global,
    case: &str,
    functions: Vec<ExtensionFunction>,
) -> Result<String, AllocError> {
    let extensions = [Extension::new(name(alloc, "ranks")?, functions, Vec::new(alloc))];
    let table = Extensions::specific_extensions(alloc, &extensions);
    first_wrong(alloc, case, &table)
}

// The first row that the table doesn't answer as it stands there, with what it comes to; or nothing.
fn first_wrong(
    alloc: Global,
    case: &str,
    table: &Result<Extensions<'_>, ExtensionInitializationError>,
) -> Result<String, AllocError> {
    for row in case.lines() {
        let (verb, rest, wanted) = parted(row).ok_or(AllocError)?;
        if verb != "function" {
            let mut said = String::new(alloc);
            done(alloc, &mut said, table, verb, rest)?;
            if said.as_str() != wanted {
                return format!(in alloc; "{row}: {said}");
            }
        }
    }
    Ok(String::new(alloc))
}

// Does the command.
fn done(
    alloc: Global,
    said: &mut String,
    table: &Result<Extensions<'_>, ExtensionInitializationError>,
    verb: &str,
    rest: &str,
) -> Result<(), AllocError> {
    match table {
        Ok(table) => asked(alloc, said, table, verb, rest),
        Err(refusal) => show(alloc, said, refusal),
    }
}

// Says what a table comes to where it is asked this, or does a command that asks none.
fn asked(
    alloc: Global,
    said: &mut String,
    table: &Extensions<'_>,
    verb: &str,
    rest: &str,
) -> Result<(), AllocError> {
    match verb {
        "types" => types(alloc, said, table),
        "typed" => tell(said, table.all_typed()),
        "find" => find(alloc, said, table, rest),
        "check" => refused(alloc, said, expr(alloc, rest)?.try_validate(alloc, table)),
        "type" => type_shown(alloc, said, table, rest),
        "call" => called(alloc, said, rest),
        "failed" => failed(alloc, said),
        "collected" => collected(alloc, said, rest),
        "repeated" => show(alloc, said, &CollectError::Repeated(2u8)),
        "no_memory" => no_memory(alloc, said),
        _ => Err(AllocError),
    }
}

// Says the extension types that functions give.
fn types(alloc: Global, said: &mut String, table: &Extensions<'_>) -> Result<(), AllocError> {
    for name in table.ext_type_list(alloc)?.iter() {
        show(alloc, said, name)?;
    }
    Ok(())
}

fn find(
    alloc: Global,
    said: &mut String,
    table: &Extensions<'_>,
    text: &str,
) -> Result<(), AllocError> {
    match table.func(&name(alloc, text)?) {
        Ok(f) => show(alloc, said, f.name()),
        Err(refusal) => show(alloc, said, &refusal),
    }
}

fn type_shown(
    alloc: Global,
    said: &mut String,
    table: &Extensions<'_>,
    text: &str,
) -> Result<(), AllocError> {
    match expr(alloc, text)?.try_type_of(table)? {
        Some(ty) => show(alloc, said, &ty),
        None => say(said, "none"),
    }
}

// It answers `true`, whatever it is asked.
fn yes(_alloc: Global, _args: &[V]) -> Result<ExtensionOutputValue, CallFault>
    ensures answers { answer result ≡ Some (gives (prim (truth true))) }
    ensures own { is_of_result (Some bool_core) result ≡ true }
{
    Ok(ExtensionOutputValue::Known(Value::from(Literal::from(true))))
}

// Says what a function of one text that answers `true` answers to these arguments.
fn called(alloc: Global, said: &mut String, text: &str) -> Result<(), AllocError> {
    let func: Func = Box::new(alloc, |alloc: Global, args: &[V]| yes(alloc, args))?;
    let style = CallStyle::FunctionStyle;
    let called = name(alloc, "one")?;
    let f = ExtensionFunction::unary(alloc, called, style, func, Type::Bool, Type::String)?;
    let args = args(alloc, text)?;
    answered(alloc, said, f.call(alloc, args.as_slice()))
}

fn args(alloc: Global, text: &str) -> Result<Vec<V>, AllocError> {
    let mut args = Vec::new(alloc);
    for text in text.split(' ') {
        if !text.is_empty() {
            args.push(value(alloc, text)?)?;
        }
    }
    Ok(args)
}

// Says the literal that was answered, or the refusal.
fn answered(
    alloc: Global,
    said: &mut String,
    answered: Result<ExtensionOutputValue, CallFault>,
) -> Result<(), AllocError> {
    match answered {
        Ok(ExtensionOutputValue::Known(value)) => literal(alloc, said, &value),
        Ok(ExtensionOutputValue::Unknown(unknown)) => show(alloc, said, &unknown),
        Err(fault) => show(alloc, said, &fault),
    }
}

fn literal(alloc: Global, said: &mut String, value: &V) -> Result<(), AllocError> {
    match value.value_kind() {
        ValueKind::Lit(literal) => show(alloc, said, literal),
        _ => Err(AllocError),
    }
}

// Says what the fault of a function itself says.
fn failed(alloc: Global, said: &mut String) -> Result<(), AllocError> {
    let fault = CallFault::Fault {
        extension_name: name(alloc, "decimal")?,
        message: String::from_str(alloc, "too many digits")?,
        advice: None,
    };
    show(alloc, said, &fault)
}

// The words as keys, each with the number 0.
fn keyed(alloc: Global, text: &str) -> Result<Vec<(RcStr, u8)>, AllocError> {
    let mut pairs = Vec::new(alloc);
    for text in text.split(' ') {
        pairs.push((word(alloc, text)?, 0))?;
    }
    Ok(pairs)
}

// Says the words in their order, or the first that is repeated.
fn collected(alloc: Global, said: &mut String, text: &str) -> Result<(), AllocError> {
    match collect_no_duplicates(alloc, keyed(alloc, text)?) {
        Ok(words) => {
            for word in words.keys() {
                say(said, word.as_str())?;
            }
            Ok(())
        }
        Err(repeated) => show(alloc, said, &repeated),
    }
}

fn no_memory(alloc: Global, said: &mut String) -> Result<(), AllocError> {
    show(alloc, said, &CallFault::OutOfMemory)?;
    show(alloc, said, &ExtensionFunctionLookupError::OutOfMemory)?;
    show(alloc, said, &ExtensionInitializationError::OutOfMemory)?;
    let fault: CollectError<u8> = CollectError::OutOfMemory;
    show(alloc, said, &fault)?;
    show(alloc, said, &ExprValidationError::OutOfMemory)
}
