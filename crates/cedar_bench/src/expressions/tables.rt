//! Tables of extension functions.

ghost use Rattle.std.specs.Prelude.{◌≡◌, Err};
ghost use Rattle.cedar_expr_functions.specs.declared.err.CallFault.TheVariants.{OutOfMemory};

use cedar_expr::{
    CallFault, CallStyle, ExtValue, Extension, ExtensionFunction, ExtensionOutputValue, Extensions,
    Func, Name, Type, Value,
};
use std::alloc::{AllocError, Global};

// The name with this number.
fn name(alloc: Global, number: u32) -> Result<Name, AllocError> {
    match Name::from_normalized_str(alloc, format!(in alloc; "f{number}")?.as_str()) {
        Ok(name) => Ok(name),
        Err(_) => Err(AllocError),
    }
}

// It never has memory.
fn exhausted(_alloc: Global, _args: &[Value<ExtValue>]) -> Result<ExtensionOutputValue, CallFault>
    ensures { result ≡ Err OutOfMemory }
{
    Err(CallFault::OutOfMemory)
}

// How many of so many functions the table finds by their names.
fn found_in(alloc: Global, table: &Extensions<'_>, size: u32) -> Result<usize, AllocError> {
    let mut count = 0usize;
    for n in 0..size {
        if table.func(&name(alloc, n)?).is_ok() {
            count = count.wrapping_add(1);
        }
    }
    Ok(count)
}

/// How many of so many functions their table finds by their names.
pub fn found(alloc: Global, size: u32) -> Result<usize, AllocError> {
    let mut functions = Vec::new(alloc);
    for n in 0..size {
        let func: Func = Box::new(alloc, |alloc: Global, args: &[Value<ExtValue>]| {
            exhausted(alloc, args)
        })?;
        let style = CallStyle::FunctionStyle;
        let f = ExtensionFunction::nullary(alloc, name(alloc, n)?, style, func, Type::Bool);
        functions.push(f)?;
    }
    let extensions = [Extension::new(name(alloc, 0)?, functions, Vec::new(alloc))];
    let Ok(table) = Extensions::specific_extensions(alloc, &extensions) else {
        return Err(AllocError);
    };
    found_in(alloc, &table, size)
}
