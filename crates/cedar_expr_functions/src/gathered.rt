//! What stands in extensions, gathered for a table.

ghost use Rattle.std.specs.Prelude.{◌≡◌, ◌++◌, true, None, map, IfOk, IfErr, OnOk, IsPermutation};
ghost use Rattle.std.specs.List.{filter_map};
ghost use Rattle.std.specs.BTreeMap.{values, IsOrdered};
ghost use Rattle.cedar_expr_model.specs.Name.{name_eq};
ghost use Rattle.cedar_expr_model.specs.Order.{core_eq};
ghost use Rattle.cedar_expr_model.specs.Repeats.{repeated};
ghost use Rattle.cedar_expr_model.specs.Table.{constructed};
ghost use Rattle.cedar_expr_names.specs.Views.{plain_name_of};
ghost use Rattle.cedar_expr_values.specs.Types.{core_of};
ghost use Rattle.cedar_expr_functions.specs.Functions.{function_name, function_signature};
ghost use Rattle.cedar_expr_functions.specs.Named.{NamesRise, all_functions, all_ordered};
ghost use Rattle.cedar_expr_functions.specs.Extended.{extension_name, functions_in, ordered_in};
ghost use Rattle.cedar_expr_functions.specs.Refusals.{RefusesNames, RefusesConstructors};

use crate::err::{
    CollectError, ExtensionInitializationError, FuncMultiplyDefinedError,
    MultipleConstructorsSameSignatureError,
};
use crate::extension::{Extension, ExtensionFunction};
use crate::util::collect_no_duplicates;
use cedar_expr_names::Name;
use cedar_expr_values::Type;
use std::alloc::{AllocError, Global};
use std::collections::BTreeMap;

// The functions of these extensions, in the order in which they stand there.
pub fn all_functions(
    alloc: Global,
    extensions: &[Extension],
) -> Result<Vec<&ExtensionFunction>, AllocError>
    ensures { IfOk result (λ fs. map (λ f. f.now) fs.items ≡ all_functions extensions.entry.now) }
{
    let mut functions = Vec::new(alloc);
    for e in extensions {
        add_functions(e, &mut functions)?;
    }
    Ok(functions)
}

// Puts the functions of an extension behind these.
fn add_functions<'a>(
    extension: &'a Extension,
    functions: &mut Vec<&'a ExtensionFunction>,
) -> Result<(), AllocError>
    ensures { OnOk result (map (λ f. f.now) functions.new.items ≡ map (λ f. f.now) functions.old.items ++ functions_in extension.entry.now) }
{
    for f in &extension.functions {
        functions.push(f)?;
    }
    Ok(())
}

// The types of these extensions whose values are ordered.
pub fn all_ordered(alloc: Global, extensions: &[Extension]) -> Result<Vec<&Name>, AllocError>
    ensures { IfOk result (λ ns. map (λ n. plain_name_of n.now) ns.items ≡ all_ordered extensions.entry.now) }
{
    let mut names = Vec::new(alloc);
    for e in extensions {
        add_ordered(e, &mut names)?;
    }
    Ok(names)
}

// Puts the types of an extension whose values are ordered behind these names.
fn add_ordered<'a>(extension: &'a Extension, names: &mut Vec<&'a Name>) -> Result<(), AllocError>
    ensures { OnOk result (map (λ n. plain_name_of n.now) names.new.items ≡ map (λ n. plain_name_of n.now) names.old.items ++ ordered_in extension.entry.now) }
{
    for n in &extension.ordered {
        names.push(n)?;
    }
    Ok(())
}

// The names of these extensions.
pub fn all_names(alloc: Global, extensions: &[Extension]) -> Result<Vec<&Name>, AllocError>
    ensures { IfOk result (λ ns. map (λ n. plain_name_of n.now) ns.items ≡ map extension_name extensions.entry.now) }
{
    let mut names = Vec::new(alloc);
    for e in extensions {
        names.push(e.name())?;
    }
    Ok(names)
}

// The functions in the order of their names. Refuses a name that is repeated.
pub fn by_name<'a>(
    alloc: Global,
    functions: &[&'a ExtensionFunction],
) -> Result<Vec<&'a ExtensionFunction>, ExtensionInitializationError>
    ensures rising { IfOk result (λ fs. NamesRise fs.items) }
    ensures functions { IfOk result (λ fs. IsPermutation functions.now fs.items) }
    ensures distinct { OnOk result (repeated name_eq (map (λ f. function_name f.now) functions.now) ≡ None) }
    ensures refused { IfErr result (RefusesNames (map (λ f. function_name f.now) functions.now)) }
{
    let pairs = named_pairs(alloc, functions)?;
    match collect_no_duplicates(alloc, pairs) {
        Ok(map) => Ok(in_order(alloc, &map)?),
        Err(CollectError::OutOfMemory) => Err(ExtensionInitializationError::OutOfMemory),
        Err(CollectError::Repeated(name)) => Err(
            ExtensionInitializationError::FuncMultiplyDefined(FuncMultiplyDefinedError {
                name: name.clone()?,
            }),
        ),
    }
}

// Each function with its name.
fn named_pairs<'a>(
    alloc: Global,
    functions: &[&'a ExtensionFunction],
) -> Result<Vec<(&'a Name, &'a ExtensionFunction)>, AllocError>
    ensures names { IfOk result (λ ps. map (λ p. p.0.now) ps.items ≡ map (λ f. f.now.name) functions.now) }
    ensures functions { IfOk result (λ ps. map (λ p. p.1) ps.items ≡ functions.now) }
{
    let mut pairs = Vec::with_capacity(alloc, functions.len())?;
    for f in functions {
        pairs.push((f.name(), *f))?;
    }
    Ok(pairs)
}

// The functions of a map, in its order.
fn in_order<'a>(
    alloc: Global,
    named: &BTreeMap<&'a Name, &'a ExtensionFunction>,
) -> Result<Vec<&'a ExtensionFunction>, AllocError>
    ensures values { IfOk result (λ fs. fs.items ≡ values named.now) }
    ensures ordered { IfOk result (λ _. IsOrdered ⟦<&'a Name as Ord>⟧.cmp named.now) }
{
    let mut functions = Vec::with_capacity(alloc, named.len())?;
    for f in named.values() {
        functions.push(*f)?;
    }
    Ok(functions)
}

// Refuses an extension type that two of these functions construct, and fails when out of memory.
pub fn refuse_two_constructors(
    alloc: Global,
    functions: &[&ExtensionFunction],
) -> Result<(), ExtensionInitializationError>
    ensures distinct { OnOk result (repeated core_eq (filter_map constructed (map (λ f. function_signature f.now) functions.now)) ≡ None) }
    ensures refused { IfErr result (RefusesConstructors (filter_map constructed (map (λ f. function_signature f.now) functions.now))) }
{
    let types = constructed_types(alloc, functions)?;
    match collect_no_duplicates(alloc, types) {
        Ok(_) => Ok(()),
        Err(CollectError::OutOfMemory) => Err(ExtensionInitializationError::OutOfMemory),
        Err(CollectError::Repeated(return_type)) => Err(
            ExtensionInitializationError::MultipleConstructorsSameSignature(
                MultipleConstructorsSameSignatureError { return_type },
            ),
        ),
    }
}

// The types that these functions construct, as keys.
fn constructed_types(
    alloc: Global,
    functions: &[&ExtensionFunction],
) -> Result<Vec<(Type, ())>, AllocError>
    ensures { IfOk result (λ ts. map (λ t. core_of t.0) ts.items ≡ filter_map constructed (map (λ f. function_signature f.now) functions.now)) }
{
    let mut types = Vec::new(alloc);
    for f in functions {
        if let Some(ty) = f.constructed() {
            types.push((ty.clone()?, ()))?;
        }
    }
    Ok(types)
}
