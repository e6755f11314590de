//! The table of extension functions.

ghost use Rattle.std.specs.Prelude.{◌≡◌, true, map, is_some, IfOk};
ghost use Rattle.std.specs.List.{filter_map, list_all};
ghost use Rattle.cedar_expr_functions.specs.Functions.{function_signature};
ghost use Rattle.cedar_expr_names.specs.Views.{plain_name_of};
ghost use Rattle.std.proofs.Props.{props};
ghost use Rattle.cedar_expr_functions.specs.Named.{NamesRise, names_compared};
ghost use Rattle.cedar_expr_functions.specs.Signatures.{given_type};

use crate::err::{
    ExtensionFunctionLookupError, ExtensionInitializationError, FuncDoesNotExistError,
};
use crate::extension::{Extension, ExtensionFunction};
use crate::gathered::{all_functions, all_names, all_ordered, by_name, refuse_two_constructors};
use cedar_expr_names::Name;
use std::alloc::{AllocError, Global};
use std::fmt;
use std::fmt::{Debug, Formatter, Write};
use std::slice::Iter;

/// A table of extension functions, in the order of their names. It borrows the extensions that it is made of.
pub struct Extensions<'a> {
    names: Vec<&'a Name>,
    functions: Vec<&'a ExtensionFunction>,
    ordered: Vec<&'a Name>,
    ghost rising: { NamesRise functions.items } by { Prim.hlevel props },
}

// prover: see ARCHITECTURE
impl<'a> Drop for Extensions<'a> {
    fn drop(self) {
        let Extensions {
            names: _,
            functions: _,
            ordered: _,
        } = self;
    }
}

impl Debug for Extensions<'_> {
    fn fmt<W: Write>(&self, f: &mut Formatter<W>) -> fmt::Result {
        write!(f, "<Extensions with {} functions>", self.functions.len())
    }
}

/// The table under its other name.
pub type ExtTable<'a> = Extensions<'a>;

impl<'a> Extensions<'a> {
    ghost use Rattle.cedar_expr_model.specs.Name.{Name as ModelName, name_eq};
    ghost use Rattle.cedar_expr_model.specs.Value.{V};
    ghost use Rattle.cedar_expr_model.specs.Table.{Called, signature_of, all_typed};
    ghost use Rattle.std.specs.Prelude.{List, [], Some, None, find, option_map, IfErr, IfSome, OnOk, IsPermutation};
    ghost use Rattle.cedar_expr_model.specs.Repeats.{table_fault};
    ghost use Rattle.cedar_expr_functions.specs.Named.{all_functions as model_functions, all_signatures, all_ordered};
    ghost use Rattle.std.specs.Slice.Iter.{iter_rest};
    ghost use Rattle.cedar_expr_names.specs.Views.{plain_name_loc};
    ghost use Rattle.cedar_expr_functions.specs.Refusals.{RefusesLookup, RefusesTable};
    ghost use Rattle.cedar_expr_functions.specs.Extended.{extension_name};
    ghost use Rattle.cedar_expr_functions.specs.Tables.{names_of, functions_of, ordered_of, table_of, table_types_left, are_typed, AnswersInTable, AnswersAsExtensions, IsNamedIn, stored_in};

    /// The table without functions.
    pub fn none(alloc: Global) -> Extensions<'a>
        ensures functions { functions_of result ≡ [] }
        ensures ordered { ordered_of result ≡ [] }
        ensures names { names_of result ≡ [] }
    {
        Extensions {
            names: Vec::new(alloc),
            functions: Vec::new(alloc),
            ordered: Vec::new(alloc),
        }
    }

    /// The table of these extensions. Refuses a name of a function that is repeated, then an extension type with two
    /// constructors, and fails when out of memory.
    pub fn specific_extensions(
        alloc: Global,
        extensions: &'a [Extension],
    ) -> Result<Extensions<'a>, ExtensionInitializationError>
        ensures functions { IfOk result (λ t. IsPermutation (all_signatures extensions.entry.now) (functions_of t)) }
        ensures answers { IfOk result (AnswersAsExtensions extensions.entry.now) }
        ensures stored { IfOk result (λ t. IsPermutation (model_functions extensions.entry.now) (stored_in t)) }
        ensures ordered { IfOk result (λ t. ordered_of t ≡ all_ordered extensions.entry.now) }
        ensures names { IfOk result (λ t. names_of t ≡ map extension_name extensions.entry.now) }
        ensures sound { OnOk result (table_fault (all_signatures extensions.entry.now) ≡ None) }
        ensures refused { IfErr result (RefusesTable (all_signatures extensions.entry.now)) }
    {
        let all = all_functions(alloc, extensions)?;
        let functions = by_name(alloc, all.as_slice())?;
        refuse_two_constructors(alloc, all.as_slice())?;
        Ok(Extensions {
            names: all_names(alloc, extensions)?,
            functions,
            ordered: all_ordered(alloc, extensions)?,
        })
    }

    /// The names of the extensions, in the order in which they were given.
    pub fn ext_names(&self) -> Iter<'_, &'a Name>
        ensures { map (λ n. plain_name_of n.now) (iter_rest result) ≡ names_of self.now }
    {
        self.names.iter()
    }

    /// The extension types that the functions give, each as often as a function gives it.
    pub fn ext_types(&self) -> TableTypes<'_, 'a>
        ensures { table_types_left result ≡ filter_map given_type (functions_of self.now) }
    {
        TableTypes {
            functions: self.functions.iter(),
        }
    }

    /// The names that `ext_types` gives, in its order, as a list. Fails only when out of memory.
    pub fn ext_type_list(&self, alloc: Global) -> Result<Vec<Name>, AllocError>
        ensures { IfOk result (λ ns. map plain_name_of ns.items ≡ filter_map given_type (functions_of self.now)) }
    {
        given_types(alloc, self.functions.as_slice())
    }

    /// The types whose values `<` and `<=` take.
    pub fn types_with_operator_overloading(&self) -> Iter<'_, &'a Name>
        ensures { map (λ n. plain_name_of n.now) (iter_rest result) ≡ ordered_of self.now }
    {
        self.ordered.iter()
    }

    /// The function of this name. Refuses a name that no function has, and fails when out of memory for the refusal.
    pub fn func(&self, name: &Name) -> Result<&'a ExtensionFunction, ExtensionFunctionLookupError>
        ensures found { (answers : ModelName → List V → Called) → IfOk result (λ f. signature_of (table_of self.now answers) (plain_name_of name.now) ≡ Some (function_signature f.now)) }
        ensures answers { IfOk result (λ f. AnswersInTable self.now (plain_name_of name.now) f.now) }
        ensures named { IfOk result (λ f. IsNamedIn self.now (plain_name_of name.now) f.now) }
        ensures refused { (answers : ModelName → List V → Called) → IfErr result (RefusesLookup (table_of self.now answers) (plain_name_of name.now) (plain_name_loc name.now)) }
    {
        match self.found(name) {
            Some(f) => Ok(f),
            None => Err(ExtensionFunctionLookupError::FuncDoesNotExist(FuncDoesNotExistError {
                name: name.clone()?,
                source_loc: name.loc(),
            })),
        }
    }

    // The function of this name, where there is one.
    fn found(&self, name: &Name) -> Option<&'a ExtensionFunction>
        ensures found { option_map (λ f. function_signature f.now) result ≡ find (λ s. name_eq (plain_name_of name.now) s.name) (functions_of self.now) }
        ensures answers { IfSome result (λ f. AnswersInTable self.now (plain_name_of name.now) f.now) }
        ensures named { IfSome result (λ f. IsNamedIn self.now (plain_name_of name.now) f.now) }
    {
        let compare = |f: &&ExtensionFunction|
            ensures { result ≡ names_compared f.now.now.name name.entry.now }
        { f.name().cmp(name) };
        match self.functions.binary_search_by(compare) {
            Ok(at) => Some(self.functions[at]),
            Err(_) => None,
        }
    }

    /// Whether each function has a result type. It is so of the table without functions.
    pub fn all_typed(&self) -> bool
        ensures typed { result ≡ are_typed self.now }
        ensures modelled { (answers : ModelName → List V → Called) → result ≡ all_typed (table_of self.now answers) }
    {
        all_with_result(self.functions.as_slice())
    }
}

// Whether each of these functions has a result type.
fn all_with_result(functions: &[&ExtensionFunction]) -> bool
    ensures { result ≡ list_all (λ f. is_some (function_signature f.now).result) functions.now }
{
    for f in functions {
        if !f.is_typed() {
            return false;
        }
    }
    true
}

// The extension types that these functions give, each as often as a function gives it.
fn given_types(alloc: Global, functions: &[&ExtensionFunction]) -> Result<Vec<Name>, AllocError>
    ensures { IfOk result (λ ns. map plain_name_of ns.items ≡ filter_map (λ f. given_type (function_signature f.now)) functions.now) }
{
    let mut names = Vec::new(alloc);
    for f in functions {
        if let Some(name) = f.ext_type() {
            names.push(name.clone()?)?;
        }
    }
    Ok(names)
}

/// Goes over the extension types that a table's functions give, each as often as a function gives it.
#[derive(Drop)]
pub struct TableTypes<'t, 'a> {
    functions: Iter<'t, &'a ExtensionFunction>,
}

impl<'t, 'a> Iterator for TableTypes<'t, 'a> {
    type Item = &'a Name;

    ghost use Rattle.std.specs.Iterator.{YieldsFirstBy, item_count};
    ghost use Rattle.cedar_expr_functions.specs.Tables.{table_types_left};

    ghost next_gives = { YieldsFirstBy (λ n. plain_name_of n.now) table_types_left };

    ghost remaining = { item_count table_types_left };

    fn next(&mut self) -> Option<&'a Name> {
        while let Some(f) = self.functions.next() {
            if let Some(name) = f.ext_type() {
                return Some(name);
            }
        }
        None
    }
}
