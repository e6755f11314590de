//! Extension functions.

ghost use Rattle.std.specs.Prelude.{◌≡◌, ◌<◌, true, map, option_map, vec_len, IfOk};
ghost use Rattle.cedar_expr_names.specs.Views.{plain_name_of};
ghost use Rattle.cedar_expr_values.specs.Types.{core_of};
ghost use Rattle.cedar_expr_functions.specs.Styles.{style_of};
ghost use Rattle.cedar_expr_functions.specs.Signatures.{signature, bare_values, after_one, first_mistyped, core_pair, is_one_text, is_text, extension_type};
ghost use Rattle.cedar_expr_functions.specs.Answers.{IsStored};
ghost use Rattle.cedar_expr_functions.specs.declared.extension.ExtensionOutputValue.TheVariants.{Known};

use crate::err::CallFault;
use cedar_expr_names::Name;
use cedar_expr_trees::Unknown;
use cedar_expr_values::{ExtValue, StaticallyTyped, Type, Value};
use std::alloc::{AllocError, Global};
use std::slice::Iter;

/// How a call is written.
#[derive(Debug, Clone, Copy, PartialEq, Eq, PartialOrd, Ord, Hash)]
pub enum CallStyle {
    /// As a function: `f(a, b)`.
    FunctionStyle,
    /// As a method of its first argument: `a.f(b)`.
    MethodStyle,
}

/// What a call of a function gives.
#[derive(Debug, PartialEq, Eq, Drop)]
pub enum ExtensionOutputValue {
    /// A value.
    Known(Value<ExtValue>),
    /// An unknown.
    Unknown(Unknown),
}

impl From<Value<ExtValue>> for ExtensionOutputValue {
    ghost from_gives = { λ v out. out ≡ Known v };

    fn from(value: Value<ExtValue>) -> ExtensionOutputValue {
        ExtensionOutputValue::Known(value)
    }
}

/// The function that is stored: it takes the allocator and the arguments.
pub type Func = Box<dyn Fn(Global, &[Value<ExtValue>]) -> Result<ExtensionOutputValue, CallFault>>;

/// A function of an extension, with its signature. What is stored may be called on arguments that the signature takes; there
/// it answers equal arguments alike, and gives a value of the result type, or where there is none an unknown, or fails.
pub struct ExtensionFunction {
    name: Name,
    style: CallStyle,
    arg_types: Vec<Type>,
    variadic: bool,
    return_type: Option<Type>,
    func: Func,
    ghost some_type: { variadic ≡ true → 0 < vec_len arg_types },
    ghost stored: { IsStored (signature (plain_name_of name) (style_of style) (map core_of arg_types.items) variadic (option_map core_of return_type)) (pre func) (post func) },
}

// prover: see ARCHITECTURE
impl Drop for ExtensionFunction {
    fn drop(self) {
        let ExtensionFunction {
            name: _,
            style: _,
            arg_types: _,
            variadic: _,
            return_type: _,
            func: _,
        } = self;
    }
}

impl ExtensionFunction {
    ghost use Rattle.std.specs.Prelude.{false, [], ◌∷◌, length, is_some, Some, None, IfErr, OnOk};
    ghost use Rattle.cedar_expr_model.specs.Table.{takes_count, constructed, is_constructor};
    ghost use Rattle.std.specs.List.{filter_map};
    ghost use Rattle.cedar_expr_functions.specs.Signatures.{takes, given_type};
    ghost use Rattle.cedar_expr_functions.specs.Extended.{types_left};
    ghost use Rattle.cedar_expr_functions.specs.Answers.{is_output};
    ghost use Rattle.cedar_expr_functions.specs.Functions.{function_signature, MayAnswer, AnswersBy, AgreesWithModel, IfAsked};
    ghost use Rattle.cedar_expr_functions.specs.Refusals.{RefusesCall};

    /// The function of no arguments with this result. What is stored has the facts of its signature.
    pub fn nullary(
        alloc: Global,
        name: Name,
        style: CallStyle,
        func: Func,
        return_type: Type,
    ) -> ExtensionFunction
        requires { IsStored (signature (plain_name_of name) (style_of style) [] false (Some (core_of return_type))) (pre func) (post func) }
        ensures signature { function_signature result ≡ signature (plain_name_of name) (style_of style) [] false (Some (core_of return_type)) }
        ensures answers { AnswersBy (post func) result }
    {
        let arg_types = Vec::new(alloc);
        ExtensionFunction::new(name, style, func, Some(return_type), arg_types, false)
    }

    /// The function of one argument of this type, with this result. What is stored has the facts of its signature. Fails only when
    /// out of memory.
    pub fn unary(
        alloc: Global,
        name: Name,
        style: CallStyle,
        func: Func,
        return_type: Type,
        arg_type: Type,
    ) -> Result<ExtensionFunction, AllocError>
        requires { IsStored (signature (plain_name_of name) (style_of style) (core_of arg_type ∷ []) false (Some (core_of return_type))) (pre func) (post func) }
        ensures signature { IfOk result (λ f. function_signature f ≡ signature (plain_name_of name) (style_of style) (core_of arg_type ∷ []) false (Some (core_of return_type))) }
        ensures answers { IfOk result (AnswersBy (post func)) }
    {
        let arg_types = vec![in alloc; arg_type]?;
        Ok(ExtensionFunction::new(name, style, func, Some(return_type), arg_types, false))
    }

    /// The function of two arguments of these types, with this result. What is stored has the facts of its signature. Fails only
    /// when out of memory.
    pub fn binary(
        alloc: Global,
        name: Name,
        style: CallStyle,
        func: Func,
        return_type: Type,
        arg_types: (Type, Type),
    ) -> Result<ExtensionFunction, AllocError>
        requires { IsStored (signature (plain_name_of name) (style_of style) (core_of arg_types.0 ∷ core_of arg_types.1 ∷ []) false (Some (core_of return_type))) (pre func) (post func) }
        ensures signature { IfOk result (λ f. function_signature f ≡ signature (plain_name_of name) (style_of style) (core_of arg_types.0 ∷ core_of arg_types.1 ∷ []) false (Some (core_of return_type))) }
        ensures answers { IfOk result (AnswersBy (post func)) }
    {
        let (first, second) = arg_types;
        let arg_types = vec![in alloc; first, second]?;
        Ok(ExtensionFunction::new(name, style, func, Some(return_type), arg_types, false))
    }

    /// The function of three arguments of these types, with this result. What is stored has the facts of its signature. Fails only
    /// when out of memory.
    pub fn ternary(
        alloc: Global,
        name: Name,
        style: CallStyle,
        func: Func,
        return_type: Type,
        arg_types: (Type, Type, Type),
    ) -> Result<ExtensionFunction, AllocError>
        requires { IsStored (signature (plain_name_of name) (style_of style) (core_of arg_types.0 ∷ core_of arg_types.1 ∷ core_of arg_types.2 ∷ []) false (Some (core_of return_type))) (pre func) (post func) }
        ensures signature { IfOk result (λ f. function_signature f ≡ signature (plain_name_of name) (style_of style) (core_of arg_types.0 ∷ core_of arg_types.1 ∷ core_of arg_types.2 ∷ []) false (Some (core_of return_type))) }
        ensures answers { IfOk result (AnswersBy (post func)) }
    {
        let (first, second, third) = arg_types;
        let arg_types = vec![in alloc; first, second, third]?;
        Ok(ExtensionFunction::new(name, style, func, Some(return_type), arg_types, false))
    }

    /// The function of arguments of these types, at least one, and any number of further ones of the last, with this result.
    /// What is stored has the facts of its signature.
    pub fn variadic(
        name: Name,
        style: CallStyle,
        func: Func,
        return_type: Type,
        arg_types: Vec<Type>,
    ) -> ExtensionFunction
        requires some { 0 < vec_len arg_types }
        requires stored { IsStored (signature (plain_name_of name) (style_of style) (map core_of arg_types.items) true (Some (core_of return_type))) (pre func) (post func) }
        ensures signature { function_signature result ≡ signature (plain_name_of name) (style_of style) (map core_of arg_types.items) true (Some (core_of return_type)) }
        ensures answers { AnswersBy (post func) result }
    {
        ExtensionFunction::new(name, style, func, Some(return_type), arg_types, true)
    }

    /// The function of one argument of this type that leaves an unknown: it has no result type. What is stored has the facts of
    /// its signature. Fails only when out of memory.
    pub fn partial_eval_unknown(
        alloc: Global,
        name: Name,
        style: CallStyle,
        func: Func,
        arg_type: Type,
    ) -> Result<ExtensionFunction, AllocError>
        requires { IsStored (signature (plain_name_of name) (style_of style) (core_of arg_type ∷ []) false None) (pre func) (post func) }
        ensures signature { IfOk result (λ f. function_signature f ≡ signature (plain_name_of name) (style_of style) (core_of arg_type ∷ []) false None) }
        ensures answers { IfOk result (AnswersBy (post func)) }
    {
        let arg_types = vec![in alloc; arg_type]?;
        Ok(ExtensionFunction::new(name, style, func, None, arg_types, false))
    }

    // The function of this signature.
    fn new(
        name: Name,
        style: CallStyle,
        func: Func,
        return_type: Option<Type>,
        arg_types: Vec<Type>,
        variadic: bool,
    ) -> ExtensionFunction
        requires some { variadic ≡ true → 0 < vec_len arg_types }
        requires stored { IsStored (signature (plain_name_of name) (style_of style) (map core_of arg_types.items) variadic (option_map core_of return_type)) (pre func) (post func) }
        ensures signature { function_signature result ≡ signature (plain_name_of name) (style_of style) (map core_of arg_types.items) variadic (option_map core_of return_type) }
        ensures answers { AnswersBy (post func) result }
    {
        ExtensionFunction {
            name,
            style,
            arg_types,
            variadic,
            return_type,
            func,
        }
    }

    /// The name of the function.
    pub fn name(&self) -> &Name
        ensures name { plain_name_of result.now ≡ (function_signature self.now).name }
        ensures itself { result.now ≡ self.now.name }
    {
        &self.name
    }

    /// How a call of the function is written.
    pub fn style(&self) -> CallStyle
        ensures { style_of result ≡ (function_signature self.now).style }
    {
        self.style
    }

    /// The type of what the function gives, where that is known.
    pub fn return_type(&self) -> Option<&Type>
        ensures { option_map (λ t. core_of t.now) result ≡ (function_signature self.now).result }
    {
        self.return_type.as_ref()
    }

    // Whether the function has a result type.
    pub(crate) fn is_typed(&self) -> bool
        ensures { result ≡ is_some (function_signature self.now).result }
    {
        self.return_type.is_some()
    }

    /// The types of the arguments. Where the function is variadic, further ones have the last.
    pub fn arg_types(&self) -> &[Type]
        ensures types { map core_of result.now ≡ (function_signature self.now).parameters }
        ensures some { (function_signature self.now).is_variadic ≡ true → 0 < length result.now }
    {
        self.arg_types.as_slice()
    }

    /// Whether the function takes further arguments, of the last type.
    pub fn is_variadic(&self) -> bool
        ensures { result ≡ (function_signature self.now).is_variadic }
    {
        self.variadic
    }

    /// Whether the function is a constructor: a function in function style of one text, not variadic, that gives an extension
    /// value.
    pub fn is_single_arg_constructor(&self) -> bool
        ensures { result ≡ is_constructor (function_signature self.now) }
    {
        self.constructed().is_some()
    }

    /// The extension type whose values the function gives, if its result is one.
    pub fn ext_types(&self) -> ExtTypes<'_>
        ensures { types_left result ≡ filter_map (λ f. given_type (function_signature f)) (self.now ∷ []) }
    {
        ExtTypes {
            functions: std::slice::from_ref(self).iter(),
        }
    }

    // The extension type whose values the function gives, if its result is one.
    pub(crate) fn ext_type(&self) -> Option<&Name>
        ensures { option_map (λ n. plain_name_of n.now) result ≡ given_type (function_signature self.now) }
    {
        match &self.return_type {
            Some(Type::Extension { name }) => Some(name),
            Some(Type::Bool | Type::Long | Type::String) => None,
            Some(Type::Set | Type::Record | Type::Entity { .. }) | None => None,
        }
    }

    // The type that the function constructs, where it is a constructor.
    pub(crate) fn constructed(&self) -> Option<&Type>
        ensures { option_map (λ t. core_of t.now) result ≡ constructed (function_signature self.now) }
    {
        match self.style {
            CallStyle::FunctionStyle => {}
            CallStyle::MethodStyle => return None,
        }
        if self.variadic || !is_one_text(self.arg_types.as_slice()) {
            return None;
        }
        match &self.return_type {
            Some(ty) => extension_type(ty),
            None => None,
        }
    }

    /// Calls the function on these arguments. Refuses another number of them than it takes, then the first that isn't of its
    /// type, then what the function itself refuses, and fails when out of memory.
    pub fn call(
        &self,
        alloc: Global,
        args: &[Value<ExtValue>],
    ) -> Result<ExtensionOutputValue, CallFault>
        ensures taken { OnOk result (takes (function_signature self.now) (bare_values args.now) ≡ true) }
        ensures refused { IfErr result (RefusesCall (function_signature self.now) (bare_values args.now)) }
        ensures asked { IfAsked (MayAnswer self.now alloc args.entry) result }
        ensures modelled { AgreesWithModel self.now (bare_values args.now) result }
        ensures of_result { IfOk result (λ o. is_output (function_signature self.now).result o ≡ true) }
    {
        if !self.takes_count(args.len()) {
            return Err(CallFault::WrongNumArguments {
                function_name: self.name.clone()?,
                expected: self.arg_types.len(),
                actual: args.len(),
            });
        }
        match first_mistyped(self.arg_types.as_slice(), args)? {
            Some((expected, actual)) => Err(CallFault::ArgumentType { expected, actual }),
            None => self.ask(alloc, args),
        }
    }

    /// Whether the function takes so many arguments: as many as it has types, or, where it is variadic, that many or more.
    pub fn takes_count(&self, count: usize) -> bool
        ensures { result ≡ takes_count (function_signature self.now) count }
    {
        if self.variadic {
            self.arg_types.len() <= count
        } else {
            count == self.arg_types.len()
        }
    }

    // Asks the function that is stored, and hands on what it answers.
    fn ask(
        &self,
        alloc: Global,
        args: &[Value<ExtValue>],
    ) -> Result<ExtensionOutputValue, CallFault>
        requires { takes (function_signature self.now) (bare_values args.now) ≡ true }
        ensures refused { IfErr result (RefusesCall (function_signature self.now) (bare_values args.now)) }
        ensures asked { IfAsked (MayAnswer self.now alloc args.entry) result }
        ensures modelled { AgreesWithModel self.now (bare_values args.now) result }
        ensures of_result { IfOk result (λ o. is_output (function_signature self.now).result o ≡ true) }
    {
        match self.ask_stored(alloc, args) {
            Ok(output) => Ok(output),
            Err(fault) => Err(fault),
        }
    }

    // Asks the function that is stored.
    fn ask_stored(
        &self,
        alloc: Global,
        args: &[Value<ExtValue>],
    ) -> Result<ExtensionOutputValue, CallFault>
        requires { takes (function_signature self.now) (bare_values args.now) ≡ true }
        ensures { MayAnswer self.now alloc args.entry result }
    {
        (self.func)(alloc, args)
    }
}

// Whether these types are that of texts alone.
fn is_one_text(types: &[Type]) -> bool
    ensures { result ≡ is_one_text (map core_of types.now) }
{
    match types {
        [only] => is_text(only),
        _ => false,
    }
}

// Whether the type is that of texts.
fn is_text(ty: &Type) -> bool
    ensures { result ≡ is_text (core_of ty.now) }
{
    match ty {
        Type::String => true,
        Type::Bool | Type::Long | Type::Set | Type::Record => false,
        Type::Entity { .. } | Type::Extension { .. } => false,
    }
}

// The type, where it is one of extension values.
fn extension_type(ty: &Type) -> Option<&Type>
    ensures { option_map (λ t. core_of t.now) result ≡ extension_type (core_of ty.entry.now) }
{
    match ty {
        Type::Extension { .. } => Some(ty),
        Type::Bool | Type::Long | Type::String => None,
        Type::Set | Type::Record | Type::Entity { .. } => None,
    }
}

// The types of the arguments after one of these types: the last stays.
fn after_one(types: &[Type]) -> &[Type]
    ensures { map core_of result.now ≡ after_one (map core_of types.entry.now) }
{
    match types.split_first() {
        Some((_, further)) if !further.is_empty() => further,
        _ => types,
    }
}

// The first of these arguments that isn't of its type: the type that is due, and the type that it has.
fn first_mistyped(
    types: &[Type],
    args: &[Value<ExtValue>],
) -> Result<Option<(Type, Type)>, AllocError>
    ensures { IfOk result (λ o. option_map core_pair o ≡ first_mistyped (map core_of types.now) (bare_values args.now)) }
{
    let mut due = types;
    for arg in args {
        let Some(expected) = due.first() else {
            return Ok(None);
        };
        let actual = arg.type_of()?;
        if !expected.same(&actual) {
            return Ok(Some((expected.clone()?, actual)));
        }
        due = after_one(due);
    }
    Ok(None)
}

/// Goes over the extension types that functions give, each as often as a function gives it.
#[derive(Drop)]
pub struct ExtTypes<'a> {
    functions: Iter<'a, ExtensionFunction>,
}

impl<'a> Iterator for ExtTypes<'a> {
    type Item = &'a Name;

    ghost use Rattle.std.specs.Iterator.{YieldsFirstBy, item_count};
    ghost use Rattle.cedar_expr_functions.specs.Extended.{types_left};

    ghost next_gives = { YieldsFirstBy (λ n. plain_name_of n.now) types_left };

    ghost remaining = { item_count types_left };

    fn next(&mut self) -> Option<&'a Name> {
        while let Some(f) = self.functions.next() {
            if let Some(name) = f.ext_type() {
                return Some(name);
            }
        }
        None
    }
}

/// An extension: its functions, and those of its types whose values `<` and `<=` take.
pub struct Extension {
    name: Name,
    pub(crate) functions: Vec<ExtensionFunction>,
    pub(crate) ordered: Vec<Name>,
}

// prover: see ARCHITECTURE
impl Drop for Extension {
    fn drop(self) {
        let Extension {
            name: _,
            functions: _,
            ordered: _,
        } = self;
    }
}

impl Extension {
    ghost use Rattle.std.specs.Prelude.{find};
    ghost use Rattle.std.specs.List.{filter_map};
    ghost use Rattle.std.specs.Slice.Iter.{iter_rest};
    ghost use Rattle.cedar_expr_model.specs.Name.{name_eq};
    ghost use Rattle.cedar_expr_functions.specs.Signatures.{given_type};
    ghost use Rattle.cedar_expr_functions.specs.Functions.{function_name, function_signature};
    ghost use Rattle.cedar_expr_functions.specs.Extended.{extension_name, functions_in, ordered_in, types_left};

    /// The extension of this name, with these functions, in which the values of these types are ordered.
    pub fn new(
        name: Name,
        functions: Vec<ExtensionFunction>,
        types_with_operator_overloading: Vec<Name>,
    ) -> Extension
        ensures name { extension_name result ≡ plain_name_of name }
        ensures functions { functions_in result ≡ functions.items }
        ensures ordered { ordered_in result ≡ map plain_name_of types_with_operator_overloading.items }
    {
        Extension {
            name,
            functions,
            ordered: types_with_operator_overloading,
        }
    }

    /// The name of the extension.
    pub fn name(&self) -> &Name
        ensures { plain_name_of result.now ≡ extension_name self.now }
    {
        &self.name
    }

    /// The first function of this name, where there is one.
    pub fn get_func(&self, name: &Name) -> Option<&ExtensionFunction>
        ensures { option_map (λ f. f.now) result ≡ find (λ f. name_eq (plain_name_of name.now) (function_name f)) (functions_in self.now) }
    {
        for f in &self.functions {
            if name.same(f.name()) {
                return Some(f);
            }
        }
        None
    }

    /// The functions, in the order in which they were given.
    pub fn funcs(&self) -> Iter<'_, ExtensionFunction>
        ensures { iter_rest result ≡ functions_in self.now }
    {
        self.functions.iter()
    }

    /// The extension types that the functions give.
    pub fn ext_types(&self) -> ExtTypes<'_>
        ensures { types_left result ≡ filter_map (λ f. given_type (function_signature f)) (functions_in self.now) }
    {
        ExtTypes {
            functions: self.functions.iter(),
        }
    }

    /// The types whose values `<` and `<=` take.
    pub fn types_with_operator_overloading(&self) -> Iter<'_, Name>
        ensures { map plain_name_of (iter_rest result) ≡ ordered_in self.now }
    {
        self.ordered.iter()
    }
}
