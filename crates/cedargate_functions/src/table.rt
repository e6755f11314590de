//! The table of the functions `rank` and `label`.

ghost use Rattle.std.specs.Prelude.{◌≡◌, true, [], ◌∷◌, IfOk};
ghost use Rattle.cedar_expr_model.specs.Table.{all_typed};
ghost use Rattle.cedar_expr_model.specs.Tree.{extension_core};
ghost use Rattle.cedar_expr_values.specs.Types.{core_of};
ghost use Rattle.cedar_expr_functions.specs.Extended.{functions_in, ordered_in};
ghost use Rattle.cedar_expr_functions.specs.Functions.{function_signature};
ghost use Rattle.cedar_expr_functions.specs.Tables as tables;
ghost use Rattle.cedar_evaluator_errors.specs.Answers.{IsMadeBy, AnswersMade};
ghost use Rattle.cedargate_functions.specs.Ranks.{rank_name, label_name, ranked, labelled, rank_calls, rank_answers};
ghost use Rattle.cedargate_functions.specs.Outcomes.{ComesTo, made_values};
ghost use Rattle.cedargate_functions.specs.Tables.{rank_signature, label_signature, HoldsRanks, rank_functions};
ghost use Rattle.cedargate_functions.specs.Stored.{AreRankFunctions};

use crate::functions::name;
use cedar_expr_functions::{
    CallStyle, Extension, ExtensionFunction, ExtensionInitializationError, Extensions, Func,
};
use cedar_expr_values::Type;
use std::alloc::{AllocError, Global};

// The function `rank`, which makes ranks of texts. What is stored comes to what `rank` answers. Fails only when out of memory.
fn rank_function(alloc: Global, func: Func) -> Result<ExtensionFunction, AllocError>
    requires callable { (a : _) (xs : _) → pre func a xs }
    requires answers { (a : _) (xs : _) (r : _) → post func a xs r → ComesTo (ranked (made_values xs.now)) r }
    ensures signature { IfOk result (λ f. function_signature f ≡ rank_signature) }
    ensures made { IfOk result (λ f. IsMadeBy f (rank_calls rank_name)) }
{
    let style = CallStyle::FunctionStyle;
    let given = rank_type(alloc)?;
    ExtensionFunction::unary(
        alloc,
        name(alloc, "rank")?,
        style,
        func,
        given,
        Type::String,
    )
}

// The function `label`, a method of ranks, which gives their texts. What is stored comes to what `label` answers. Fails only when
// out of memory.
fn label_function(alloc: Global, func: Func) -> Result<ExtensionFunction, AllocError>
    requires callable { (a : _) (xs : _) → pre func a xs }
    requires answers { (a : _) (xs : _) (r : _) → post func a xs r → ComesTo (labelled (made_values xs.now)) r }
    ensures signature { IfOk result (λ f. function_signature f ≡ label_signature) }
    ensures made { IfOk result (λ f. IsMadeBy f (rank_calls label_name)) }
{
    let style = CallStyle::MethodStyle;
    let taken = rank_type(alloc)?;
    ExtensionFunction::unary(
        alloc,
        name(alloc, "label")?,
        style,
        func,
        Type::String,
        taken,
    )
}

// The type of ranks.
fn rank_type(alloc: Global) -> Result<Type, AllocError>
    ensures { IfOk result (λ t. core_of t ≡ extension_core rank_name) }
{
    let name = name(alloc, "rank")?;
    Ok(Type::Extension { name })
}

// The extension of these two functions, in which ranks are ordered. Fails only when out of memory.
fn extension_of(
    alloc: Global,
    rank: ExtensionFunction,
    label: ExtensionFunction,
) -> Result<Extension, AllocError>
    requires rank { function_signature rank ≡ rank_signature }
    requires label { function_signature label ≡ label_signature }
    requires rank_made { IsMadeBy rank (rank_calls rank_name) }
    requires label_made { IsMadeBy label (rank_calls label_name) }
    ensures functions { IfOk result (λ e. AreRankFunctions (functions_in e)) }
    ensures ordered { IfOk result (λ e. ordered_in e ≡ rank_name ∷ []) }
{
    let functions = vec![in alloc; rank, label]?;
    let ordered = vec![in alloc; name(alloc, "rank")?]?;
    Ok(Extension::new(name(alloc, "rank")?, functions, ordered))
}

/// The extension of `rank` and `label`, of which these come to what each answers. Fails only when out of memory.
pub fn rank_extension(alloc: Global, ranks: Func, labels: Func) -> Result<Extension, AllocError>
    requires rank_callable { (a : _) (xs : _) → pre ranks a xs }
    requires label_callable { (a : _) (xs : _) → pre labels a xs }
    requires rank_answers { (a : _) (xs : _) (r : _) → post ranks a xs r → ComesTo (ranked (made_values xs.now)) r }
    requires label_answers { (a : _) (xs : _) (r : _) → post labels a xs r → ComesTo (labelled (made_values xs.now)) r }
    ensures functions { IfOk result (λ e. AreRankFunctions (functions_in e)) }
    ensures ordered { IfOk result (λ e. ordered_in e ≡ rank_name ∷ []) }
{
    let rank = rank_function(alloc, ranks)?;
    let label = label_function(alloc, labels)?;
    extension_of(alloc, rank, label)
}

/// The table of the extension, which has these two functions. Fails only when out of memory.
pub fn table_of<'a>(alloc: Global, extension: &'a Extension) -> Result<Extensions<'a>, AllocError>
    requires functions { AreRankFunctions (functions_in extension.now) }
    requires ordered { ordered_in extension.now ≡ rank_name ∷ [] }
    ensures made { IfOk result (λ t. AnswersMade t rank_calls) }
    ensures ranks { IfOk result (λ t. HoldsRanks (tables.table_of t rank_answers)) }
    ensures typed { IfOk result (λ t. all_typed (tables.table_of t rank_answers) ≡ true) }
{
    match Extensions::specific_extensions(alloc, std::slice::from_ref(extension)) {
        Ok(table) => Ok(table),
        Err(ExtensionInitializationError::OutOfMemory) => Err(AllocError),
        Err(
            ExtensionInitializationError::FuncMultiplyDefined(_)
            | ExtensionInitializationError::MultipleConstructorsSameSignature(_),
        ) => unreachable!(),
    }
}
