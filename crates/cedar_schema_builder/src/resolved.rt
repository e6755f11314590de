//! Fragments with each name resolved.

ghost use Rattle.std.specs.Prelude.{◌≡◌, List, map, IfOk, IfErr};
ghost use Rattle.std.specs.declared.result.Result.TheVariants.{Ok};
ghost use Rattle.cedar_expr_model.specs.Name.{Name, Text};
ghost use Rattle.cedar_expr_names.specs.Views.{name_of, type_name_of};
ghost use Rattle.cedar_schema_decl.specs.Conditional.{Conditional, conditional_of};
ghost use Rattle.cedar_schema_decl.specs.Defined.{defined_of};
ghost use Rattle.cedar_schema_decl.specs.Requalified.{each};
ghost use Rattle.cedar_schema_fragments.specs.Namespaces.{NamespaceForm, fragment_form};
ghost use Rattle.cedar_schema_fragments.specs.Refusals.{Refuses};
ghost use Rattle.cedar_schema_fragments.specs.Resolved.{namespace_resolved};
ghost use Rattle.cedar_schema_builder.specs.AllResolved.{all_resolved};

use cedar_expr_leaves::ConditionalName;
use cedar_expr_names::{EntityType, InternalName};
use cedar_schema_decl::AllDefs;
use cedar_schema_fragments::resolving::{Resolve, resolve_each};
use cedar_schema_fragments::{FragmentError, ValidatorSchemaFragment};
use std::alloc::Global;

// All that is declared, for fragments.
#[derive(Drop)]
struct Fragments<'a>(&'a AllDefs);

impl<'a> Resolve for Fragments<'a> {
    type From = ValidatorSchemaFragment<ConditionalName, ConditionalName>;

    type To = ValidatorSchemaFragment<InternalName, EntityType>;

    ghost Before = { List (NamespaceForm Conditional (Conditional × Text)) };

    ghost After = { List (NamespaceForm Name (Name × Text)) };

    ghost before = { fragment_form conditional_of conditional_of };

    ghost after = { fragment_form name_of type_name_of };

    ghost resolves = { λ f. each (namespace_resolved (defined_of f.0.now)) };

    fn resolve(
        &self,
        alloc: Global,
        part: ValidatorSchemaFragment<ConditionalName, ConditionalName>,
    ) -> Result<ValidatorSchemaFragment<InternalName, EntityType>, FragmentError> {
        part.fully_qualify_type_references(alloc, self.0)
    }
}

/// The fragments with each name replaced by that of the type that it means, and each parent of an action by the action that it
/// means. Refuses the first that means none, fragment by fragment, or a principal or resource type that is reserved, and fails
/// when out of memory.
pub fn resolve_all(
    alloc: Global,
    fragments: Vec<ValidatorSchemaFragment<ConditionalName, ConditionalName>>,
    all_defs: &AllDefs,
) -> Result<Vec<ValidatorSchemaFragment<InternalName, EntityType>>, FragmentError>
    ensures resolved { IfOk result (λ r. all_resolved (defined_of all_defs.now) fragments.items ≡ Ok (map (fragment_form name_of type_name_of) r.items)) }
    ensures refused { IfErr result (Refuses (all_resolved (defined_of all_defs.now) fragments.items)) }
{
    resolve_each(alloc, fragments, &Fragments(all_defs))
}
