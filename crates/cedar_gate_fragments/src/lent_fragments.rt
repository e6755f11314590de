//! Fragments that are lent, under full names.

ghost use Rattle.std.specs.Prelude.{◌≡◌, IfOk, IfErr};
ghost use Rattle.std.specs.List.{flat_map};
ghost use Rattle.std.specs.declared.result.Result.TheVariants.{Ok};
ghost use Rattle.cedar_schema_decl.specs.Requalified.{each};
ghost use Rattle.cedar_schema_fragments.specs.Qualified.{namespace_qualified};
ghost use Rattle.cedar_schema_fragments.specs.Refusals.{Refuses};
ghost use Rattle.cedar_schema_fragments.specs.Written.{written_fragment};
ghost use Rattle.cedar_schema_fragments.specs.WrittenDeclarations.{all_forms};

use cedar_expr_leaves::{ConditionalName, RawName};
use cedar_schema_decl::json_schema::Fragment;
use cedar_schema_fragments::{FragmentError, ValidatorSchemaFragment};
use std::alloc::Global;

/// What is declared in each of these fragments, under full names, in their order. Refuses actions of a reserved type, and fails
/// when out of memory.
pub fn fragments_of(
    alloc: Global,
    fragments: &[Fragment<RawName>],
) -> Result<Vec<ValidatorSchemaFragment<ConditionalName, ConditionalName>>, FragmentError>
    ensures made { IfOk result (λ r. each namespace_qualified (flat_map written_fragment fragments.now) ≡ Ok (all_forms r.items)) }
    ensures refused { IfErr result (Refuses (each namespace_qualified (flat_map written_fragment fragments.now))) }
{
    let mut made = Vec::with_capacity(alloc, fragments.len())?;
    for fragment in fragments {
        let qualified = ValidatorSchemaFragment::from_lent_fragment(alloc, fragment)?;
        made.push(qualified)?;
    }
    Ok(made)
}
