//! The extension types that are known.

ghost use Rattle.std.specs.Prelude.{IfOk};
ghost use Rattle.cedar_schema_assembly.specs.Lists.{IsSetOf};
ghost use Rattle.cedar_schema_resolver.specs.Meanings.{extensions_seen};
ghost use Rattle.cedar_schema_builder.specs.Extensions.{types_given};

use cedar_expr_functions::Extensions;
use cedar_expr_names::Name;
use cedar_schema_assembly::set_of;
use std::alloc::{AllocError, Global};
use std::collections::BTreeSet;

/// The extension types that the functions of the table give, each once. Fails only when out of memory.
pub fn extension_types(
    alloc: Global,
    extensions: &Extensions<'_>,
) -> Result<BTreeSet<Name>, AllocError>
    ensures { IfOk result (λ s. IsSetOf (types_given extensions.now) (extensions_seen s)) }
{
    let types = extensions.ext_type_list(alloc)?;
    set_of(alloc, &types)
}
