//! Which calls are made.

use crate::told::{Made, Told};
use crate::{authorized, gate, linked, members, schema, typed, without_memory};
use cedar_expr_functions::Extensions;
use cedar_gate_bundles::{Bundle, read_input};
use cedar_test_exprs::made;
use cedargate_functions::{V, label, rank, rank_extension, table_of};
use std::alloc::{AllocError, Global};

/// Makes the calls that the first line of the input names, with what stands behind it: rows for the first two, a bundle for the others, whose
/// functions are `rank` and `label`. The names:
/// - `members`: `Set::new` and `substitute_into_expr`
/// - `linked`: `PolicySet::link`
/// - `schema`: `from_schema_fragments`
/// - `typed`: `typecheck_policy` and `validate_policy_with_level`
/// - `authorized`: `is_authorized`, `is_authorized_core` and `reauthorize`
/// - `gate`: `Gate::accept`, `open`, `supply`, `bind`, `decision`, `bounds`, `answer` and `run`
/// - `without_memory`: those that take none
///
/// Fails out of memory between the calls, and where the input isn't understood.
pub fn make_calls(alloc: Global, input: &str) -> Made<Told> {
    let (calls, rest) = input.split_once('\n').ok_or(AllocError)?;
    let mut told = Told::new(alloc);
    match calls {
        "members" => members::make_calls(alloc, rest, &mut told)?,
        "linked" => linked::make_calls(alloc, rest, &mut told)?,
        _ => with_ranks(alloc, calls, rest, &mut told)?,
    }
    Ok(told)
}

fn with_ranks(alloc: Global, calls: &str, text: &str, told: &mut Told) -> Made<()> {
    let ranks = Box::new(alloc, |alloc: Global, args: &[V]| rank(alloc, args))?;
    let labels = Box::new(alloc, |alloc: Global, args: &[V]| label(alloc, args))?;
    let extension = rank_extension(alloc, ranks, labels)?;
    let table = table_of(alloc, &extension)?;
    let bundle = made(read_input(alloc, &table, text.as_bytes()))?;
    with_bundle(alloc, calls, bundle, &table, told)
}

fn with_bundle(
    alloc: Global,
    calls: &str,
    bundle: Bundle,
    table: &Extensions<'_>,
    told: &mut Told,
) -> Made<()> {
    match calls {
        "schema" => schema::make_calls(alloc, bundle, table, told),
        "typed" => typed::make_calls(alloc, bundle, table, told),
        "authorized" => authorized::make_calls(alloc, bundle, table, told),
        "gate" => gate::make_calls(alloc, bundle, table, told),
        "without_memory" => without_memory::make_calls(alloc, bundle, table, told),
        _ => Err(AllocError),
    }
}
