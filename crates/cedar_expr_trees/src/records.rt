//! Records made of pairs.

ghost use Rattle.std.specs.Prelude.{◌≡◌, false, IfOk, IfErr, OnOk, None};
ghost use Rattle.std.specs.BTreeMap.{insert_entry};
ghost use Rattle.std.specs.List.{list_any};
ghost use Rattle.std.specs.Rc.{rc_str_bytes};
ghost use Rattle.std.specs.Str.{bytes_eq};
ghost use Rattle.cedar_expr_model.specs.Order.{text_cmp};
ghost use Rattle.cedar_expr_model.specs.Records.{in_order, record_tree};
ghost use Rattle.cedar_expr_model.specs.Repeats.{repeated_name};
ghost use Rattle.cedar_expr_trees.specs.Trees.{tree_of, place_of, named, field_trees};
ghost use Rattle.cedar_expr_trees.specs.Refusals.{RefusesRecord, RefusesField, names_of};

use crate::err::{DuplicateKeyError, ExpressionConstructionError};
use crate::expr::Expr;
use std::alloc::Global;
use std::collections::BTreeMap;
use std::rc::{Rc, RcStr};

impl Expr {
    /// A record, by pairs of names and expressions. Refuses a name that is repeated, whatever stands under it, and fails when
    /// out of memory.
    pub fn record(
        alloc: Global,
        pairs: Vec<(RcStr, Expr)>,
    ) -> Result<Expr, ExpressionConstructionError>
        ensures tree { IfOk result (λ r. tree_of r ≡ record_tree (named (field_trees pairs.items))) }
        ensures place { IfOk result (λ r. place_of r ≡ None) }
        ensures distinct { OnOk result (repeated_name (named pairs.items) ≡ None) }
        ensures refused { IfErr result (λ e. RefusesRecord (named pairs.items) e) }
    {
        let fields = field_map(alloc, pairs)?;
        let fields = Rc::new(alloc, fields)?;
        Ok(Expr::record_arc(fields))
    }
}

/// The map of these pairs. Refuses a name that is repeated, whatever stands under it, and fails when out of memory.
pub fn field_map<V: Drop>(
    alloc: Global,
    pairs: Vec<(RcStr, V)>,
) -> Result<BTreeMap<RcStr, V>, ExpressionConstructionError>
    ensures made { IfOk result (λ m. named m.entries ≡ in_order (named pairs.items)) }
    ensures distinct { OnOk result (repeated_name (named pairs.items) ≡ None) }
    ensures refused { IfErr result (λ e. RefusesRecord (named pairs.items) e) }
{
    let mut fields = BTreeMap::new(alloc);
    for (name, value) in pairs {
        add_field(&mut fields, name, value)?;
    }
    Ok(fields)
}

// Puts one more pair into the map, unless its name is there.
fn add_field<V: Drop>(
    fields: &mut BTreeMap<RcStr, V>,
    name: RcStr,
    value: V,
) -> Result<(), ExpressionConstructionError>
    ensures added { OnOk result (fields.new.entries ≡ insert_entry (λ s t. text_cmp (rc_str_bytes s) (rc_str_bytes t)) fields.old.entries name value) }
    ensures absent { OnOk result (list_any (bytes_eq (rc_str_bytes name)) (names_of (named fields.old.entries)) ≡ false) }
    ensures refused { IfErr result (λ e. RefusesField (names_of (named fields.old.entries)) (rc_str_bytes name) e) }
{
    if fields.contains_key(&name) {
        return Err(ExpressionConstructionError::DuplicateKey(DuplicateKeyError::new(
            name,
            "in record literal",
        )));
    }
    fields.insert(name, value)?;
    Ok(())
}
