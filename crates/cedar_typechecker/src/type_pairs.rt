//! Pairs of entity types.

ghost use Rattle.std.specs.Prelude.{◌≡◌, false, OnOk, OnErr};
ghost use Rattle.cedar_expr_names.specs.declared.entity.EntityType.{EntityType as CodeType};
ghost use Rattle.cedar_typechecker.specs.Pairs.{has_pair, are_types, GainsPairs};

use cedar_expr_names::EntityType;
use std::alloc::{AllocError, Global};
use std::collections::{BTreeMap, BTreeSet};

/// Pairs of entity types: under each first one, in the order of names, the second ones.
#[derive(Drop)]
pub struct TypePairs {
    rows: BTreeMap<EntityType, BTreeSet<EntityType>>,
}

impl TypePairs {
    /// No pairs.
    pub fn new(alloc: Global) -> TypePairs
        ensures { (q r : CodeType) → has_pair result q r ≡ false }
    {
        TypePairs {
            rows: BTreeMap::new(alloc),
        }
    }

    /// Whether the pair of these is among them.
    pub fn contains(&self, first: &EntityType, second: &EntityType) -> bool
        ensures { result ≡ has_pair self.now first.now second.now }
    {
        match self.rows.get(first) {
            Some(row) => row.contains(second),
            None => false,
        }
    }

    /// Puts the pair of these among them. Fails only when out of memory, and then there are the pairs that there were.
    pub fn insert(
        &mut self,
        alloc: Global,
        first: EntityType,
        second: EntityType,
    ) -> Result<(), AllocError>
        ensures added { OnOk result (GainsPairs (are_types first second) self.old self.new) }
        ensures kept { OnErr result ((q r : CodeType) → has_pair self.new q r ≡ has_pair self.old q r) }
    {
        if let Some(row) = self.rows.get_mut(&first) {
            row.insert(second)?;
            return Ok(());
        }
        let mut row = BTreeSet::new(alloc);
        row.insert(second)?;
        self.rows.insert(first, row)?;
        Ok(())
    }
}
