//! What is loaded by now, and what is wanted next.

ghost use Rattle.std.specs.Prelude.{◌≡◌, [], None, IfErr, OnOk, OnErr, is_some};
ghost use Rattle.std.specs.List.{list_any};
ghost use Rattle.cedar_expr_model.specs.Uid.{Uid, uid_eq};
ghost use Rattle.cedar_expr_names.specs.Views.{uid_of};
ghost use Rattle.cedar_gate_wanted.specs.Rows.{found_at, uids, NothingStandsAt};
ghost use Rattle.cedar_schema_model.specs.Schema.{Schema};
ghost use Rattle.cedar_gate_wanted.specs.Supplying.{rows_of, keys_in, IsFilled, AreKeys, IsUnfit};

use crate::next::{DeclaredActions, next_wanted};
use crate::rows::take_out_all;
use crate::supplied::{Unfit, check};
use crate::take::take;
use crate::{Loaded, Near, add, undo};
use cedar_expr_names::EntityUID;
use std::alloc::{AllocError, Global};
use std::collections::BTreeMap;
use std::collections::btree_map::Keys;

/// What is loaded by now, as far as it leads to further uids: the distances of uids from the roots, what each uid that was asked for
/// mentions, and what is wanted next.
#[derive(Drop)]
pub struct Loading {
    near: Near,
    rows: Loaded,
    wanted: Vec<EntityUID>,
    level: u64,
    ghost fresh: { NothingStandsAt (uids wanted.items) (found_at rows) },
}

impl Loading {
    ghost use Rattle.cedar_gate_wanted.specs.Wanting.{rows_in, wanted_in, level_of, IsWanting, IsSameLoading, IsKeptFrom, RootsAreAdded, RootsAreKept};

    /// Nothing is loaded, and there are no roots.
    pub fn new(alloc: Global, level: u32) -> Loading
        ensures wanting { (s : Schema) → IsWanting s result }
        ensures kept { IsKeptFrom [] result }
        ensures level { level_of result ≡ level }
        ensures rows { (u : Uid) → rows_in result u ≡ None }
    {
        Loading {
            near: BTreeMap::new(alloc),
            rows: BTreeMap::new(alloc),
            wanted: Vec::new(alloc),
            level: u64::from(level),
        }
    }

    /// What is wanted, in rising order.
    pub fn wanted(&self) -> &[EntityUID]
        ensures { uids result.now ≡ wanted_in self.now }
    {
        self.wanted.as_slice()
    }

    /// Goes over the uids that were asked for, in their order.
    pub fn asked(&self) -> Keys<'_, EntityUID, Vec<EntityUID>>
        ensures { (u : Uid) → list_any (uid_eq u) (uids result) ≡ is_some (rows_in self.now u) }
    {
        self.rows.keys()
    }

    /// Adds roots. Fails only when out of memory, and then all is as before.
    pub fn add_roots<S: DeclaredActions>(
        &mut self,
        alloc: Global,
        schema: &S,
        roots: &[EntityUID],
    ) -> Result<(), AllocError>
        ensures wanting { OnOk result (IsWanting (S.schema schema.now) self.old → IsWanting (S.schema schema.now) self.new) }
        ensures kept { OnOk result (RootsAreAdded self.old self.new (uids roots.now)) }
        ensures rows { self.new.rows ≡ self.old.rows }
        ensures level { level_of self.new ≡ level_of self.old }
        ensures unchanged { OnErr result (IsSameLoading self.old self.new) }
    {
        let log = add(&mut self.near, &self.rows, roots, self.level, alloc)?;
        let wanted = self.wanted.as_slice();
        match next_wanted(alloc, schema, &self.near, &self.rows, &log, wanted) {
            Ok(wanted) => {
                self.wanted = wanted;
                Ok(())
            }
            Err(error) => {
                undo(&mut self.near, log);
                Err(error)
            }
        }
    }

    /// Takes in what each wanted uid mentions.
    ///
    /// # Errors
    ///
    /// A uid that isn't wanted, a wanted one that is missing, one that is given twice; or out of memory. All is as before then.
    pub fn supply<S: DeclaredActions>(
        &mut self,
        alloc: Global,
        schema: &S,
        rows: Vec<(EntityUID, Vec<EntityUID>)>,
    ) -> Result<(), Unfit>
        ensures wanting { OnOk result (IsWanting (S.schema schema.now) self.old → IsWanting (S.schema schema.now) self.new) }
        ensures kept { OnOk result (IsWanting (S.schema schema.now) self.old → RootsAreKept self.old self.new) }
        ensures filled { OnOk result (IsFilled (rows_of rows.items) (rows_in self.old) (rows_in self.new)) }
        ensures keys { OnOk result (AreKeys (wanted_in self.old) (keys_in rows.items)) }
        ensures level { level_of self.new ≡ level_of self.old }
        ensures refused { IfErr result (IsUnfit (wanted_in self.old) (keys_in rows.items)) }
        ensures unchanged { OnErr result (IsSameLoading self.old self.new) }
    {
        let wanted = self.wanted.as_slice();
        check(alloc, wanted, rows.as_slice())?;
        match take(
            alloc,
            schema,
            &mut self.near,
            &mut self.rows,
            wanted,
            self.level,
            rows,
        ) {
            Ok(wanted) => {
                self.wanted = wanted;
                Ok(())
            }
            Err(AllocError) => {
                take_out_all(&mut self.rows, self.wanted.as_slice());
                Err(Unfit::OutOfMemory)
            }
        }
    }
}
