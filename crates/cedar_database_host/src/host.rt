//! A host over a database.

ghost use Rattle.std.specs.Prelude.{◌≡◌, ◌<◌, [], IsTrue, map, IfOk, IfErr, OnOk, None};
ghost use Rattle.cedar_database_host.specs.Faults.{host_fault_of_reading};
ghost use Rattle.cedar_database_host.specs.Hosts.{asked_of, faults_of, reader_of, database_of, store_of, IsHonest, answered_uid, entity_of_answer};
ghost use Rattle.cedar_database_host.specs.Lookup.{IsLookup, IsSettled, LooksOnly};
ghost use Rattle.cedar_database_host.specs.Reading.{text_read};
ghost use Rattle.cedar_database_host.specs.Table.{PutsEntity, entities_of};
ghost use Rattle.cedar_database_host.specs.declared.fault.DatabaseFault.TheVariants.{Unreadable};
ghost use Rattle.cedar_expr_names.specs.Views.{uid_of};
ghost use Rattle.cedar_gate_runs.specs.Hosts.{AreAnswersFrom, answered_of, answer_from, asked_after, failures_after};
ghost use Rattle.sqlite.specs.Held.{state};
ghost use Rattle.sqlite.specs.State.{HasCleanDisk};

use crate::bodies::read_body_of;
use crate::fault::DatabaseFault;
use crate::filling::{put_entity, put_store};
use crate::reader::EntityReader;
use crate::table::{find_body, make_table};
use cedar_expr_names::EntityUID;
use cedar_gate_bundles::ReadFault;
use cedar_gate_runs::{Host, HostFault, copied};
use cedar_store_entities::Entity;
use serde_json::Value;
use sqlite::{Alter, Connection, File, FileStore, MemStore};
use std::alloc::Global;
use std::rt::HostRuntime;

/// A host over the table `entity` of a SQLite database: under the text of a uid, as `User::"a"`, stands the JSON form of its entity in a
/// bundle's store. It is asked for each uid by its key, and its values are evaluated by the functions of a table of them.
///
/// It keeps exactly what it was asked for and how often it failed. It is honest where the database is open and shows a clean disk, `entity` is a
/// table, and the reader reads by the functions that it is said to have: all that it answered by then is from one store, that of its rows.
#[derive(Drop)]
pub struct DatabaseHost<'t, S: Alter + Drop, T> {
    connection: Connection<S>,
    reader: &'t T,
    asked: Vec<Vec<EntityUID>>,
    failures: u64,
}

impl<'t, T: EntityReader> DatabaseHost<'t, MemStore, T> {
    /// The host over a new database in memory, which has the table, and no row.
    ///
    /// # Errors
    /// Out of memory.
    pub fn open_in_memory(
        alloc: Global,
        reader: &'t T,
    ) -> Result<DatabaseHost<'t, MemStore, T>, DatabaseFault>
        ensures reader { IfOk result (λ h. reader_of h ≡ reader.entry.now) }
        ensures asked { IfOk result (λ h. asked_of h ≡ []) }
        ensures faults { IfOk result (λ h. faults_of h ≡ 0) }
    {
        let mut connection = Connection::open_in_memory(alloc)?;
        make_table(&mut connection)?;
        Ok(DatabaseHost::over(alloc, connection, reader))
    }
}

impl<'t, T: EntityReader> DatabaseHost<'t, FileStore<File>, T> {
    /// The host over the database in the file at a path. Makes the file, and the table, where there is none.
    ///
    /// # Errors
    /// Out of memory, or the file is no database, is in use, or can't be read or written.
    pub fn open(
        rt: &HostRuntime,
        path: &str,
        reader: &'t T,
    ) -> Result<DatabaseHost<'t, FileStore<File>, T>, DatabaseFault>
        ensures reader { IfOk result (λ h. reader_of h ≡ reader.entry.now) }
        ensures asked { IfOk result (λ h. asked_of h ≡ []) }
        ensures faults { IfOk result (λ h. faults_of h ≡ 0) }
    {
        let mut connection = Connection::open(rt, path)?;
        make_table(&mut connection)?;
        Ok(DatabaseHost::over(rt.alloc(), connection, reader))
    }
}

impl<'t, S: Alter + Drop, T: EntityReader> DatabaseHost<'t, S, T> {
    /// The host over this connection, as it is. Nothing was asked of it, and it hasn't failed.
    pub fn over(alloc: Global, connection: Connection<S>, reader: &'t T) -> DatabaseHost<'t, S, T>
        ensures reader { reader_of result ≡ reader.entry.now }
        ensures asked { asked_of result ≡ [] }
        ensures faults { faults_of result ≡ 0 }
    {
        DatabaseHost {
            connection,
            reader,
            asked: Vec::new(alloc),
            failures: 0,
        }
    }

    /// The lists of uids that were asked for and answered, in their order.
    pub fn asked(&self) -> &[Vec<EntityUID>]
        ensures { map (λ uids. map uid_of uids.items) result.now ≡ asked_of self.now }
    {
        self.asked.as_slice()
    }

    /// Puts in the entity that the text is in the JSON of a bundle's store, in place of one with its uid. The text is kept as it is.
    ///
    /// # Errors
    /// Out of memory, a text that doesn't read as an entity, or a fault of the database.
    pub fn put(&mut self, alloc: Global, text: &str) -> Result<(), DatabaseFault>
        ensures put { OnOk result (PutsEntity (T.agrees (reader_of self.old)) (T.functions (reader_of self.old)) text.now (database_of S.Store self.old) (database_of S.Store self.new)) }
        ensures unreadable { IfErr result (λ f. f ≡ Unreadable → T.agrees (reader_of self.old) → text_read (T.functions (reader_of self.old)) text.now ≡ None) }
        ensures reader { reader_of self.new ≡ reader_of self.old }
        ensures asked { asked_of self.new ≡ asked_of self.old }
        ensures faults { faults_of self.new ≡ faults_of self.old }
    {
        put_entity(alloc, &mut self.connection, self.reader, text)
    }

    /// Puts in each entity of the JSON of a bundle's store, all or none.
    ///
    /// # Errors
    /// Out of memory, what doesn't read as a list of entities, or a fault of the database, as where a transaction is open on it.
    pub fn load(&mut self, alloc: Global, store: &Value) -> Result<(), DatabaseFault>
        ensures reader { reader_of self.new ≡ reader_of self.old }
        ensures asked { asked_of self.new ≡ asked_of self.old }
        ensures faults { faults_of self.new ≡ faults_of self.old }
    {
        put_store(alloc, &mut self.connection, self.reader, store)
    }
}

// The fault that a fault of reading is.
fn of_reading(fault: ReadFault) -> HostFault
    ensures { result ≡ host_fault_of_reading fault }
{
    match fault {
        ReadFault::OutOfMemory => HostFault::Memory,
        ReadFault::Unreadable => HostFault::Device,
    }
}

// What the database has for a uid.
fn answer_one<S: Alter, T: EntityReader>(
    alloc: Global,
    connection: &mut Connection<S>,
    reader: &T,
    uid: &EntityUID,
) -> Result<(EntityUID, Option<Entity>), HostFault>
    ensures asked { IfOk result (λ a. answered_uid a ≡ uid_of uid.now) }
    ensures entity { IfOk result (λ a. entity_of_answer a ≡ uid_of uid.now) }
    ensures looks { LooksOnly (state S.Store connection.old) (state S.Store connection.new) }
    ensures answer { HasCleanDisk (state S.Store connection.new) → IsLookup (state S.Store connection.old).now → T.agrees reader.now
        → IfOk result (λ a. answered_of a ≡ answer_from (entities_of (T.functions reader.now) (state S.Store connection.old).now) (uid_of uid.now)) }
{
    let asked = uid.clone().map_err(|_| HostFault::Memory)?;
    let key = format!(in alloc; "{uid}").map_err(|_| HostFault::Memory)?;
    match find_body(connection, key.as_str()) {
        Ok(Some(body)) => match read_body_of(alloc, reader, uid, body.as_str()) {
            Ok(entity) => Ok((asked, Some(entity))),
            Err(fault) => Err(of_reading(fault)),
        },
        Ok(None) => Ok((asked, None)),
        Err(fault) => Err(fault),
    }
}

// What the database has for uids, in their order.
fn answer_all<S: Alter, T: EntityReader>(
    alloc: Global,
    connection: &mut Connection<S>,
    reader: &T,
    uids: &[EntityUID],
) -> Result<Vec<(EntityUID, Option<Entity>)>, HostFault>
    ensures asked { IfOk result (λ answers. map answered_uid answers.items ≡ map uid_of uids.now) }
    ensures entities { IfOk result (λ answers. map entity_of_answer answers.items ≡ map uid_of uids.now) }
    ensures looks { LooksOnly (state S.Store connection.old) (state S.Store connection.new) }
    ensures answers { HasCleanDisk (state S.Store connection.new) → IsTrue (state S.Store connection.new).is_open → IsSettled (state S.Store connection.old)
        → IsLookup (state S.Store connection.old).now → T.agrees reader.now
        → IfOk result (λ answers. AreAnswersFrom (entities_of (T.functions reader.now) (state S.Store connection.old).now) (map uid_of uids.now) answers.items) }
{
    let mut answers = Vec::with_capacity(alloc, uids.len()).map_err(|_| HostFault::Memory)?;
    for uid in uids {
        let answer = answer_one(alloc, connection, reader, uid)?;
        answers.push(answer).map_err(|_| HostFault::Memory)?;
    }
    Ok(answers)
}

impl<'t, S: Alter + Drop, T: EntityReader> DatabaseHost<'t, S, T> {
    // Answers each uid in its order, with its entity where there is a row for it, unless a transaction is open.
    #[tactic(auto, unfolding(crate::specs::Hosts::store_of))]
    fn look_up(
        &mut self,
        alloc: Global,
        ids: &[EntityUID],
    ) -> Result<Vec<(EntityUID, Option<Entity>)>, HostFault>
        requires { faults_of self.old < u64.MAX }
        ensures honest { IsHonest S.Store T.agrees self.new → IsHonest S.Store T.agrees self.old }
        ensures store { IsHonest S.Store T.agrees self.new → store_of S.Store T.functions self.new ≡ store_of S.Store T.functions self.old }
        ensures answers { IsHonest S.Store T.agrees self.new → IfOk result (λ answers. AreAnswersFrom (store_of S.Store T.functions self.old) (map uid_of ids.now) answers.items) }
        ensures asked { asked_of self.new ≡ asked_after result (asked_of self.old) (map uid_of ids.now) }
        ensures faults { faults_of self.new ≡ failures_after result (faults_of self.old) }
        ensures answered { IfOk result (λ answers. map answered_uid answers.items ≡ map uid_of ids.now) }
        ensures entities { IfOk result (λ answers. map entity_of_answer answers.items ≡ map uid_of ids.now) }
    {
        if !self.connection.is_autocommit() {
            self.failures += 1;
            return Err(HostFault::Device);
        }
        match answer_all(alloc, &mut self.connection, self.reader, ids) {
            Ok(answers) => {
                let copy = copied(alloc, ids).map_err(|_| HostFault::Memory)?;
                self.asked.push(copy).map_err(|_| HostFault::Memory)?;
                Ok(answers)
            }
            Err(HostFault::Device) => {
                self.failures += 1;
                Err(HostFault::Device)
            }
            Err(HostFault::Memory) => Err(HostFault::Memory),
        }
    }
}

impl<'t, S: Alter + Drop, T: EntityReader> Host for DatabaseHost<'t, S, T> {
    ghost store = { store_of S.Store T.functions };

    ghost asked = { asked_of };

    ghost honest = { IsHonest S.Store T.agrees };

    ghost faults = { faults_of };

    fn failures(&self) -> u64 {
        self.failures
    }

    /// Answers each uid in its order, with its entity where there is a row for it. Its faults are those of the database, rows that don't hold
    /// the entity of their uid, and that a transaction is open.
    fn fetch(
        &mut self,
        alloc: Global,
        ids: &[EntityUID],
    ) -> Result<Vec<(EntityUID, Option<Entity>)>, HostFault> {
        self.look_up(alloc, ids)
    }
}
