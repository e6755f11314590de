//! The table of entities: under the text of a uid the JSON form of its entity.

ghost use Rattle.std.specs.Prelude.{◌≡◌, ◌≢◌, [], ◌∷◌, IfOk, IfErr, OnOk, option_map, string_bytes};
ghost use Rattle.cedar_database_host.specs.Faults.{host_fault_of};
ghost use Rattle.cedar_database_host.specs.Lookup.{IsBody, IsLookup, LooksOnly, body_at, find_text};
ghost use Rattle.cedar_database_host.specs.Table.{Puts};
ghost use Rattle.cedar_database_host.specs.declared.fault.DatabaseFault.TheVariants.{Unreadable};
ghost use Rattle.sqlite.specs.Held.{state};
ghost use Rattle.sqlite.specs.State.{HasCleanDisk, Shown};
ghost use Rattle.sqlite.specs.declared.types.Value.TheVariants.{Text};

use crate::fault::DatabaseFault;
use cedar_gate_runs::HostFault;
use sqlite::{Alter, Connection, Error, ErrorCode, Row, params};

const MAKE: &str =
    "CREATE TABLE IF NOT EXISTS entity (uid TEXT PRIMARY KEY, body TEXT NOT NULL) STRICT";

/// Makes the table, where there is none of its name.
pub(crate) fn make_table<S: Alter>(connection: &mut Connection<S>) -> Result<(), DatabaseFault> {
    let _rows = connection.execute(MAKE, &[])?;
    Ok(())
}

/// Puts a body under the text of a uid, in place of what stood there.
pub(crate) fn put_body<S: Alter>(
    connection: &mut Connection<S>,
    uid: &str,
    body: &str,
) -> Result<(), DatabaseFault>
    ensures fault { IfErr result (λ f. f ≢ Unreadable) }
    ensures put { HasCleanDisk (state S.Store connection.new) → OnOk result (Puts uid.now body.now (state S.Store connection.old) (state S.Store connection.new)) }
{
    let _rows = connection.execute(
        "INSERT OR REPLACE INTO entity (uid, body) VALUES (?1, ?2)",
        params![uid, body],
    )?;
    Ok(())
}

// The fault that a fault of the database is to one who asks the host.
fn of_database(error: Error) -> HostFault
    ensures { result ≡ host_fault_of error }
{
    match error {
        Error::SqliteFailure(ErrorCode::OutOfMemory) => HostFault::Memory,
        _ => HostFault::Device,
    }
}

// The rows under a key.
fn rows_under<S: Alter>(connection: &mut Connection<S>, key: &str) -> Result<Vec<Row>, Error>
    ensures looks { LooksOnly (state S.Store connection.old) (state S.Store connection.new) }
    ensures shown { HasCleanDisk (state S.Store connection.new) → IfOk result (λ rows. Shown find_text (Text key.now ∷ []) (state S.Store connection.old) (state S.Store connection.new) rows.items) }
{
    connection.query_all("SELECT body FROM entity WHERE uid = ?1", params![key])
}

// The body of the only row, where there is one. It is a fault that there are more, or that it isn't a text.
fn body_of(rows: &[Row]) -> Result<Option<String>, HostFault>
    ensures { IfOk result (λ o. IsBody rows.now (option_map string_bytes o)) }
{
    if rows.len() > 1 {
        return Err(HostFault::Device);
    }
    match rows.first() {
        None => Ok(None),
        Some(row) => match row.get(0) {
            Ok(body) => Ok(Some(body)),
            Err(error) => Err(of_database(error)),
        },
    }
}

/// The body under a key, where there is one. It is a fault that there are more.
pub(crate) fn find_body<S: Alter>(
    connection: &mut Connection<S>,
    key: &str,
) -> Result<Option<String>, HostFault>
    ensures looks { LooksOnly (state S.Store connection.old) (state S.Store connection.new) }
    ensures body { HasCleanDisk (state S.Store connection.new) → IsLookup (state S.Store connection.old).now → IfOk result (λ o. body_at (state S.Store connection.old).now key.now ≡ option_map string_bytes o) }
{
    match rows_under(connection, key) {
        Ok(rows) => body_of(rows.as_slice()),
        Err(error) => Err(of_database(error)),
    }
}
