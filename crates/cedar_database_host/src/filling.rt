//! Putting entities into the table.

ghost use Rattle.std.specs.Prelude.{◌≡◌, None, IfErr, OnOk};
ghost use Rattle.cedar_database_host.specs.Reading.{text_read};
ghost use Rattle.cedar_database_host.specs.Table.{PutsEntity};
ghost use Rattle.cedar_database_host.specs.declared.fault.DatabaseFault.TheVariants.{Unreadable};
ghost use Rattle.sqlite.specs.Held.{state};

use crate::bodies::read_body;
use crate::fault::DatabaseFault;
use crate::reader::EntityReader;
use crate::table::put_body;
use cedar_gate_bundles::ReadFault;
use serde_json::Value;
use sqlite::{Alter, Connection};
use std::alloc::Global;

/// Puts in the entity that the text is, under its uid, in place of what stood there.
pub(crate) fn put_entity<S: Alter, T: EntityReader>(
    alloc: Global,
    connection: &mut Connection<S>,
    reader: &T,
    text: &str,
) -> Result<(), DatabaseFault>
    ensures put { OnOk result (PutsEntity (T.agrees reader.now) (T.functions reader.now) text.now (state S.Store connection.old) (state S.Store connection.new)) }
    ensures unreadable { IfErr result (λ f. f ≡ Unreadable → T.agrees reader.now → text_read (T.functions reader.now) text.now ≡ None) }
{
    let entity = match read_body(alloc, reader, text) {
        Ok(entity) => entity,
        Err(ReadFault::Unreadable) => return Err(DatabaseFault::Unreadable),
        Err(ReadFault::OutOfMemory) => return Err(DatabaseFault::OutOfMemory),
    };
    let uid = format!(in alloc; "{}", entity.uid())?;
    match put_body(connection, uid.as_str(), text) {
        Ok(()) => Ok(()),
        Err(fault) => Err(fault),
    }
}

// Puts in each of these.
fn put_each<S: Alter, T: EntityReader>(
    alloc: Global,
    connection: &mut Connection<S>,
    reader: &T,
    entities: &[Value],
) -> Result<(), DatabaseFault> {
    for entity in entities {
        let text = entity.to_string(alloc)?;
        put_entity(alloc, connection, reader, text.as_str())?;
    }
    Ok(())
}

/// Puts in each entity of a store, all or none.
pub(crate) fn put_store<S: Alter, T: EntityReader>(
    alloc: Global,
    connection: &mut Connection<S>,
    reader: &T,
    store: &Value,
) -> Result<(), DatabaseFault> {
    let Value::Array(entities) = store else {
        return Err(DatabaseFault::Unreadable);
    };
    let _rows = connection.execute("BEGIN", &[])?;
    match put_each(alloc, connection, reader, entities.as_slice()) {
        Ok(()) => {
            let _rows = connection.execute("COMMIT", &[])?;
            Ok(())
        }
        Err(fault) => {
            let _rows = connection.execute("ROLLBACK", &[]);
            Err(fault)
        }
    }
}
