//! The bodies of rows: entities in the JSON of a bundle's store.

ghost use Rattle.std.specs.Prelude.{◌≡◌, IfOk, IfErr, Some, None};
ghost use Rattle.cedar_database_host.specs.Reading.{text_read, entity_in};
ghost use Rattle.cedar_expr_names.specs.Views.{uid_of};
ghost use Rattle.cedar_gate_bundles.specs.Written.{entity_pair_made};
ghost use Rattle.cedar_gate_expressions.specs.declared.fault.ReadFault.TheVariants.{Unreadable};
ghost use Rattle.cedar_store_entities.specs.Views.{entity_uid, entity_seen};

use crate::reader::EntityReader;
use cedar_expr_names::EntityUID;
use cedar_gate_bundles::ReadFault;
use cedar_gate_expressions::read_json;
use cedar_store_entities::Entity;
use std::alloc::Global;

/// Reads a body.
pub(crate) fn read_body<T: EntityReader>(
    alloc: Global,
    reader: &T,
    body: &str,
) -> Result<Entity, ReadFault>
    ensures ok { IfOk result (λ e. T.agrees reader.now → text_read (T.functions reader.now) body.now ≡ Some (entity_pair_made e)) }
    ensures unreadable { IfErr result (λ f. f ≡ Unreadable → T.agrees reader.now → text_read (T.functions reader.now) body.now ≡ None) }
{
    let value = read_json(alloc, body.as_bytes())?;
    reader.read(alloc, &value)
}

/// Reads the body of the row of a uid. Refuses the entity of another one.
pub(crate) fn read_body_of<T: EntityReader>(
    alloc: Global,
    reader: &T,
    uid: &EntityUID,
    body: &str,
) -> Result<Entity, ReadFault>
    ensures ok { IfOk result (λ e. T.agrees reader.now → entity_in (T.functions reader.now) (uid_of uid.now) body.now ≡ Some (entity_seen e)) }
    ensures own { IfOk result (λ e. entity_uid e ≡ uid_of uid.now) }
    ensures unreadable { IfErr result (λ f. f ≡ Unreadable → T.agrees reader.now → entity_in (T.functions reader.now) (uid_of uid.now) body.now ≡ None) }
{
    let entity = read_body(alloc, reader, body)?;
    if !entity.uid().same(uid) {
        return Err(ReadFault::Unreadable);
    }
    Ok(entity)
}
