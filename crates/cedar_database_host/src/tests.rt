//! Rows of what a host over a database answers, keeps and refuses: a command, and behind ` : ` what it comes to.

use crate::host::DatabaseHost;
use crate::reader::EntityReader;
use cedar_expr_functions::Extensions;
use cedar_expr_names::EntityUID;
use cedar_gate_expressions::{Uids, read_json, read_list};
use cedar_gate_runs::Host;
use sqlite::{Alter, Connection};
use std::alloc::{AllocError, Global};
use std::fmt::Write;
use std::process::Abort;
use std::test::Fail;

const TABLE: &str = "CREATE TABLE entity (uid TEXT PRIMARY KEY, body TEXT NOT NULL) STRICT;";

// What is answered to uids: each with how many attributes its entity has, where there is one.
const ANSWERED: &str =
    r#"put {"uid":["User","a"],"attrs":{"x":1,"y":["uid","User","b"]},"ancestors":[["Team","t"]]} : done
put {"uid":["User","a\"b"],"tags":{"t":true}} : done
fetch [["User","a"],["User","c"],["User","a\"b"],["Team","t"]] : User::"a" 2, User::"c" absent, User::"a\"b" 0, Team::"t" absent
fetch [] : nothing
fetch [["User","a"],["User","a"]] : User::"a" 2, User::"a" 2
asked : User::"a" User::"c" User::"a\"b" Team::"t", , User::"a" User::"a"
failures : 0
"#;

#[test]
fn entities_are_answered_by_their_uids(rt: HostRuntime) -> Result<(), Fail> {
    hold(&rt, rt.alloc(), TABLE, ANSWERED)
}

// An entity is put in place of one of its uid. A store is put in as a whole, or not at all.
const REPLACED: &str = r#"put {"uid":["User","a"],"attrs":{"x":1}} : done
put {"uid":["User","a"]} : done
fetch [["User","a"]] : User::"a" 0
load [{"uid":["User","a"],"attrs":{"x":1}},{"uid":["User","b"]}] : done
fetch [["User","a"],["User","b"]] : User::"a" 1, User::"b" 0
load [{"uid":["User","a"]},{"uid":["User"]}] : unreadable
fetch [["User","a"]] : User::"a" 1
load {} : unreadable
load [] : done
asked : User::"a", User::"a" User::"b", User::"a"
failures : 0
"#;

#[test]
fn stores_are_put_in_whole(rt: HostRuntime) -> Result<(), Fail> {
    hold(&rt, rt.alloc(), TABLE, REPLACED)
}

// What is no entity of a bundle's store isn't put in.
const UNREADABLE: &str = r#"put : unreadable
put {} : unreadable
put {"uid":["User","a"],"attrs":1} : unreadable
put {"uid":["User","a"],"attrs":{"x":["not",true]}} : unreadable
put {"uid":["User","a"],"more":1} : unreadable
fetch [["User","a"]] : User::"a" absent
"#;

#[test]
fn what_is_no_entity_is_not_put_in(rt: HostRuntime) -> Result<(), Fail> {
    hold(&rt, rt.alloc(), TABLE, UNREADABLE)
}

const STRANGE: &str = r#"CREATE TABLE entity (uid TEXT PRIMARY KEY, body TEXT NOT NULL) STRICT;
INSERT INTO entity VALUES ('User::"a"', 'no JSON'), ('User::"b"', '{"uid":["User","a"]}'), ('User::"c"', '{"uid":["User","c"]}')"#;

// A row that doesn't hold the entity of its uid is a fault, and no list with its uid is among those that were asked for and answered.
const FAILED: &str = r#"fetch [["User","a"]] : failed
fetch [["User","c"],["User","b"]] : failed
failures : 2
fetch [["User","c"]] : User::"c" 0
asked : User::"c"
put {"uid":["User","a"],"attrs":{"x":1}} : done
fetch [["User","a"]] : User::"a" 1
failures : 2
"#;

#[test]
fn rows_of_another_form_are_faults(rt: HostRuntime) -> Result<(), Fail> {
    hold(&rt, rt.alloc(), STRANGE, FAILED)
}

// Where there is no table, each call fails but that for nothing.
const NO_TABLE: &str = r#"fetch [["User","a"]] : failed
fetch [] : nothing
fetch [["User","a"],["User","b"]] : failed
failures : 2
asked : 
put {"uid":["User","a"]} : database: no such table
load [{"uid":["User","a"]}] : database: no such table
"#;

#[test]
fn without_its_table_it_fails(rt: HostRuntime) -> Result<(), Fail> {
    hold(&rt, rt.alloc(), "", NO_TABLE)
}

#[test]
fn a_new_database_has_the_table(rt: HostRuntime) -> Result<(), Fail> {
    let alloc = rt.alloc();
    let table = Extensions::none(alloc);
    let mut host = DatabaseHost::open_in_memory(alloc, &table)?;
    hold_rows(&rt, alloc, &mut host, ANSWERED)
}

// The rows hold over a database of which this SQL was run.
fn hold(rt: &impl Abort, alloc: Global, sql: &str, rows: &str) -> Result<(), Fail> {
    let table = Extensions::none(alloc);
    let mut connection = Connection::open_in_memory(alloc)?;
    connection.execute_batch(sql)?;
    let mut host = DatabaseHost::over(alloc, connection, &table);
    hold_rows(rt, alloc, &mut host, rows)
}

fn hold_rows<S: Alter + Drop, T: EntityReader>(
    rt: &impl Abort,
    alloc: Global,
    host: &mut DatabaseHost<'_, S, T>,
    rows: &str,
) -> Result<(), Fail> {
    for row in rows.lines() {
        let (command, wanted) = row.split_once(" : ").unwrap_or((row, ""));
        let said = said(alloc, host, command)?;
        assert!(rt; said.as_str() == wanted, "{row}: {said}");
    }
    Ok(())
}

// What a command comes to.
fn said<S: Alter + Drop, T: EntityReader>(
    alloc: Global,
    host: &mut DatabaseHost<'_, S, T>,
    command: &str,
) -> Result<String, Fail> {
    let (word, json) = command.split_once(' ').unwrap_or((command, ""));
    let mut text = String::new(alloc);
    match word {
        "put" => match host.put(alloc, json) {
            Ok(()) => text.push_str("done")?,
            Err(fault) => write!(text, "{fault}")?,
        },
        "load" => match host.load(alloc, &read_json(alloc, json.as_bytes())?) {
            Ok(()) => text.push_str("done")?,
            Err(fault) => write!(text, "{fault}")?,
        },
        "fetch" => push_fetched(alloc, &mut text, host, json)?,
        "asked" => push_asked(&mut text, host.asked())?,
        _ => write!(text, "{}", host.failures())?,
    }
    Ok(text)
}

// What the host answers to these uids.
fn push_fetched<S: Alter + Drop, T: EntityReader>(
    alloc: Global,
    text: &mut String,
    host: &mut DatabaseHost<'_, S, T>,
    json: &str,
) -> Result<(), Fail> {
    let ids = read_list(alloc, &Uids, &read_json(alloc, json.as_bytes())?)?;
    if host.failures() == u64::MAX {
        return Err(AllocError.into());
    }
    let Ok(answers) = host.fetch(alloc, ids.as_slice()) else {
        text.push_str("failed")?;
        return Ok(());
    };
    if answers.is_empty() {
        text.push_str("nothing")?;
    }
    for (uid, entity) in answers {
        let comma = if text.is_empty() { "" } else { ", " };
        match entity {
            Some(entity) => write!(text, "{comma}{uid} {}", entity.attrs_len())?,
            None => write!(text, "{comma}{uid} absent")?,
        }
    }
    Ok(())
}

fn push_asked(text: &mut String, asked: &[Vec<EntityUID>]) -> Result<(), AllocError> {
    let mut is_first = true;
    for uids in asked {
        if !is_first {
            text.push_str(", ")?;
        }
        is_first = false;
        push_uids(text, uids.as_slice())?;
    }
    Ok(())
}

fn push_uids(text: &mut String, uids: &[EntityUID]) -> Result<(), AllocError> {
    let mut is_first = true;
    for uid in uids {
        if !is_first {
            text.push(' ')?;
        }
        is_first = false;
        write!(text, "{uid}")?;
    }
    Ok(())
}
