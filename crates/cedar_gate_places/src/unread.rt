//! The first part of a bundle that doesn't read, found by asking the reader for the least bundle that has each part.

use crate::forms::{
    Form, expected, expected_after, has_members, is_expression_at, least_object, part_form,
    required_keys,
};
use crate::pointers::{member, under};
use cedar_expr_functions::Extensions;
use cedar_gate_bundles::{ReadFault, read_bundle};
use cedar_gate_expressions::{Version, read_expression, read_json};
use serde_json::{Map, Value};
use std::alloc::{AllocError, Global};

/// A part of a bundle that doesn't read.
#[derive(Drop)]
pub struct Unread {
    /// Its pointer.
    pub path: String,
    /// What is expected in its place, or behind its word.
    pub expected: &'static str,
    /// The word that the part begins with, where it is an expression that has to go on otherwise.
    pub after: Option<String>,
}

// What stands around a part in the least bundle that has it: the least object of a form with the part at a key, or a list of the
// part alone. An expression is asked in the place of the one around it.
#[derive(Clone, Copy, Drop)]
enum Frame<'a> {
    Object(Form, &'a str),
    List,
}

// A part of a bundle, and what stands there, if anything does.
#[derive(Drop)]
struct Part<'a> {
    path: String,
    form: Form,
    frame: Option<Frame<'a>>,
    value: Option<&'a Value>,
}

impl<'a> Part<'a> {
    fn new(
        path: String,
        form: Form,
        frame: Option<Frame<'a>>,
        value: Option<&'a Value>,
    ) -> Part<'a> {
        Part {
            path,
            form,
            frame,
            value,
        }
    }
}

// The reader, and what stands around what it is asked for.
#[derive(Drop)]
struct Asking<'a, 't, 'e> {
    alloc: Global,
    table: &'t Extensions<'e>,
    version: Option<&'a Value>,
    frames: Vec<Frame<'a>>,
}

impl<'a, 't, 'e> Asking<'a, 't, 'e> {
    // The least object of a form, with this member; of a bundle with its version, where that reads.
    fn object_with(&self, form: Form, key: &str, part: Value) -> Result<Value, AllocError> {
        let Ok(mut base) = read_json(self.alloc, least_object(form).as_bytes()) else {
            return Err(AllocError);
        };
        if let Value::Object(members) = &mut base {
            if let (Some(version), "bundle") = (self.version, form) {
                let key = String::from_str(self.alloc, "version")?;
                drop(members.insert(key, version.clone()?)?);
            }
            drop(members.insert(String::from_str(self.alloc, key)?, part)?);
        }
        Ok(base)
    }

    // Whether this part reads in these frames.
    fn reads(&self, part: &Value) -> Result<bool, AllocError> {
        let mut made = part.clone()?;
        for frame in self.frames.as_slice().iter().rev() {
            made = match frame {
                Frame::Object(form, key) => self.object_with(form, key, made)?,
                Frame::List => Value::Array(vec![in self.alloc; made]?),
            };
        }
        match read_bundle(self.alloc, self.table, &made) {
            Ok(_) => Ok(true),
            Err(ReadFault::Unreadable) => Ok(false),
            Err(ReadFault::OutOfMemory) => Err(AllocError),
        }
    }

    // Whether this part lacks or doesn't read; its frame is then kept.
    fn is_unread(&mut self, part: &Part<'a>) -> Result<bool, AllocError> {
        let Some(value) = part.value else {
            return Ok(true);
        };
        match part.frame {
            None => Ok(!self.reads(value)?),
            Some(frame) => {
                self.frames.push(frame)?;
                let reads = self.reads(value)?;
                if reads {
                    drop(self.frames.pop());
                }
                Ok(!reads)
            }
        }
    }

    // The first part of this one that doesn't read alone.
    fn unread_in(&mut self, at: &Part<'a>) -> Result<Option<Part<'a>>, AllocError> {
        let parts = match at.value {
            Some(Value::Object(members)) => members_of(self.alloc, at, members)?,
            Some(Value::Array(items)) => items_of(self.alloc, at, items.as_slice())?,
            _ => return Ok(None),
        };
        for part in parts {
            if self.is_unread(&part)? {
                return Ok(Some(part));
            }
        }
        match at.value {
            Some(Value::Array(items)) if at.form == "store" => {
                repeated_uid(self.alloc, at, items.as_slice())
            }
            _ => Ok(None),
        }
    }
}

// The parts of an object: what is no member of the form, what lacks, and each member.
fn members_of<'a>(
    alloc: Global,
    at: &Part<'a>,
    members: &'a Map<String, Value>,
) -> Result<Vec<Part<'a>>, AllocError> {
    let mut parts = Vec::new(alloc);
    if !has_members(at.form) {
        return Ok(parts);
    }
    for key in required_keys(at.form).split_whitespace() {
        if members.get(key).is_none() {
            let path = member(alloc, at.path.as_str(), key)?;
            let form = part_form(at.form, key).unwrap_or(at.form);
            parts.push(Part::new(path, form, None, None))?;
        }
    }
    for (key, value) in members {
        let path = member(alloc, at.path.as_str(), key.as_str())?;
        let form = part_form(at.form, key.as_str()).unwrap_or("surplus");
        let frame = Some(Frame::Object(at.form, key.as_str()));
        parts.push(Part::new(path, form, frame, Some(value)))?;
    }
    Ok(parts)
}

// The parts of a list: its items, or the expressions in it.
fn items_of<'a>(
    alloc: Global,
    at: &Part<'a>,
    items: &'a [Value],
) -> Result<Vec<Part<'a>>, AllocError> {
    let mut parts = Vec::new(alloc);
    let word = word_of(items);
    for (i, value) in items.iter().enumerate() {
        let path = under(alloc, at.path.as_str(), i)?;
        if let Some(form) = part_form(at.form, "[]") {
            parts.push(Part::new(path, form, Some(Frame::List), Some(value)))?;
        } else if is_expression(at.form) && is_expression_at(word, i) {
            parts.push(Part::new(path, at.form, None, Some(value)))?;
        } else if let ("record", Value::Object(fields)) = (word, value) {
            for (name, value) in fields {
                let path = member(alloc, path.as_str(), name.as_str())?;
                parts.push(Part::new(path, at.form, None, Some(value)))?;
            }
        }
    }
    Ok(parts)
}

// The first uid of these entities that an earlier one has.
fn repeated_uid<'a>(
    alloc: Global,
    at: &Part<'a>,
    entities: &'a [Value],
) -> Result<Option<Part<'a>>, AllocError> {
    for (i, entity) in entities.iter().enumerate() {
        let value = entity.get("uid");
        if entities[..i]
            .iter()
            .any(|earlier| earlier.get("uid") == value)
        {
            let path = under(alloc, at.path.as_str(), i)?;
            let path = member(alloc, path.as_str(), "uid")?;
            return Ok(Some(Part::new(path, "new_uid", None, value)));
        }
    }
    Ok(None)
}

// The word that a list begins with.
fn word_of(items: &[Value]) -> &str {
    match items {
        [Value::String(word), ..] => word.as_str(),
        _ => "",
    }
}

// Whether a part of the form is an expression.
fn is_expression(form: Form) -> bool {
    form == "expression" || form == "value" || form == "residual"
}

// The part, with what is expected there.
fn told(alloc: Global, version: Version, part: Part<'_>) -> Result<Unread, AllocError> {
    let Part {
        path,
        form,
        value,
        ..
    } = part;
    let version = if form == "expression" {
        version
    } else {
        Version::Second
    };
    if let (true, Some(value)) = (is_expression(form), value) {
        if let Value::Array(items) = value {
            match read_expression(alloc, version, value) {
                Ok(_) => {}
                Err(ReadFault::OutOfMemory) => return Err(AllocError),
                Err(ReadFault::Unreadable) => {
                    let word = word_of(items.as_slice());
                    let after = Some(String::from_str(alloc, word)?);
                    let expected = expected_after(word);
                    return Ok(Unread {
                        path,
                        expected,
                        after,
                    });
                }
            }
        }
    }
    Ok(Unread {
        path,
        expected: expected(form),
        after: None,
    })
}

/// The first part of this value, which is no bundle, that doesn't read in the least bundle that has it, while each of its parts does.
pub fn first_unread(
    alloc: Global,
    table: &Extensions<'_>,
    root: &Value,
) -> Result<Unread, AllocError> {
    let version = match root.get("version") {
        Some(version) if matches!(version.as_u64(), Some(1 | 2)) => Some(version),
        _ => None,
    };
    let frames = Vec::new(alloc);
    let mut asking = Asking {
        alloc,
        table,
        version,
        frames,
    };
    let path = String::new(alloc);
    let mut at = Part::new(path, "bundle", None, Some(root));
    for _turn in 0..u64::MAX {
        match asking.unread_in(&at)? {
            Some(part) => at = part,
            None => break,
        }
    }
    match version.and_then(Value::as_u64) {
        Some(1) => told(alloc, Version::First, at),
        _ => told(alloc, Version::Second, at),
    }
}
