//! How rows are gone over.

use crate::desk::{Known, Made, Parts};
use crate::made::two;
use crate::policies;
use std::alloc::Global;

/// Goes over the rows, and gives the first that says something else, with what it says; nothing where all hold. A row is a command, or
/// several with ` ; ` between them, and, behind ` : `, what they say, which is nothing where there is no ` : `. A command's first word is
/// its verb; the module of each verb says what it does. What a command makes is laid on a desk, and what it needs is taken from there, the
/// last first. A row that begins with `#` clears the desk, and one that begins with `-` is a remark. Fails when out of memory.
pub fn wrong_row(alloc: Global, rows: &str) -> Made<String> {
    let mut parts = Parts::new(alloc);
    let mut known = Known::new(alloc);
    for row in rows.lines() {
        if row.starts_with('#') {
            parts = Parts::new(alloc);
            known = Known::new(alloc);
        } else if !row.starts_with('-') {
            let mut said = String::new(alloc);
            if !holds(&mut parts, &mut known, row, &mut said).unwrap_or(false) {
                return format!(in alloc; "{row}: {said}");
            }
        }
    }
    Ok(String::new(alloc))
}

// Whether the row says what stands in it. Fails where a command isn't known or lacks what it needs.
fn holds(parts: &mut Parts, known: &mut Known, row: &str, said: &mut String) -> Made<bool> {
    let (commands, wanted) = row.split_once(" : ").unwrap_or((row, ""));
    for command in commands.split(" ; ") {
        let (verb, rest) = two(command);
        policies::done(parts, known, (verb, rest, wanted), said)?;
    }
    Ok(said.as_str() == wanted)
}
