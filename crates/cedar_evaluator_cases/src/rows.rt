//! How rows are gone over.

use crate::desk::{Desk, Made};
use crate::restricted;
use cedar_expr_functions::Extensions;
use std::alloc::Global;

// Goes over the rows of the texts, each of which begins with a `#`, and gives the first that says something else, with what it says;
// nothing where all hold. A row is a command, or several with ` ; ` between them, and, behind ` : `, what they say. A command's first word
// is its verb; the module of each verb says what it does. A row that begins with `#` clears the desk, and one that begins with `-` is a
// remark. Fails when out of memory.
pub fn first_wrong(alloc: Global, table: &Extensions<'_>, texts: &[&str]) -> Made<String> {
    let mut desk = Desk::new(alloc);
    for rows in texts {
        for row in rows.lines() {
            let mut said = String::new(alloc);
            if !holds(&mut desk, table, row, &mut said).unwrap_or(false) {
                return format!(in alloc; "{row}: {said}");
            }
        }
    }
    Ok(String::new(alloc))
}

// Whether the row says what stands in it. Fails where a command isn't known or lacks what it needs.
fn holds(desk: &mut Desk, table: &Extensions<'_>, row: &str, said: &mut String) -> Made<bool> {
    if row.starts_with('#') {
        *desk = Desk::new(desk.alloc);
    }
    if row.starts_with('#') || row.starts_with('-') {
        return Ok(true);
    }
    let (commands, wanted) = row.split_once(" : ").unwrap_or((row, ""));
    for command in commands.split(" ; ") {
        let (verb, rest) = command.split_once(' ').unwrap_or((command, ""));
        restricted::asked(desk, table, verb, rest, wanted, said)?;
    }
    Ok(said.trim_start() == wanted)
}
