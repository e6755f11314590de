//! What a row of a test comes to, said word by word.

use std::alloc::{AllocError, Global};
use std::fmt::Display;

/// The verb of a row's command, the rest of the command, and what is wanted, which stands behind ` : `; or nothing, where the row begins
/// with `#`.
pub fn parted(row: &str) -> Option<(&str, &str, &str)> {
    if row.starts_with('#') {
        return None;
    }
    let (command, wanted) = row.split_once(" : ").unwrap_or((row, ""));
    let (verb, rest) = command.split_once(' ').unwrap_or((command, ""));
    Some((verb, rest, wanted))
}

/// Says a text, behind a space where something stands before it; of the empty one `nothing`. Fails only when out of memory.
pub fn say(said: &mut String, text: &str) -> Result<(), AllocError> {
    if !said.is_empty() {
        said.push(' ')?;
    }
    said.push_str(if text.is_empty() { "nothing" } else { text })
}

/// Says whether it is so. Fails only when out of memory.
pub fn tell(said: &mut String, is_so: bool) -> Result<(), AllocError> {
    say(said, if is_so { "yes" } else { "no" })
}

/// Says how this is shown. Fails when out of memory.
pub fn show<T: Display>(alloc: Global, said: &mut String, it: &T) -> Result<(), AllocError> {
    let text = it.to_string(alloc)?;
    say(said, text.as_str())
}

/// Says how what was made is shown, or how the refusal is. Fails when out of memory.
pub fn told<T: Display + Drop, E: Display + Drop>(
    alloc: Global,
    said: &mut String,
    made: Result<T, E>,
) -> Result<(), AllocError> {
    match made {
        Ok(it) => show(alloc, said, &it),
        Err(refusal) => show(alloc, said, &refusal),
    }
}

/// Says how a refusal is shown, and of what was made `done`. Fails when out of memory.
pub fn refused<T: Drop, E: Display + Drop>(
    alloc: Global,
    said: &mut String,
    made: Result<T, E>,
) -> Result<(), AllocError> {
    match made {
        Ok(_) => say(said, "done"),
        Err(refusal) => show(alloc, said, &refusal),
    }
}

/// Says how a copy is shown. Fails when out of memory.
pub fn copied<T: Clone + Display + Drop>(
    alloc: Global,
    said: &mut String,
    it: &T,
) -> Result<(), AllocError> {
    told(alloc, said, it.clone())
}

/// Says how a copy of what was made is shown. Fails where it wasn't made, and when out of memory.
pub fn told_copy<T: Clone + Display + Drop, E: Drop>(
    alloc: Global,
    said: &mut String,
    it: Result<T, E>,
) -> Result<(), AllocError> {
    let it = made(it)?;
    copied(alloc, said, &it)
}

/// What was made. Fails where it wasn't.
pub fn made<T: Drop, E: Drop>(made: Result<T, E>) -> Result<T, AllocError> {
    match made {
        Ok(it) => Ok(it),
        Err(_) => Err(AllocError),
    }
}

/// The last of a list. Fails where there is none.
pub fn one<T: Drop>(list: &mut Vec<T>) -> Result<T, AllocError> {
    list.pop().ok_or(AllocError)
}
