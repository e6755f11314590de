//! Helpers over any type, and texts of what the desk's parts are made of.

use crate::desk::Made;
use cedar_expr_names::{EntityUID, Loc};
use cedar_test_exprs::{show, uid};
use std::alloc::{AllocError, Global};
use std::fmt::Display;
use std::rc::Rc;

// What was made, laid on the pile. Says why it wasn't made.
pub fn put<T: Drop, E: Display + Drop>(
    alloc: Global,
    said: &mut String,
    pile: &mut Vec<T>,
    made: Result<T, E>,
) -> Made<()> {
    match made {
        Ok(made) => Ok(pile.push(made)?),
        Err(e) => show(alloc, said, &e),
    }
}

// What was made, laid on the pile. Fails where it wasn't made.
pub fn lay<T: Drop>(pile: &mut Vec<T>, made: Made<T>) -> Made<()> {
    Ok(pile.push(made?)?)
}

// The last of the pile, left there.
pub fn top<T>(pile: &[T]) -> Made<&T> {
    pile.last().ok_or(AllocError)
}

// The whole pile.
pub fn all<T: Drop>(alloc: Global, pile: &mut Vec<T>) -> Vec<T> {
    let mut taken = Vec::new(alloc);
    std::mem::swap(&mut taken, pile);
    taken
}

// Both words of a text, the second empty where there is one alone.
pub fn two(text: &str) -> (&str, &str) {
    text.split_once(' ').unwrap_or((text, ""))
}

// The uid, shared.
pub fn shared(alloc: Global, text: &str) -> Made<Rc<EntityUID>> {
    Ok(Rc::new(alloc, uid(alloc, text)?)?)
}

// Says the text of the uid, and where it stands.
pub fn say_placed(alloc: Global, said: &mut String, uid: &EntityUID) -> Made<()> {
    show(alloc, said, uid)?;
    say_place(alloc, said, uid.loc())
}

// Says the number of the place, if there is one.
pub fn say_place(alloc: Global, said: &mut String, at: Option<Loc>) -> Made<()> {
    match at {
        Some(at) => {
            let text = format!(in alloc; "@{}", at.start())?;
            said.push_str(text.as_str())
        }
        None => Ok(()),
    }
}
