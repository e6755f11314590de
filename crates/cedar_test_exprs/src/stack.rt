//! What was made so far, of any type: the last is taken first.

use crate::naming::word;
use crate::one;
use std::alloc::{AllocError, Global};
use std::rc::RcStr;

// The last two, in the order in which they were made.
pub fn two<T: Drop>(made: &mut Vec<T>) -> Result<(T, T), AllocError> {
    let second = one(made)?;
    let first = one(made)?;
    Ok((first, second))
}

// The last ones, as many as the text writes, in the order in which they were made.
pub fn several<T: Drop>(
    alloc: Global,
    made: &mut Vec<T>,
    count: &str,
) -> Result<Vec<T>, AllocError> {
    let count = count.parse::<usize>().ok().ok_or(AllocError)?;
    let mut taken = Vec::new(alloc);
    for _ in 0..count {
        taken.push(one(made)?)?;
    }
    taken.reverse();
    Ok(taken)
}

// The last ones with the names of the text, which stand with commas between them; of the empty text none.
pub fn named<T: Drop>(
    alloc: Global,
    made: &mut Vec<T>,
    names: &str,
) -> Result<Vec<(RcStr, T)>, AllocError> {
    let mut fields = Vec::new(alloc);
    for name in names.rsplit(',') {
        if !name.is_empty() {
            fields.push((word(alloc, name)?, one(made)?))?;
        }
    }
    fields.reverse();
    Ok(fields)
}

// The one that was made. Fails where there are more, or none.
pub fn the_one<T: Drop>(mut made: Vec<T>) -> Result<T, AllocError> {
    let found = one(&mut made)?;
    if made.is_empty() {
        Ok(found)
    } else {
        Err(AllocError)
    }
}
