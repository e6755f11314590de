//! Values shared, and pairs, over any type: the proof of a function that may have to drop a large enum goes through each of its variants,
//! and that of a function over any type doesn't.

ghost use Rattle.std.specs.Prelude.{◌≡◌, IfOk};
ghost use Rattle.std.specs.declared.result.Result.TheVariants.{Ok};

use std::alloc::{AllocError, Global};
use std::rc::Rc;

/// The value, shared. Fails only when out of memory.
pub fn shared<T: Drop>(alloc: Global, it: T) -> Result<Rc<T>, AllocError>
    ensures { IfOk result (λ r. r.value ≡ «it») }
{
    Ok(Rc::new(alloc, it)?)
}

/// What was made, shared. Fails where it wasn't made, and when out of memory.
pub fn kept<T: Drop, E: Drop>(alloc: Global, made: Result<T, E>) -> Result<Rc<T>, AllocError>
    ensures { IfOk result (λ r. «made» ≡ Ok r.value) }
{
    match made {
        Ok(made) => shared(alloc, made),
        Err(_) => Err(AllocError),
    }
}

/// Both, where both were made. Fails where one wasn't.
pub fn both<A: Drop, B: Drop, E: Drop>(a: Result<A, E>, b: Result<B, E>) -> Result<(A, B), E>
    ensures { IfOk result (λ r. («a» ≡ Ok r.0) × («b» ≡ Ok r.1)) }
{
    let a = a?;
    let b = b?;
    Ok((a, b))
}
