//! Values put where they are shared, over any type: the proof of a function that may have to drop a large enum goes through each
//! of its variants, and that of a function over any type doesn't.

ghost use Rattle.std.specs.Prelude.{◌≡◌, IfOk};

use std::alloc::{AllocError, Global};
use std::rc::Rc;

/// Two values, shared. Fails only when out of memory, and drops both then.
pub fn share_two<T: Drop>(alloc: Global, a: T, b: T) -> Result<(Rc<T>, Rc<T>), AllocError>
    ensures { IfOk result (λ r. (r.0.value ≡ «a») × (r.1.value ≡ «b»)) }
{
    let a = Rc::new(alloc, a)?;
    let b = Rc::new(alloc, b)?;
    Ok((a, b))
}

/// Three values, shared. Fails only when out of memory, and drops all of them then.
pub fn share_three<T: Drop>(
    alloc: Global,
    a: T,
    b: T,
    c: T,
) -> Result<(Rc<T>, Rc<T>, Rc<T>), AllocError>
    ensures { IfOk result (λ r. (r.0.value ≡ «a») × (r.1.value ≡ «b») × (r.2.value ≡ «c»)) }
{
    let (a, b) = share_two(alloc, a, b)?;
    let c = Rc::new(alloc, c)?;
    Ok((a, b, c))
}
