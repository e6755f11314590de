//! The typed parts of which nodes are made.

ghost use Rattle.std.specs.Prelude.{◌≡◌, IfOk};

use std::alloc::{AllocError, Global};
use std::rc::Rc;

/// Both, each shared. It is over any type, so that its proof needn't know how an expression is dropped. Fails when out of memory.
pub fn shared_two<T: Drop>(alloc: Global, a: T, b: T) -> Result<(Rc<T>, Rc<T>), AllocError>
    ensures { IfOk result (λ r. (r.0.value ≡ «a») × (r.1.value ≡ «b»)) }
{
    let a = Rc::new(alloc, a)?;
    let b = Rc::new(alloc, b)?;
    Ok((a, b))
}

/// The three, each shared. Fails when out of memory.
pub fn shared_three<T: Drop>(
    alloc: Global,
    a: T,
    b: T,
    c: T,
) -> Result<(Rc<T>, Rc<T>, Rc<T>), AllocError>
    ensures { IfOk result (λ r. (r.0.value ≡ «a») × (r.1.value ≡ «b») × (r.2.value ≡ «c»)) }
{
    let (a, b) = shared_two(alloc, a, b)?;
    let c = Rc::new(alloc, c)?;
    Ok((a, b, c))
}
