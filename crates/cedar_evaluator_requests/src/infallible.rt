//! Errors that never come.

ghost use Rattle.cedar_evaluator_requests.specs.Infallible.{IsValueOf};

/// The error of what is never refused. It has no values.
#[derive(Drop)]
pub enum Infallible {}

/// Types without values.
pub trait IsInfallible: Drop {
    /// There is no value.
    ghost no_value: { Self → ⊥ };
}

impl IsInfallible for Infallible {
    ghost no_value = { λ e. elim e [ ] };
}

/// What unwraps without fail.
pub trait UnwrapInfallible<A> {
    /// This is what it holds.
    ghost holds: { Self → A → Type 0 };

    /// What it holds.
    fn unwrap_infallible(self) -> A
        ensures { holds self result };
}

impl<A, B: IsInfallible> UnwrapInfallible<A> for Result<A, B> {
    ghost holds = { IsValueOf };

    fn unwrap_infallible(self) -> A {
        match self {
            Ok(value) => value,
            Err(_) => unreachable!(),
        }
    }
}
