//! Modes of validation.

/// How types are compared and joined.
#[derive(Clone, Copy, Debug, PartialEq, Eq, PartialOrd, Ord, Hash)]
pub enum ValidationMode {
    /// Types that differ have nothing in common but what the rules say.
    Strict,

    /// Types that differ may be joined.
    Permissive,
}
