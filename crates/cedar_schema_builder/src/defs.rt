//! The names that fragments declare, by the type of their sets.

ghost use Rattle.std.specs.Prelude.{◌≡◌, [], ◌∷◌, IfOk};
ghost use Rattle.cedar_schema_decl.specs.Defined.{Defined, defined_of, nothing_defined};
ghost use Rattle.cedar_schema_fragments.specs.Marked.{all_with, with_fragment, HasAll};

use cedar_schema_decl::AllDefs;
use cedar_schema_fragments::{ValidatorSchemaFragment, all_defs};
use std::alloc::{AllocError, Global};

/// The sets of all names that fragments declare.
pub trait DefsOfFragments: Sized {
    /// What is in the sets.
    ghost defined: { Self → Defined };

    /// What these fragments declare: the names of all common types and entity types, and the uids of all actions. Fails only when
    /// out of memory.
    fn new<N, A>(
        alloc: Global,
        fragments: &[ValidatorSchemaFragment<N, A>],
    ) -> Result<Self, AllocError>
        ensures marked { IfOk result (λ d. defined d ≡ all_with with_fragment fragments.now nothing_defined) }
        ensures declared { IfOk result (λ d. HasAll fragments.now (defined d)) };

    /// What this fragment declares: the names of all its common types and entity types, and the uids of its actions. Fails only when
    /// out of memory.
    fn single_fragment<N, A>(
        alloc: Global,
        fragment: &ValidatorSchemaFragment<N, A>,
    ) -> Result<Self, AllocError>
        ensures marked { IfOk result (λ d. defined d ≡ with_fragment fragment.now nothing_defined) }
        ensures declared { IfOk result (λ d. HasAll (fragment.now ∷ []) (defined d)) };
}

impl DefsOfFragments for AllDefs {
    ghost defined = { defined_of };

    fn new<N, A>(
        alloc: Global,
        fragments: &[ValidatorSchemaFragment<N, A>],
    ) -> Result<AllDefs, AllocError> {
        all_defs::new(alloc, fragments)
    }

    fn single_fragment<N, A>(
        alloc: Global,
        fragment: &ValidatorSchemaFragment<N, A>,
    ) -> Result<AllDefs, AllocError> {
        all_defs::single_fragment(alloc, fragment)
    }
}
