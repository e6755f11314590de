//! Iterators over what is declared.

ghost use Rattle.std.specs.Prelude.{◌≡◌, map, option_map};
ghost use Rattle.cedar_expr_names.specs.Views.{name_of};
ghost use Rattle.cedar_schema_fragments.specs.Iterators.{names_left, spaces_left};

use crate::namespace_def::ValidatorNamespaceDef;
use cedar_expr_names::InternalName;
use std::slice::Iter;

/// Goes over the names of declarations, in order.
#[derive(Drop)]
pub struct DeclaredNames<'a, K, D> {
    rest: Iter<'a, (K, D)>,
}

/// Goes over the names of namespaces, in order.
#[derive(Drop)]
pub struct DeclaredNamespaces<'a, N, A> {
    rest: Iter<'a, ValidatorNamespaceDef<N, A>>,
}

impl<'a, K, D> DeclaredNames<'a, K, D> {
    // Goes over the names of these.
    pub(crate) fn new(declared: &'a [(K, D)]) -> DeclaredNames<'a, K, D>
        ensures { names_left result ≡ map (λ e. e.0) declared.entry.now }
    {
        DeclaredNames {
            rest: declared.iter(),
        }
    }
}

impl<'a, N, A> DeclaredNamespaces<'a, N, A> {
    // Goes over the names of these.
    pub(crate) fn new(namespaces: &'a [ValidatorNamespaceDef<N, A>]) -> DeclaredNamespaces<'a, N, A>
        ensures { spaces_left result ≡ map (λ n. option_map name_of n.namespace) namespaces.entry.now }
    {
        DeclaredNamespaces {
            rest: namespaces.iter(),
        }
    }
}

impl<'a, K, D> Iterator for DeclaredNames<'a, K, D> {
    type Item = &'a K;

    ghost use Rattle.std.specs.Iterator.{YieldsFirstRef, item_count};

    ghost next_gives = { YieldsFirstRef names_left };

    ghost remaining = { item_count names_left };

    fn next(&mut self) -> Option<&'a K> {
        match self.rest.next() {
            Some(pair) => Some(&pair.0),
            None => None,
        }
    }
}

impl<'a, N, A> Iterator for DeclaredNamespaces<'a, N, A> {
    type Item = Option<&'a InternalName>;

    ghost use Rattle.std.specs.Iterator.{YieldsFirstBy, item_count};
    ghost use Rattle.cedar_expr_names.specs.Namespaces.{space_of};

    ghost next_gives = { YieldsFirstBy space_of spaces_left };

    ghost remaining = { item_count spaces_left };

    fn next(&mut self) -> Option<Option<&'a InternalName>> {
        match self.rest.next() {
            Some(namespace) => Some(namespace.namespace.as_ref()),
            None => None,
        }
    }
}
