//! Types with their places.

ghost use Rattle.std.specs.Prelude.{◌≡◌, None};
ghost use Rattle.cedar_schema_types.specs.Types.{type_of};
ghost use Rattle.cedar_schema_built.specs.LocatedViews.{located_type, type_place};

use cedar_expr_names::Loc;
use cedar_schema_types::Type;

/// A type, and its place.
#[derive(Debug, Drop)]
pub struct LocatedType {
    ty: Type,
    loc: Option<Loc>,
}

impl LocatedType {
    /// The type, without a place.
    pub fn new(ty: Type) -> LocatedType
        ensures kept { located_type result ≡ type_of ty }
        ensures place { type_place result ≡ None }
    {
        LocatedType { ty, loc: None }
    }

    /// The type at a place.
    pub fn new_with_loc(ty: Type, loc: Option<Loc>) -> LocatedType
        ensures kept { located_type result ≡ type_of ty }
        ensures place { type_place result ≡ loc }
    {
        LocatedType { ty, loc }
    }

    /// The type at this place, or without one.
    pub fn with_loc(self, loc: Option<Loc>) -> LocatedType
        ensures kept { located_type result ≡ located_type self }
        ensures place { type_place result ≡ loc }
    {
        LocatedType { ty: self.ty, loc }
    }

    /// The type, and its place.
    pub fn into_type_and_loc(self) -> (Type, Option<Loc>)
        ensures kept { type_of result.0 ≡ located_type self }
        ensures place { result.1 ≡ type_place self }
    {
        (self.ty, self.loc)
    }

    /// The type.
    pub fn ty(&self) -> &Type
        ensures { type_of result.now ≡ located_type self.now }
    {
        &self.ty
    }

    /// The place.
    pub fn loc(&self) -> Option<Loc>
        ensures { result ≡ type_place self.now }
    {
        self.loc
    }
}
