//! Common types with their places.

ghost use Rattle.std.specs.Prelude.{◌≡◌, IfOk};
ghost use Rattle.cedar_expr_names.specs.Views.{name_of, name_loc};
ghost use Rattle.cedar_schema_built.specs.LocatedViews.{type_place, common_listed};

use crate::located_type::LocatedType;
use cedar_expr_names::{InternalName, Loc};
use std::alloc::AllocError;

/// A common type: its name, the name's place, and that of its type.
#[derive(Debug, Drop)]
pub struct LocatedCommonType {
    full_name: InternalName,
    type_loc: Option<Loc>,
}

impl LocatedCommonType {
    /// The common type of this name that stands for this type. The parts of the name are shared. Fails only when out of memory.
    pub fn new(name: &InternalName, ty: LocatedType) -> Result<LocatedCommonType, AllocError>
        ensures { IfOk result (λ c. common_listed c ≡ record { name = name_of name.now; name_place = name_loc name.now; type_place = type_place ty }) }
    {
        LocatedCommonType::at(name, ty.loc())
    }

    // The common type of this name, with the place of its type.
    pub(crate) fn at(
        name: &InternalName,
        type_loc: Option<Loc>,
    ) -> Result<LocatedCommonType, AllocError>
        ensures { IfOk result (λ c. common_listed c ≡ record { name = name_of name.now; name_place = name_loc name.now; type_place = type_loc }) }
    {
        Ok(LocatedCommonType {
            full_name: name.clone()?,
            type_loc,
        })
    }

    /// The whole name.
    pub fn full_name(&self) -> &InternalName
        ensures { name_of result.now ≡ (common_listed self.now).name }
    {
        &self.full_name
    }

    /// The last part of the name.
    pub fn name(&self) -> &str
        ensures { result.now ≡ (common_listed self.now).name.base }
    {
        self.full_name.basename().as_str()
    }

    /// The place of the name.
    pub fn name_loc(&self) -> Option<Loc>
        ensures { result ≡ (common_listed self.now).name_place }
    {
        self.full_name.loc()
    }

    /// The place of the type.
    pub fn type_loc(&self) -> Option<Loc>
        ensures { result ≡ (common_listed self.now).type_place }
    {
        self.type_loc
    }
}
