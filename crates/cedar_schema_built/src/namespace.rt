//! Namespaces with their places.

ghost use Rattle.std.specs.Prelude.{◌≡◌, IfOk};
ghost use Rattle.cedar_expr_model.specs.Name.{name_text};
ghost use Rattle.cedar_expr_names.specs.Views.{name_of, name_loc};
ghost use Rattle.cedar_schema_built.specs.LocatedViews.{space_listed};

use cedar_expr_names::{InternalName, Loc};
use std::alloc::AllocError;

/// A namespace: its name, the name's place, and that of its definition.
#[derive(Debug, Drop)]
pub struct LocatedNamespace {
    full_name: InternalName,
    def_loc: Option<Loc>,
}

impl LocatedNamespace {
    /// The namespace of this name that is defined at this place. The parts of the name are shared. Fails only when out of memory.
    pub fn new(name: &InternalName, def_loc: Option<Loc>) -> Result<LocatedNamespace, AllocError>
        ensures { IfOk result (λ n. space_listed n ≡ record { name = name_of name.now; name_place = name_loc name.now; definition_place = def_loc }) }
    {
        Ok(LocatedNamespace {
            full_name: name.clone()?,
            def_loc,
        })
    }

    /// The name, part by part.
    pub fn full_name(&self) -> &InternalName
        ensures { name_of result.now ≡ (space_listed self.now).name }
    {
        &self.full_name
    }

    /// The name's text.
    pub fn name(&self) -> &str
        ensures { result.now ≡ name_text (space_listed self.now).name }
    {
        self.full_name.as_str()
    }

    /// The place of the name.
    pub fn name_loc(&self) -> Option<Loc>
        ensures { result ≡ (space_listed self.now).name_place }
    {
        self.full_name.loc()
    }

    /// The place of the definition.
    pub fn def_loc(&self) -> Option<Loc>
        ensures { result ≡ (space_listed self.now).definition_place }
    {
        self.def_loc
    }
}
