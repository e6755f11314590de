//! Names that are looked for in parts of declarations.

ghost use Rattle.std.specs.Prelude.{◌≡◌, List, Bool, find};
ghost use Rattle.std.specs.List.{flat_map};
ghost use Rattle.cedar_expr_model.specs.Name.{Name};
ghost use Rattle.cedar_schema_builder.specs.Looking.{name_found};

use cedar_expr_names::InternalName;

/// Looks for a name in a part of declarations.
pub trait Look {
    /// The parts.
    type Part;

    /// The names that stand in a part, and which of them are looked for.
    ghost names: { Self.Part → List Name };

    ghost wanted: { Name → Bool };

    /// The first name in a part that is looked for, if there is one.
    fn first<'a>(&self, part: &'a Self::Part) -> Option<&'a InternalName>
        ensures { name_found result ≡ find wanted (names part.now) };
}

/// The first name that is looked for in any of these parts, if there is one.
pub fn first_among<'a, L: Look>(parts: &'a [L::Part], look: &L) -> Option<&'a InternalName>
    ensures { name_found result ≡ find L.wanted (flat_map L.names parts.now) }
{
    for part in parts {
        if let Some(name) = look.first(part) {
            return Some(name);
        }
    }
    None
}
