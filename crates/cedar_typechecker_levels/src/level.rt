//! Levels.

use std::fmt;
use std::fmt::{Display, Formatter, Write};

/// How many steps from the request an expression may reach into the store.
#[derive(Clone, Copy, Debug, PartialEq, Eq, PartialOrd, Ord, Hash)]
pub struct EntityDerefLevel {
    /// The number of steps.
    pub level: u32,
}

impl From<u32> for EntityDerefLevel {
    ghost use Rattle.std.specs.Prelude.{◌≡◌};

    ghost from_gives = { λ n l. l.level ≡ n };

    fn from(level: u32) -> EntityDerefLevel {
        EntityDerefLevel { level }
    }
}

impl Display for EntityDerefLevel {
    ghost use Rattle.std.specs.Prelude.{Some};
    ghost use Rattle.std.specs.Fmt.{decimal};

    ghost output = { λ l. Some (decimal l.level) };

    fn fmt<W: Write>(&self, f: &mut Formatter<W>) -> fmt::Result {
        Display::fmt(&self.level, f)
    }
}
