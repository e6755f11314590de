//! The limit on nesting.

/// A limit on how deep a policy's condition nests: 1 to 512.
#[derive(Clone, Copy, Debug, PartialEq, Eq)]
pub struct NestLimit {
    levels: u32,
}

impl NestLimit {
    ghost use Rattle.std.specs.Prelude.{◌≡◌, ◌≤◌};
    ghost use Rattle.std.specs.Option.{SomeIff, IfSome};
    ghost use Rattle.std.specs.Prelude.{◌↔◌, IsSome};
    ghost use Rattle.cedar_gate_rules.specs.Limit.{levels_of};

    /// The limit of this many levels. There is none of 0 and none above 512.
    pub fn new(levels: u32) -> Option<NestLimit>
        ensures range { IsSome result ↔ ((1 ≤ levels) × (levels ≤ 512)) }
        ensures value { IfSome result (λ limit. levels_of limit ≡ levels) }
    {
        if levels >= 1 && levels <= 512 {
            Some(NestLimit { levels })
        } else {
            None
        }
    }

    /// How many levels it allows.
    pub fn levels(self) -> u32
        ensures { result ≡ levels_of self }
    {
        self.levels
    }
}
