//! Places in a source text.

ghost use Rattle.std.specs.Prelude.{◌≡◌};
ghost use Rattle.cedar_expr_names.specs.Views.{loc_start, loc_end};

/// A place in a source text: the bytes from a start to an end.
#[derive(Debug, Clone, Copy, PartialEq, Eq, PartialOrd, Ord, Hash, Drop)]
pub struct Loc {
    start: usize,
    end: usize,
}

impl Loc {
    /// The place from `start` to `end`.
    pub fn new(start: usize, end: usize) -> Loc
        ensures starts { loc_start result ≡ start }
        ensures ends { loc_end result ≡ end }
    {
        Loc { start, end }
    }

    /// Where the place begins.
    pub fn start(&self) -> usize
        ensures { result ≡ loc_start self.now }
    {
        self.start
    }

    /// Where the place ends.
    pub fn end(&self) -> usize
        ensures { result ≡ loc_end self.now }
    {
        self.end
    }
}
