//! Access paths: the fields of records that lead from an expression to an entity.

ghost use Rattle.std.specs.Prelude.{◌≡◌, option_map};
ghost use Rattle.std.specs.Rc.{rc_str_bytes};
ghost use Rattle.cedar_typechecker_levels.specs.Paths.{path_of, first_apart};

use std::rc::RcStr;

// The names of the fields, the first one first.
#[derive(Clone, Copy)]
pub(crate) enum Path<'p> {
    // None.
    End,
    // These.
    Names(&'p [RcStr]),
    // One, and then these.
    Before(&'p RcStr, &'p [RcStr]),
    // One, and then those of a path.
    Then(&'p RcStr, &'p Path<'p>),
}

// The first name of a path, and the path of the others.
#[derive(Clone, Copy)]
pub(crate) struct Split<'p> {
    pub(crate) name: &'p RcStr,
    pub(crate) others: Path<'p>,
}

impl<'p> Path<'p> {
    // The first name, and the path of the others.
    pub(crate) fn split_first(self) -> Option<Split<'p>>
        ensures { option_map (λ q. (rc_str_bytes q.name.now, path_of q.others)) result ≡ first_apart (path_of self.entry) }
    {
        match self {
            Path::End => None,
            Path::Names(names) => match names {
                [] => None,
                [name, others @ ..] => Some(Split {
                    name,
                    others: Path::Names(others),
                }),
            },
            Path::Before(name, others) => Some(Split {
                name,
                others: Path::Names(others),
            }),
            Path::Then(name, others) => Some(Split {
                name,
                others: *others,
            }),
        }
    }
}
