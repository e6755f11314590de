//! Laws of names and uids. Each function's contract is the theorem; its body does nothing.

ghost use Rattle.std.specs.Prelude.{◌≡◌, true};
ghost use Rattle.std.specs.Bool.{Decides};
ghost use Rattle.cedar_expr_model.specs.NameLaws.{TextsDecide, NamesDecide, UidsDecide, NamesAreRead, NamesHaveTheirText, UidsHaveTheirText};

/// Two names are equal by the test exactly where they are the same name; so are two lists of texts.
pub fn names_decide()
    ensures texts { TextsDecide }
    ensures names { NamesDecide }
{}

/// Two uids are equal by the test exactly where they are the same uid.
pub fn uids_decide()
    ensures { UidsDecide }
{}

/// Reading a text gives a name exactly where the text writes that name, so a text writes one name at most.
pub fn names_are_read()
    ensures { NamesAreRead }
{}

/// Two well-formed names with the same text are the same; so are two uids with the same text, where their types are well-formed names.
pub fn texts_tell_apart()
    ensures names { NamesHaveTheirText }
    ensures uids { UidsHaveTheirText }
{}
