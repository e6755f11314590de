//! Worked examples of names and uids, computed. Each function's contract is what comes out; its body does nothing.

ghost use Rattle.std.specs.Prelude.{◌≡◌, Bool, true, false, Some, None, ℤ, pos, codes, [], ◌∷◌};
ghost use Rattle.cedar_expr_model.specs.Name.{name_read, name_text, is_reserved};
ghost use Rattle.cedar_expr_model.specs.Uid.{uid_text};
ghost use Rattle.cedar_expr_model.specs.NameWorked.{path_name, reserved_name, awkward_uid, awkward_text};

/// Texts that write a name, and texts that write none.
pub fn worked_names()
    ensures path { name_read (codes "a::B_1::C") ≡ Some path_name }
    ensures text { name_text path_name ≡ codes "a::B_1::C" }
    ensures empty { name_read [] ≡ None }
    ensures keyword { name_read (codes "a::if") ≡ None }
    ensures open_end { name_read (codes "a::") ≡ None }
    ensures open_start { name_read (codes "::a") ≡ None }
    ensures one_colon { name_read (codes "a:b") ≡ None }
    ensures three_colons { name_read (codes "a:::b") ≡ None }
    ensures digit_first { name_read (codes "1a") ≡ None }
    ensures reserved_reads { name_read (codes "__cedar::a") ≡ Some reserved_name }
    ensures reserved { is_reserved reserved_name ≡ true }
    ensures not_reserved { is_reserved path_name ≡ false }
{}

/// The text of a uid whose id has a double quote, a backslash, a line feed and the character U+00E9.
pub fn worked_uid_text()
    ensures { uid_text awkward_uid ≡ awkward_text }
{}
