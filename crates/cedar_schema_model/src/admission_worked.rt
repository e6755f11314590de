//! Worked examples of restricted expressions and types, computed. Each function's contract is what comes out; its body does nothing.

ghost use Rattle.std.specs.Prelude.{◌≡◌, true, false, codes};
ghost use Rattle.cedar_schema_model.specs.Types.{never, long_type, any_set, set_type, extension_type};
ghost use Rattle.cedar_schema_model.specs.TypeWorked.{decimal, ip, with_a, closed, opened};
ghost use Rattle.cedar_schema_model.specs.Restricted.{of_type, not_of_type, no_function, asked_for};
ghost use Rattle.cedar_schema_model.specs.AdmissionWorked.{functions, a_decimal, a_size, stray, stray_name, one_tree, an_unknown, pair_of, empty_set, just, empty_record};

/// A call is of the extension type that its function gives, and of no other type; a function is looked up where an extension type is asked for.
pub fn worked_calls()
    ensures given { asked_for functions a_decimal (extension_type decimal) ≡ of_type }
    ensures other { asked_for functions a_decimal (extension_type ip) ≡ not_of_type }
    ensures number { asked_for functions a_size long_type ≡ not_of_type }
    ensures number_for_extension { asked_for functions a_size (extension_type decimal) ≡ not_of_type }
    ensures stray { asked_for functions stray (extension_type decimal) ≡ no_function stray_name }
    ensures stray_unasked { asked_for functions stray long_type ≡ not_of_type }
    ensures literal { asked_for functions one_tree long_type ≡ of_type }
    ensures unknown { asked_for functions an_unknown long_type ≡ not_of_type }
{}

/// The expressions of a set are asked in order, up to the first that isn't of the type.
pub fn worked_sets()
    ensures both { asked_for functions (pair_of one_tree one_tree) (set_type long_type) ≡ of_type }
    ensures second { asked_for functions (pair_of one_tree a_decimal) (set_type long_type) ≡ not_of_type }
    ensures stops { asked_for functions (pair_of one_tree stray) (set_type (extension_type decimal)) ≡ not_of_type }
    ensures names { asked_for functions (pair_of stray one_tree) (set_type (extension_type decimal)) ≡ no_function stray_name }
    ensures any { asked_for functions (pair_of stray one_tree) any_set ≡ of_type }
    ensures empty { asked_for functions empty_set (set_type never) ≡ of_type }
    ensures record_of { asked_for functions empty_set (closed (with_a long_type false)) ≡ not_of_type }
{}

/// A record has its required fields, declared fields of their types, and others where the type is open.
pub fn worked_records()
    ensures declared { asked_for functions (just (codes "a") one_tree) (closed (with_a long_type true)) ≡ of_type }
    ensures wrong { asked_for functions (just (codes "a") a_decimal) (closed (with_a long_type true)) ≡ not_of_type }
    ensures lacking { asked_for functions empty_record (closed (with_a long_type true)) ≡ not_of_type }
    ensures optional { asked_for functions empty_record (closed (with_a long_type false)) ≡ of_type }
    ensures undeclared { asked_for functions (just (codes "b") one_tree) (closed (with_a long_type false)) ≡ not_of_type }
    ensures opened { asked_for functions (just (codes "b") one_tree) (opened (with_a long_type false)) ≡ of_type }
    ensures lacking_first { asked_for functions (just (codes "b") stray) (closed (with_a (extension_type decimal) true)) ≡ not_of_type }
    ensures named { asked_for functions (just (codes "a") stray) (closed (with_a (extension_type decimal) true)) ≡ no_function stray_name }
{}
