//! Laws of the definitions for every kind. Each function's contract is the theorem; its body does nothing.

ghost use Rattle.cedar_expr_model.specs.TextLaws.{TextsAreOfCharacters, UidsAreReadable, UidsHoldQuotes};
ghost use Rattle.cedar_expr_model.specs.Order.{text_cmp, name_order, uid_order, literal_cmp, value_cmp};
ghost use Rattle.cedar_expr_model.specs.Shape.{tree_cmp};
ghost use Rattle.cedar_expr_model.specs.Laws.{IsLinear, NamesByText, UidsByText, ValuesDecide, CanonicalSame, SetsAreCanonical, SetsRise, MembersAreListed, MembersDecide, SetsAreSame, SetsAreMade, FieldsAreFound, PatternsDecide, CoreTypesDecide, AnnotationsDecide};
ghost use Rattle.cedar_expr_model.specs.Builder.{tree_builder};
ghost use Rattle.cedar_expr_model.specs.BuilderForm.{IsLawful};
ghost use Rattle.cedar_expr_model.specs.TreeLaws.{BuiltIsBuilt, SubstitutedIsBuilt, BuiltStays, BuiltTwice, UnboundStays, BoundLeavesNone, BuildersAgree, WrittenIsRestricted, WrittenHasNoUnknown, WrittenIsBuilt, MismatchDecides, WrittenShowsType, WrittenIsValue, ShapesDecide, RepresentedHasResult, RepresentedIsValid};
ghost use Rattle.cedar_expr_model.specs.TextLaws.{PatternsHaveTheirText};
ghost use Rattle.cedar_expr_model.specs.ListLaws.{RepeatsDecide, RepeatIsFirst, TableFaultDecides, FunctionFault, ConstructorFault, InOrderRises, InOrderFinds, InOrderStays, RecordsAreCanonical, RecordsHaveLast, SubsetDecides, DisjointDecides, SplitGivesValues, NamespaceIsKept, QualifiedStays, QualifiedOnce};

/// Texts, names, uids, literals and values are totally ordered, and the order finds no difference exactly between equal ones.
pub fn orders_tell_apart()
    ensures texts { IsLinear text_cmp }
    ensures names { IsLinear name_order }
    ensures uids { IsLinear uid_order }
    ensures literals { IsLinear literal_cmp }
    ensures values { IsLinear value_cmp }
    ensures equality { ValuesDecide }
{}

/// Well-formed names stand in the order of their texts, and uids in that of the text of the type and then of the id.
pub fn names_stand_by_text()
    ensures names { NamesByText }
    ensures uids { UidsByText }
{}

/// On canonical values equality as of sets and maps is equality; a field is found exactly where it stands.
pub fn canonical_values_are_one()
    ensures same { CanonicalSame }
    ensures fields { FieldsAreFound }
{}

/// The set of a list has the values of the list and no others, in rising order; lists of the same values make one set.
pub fn sets_are_made_of_members()
    ensures rise { SetsRise }
    ensures canonical { SetsAreCanonical }
    ensures listed { MembersAreListed }
    ensures members { MembersDecide }
    ensures same { SetsAreSame }
    ensures again { SetsAreMade }
{}

/// The test of a pattern is true exactly where the pattern matches.
pub fn patterns_decide()
    ensures { PatternsDecide }
{}

/// Two patterns of characters with the same text are the same.
pub fn pattern_texts_tell_apart()
    ensures { PatternsHaveTheirText }
{}

/// The tests of core types and of annotations are true exactly where the types are the same.
pub fn core_types_decide()
    ensures types { CoreTypesDecide }
    ensures annotations { AnnotationsDecide }
{}

/// What the builder of trees makes has the builder's form, and what has the form it makes as it is; so making twice is making once.
pub fn built_trees_stay()
    ensures lawful { IsLawful tree_builder }
    ensures form { BuiltIsBuilt }
    ensures stays { BuiltStays }
    ensures twice { BuiltTwice }
{}

/// Where no unknown is bound, substitution only makes the expression; where each is bound, none is left.
pub fn substitution_binds()
    ensures form { SubstitutedIsBuilt }
    ensures unbound { UnboundStays }
    ensures bound { BoundLeavesNone }
{}

/// To substitute and then to build through a lawful builder is to build with each bound unknown made of its value.
pub fn lawful_builders_agree<B>()
    ensures { BuildersAgree B }
{}

/// There is no mismatch exactly where all bindings fit.
pub fn mismatches_decide()
    ensures { MismatchDecides }
{}

/// A written value is restricted, has no unknown, has the builder's form, shows its type, and is the value of its expression.
pub fn written_values_are_plain()
    ensures restricted { WrittenIsRestricted }
    ensures known { WrittenHasNoUnknown }
    ensures form { WrittenIsBuilt }
    ensures shown { WrittenShowsType }
    ensures value { WrittenIsValue }
{}

/// Where a test decides equality, nothing is met again exactly where all are distinct, and what is found is what is met again first.
pub fn repeats_decide<A>()
    ensures none { RepeatsDecide A }
    ensures first { RepeatIsFirst A }
{}

/// The fault of a table is a name that is repeated, and where there is none a type with two constructors.
pub fn table_faults_decide()
    ensures none { TableFaultDecides }
    ensures function { FunctionFault }
    ensures constructor { ConstructorFault }
{}

/// Pairs put in order rise by name and have of each name the last; pairs that rise stay.
pub fn pairs_in_order<A>()
    ensures rise { InOrderRises A }
    ensures finds { InOrderFinds A }
    ensures stays { InOrderStays A }
{}

/// The record of canonical values is canonical and has of each name the last value.
pub fn records_are_made()
    ensures canonical { RecordsAreCanonical }
    ensures last { RecordsHaveLast }
{}

/// The tests of subsets and of disjoint sets decide; a list is split into values exactly where it is a list of values.
pub fn side_by_side()
    ensures subset { SubsetDecides }
    ensures disjoint { DisjointDecides }
    ensures split { SplitGivesValues }
{}

/// A name in a namespace has that namespace; a name that has one stays as it is.
pub fn names_in_namespaces()
    ensures kept { NamespaceIsKept }
    ensures stays { QualifiedStays }
    ensures once { QualifiedOnce }
{}

/// Expressions are totally ordered by their shape, and the order finds no difference exactly between equal ones.
pub fn shapes_tell_apart()
    ensures order { IsLinear tree_cmp }
    ensures equality { ShapesDecide }
{}

/// Under a fair table a value whose calls make it shows its type, and its calls are right ones.
pub fn represented_values_are_right()
    ensures result { RepresentedHasResult }
    ensures calls { RepresentedIsValid }
{}

/// The test of a text is true exactly where the text is the UTF-8 of characters.
pub fn texts_are_of_characters()
    ensures { TextsAreOfCharacters }
{}

/// Each uid can be read again from its text.
pub fn uids_are_readable()
    ensures { UidsAreReadable }
{}

/// The text of a uid always holds a double quote.
pub fn uids_hold_quotes()
    ensures { UidsHoldQuotes }
{}
