//! Worked examples of what a bundle reads as, computed from texts in which a single quote stands for a double one. Each
//! function's contract is what comes out; its body does nothing.

ghost use Rattle.std.specs.Prelude.{◌≡◌, ◌++◌, true, false, Some, None, codes, [], ◌∷◌, pos, negsuc, nat_le, bytes_eq};
ghost use Rattle.serde_json.specs.Data.{null, number, unsigned};
ghost use Rattle.serde_json.specs.Find.{as_str};
ghost use Rattle.cedar_expr_model.specs.Value.{truth, long, text, entity};
ghost use Rattle.cedar_expr_model.specs.Pattern.{character, wildcard};
ghost use Rattle.cedar_expr_model.specs.Tree.{principal, context, principal_slot, resource_slot, string_core, set_core, entity_core, extension_core, negation, minus, is_empty, equal, less, less_or_equal, plus, difference, times, remainder, is_in, contains, contains_all, contains_any, get_tag, has_tag, lit, var, slot, unknown, choice, both, either, unary, binary, call, get_attr, has_attr, has_path, like, is_type, set_literal, record_literal, no_trees, tree, no_tree_fields, tree_field};
ghost use Rattle.cedar_gate_model.specs.ReadingForms.{word_of, first_form, alone, if_passing, number_between, is_number};
ghost use Rattle.cedar_gate_model.specs.ReadingName.{any_name_read, plain_name_read, uid_read, declared_uid_read, annotation_read};
ghost use Rattle.cedar_gate_model.specs.ReadingExpression.{first, second, var_words, slot_words, pattern_read, expression_read, fields_read};
ghost use Rattle.cedar_gate_model.specs.WorkedReading.{reads_as, takes, refuses, name, name_under, user_a};
ghost use Rattle.std.specs.Map.{lookup};
ghost use Rattle.cedar_gate_model.specs.Reading.{list_of};

/// Names. A reserved name is one inside a schema alone.
pub fn worked_names()
    ensures plain { reads_as plain_name_read (codes "'User'") ≡ Some (name (codes "User")) }
    ensures path { reads_as plain_name_read (codes "'A::User'") ≡ Some (name_under (codes "A") (codes "User")) }
    ensures reserved { reads_as any_name_read (codes "'__cedar::User'") ≡ Some (name_under (codes "__cedar") (codes "User")) }
    ensures not_reserved { refuses plain_name_read (codes "'__cedar::User'" ∷ codes "'__cedar'" ∷ codes "'A::__cedar'" ∷ []) ≡ true }
    ensures outside_the_grammar { refuses any_name_read (codes "''" ∷ codes "'A:B'" ∷ codes "'A::'" ∷ codes "'in'" ∷ codes "'1a'" ∷ codes "1" ∷ codes "null" ∷ []) ≡ true }
    ensures list { reads_as (list_of any_name_read) (codes "['A','__cedar']") ≡ Some (name (codes "A") ∷ name (codes "__cedar") ∷ []) }
    ensures no_list { refuses (list_of any_name_read) (codes "'A'" ∷ codes "['A','']" ∷ codes "{}" ∷ []) ≡ true }
{}

/// Uids: a type and an id, which is any text.
pub fn worked_uids()
    ensures uid { reads_as uid_read (codes "['User','a']") ≡ Some user_a }
    ensures any_id { reads_as uid_read (codes "['User','']") ≡ Some (record user_a { id = [] }) }
    ensures no_uids { refuses uid_read (codes "['User']" ∷ codes "['User','a','b']" ∷ codes "['','a']" ∷ codes "['User',1]" ∷ codes "'User'" ∷ codes "[]" ∷ []) ≡ true }
    ensures not_reserved { refuses uid_read (codes "['__cedar','a']" ∷ []) ≡ true }
    ensures declared { takes declared_uid_read (codes "['__cedar','a']" ∷ codes "['Action','view']" ∷ []) ≡ true }
    ensures not_declared { refuses declared_uid_read (codes "['a b','c']" ∷ codes "['Action']" ∷ []) ≡ true }
    ensures list { reads_as (list_of uid_read) (codes "[['User','a']]") ≡ Some (user_a ∷ []) }
    ensures no_list { refuses (list_of uid_read) (codes "['User','a']" ∷ codes "[['User','a'],['User']]" ∷ []) ≡ true }
{}

/// The types that an unknown may be marked with.
pub fn worked_annotations()
    ensures word { reads_as annotation_read (codes "'String'") ≡ Some string_core }
    ensures set { reads_as annotation_read (codes "'Set'") ≡ Some set_core }
    ensures words { takes annotation_read (codes "'Bool'" ∷ codes "'Long'" ∷ codes "'Record'" ∷ []) ≡ true }
    ensures entity { reads_as annotation_read (codes "{'entity':'User'}") ≡ Some (entity_core (name (codes "User"))) }
    ensures extension { reads_as annotation_read (codes "{'ext':'rank'}") ≡ Some (extension_core (name (codes "rank"))) }
    ensures no_types { refuses annotation_read (codes "'bool'" ∷ codes "'User'" ∷ codes "null" ∷ codes "{}" ∷ codes "{'entity':'__cedar'}" ∷ codes "{'entity':'User','ext':'rank'}" ∷ codes "{'set':'Bool'}" ∷ []) ≡ true }
{}

/// Numbers in a range, and the forms that several parts share.
pub fn worked_numbers()
    ensures low { reads_as (number_between 1 512) (codes "1") ≡ Some 1 }
    ensures high { reads_as (number_between 1 512) (codes "512") ≡ Some 512 }
    ensures outside { refuses (number_between 1 512) (codes "0" ∷ codes "513" ∷ codes "-1" ∷ codes "1.0" ∷ codes "1e0" ∷ codes "-0" ∷ codes "'1'" ∷ codes "18446744073709551617" ∷ []) ≡ true }
    ensures texts { reads_as (list_of as_str) (codes "['a','']") ≡ Some (codes "a" ∷ [] ∷ []) }
    ensures no_texts { refuses (list_of as_str) (codes "'a'" ∷ codes "['a',1]" ∷ []) ≡ true }
    ensures beside { lookup (bytes_eq (codes "?resource")) slot_words ≡ Some resource_slot }
    ensures first { lookup (bytes_eq (codes "?principal")) slot_words ≡ Some principal_slot }
    ensures not_beside { lookup (bytes_eq (codes "?action")) slot_words ≡ None }
{}

/// Words, objects with one key, and the first of several forms.
pub fn worked_forms()
    ensures word { reads_as (word_of slot_words) (codes "'?resource'") ≡ Some resource_slot }
    ensures no_words { refuses (word_of slot_words) (codes "'resource'" ∷ codes "''" ∷ codes "1" ∷ codes "['?resource']" ∷ []) ≡ true }
    ensures alone { reads_as (alone (codes "a") as_str) (codes "{'a':'x'}") ≡ Some (codes "x") }
    ensures not_alone { refuses (alone (codes "a") as_str) (codes "{}" ∷ codes "{'a':'x','b':1}" ∷ codes "{'b':'x'}" ∷ codes "{'a':1}" ∷ codes "'a'" ∷ []) ≡ true }
    ensures one_form { reads_as (first_form (as_str ∷ alone (codes "a") as_str ∷ [])) (codes "'x'") ≡ Some (codes "x") }
    ensures another_form { reads_as (first_form (as_str ∷ alone (codes "a") as_str ∷ [])) (codes "{'a':'y'}") ≡ Some (codes "y") }
    ensures no_form { refuses (first_form (as_str ∷ alone (codes "a") as_str ∷ [])) (codes "1" ∷ codes "{'a':1}" ∷ []) ≡ true }
    ensures passing { if_passing (λ n. nat_le n 2) 2 ≡ Some 2 }
    ensures not_passing { if_passing (λ n. nat_le n 2) 3 ≡ None }
    ensures this_number { is_number 1 (number (unsigned 1)) ≡ true }
    ensures another_number { is_number 1 (number (unsigned 2)) ≡ false }
    ensures no_number { is_number 1 null ≡ false }
{}

/// Literals and variables, slots and unknowns.
pub fn worked_leaves()
    ensures truth { reads_as (expression_read first) (codes "true") ≡ Some (lit (truth true)) }
    ensures number { reads_as (expression_read first) (codes "-9223372036854775808") ≡ Some (lit (long (negsuc 9223372036854775807))) }
    ensures greatest { reads_as (expression_read first) (codes "9223372036854775807") ≡ Some (lit (long (pos 9223372036854775807))) }
    ensures text { reads_as (expression_read first) (codes "'less'") ≡ Some (lit (text (codes "less"))) }
    ensures uid { reads_as (expression_read first) (codes "['uid','User','a']") ≡ Some (lit (entity user_a)) }
    ensures variable { reads_as (expression_read first) (codes "['var','principal']") ≡ Some (var principal) }
    ensures the_context { reads_as (expression_read first) (codes "['var','context']") ≡ Some (var context) }
    ensures slot { reads_as (expression_read first) (codes "['slot','?resource']") ≡ Some (slot resource_slot) }
    ensures unknown { reads_as (expression_read first) (codes "['unknown','any name']") ≡ Some (unknown (codes "any name") None) }
    ensures typed { reads_as (expression_read first) (codes "['unknown','u',{'entity':'User'}]") ≡ Some (unknown (codes "u") (Some (entity_core (name (codes "User"))))) }
    ensures no_numbers { refuses (expression_read first) (codes "1.0" ∷ codes "1e0" ∷ codes "-0" ∷ codes "9223372036854775808" ∷ codes "-9223372036854775809" ∷ []) ≡ true }
    ensures no_forms { refuses (expression_read first) (codes "null" ∷ codes "{}" ∷ codes "[]" ∷ codes "[true]" ∷ codes "['word']" ∷ codes "[['not'],true]" ∷ codes "['True']" ∷ []) ≡ true }
    ensures no_leaves { refuses (expression_read first) (codes "['uid','User']" ∷ codes "['uid','__cedar','a']" ∷ codes "['uid',['User','a']]" ∷ codes "['var','user']" ∷ codes "['var','principal','x']" ∷ codes "['slot','principal']" ∷ codes "['slot','?action']" ∷ codes "['unknown']" ∷ codes "['unknown',1]" ∷ codes "['unknown','u','User']" ∷ codes "['unknown','u','Bool','Bool']" ∷ []) ≡ true }
{}

/// Operators of one, two and three parts. `and` and `or` of two literal truth values are their literal.
pub fn worked_operators()
    ensures folded { reads_as (expression_read first) (codes "['and',true,false]") ≡ Some (lit (truth false)) }
    ensures folded_or { reads_as (expression_read first) (codes "['or',false,['and',true,true]]") ≡ Some (lit (truth true)) }
    ensures kept { reads_as (expression_read first) (codes "['and',true,['unknown','u']]") ≡ Some (both (lit (truth true)) (unknown (codes "u") None)) }
    ensures kept_or { reads_as (expression_read first) (codes "['or',['unknown','u'],true]") ≡ Some (either (unknown (codes "u") None) (lit (truth true))) }
    ensures not_folded { reads_as (expression_read first) (codes "['not',true]") ≡ Some (unary negation (lit (truth true))) }
    ensures neg { reads_as (expression_read first) (codes "['neg',1]") ≡ Some (unary minus (lit (long (pos 1)))) }
    ensures empty { reads_as (expression_read first) (codes "['isEmpty',['set']]") ≡ Some (unary is_empty (set_literal no_trees)) }
    ensures choice { reads_as (expression_read first) (codes "['if',true,1,'a']") ≡ Some (choice (lit (truth true)) (lit (long (pos 1))) (lit (text (codes "a")))) }
    ensures eq { reads_as (expression_read first) (codes "['eq',1,2]") ≡ Some (binary equal (lit (long (pos 1))) (lit (long (pos 2)))) }
    ensures less { reads_as (expression_read first) (codes "['less',1,2]") ≡ Some (binary less (lit (long (pos 1))) (lit (long (pos 2)))) }
    ensures lesseq { reads_as (expression_read first) (codes "['lesseq',1,2]") ≡ Some (binary less_or_equal (lit (long (pos 1))) (lit (long (pos 2)))) }
    ensures add { reads_as (expression_read first) (codes "['add',1,2]") ≡ Some (binary plus (lit (long (pos 1))) (lit (long (pos 2)))) }
    ensures sub { reads_as (expression_read first) (codes "['sub',1,2]") ≡ Some (binary difference (lit (long (pos 1))) (lit (long (pos 2)))) }
    ensures mul { reads_as (expression_read first) (codes "['mul',1,2]") ≡ Some (binary times (lit (long (pos 1))) (lit (long (pos 2)))) }
    ensures rem { reads_as (expression_read second) (codes "['rem',1,2]") ≡ Some (binary remainder (lit (long (pos 1))) (lit (long (pos 2)))) }
    ensures rem_in_others { reads_as (expression_read second) (codes "['less',0,['rem',['neg',7],3]]") ≡ Some (binary less (lit (long (pos 0))) (binary remainder (unary minus (lit (long (pos 7)))) (lit (long (pos 3))))) }
    ensures no_rem { refuses (expression_read first) (codes "['rem',1,2]" ∷ codes "['not',['rem',1,2]]" ∷ codes "['set',['rem',1,2]]" ∷ codes "['record',{'a':['rem',1,2]}]" ∷ []) ≡ true }
    ensures no_rem_either { refuses (expression_read second) (codes "['rem']" ∷ codes "['rem',1]" ∷ codes "['rem',1,2,3]" ∷ codes "['rem',1,null]" ∷ codes "['Rem',1,2]" ∷ []) ≡ true }
    ensures others_in_second { takes (expression_read second) (codes "['mul',1,2]" ∷ codes "['uid','User','a']" ∷ codes "['record',{'a':['set']}]" ∷ []) ≡ true }
    ensures is_in { reads_as (expression_read first) (codes "['in',1,2]") ≡ Some (binary is_in (lit (long (pos 1))) (lit (long (pos 2)))) }
    ensures contains { reads_as (expression_read first) (codes "['contains',1,2]") ≡ Some (binary contains (lit (long (pos 1))) (lit (long (pos 2)))) }
    ensures contains_all { reads_as (expression_read first) (codes "['containsAll',1,2]") ≡ Some (binary contains_all (lit (long (pos 1))) (lit (long (pos 2)))) }
    ensures contains_any { reads_as (expression_read first) (codes "['containsAny',1,2]") ≡ Some (binary contains_any (lit (long (pos 1))) (lit (long (pos 2)))) }
    ensures get_tag { reads_as (expression_read first) (codes "['getTag',1,2]") ≡ Some (binary get_tag (lit (long (pos 1))) (lit (long (pos 2)))) }
    ensures has_tag { reads_as (expression_read first) (codes "['hasTag',1,2]") ≡ Some (binary has_tag (lit (long (pos 1))) (lit (long (pos 2)))) }
    ensures wrong_counts { refuses (expression_read first) (codes "['not']" ∷ codes "['not',true,true]" ∷ codes "['and',true]" ∷ codes "['and',true,true,true]" ∷ codes "['if',true,1]" ∷ codes "['if',true,1,2,3]" ∷ codes "['eq',1]" ∷ codes "['less',1,2,3]" ∷ codes "['isEmpty']" ∷ []) ≡ true }
    ensures wrong_parts { refuses (expression_read first) (codes "['not',null]" ∷ codes "['and',true,{}]" ∷ codes "['if',true,1,1.5]" ∷ codes "['eq',['x'],1]" ∷ codes "['noteq',1,2]" ∷ []) ≡ true }
{}

/// Attributes and types.
pub fn worked_attributes()
    ensures get { reads_as (expression_read first) (codes "['get',['var','context'],'any text']") ≡ Some (get_attr (var context) (codes "any text")) }
    ensures has { reads_as (expression_read first) (codes "['has',['var','context'],'a']") ≡ Some (has_attr (var context) (codes "a")) }
    ensures has_path { reads_as (expression_read first) (codes "['has',['var','context'],'a','b','c']") ≡ Some (has_path (var context) (codes "a") (codes "b" ∷ codes "c" ∷ [])) }
    ensures is_kind { reads_as (expression_read first) (codes "['is',['var','principal'],'A::User']") ≡ Some (is_type (var principal) (name_under (codes "A") (codes "User"))) }
    ensures no_attributes { refuses (expression_read first) (codes "['has',['var','context']]" ∷ codes "['has']" ∷ codes "['has',['var','context'],1]" ∷ codes "['has',['var','context'],'a',1]" ∷ codes "['get',['var','context']]" ∷ codes "['get',['var','context'],'a','b']" ∷ codes "['get',['var','context'],['a']]" ∷ codes "['get',null,'a']" ∷ []) ≡ true }
    ensures no_kinds { refuses (expression_read first) (codes "['is',['var','principal'],'__cedar']" ∷ codes "['is',['var','principal'],'a b']" ∷ codes "['is',['var','principal'],['User']]" ∷ codes "['is',['var','principal']]" ∷ []) ≡ true }
{}

/// Patterns: a text is its characters, null is a wildcard.
pub fn worked_patterns()
    ensures elements { reads_as pattern_read (codes "['ab',null,'*']") ≡ Some (character 97 ∷ character 98 ∷ wildcard ∷ character 42 ∷ []) }
    ensures empty { reads_as pattern_read (codes "[]") ≡ Some [] }
    ensures empty_texts { reads_as pattern_read (codes "['','']") ≡ Some [] }
    ensures no_patterns { refuses pattern_read (codes "'ab'" ∷ codes "['ab',1]" ∷ codes "[['ab']]" ∷ codes "null" ∷ []) ≡ true }
    ensures like { reads_as (expression_read first) (codes "['like','x',[null]]") ≡ Some (like (lit (text (codes "x"))) (wildcard ∷ [])) }
    ensures like_empty { reads_as (expression_read first) (codes "['like','x',[]]") ≡ Some (like (lit (text (codes "x"))) []) }
    ensures no_like { refuses (expression_read first) (codes "['like','x']" ∷ codes "['like','x','a']" ∷ codes "['like',null,[]]" ∷ codes "['like','x',[],[]]" ∷ []) ≡ true }
{}

/// Calls, sets and records. A record's names come in their order.
pub fn worked_parts()
    ensures call { reads_as (expression_read first) (codes "['call','A::f',1]") ≡ Some (call (name_under (codes "A") (codes "f")) (tree (lit (long (pos 1))) no_trees)) }
    ensures no_arguments { reads_as (expression_read first) (codes "['call','f']") ≡ Some (call (name (codes "f")) no_trees) }
    ensures set { reads_as (expression_read first) (codes "['set',2,2]") ≡ Some (set_literal (tree (lit (long (pos 2))) (tree (lit (long (pos 2))) no_trees))) }
    ensures empty_set { reads_as (expression_read first) (codes "['set']") ≡ Some (set_literal no_trees) }
    ensures fields { reads_as (expression_read first) (codes "['record',{'b':1,'a':true}]") ≡ Some (record_literal (tree_field (codes "a") (lit (truth true)) (tree_field (codes "b") (lit (long (pos 1))) no_tree_fields))) }
    ensures empty_record { reads_as (expression_read first) (codes "['record',{}]") ≡ Some (record_literal no_tree_fields) }
    ensures last_stands { reads_as (fields_read first) (codes "{'a':1,'a':true}") ≡ Some (tree_field (codes "a") (lit (truth true)) no_tree_fields) }
    ensures no_fields { refuses (fields_read first) (codes "[]" ∷ codes "{'a':null}" ∷ codes "{'a':1,'b':{}}" ∷ []) ≡ true }
    ensures no_parts { refuses (expression_read first) (codes "['call']" ∷ codes "['call','__cedar::f']" ∷ codes "['call',1]" ∷ codes "['call','f',null]" ∷ codes "['set',{}]" ∷ codes "['record']" ∷ codes "['record',['a']]" ∷ codes "['record',{'a':null}]" ∷ codes "['record',{},{}]" ∷ []) ≡ true }
{}
