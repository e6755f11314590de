//! Worked examples of what values, requests, stores, steps and whole bundles read as, computed from texts in which a single
//! quote stands for a double one. Each function's contract is what comes out; its body does nothing.

ghost use Rattle.std.specs.Prelude.{◌≡◌, ◌++◌, true, false, Some, None, is_some, codes, [], ◌∷◌, pos};
ghost use Rattle.serde_json.specs.Read.{read};
ghost use Rattle.cedar_expr_model.specs.Value.{truth, long, text, prim, record_of, field, no_fields, extension};
ghost use Rattle.cedar_expr_model.specs.Tree.{bool_core, unknown, lit, call, set_literal, record_literal, no_trees, tree, no_tree_fields, tree_field};
ghost use Rattle.cedar_expr_model.specs.Made.{made_prim, made_set, made_record, no_mades, made, no_made_fields, made_field};
ghost use Rattle.cedar_expr_model.specs.ValueParts.{known};
ghost use Rattle.cedar_evaluator_model.specs.Scope.{uid, unknown_uid, closed, residual_fields, unknown_context};
ghost use Rattle.cedar_gate_model.specs.Transcript.{load, bind_name, decide};
ghost use Rattle.cedar_gate_model.specs.ReadingExpression.{first, second};
ghost use Rattle.cedar_gate_model.specs.ReadingValue.{value_read, context_read};
ghost use Rattle.cedar_gate_model.specs.ReadingRequest.{entry_read, request_read, parts_read, entity_read, store_read, step_read, steps_read};
ghost use Rattle.cedar_gate_model.specs.ReadingBundle.{version_read, bundle_read, input_read};
ghost use Rattle.cedar_gate_model.specs.WorkedReading.{reads_as, takes, refuses, with_quotes, name, user_a, view, ranks, rank, rank_of, nested, only_member, plain_start, plain_entity, usual_text, usual_bundle, lacking, with_part, with_rem, with_id, takes_part, refuses_part, but_last, tail, brackets};
ghost use Rattle.cedar_gate_model.specs.ReadingForms.{number_between};

/// Values: restricted expressions, evaluated when they are read.
pub fn worked_values()
    ensures number { reads_as (value_read ranks) (codes "1") ≡ Some (made_prim (long (pos 1))) }
    ensures folded { reads_as (value_read ranks) (codes "['and',true,true]") ≡ Some (made_prim (truth true)) }
    ensures set { reads_as (value_read ranks) (codes "['set',2,1,2]") ≡ Some (made_set (made (made_prim (long (pos 1))) (made (made_prim (long (pos 2))) no_mades))) }
    ensures record { reads_as (value_read ranks) (codes "['record',{'b':1,'a':'x'}]") ≡ Some (made_record (made_field (codes "a") (made_prim (text (codes "x"))) (made_field (codes "b") (made_prim (long (pos 1))) no_made_fields))) }
    ensures extension { reads_as (value_read ranks) (codes "['call','rank','7']") ≡ Some (rank_of (codes "7")) }
    ensures fails { refuses (value_read ranks) (codes "['call','rank','x']" ∷ codes "['call','rank']" ∷ codes "['call','rank',7]" ∷ codes "['call','rank','7','7']" ∷ codes "['call','other','7']" ∷ codes "['set',['call','rank','x']]" ∷ []) ≡ true }
    ensures not_restricted { refuses (value_read ranks) (codes "['not',true]" ∷ codes "['and',true,['eq',1,1]]" ∷ codes "['var','principal']" ∷ codes "['slot','?principal']" ∷ codes "['get',['record',{'a':1}],'a']" ∷ codes "['set',['add',1,2]]" ∷ codes "['rem',1,2]" ∷ []) ≡ true }
    ensures unknown { refuses (value_read ranks) (codes "['unknown','u']" ∷ codes "['set',['unknown','u']]" ∷ codes "['call','rank',['unknown','u']]" ∷ codes "['record',{'a':1,'b':['unknown','u']}]" ∷ []) ≡ true }
    ensures unread { refuses (value_read ranks) (codes "null" ∷ codes "{}" ∷ codes "1.0" ∷ codes "[]" ∷ []) ≡ true }
    ensures deepest { is_some (value_read ranks (nested 511)) ≡ true }
    ensures too_deep { value_read ranks (nested 512) ≡ None }
{}

/// Contexts: closed where all fields are values, trees throughout where an unknown is left, or unknown.
pub fn worked_contexts()
    ensures empty { reads_as (context_read ranks) (codes "{}") ≡ Some (closed no_made_fields) }
    ensures values { reads_as (context_read ranks) (codes "{'r':['call','rank','7'],'a':['or',false,true]}") ≡ Some (closed (made_field (codes "a") (made_prim (truth true)) (made_field (codes "r") (rank_of (codes "7")) no_made_fields))) }
    ensures an_unknown { reads_as (context_read ranks) (codes "{'s':['set',1,1],'b':['unknown','u','Bool'],'r':['call','rank','7']}") ≡ Some (residual_fields (tree_field (codes "b") (unknown (codes "u") (Some bool_core)) (tree_field (codes "r") (call rank (tree (lit (text (codes "7"))) no_trees)) (tree_field (codes "s") (set_literal (tree (lit (long (pos 1))) no_trees)) no_tree_fields)))) }
    ensures an_argument { reads_as (context_read ranks) (codes "{'r':['call','rank',['unknown','t']]}") ≡ Some (residual_fields (tree_field (codes "r") (call rank (tree (unknown (codes "t") None) no_trees)) no_tree_fields)) }
    ensures not_looked_up { takes (context_read ranks) (codes "{'r':['call','other',['unknown','t'],1]}" ∷ []) ≡ true }
    ensures unknown { reads_as (context_read ranks) (codes "'unknown'") ≡ Some unknown_context }
    ensures fails { refuses (context_read ranks) (codes "{'r':['call','rank','x']}" ∷ codes "{'a':['unknown','u'],'r':['call','other','7']}" ∷ []) ≡ true }
    ensures not_restricted { refuses (context_read ranks) (codes "{'a':['var','context']}" ∷ codes "{'a':['not',true]}" ∷ codes "{'a':['set',['neg',1]]}" ∷ codes "{'a':['rem',1,2]}" ∷ []) ≡ true }
    ensures unread { refuses (context_read ranks) (codes "null" ∷ codes "[]" ∷ codes "'Unknown'" ∷ codes "['record',{}]" ∷ codes "{'a':null}" ∷ []) ≡ true }
    ensures deepest { is_some (context_read ranks (only_member (codes "a") (nested 510))) ≡ true }
    ensures too_deep { context_read ranks (only_member (codes "a") (nested 511)) ≡ None }
{}

/// Requests, of which each part may be open.
pub fn worked_requests()
    ensures known { reads_as entry_read (codes "['User','a']") ≡ Some (uid user_a) }
    ensures unknown { reads_as entry_read (codes "'unknown'") ≡ Some (unknown_uid None) }
    ensures typed { reads_as entry_read (codes "{'unknown':'User'}") ≡ Some (unknown_uid (Some (name (codes "User")))) }
    ensures no_entries { refuses entry_read (codes "null" ∷ codes "'User'" ∷ codes "['User']" ∷ codes "{}" ∷ codes "{'unknown':'__cedar'}" ∷ codes "{'unknown':'a b'}" ∷ codes "{'unknown':null}" ∷ codes "{'unknown':'User','id':'a'}" ∷ []) ≡ true }
    ensures request { reads_as (request_read ranks) (codes "{'principal':['User','a'],'action':['Action','view'],'resource':'unknown'}") ≡ Some plain_start }
    ensures with_context { reads_as (request_read ranks) (codes "{'principal':['User','a'],'action':['Action','view'],'resource':'unknown','context':'unknown'}") ≡ Some (record plain_start { context = unknown_context }) }
    ensures no_requests { refuses (request_read ranks) (codes "{'principal':['User','a'],'action':['Action','view']}" ∷ codes "{'principal':['User','a'],'action':null,'resource':'unknown'}" ∷ codes "{'principal':['User','a'],'action':'unknown','resource':'unknown','context':null}" ∷ codes "{'principal':'unknown','action':'unknown','resource':'unknown','more':1}" ∷ codes "[]" ∷ []) ≡ true }
{}

/// Entities and stores. Attributes and tags are values alone, an ancestor counts once, and no uid is repeated.
pub fn worked_stores()
    ensures bare { reads_as (entity_read ranks) (codes "{'uid':['User','a']}") ≡ Some (user_a, plain_entity) }
    ensures full { reads_as (entity_read ranks) (codes "{'uid':['User','a'],'attrs':{'r':['call','rank','7']},'tags':{'t':1},'ancestors':[['User','a'],['User','a']]}") ≡ Some (user_a, record { attributes = (codes "r", known (extension rank (codes "7"))) ∷ []; tags = (codes "t", known (prim (long (pos 1)))) ∷ []; ancestors = user_a ∷ [] }) }
    ensures parts { reads_as (parts_read ranks) (codes "{'b':1,'a':['record',{'c':2}]}") ≡ Some ((codes "a", known (record_of (field (codes "c") (prim (long (pos 2))) no_fields))) ∷ (codes "b", known (prim (long (pos 1)))) ∷ []) }
    ensures no_parts { refuses (parts_read ranks) (codes "[]" ∷ codes "{'a':['unknown','u']}" ∷ codes "{'a':['call','rank','x']}" ∷ codes "{'a':['var','principal']}" ∷ []) ≡ true }
    ensures no_entities { refuses (entity_read ranks) (codes "{}" ∷ codes "{'uid':['__cedar','a']}" ∷ codes "{'uid':['User','a'],'attrs':null}" ∷ codes "{'uid':['User','a'],'tags':{'t':{}}}" ∷ codes "{'uid':['User','a'],'ancestors':['User','a']}" ∷ codes "{'uid':['User','a'],'parents':[]}" ∷ codes "['User','a']" ∷ []) ≡ true }
    ensures store { reads_as (store_read ranks) (codes "[{'uid':['User','a']}]") ≡ Some ((user_a, plain_entity) ∷ []) }
    ensures apart { takes (store_read ranks) (codes "[]" ∷ codes "[{'uid':['User','a']},{'uid':['User','b']},{'uid':['A::User','a']}]" ∷ []) ≡ true }
    ensures repeated { refuses (store_read ranks) (codes "[{'uid':['User','a']},{'uid':['User','b']},{'uid':['User','a'],'attrs':{'x':1}}]" ∷ codes "{}" ∷ codes "[null]" ∷ []) ≡ true }
{}

/// Steps. Where the key lacks there are none.
pub fn worked_steps()
    ensures load { reads_as (step_read ranks) (codes "'load'") ≡ Some load }
    ensures decide { reads_as (step_read ranks) (codes "'decide'") ≡ Some decide }
    ensures bind { reads_as (step_read ranks) (codes "{'bind':'any name','value':['call','rank','7']}") ≡ Some (bind_name (codes "any name") (rank_of (codes "7"))) }
    ensures no_steps { refuses (step_read ranks) (codes "'bind'" ∷ codes "null" ∷ codes "{'bind':'t'}" ∷ codes "{'value':1}" ∷ codes "{'bind':1,'value':1}" ∷ codes "{'bind':'t','value':['unknown','u']}" ∷ codes "{'bind':'t','value':['call','rank','x']}" ∷ codes "{'bind':'t','value':['not',true]}" ∷ codes "{'bind':'t','value':1,'more':1}" ∷ []) ≡ true }
    ensures lacking { reads_as (steps_read ranks) (codes "{}") ≡ Some [] }
    ensures several { reads_as (steps_read ranks) (codes "{'steps':['decide','load','load']}") ≡ Some (decide ∷ load ∷ load ∷ []) }
    ensures no_lists { refuses (steps_read ranks) (codes "{'steps':null}" ∷ codes "{'steps':{}}" ∷ codes "{'steps':['decide',{'bind':'t'}]}" ∷ []) ≡ true }
{}

/// Whole bundles, with other values for one part, or without it.
pub fn worked_bundles()
    ensures usual { reads_as (bundle_read ranks) usual_text ≡ Some usual_bundle }
    ensures level { reads_as (number_between 0 4294967295) (codes "4294967295") ≡ Some 4294967295 }
    ensures least_level { reads_as (number_between 0 4294967295) (codes "0") ≡ Some 0 }
    ensures no_levels { refuses (number_between 0 4294967295) (codes "4294967296" ∷ codes "-1" ∷ codes "1.5" ∷ []) ≡ true }
    ensures limit { reads_as (number_between 1 512) (codes "512") ≡ Some 512 }
    ensures no_limits { refuses (number_between 1 512) (codes "0" ∷ codes "513" ∷ codes "16.0" ∷ codes "null" ∷ []) ≡ true }
    ensures first_version { reads_as version_read (codes "1") ≡ Some first }
    ensures second_version { reads_as version_read (codes "2") ≡ Some second }
    ensures no_versions { refuses version_read (codes "0" ∷ codes "3" ∷ codes "-1" ∷ codes "1.0" ∷ codes "2e0" ∷ codes "'1'" ∷ codes "null" ∷ codes "[2]" ∷ []) ≡ true }
    ensures another_version { reads_as (bundle_read ranks) (with_part (codes "version") (codes "2")) ≡ Some usual_bundle }
    ensures no_other_versions { refuses_part (codes "version") (codes "3" ∷ codes "0" ∷ codes "1.0" ∷ codes "'1'" ∷ codes "null" ∷ []) ≡ true }
    ensures rem_in_second { takes (bundle_read ranks) (with_rem (codes "2") ∷ []) ≡ true }
    ensures no_rem_in_first { refuses (bundle_read ranks) (with_rem (codes "1") ∷ []) ≡ true }
    ensures levels { takes_part (codes "level") (codes "1" ∷ codes "4294967295" ∷ []) ≡ true }
    ensures other_levels { refuses_part (codes "level") (codes "1.5" ∷ codes "4294967296" ∷ []) ≡ true }
    ensures parts { refuses_part (codes "schema") (codes "{}" ∷ []) ≡ true }
    ensures policies { refuses_part (codes "policies") (codes "{}" ∷ codes "[null]" ∷ []) ≡ true }
    ensures two_of_one_id { takes_part (codes "policies") (codes "[{'id':'p','effect':'permit'},{'id':'p','effect':'forbid'}]" ∷ []) ≡ true }
    ensures steps { takes_part (codes "steps") (codes "[]" ∷ codes "['decide']" ∷ []) ≡ true }
    ensures bad_last_step { refuses_part (codes "steps") (codes "['decide','close']" ∷ codes "null" ∷ []) ≡ true }
    ensures stored { refuses_part (codes "store") (codes "[{'uid':['User','a']},{'uid':['User','a']}]" ∷ []) ≡ true }
    ensures another_key { refuses_part (codes "more") (codes "1" ∷ []) ≡ true }
    ensures lacking_parts { refuses (bundle_read ranks) (lacking (codes "version") ∷ lacking (codes "level") ∷ lacking (codes "limit") ∷ lacking (codes "schema") ∷ lacking (codes "policies") ∷ lacking (codes "request") ∷ lacking (codes "store") ∷ []) ≡ true }
    ensures not_an_object { refuses (bundle_read ranks) (codes "[]" ∷ codes "null" ∷ []) ≡ true }
{}

/// Whole inputs: UTF-8 and JSON that nests no deeper than 127.
pub fn worked_inputs()
    ensures usual { input_read ranks (with_quotes usual_text) ≡ Some usual_bundle }
    ensures without_its_end { input_read ranks (with_quotes (but_last usual_text)) ≡ None }
    ensures empty { input_read ranks [] ≡ None }
    ensures byte_order_mark { input_read ranks (239 ∷ 187 ∷ 191 ∷ with_quotes usual_text) ≡ None }
    ensures an_id { is_some (input_read ranks (with_quotes (with_id (195 ∷ 169 ∷ [])))) ≡ true }
    ensures no_utf8 { input_read ranks (with_quotes (with_id (195 ∷ []))) ≡ None }
    ensures lone_surrogate { input_read ranks (with_quotes (with_id (92 ∷ codes "ud800"))) ≡ None }
    ensures followed { input_read ranks (with_quotes (usual_text ++ codes "{}")) ≡ None }
    ensures spaced { is_some (input_read ranks (with_quotes (codes " " ++ (usual_text ++ codes " ")))) ≡ true }
    ensures brackets { input_read ranks (brackets 128 []) ≡ None }
    ensures brackets_of_json { is_some (read (brackets 127 [])) ≡ true }
    ensures too_many_brackets { read (brackets 128 []) ≡ None }
    ensures last_of_repeated_keys { input_read ranks (with_quotes (codes "{'version':3," ++ tail usual_text)) ≡ Some usual_bundle }
{}
