//! Worked examples of what schemas and policies read as, computed from texts in which a single quote stands for a double one.
//! Each function's contract is what comes out; its body does nothing.

ghost use Rattle.std.specs.Prelude.{◌≡◌, true, false, Some, None, codes, [], ◌∷◌, pos};
ghost use Rattle.cedar_expr_model.specs.Value.{truth, long};
ghost use Rattle.cedar_expr_model.specs.Tree.{less, remainder, lit, binary};
ghost use Rattle.cedar_schema_model.specs.Reference.{to_entity, to_common};
ghost use Rattle.cedar_schema_model.specs.Declarations.{bool_expr, long_expr, string_expr, set_expr, record_expr, reference, extension_expr, no_field_exprs, field_expr, standard_expr, enumerated_expr, external_expr};
ghost use Rattle.cedar_store_model.specs.Policy.{permit, forbid, named, own_slot, any, exactly, inside, of_kind, of_kind_inside, any_action, exactly_action, inside_actions, no_bindings};
ghost use Rattle.cedar_gate_model.specs.ReadingSchema.{type_read, attributes_read, common_read, kind_read, entity_type_read, action_read, namespace_named, namespace_read, fragment_read, schema_read};
ghost use Rattle.cedar_gate_model.specs.ReadingExpression.{first, second};
ghost use Rattle.cedar_gate_model.specs.ReadingPolicy.{target_read, scope_read, action_scope_read, bindings_read, policy_read};
ghost use Rattle.cedar_gate_model.specs.WorkedReading.{reads_as, takes, refuses, name, name_under, user_a, view, plain_policy, plain_action, declaring};

/// Types: a word, or an object with one key.
pub fn worked_types()
    ensures word { reads_as type_read (codes "'Bool'") ≡ Some bool_expr }
    ensures words { takes type_read (codes "'Long'" ∷ codes "'String'" ∷ []) ≡ true }
    ensures set { reads_as type_read (codes "{'set':{'set':'Long'}}") ≡ Some (set_expr (set_expr long_expr)) }
    ensures record { reads_as type_read (codes "{'record':{'b':{'optional':'Bool'},'a':'Long'}}") ≡ Some (record_expr (field_expr (codes "a") long_expr true (field_expr (codes "b") bool_expr false no_field_exprs))) }
    ensures empty_record { reads_as type_read (codes "{'record':{}}") ≡ Some (record_expr no_field_exprs) }
    ensures entity { reads_as type_read (codes "{'entity':'A::User'}") ≡ Some (reference to_entity (name_under (codes "A") (codes "User"))) }
    ensures common { reads_as type_read (codes "{'common':'__cedar'}") ≡ Some (reference to_common (name (codes "__cedar"))) }
    ensures extension { reads_as type_read (codes "{'ext':'rank'}") ≡ Some (extension_expr (name (codes "rank"))) }
    ensures no_words { refuses type_read (codes "'bool'" ∷ codes "'User'" ∷ codes "'Set'" ∷ codes "null" ∷ codes "[]" ∷ codes "1" ∷ []) ≡ true }
    ensures no_types { refuses type_read (codes "{}" ∷ codes "{'set':'Bool','record':{}}" ∷ codes "{'set':['Bool']}" ∷ codes "{'entity':'a b'}" ∷ codes "{'entity':['User']}" ∷ codes "{'common':''}" ∷ codes "{'ext':1}" ∷ codes "{'optional':'Bool'}" ∷ codes "{'record':'Bool'}" ∷ codes "{'record':{'a':{'optional':{'optional':'Bool'}}}}" ∷ codes "{'list':'Bool'}" ∷ []) ≡ true }
    ensures fields { reads_as attributes_read (codes "{'any name':{'optional':{'record':{}}}}") ≡ Some (field_expr (codes "any name") (record_expr no_field_exprs) false no_field_exprs) }
    ensures no_fields { refuses attributes_read (codes "[]" ∷ codes "{'a':null}" ∷ codes "{'a':{'optional':'Bool','set':'Bool'}}" ∷ codes "{'a':'Bool','b':'User'}" ∷ []) ≡ true }
{}

/// Entity types of the three forms: standard, enumerated, and declared elsewhere.
pub fn worked_entity_types()
    ensures bare { reads_as kind_read (codes "{}") ≡ Some ([], standard_expr no_field_exprs None) }
    ensures standard { reads_as kind_read (codes "{'parents':['Group'],'attrs':{'ok':'Bool'},'tags':'String'}") ≡ Some (name (codes "Group") ∷ [], standard_expr (field_expr (codes "ok") bool_expr true no_field_exprs) (Some string_expr)) }
    ensures enumerated { reads_as kind_read (codes "{'enum':['a','a']}") ≡ Some ([], enumerated_expr (codes "a" ∷ codes "a" ∷ [])) }
    ensures external { reads_as kind_read (codes "{'external':['A::Group']}") ≡ Some (name_under (codes "A") (codes "Group") ∷ [], external_expr) }
    ensures no_kinds { refuses kind_read (codes "null" ∷ codes "[]" ∷ codes "{'enum':[]}" ∷ codes "{'enum':'a'}" ∷ codes "{'enum':['a'],'parents':[]}" ∷ codes "{'external':[],'attrs':{}}" ∷ codes "{'external':'Group'}" ∷ codes "{'parents':'Group'}" ∷ codes "{'parents':['']}" ∷ codes "{'parents':null}" ∷ codes "{'attrs':[]}" ∷ codes "{'tags':null}" ∷ codes "{'tag':'Bool'}" ∷ []) ≡ true }
    ensures named { reads_as (entity_type_read (codes "A" ∷ []) (codes "User")) (codes "{}") ≡ Some (record { namespace = codes "A" ∷ []; word = codes "User"; parents = []; kind = standard_expr no_field_exprs None }) }
    ensures reserved { takes (entity_type_read [] (codes "__cedar")) (codes "{}" ∷ []) ≡ true }
    ensures not_named { refuses (entity_type_read [] (codes "A::User")) (codes "{}" ∷ []) ≡ true }
    ensures no_word { refuses (entity_type_read [] []) (codes "{}" ∷ []) ≡ true }
    ensures ids { reads_as kind_read (codes "{'enum':['']}") ≡ Some ([], enumerated_expr ([] ∷ [])) }
    ensures no_ids { refuses kind_read (codes "{'enum':[]}" ∷ codes "{'enum':['a',1]}" ∷ codes "{'enum':'a'}" ∷ []) ≡ true }
    ensures common { reads_as (common_read [] (codes "T")) (codes "'Bool'") ≡ Some (record { namespace = []; word = codes "T"; definition = bool_expr }) }
    ensures not_common { refuses (common_read [] (codes "T")) (codes "{}" ∷ codes "'User'" ∷ []) ≡ true }
    ensures common_not_named { refuses (common_read [] (codes "A::T")) (codes "'Bool'" ∷ []) ≡ true }
{}

/// Actions, of which each key may lack.
pub fn worked_actions()
    ensures bare { reads_as (action_read [] (codes "view")) (codes "{}") ≡ Some plain_action }
    ensures parents { reads_as (action_read [] (codes "view")) (codes "{'in':[['Action','view'],['__cedar','x']]}") ≡ Some (record plain_action { parents = view ∷ record { kind = name (codes "__cedar"); id = codes "x" } ∷ [] }) }
    ensures lists { reads_as (action_read [] (codes "view")) (codes "{'principals':['User'],'resources':['A::Doc']}") ≡ Some (record plain_action { principals = name (codes "User") ∷ []; resources = name_under (codes "A") (codes "Doc") ∷ [] }) }
    ensures context { reads_as (action_read [] (codes "view")) (codes "{'context':{'common':'C'}}") ≡ Some (record plain_action { context = reference to_common (name (codes "C")) }) }
    ensures any_id { takes (action_read (codes "A" ∷ []) (codes "a b")) (codes "{}" ∷ []) ≡ true }
    ensures no_actions { refuses (action_read [] (codes "view")) (codes "null" ∷ codes "{'in':['view']}" ∷ codes "{'in':null}" ∷ codes "{'principals':'User'}" ∷ codes "{'resources':['a b']}" ∷ codes "{'context':null}" ∷ codes "{'context':'x'}" ∷ codes "{'external':[]}" ∷ []) ≡ true }
{}

/// Namespaces, fragments and schemas.
pub fn worked_schemas()
    ensures empty { namespace_named [] ≡ Some [] }
    ensures path { namespace_named (codes "A::B") ≡ Some (codes "A" ∷ codes "B" ∷ []) }
    ensures reserved { namespace_named (codes "__cedar") ≡ Some (codes "__cedar" ∷ []) }
    ensures not_named { namespace_named (codes "A::") ≡ None }
    ensures two_namespaces { reads_as fragment_read (codes "{'':{'actions':{'view':{}}},'A':{'commonTypes':{'T':'Bool'}}}") ≡ Some (declaring (record { namespace = codes "A" ∷ []; word = codes "T"; definition = bool_expr } ∷ []) (plain_action ∷ [])) }
    ensures two_fragments { reads_as schema_read (codes "[{'':{'actions':{'view':{}}}},{},{'':{}},{'':{'actions':{'view':{}}}}]") ≡ Some (declaring [] (plain_action ∷ plain_action ∷ [])) }
    ensures nothing { reads_as schema_read (codes "[]") ≡ Some (declaring [] []) }
    ensures no_schemas { refuses schema_read (codes "{}" ∷ codes "[[]]" ∷ codes "[{'':null}]" ∷ codes "[{'a b':{}}]" ∷ codes "[{'in':{}}]" ∷ codes "[{'':{'types':{}}}]" ∷ codes "[{'':{'actions':[]}}]" ∷ codes "[{'':{'entityTypes':{'A::B':{}}}}]" ∷ codes "[{'':{'commonTypes':{'':'Bool'}}}]" ∷ []) ≡ true }
    ensures namespace { takes (namespace_read (codes "A")) (codes "{}" ∷ codes "{'entityTypes':{'User':{'enum':['a']}}}" ∷ []) ≡ true }
    ensures no_namespaces { refuses (namespace_read (codes "A")) (codes "null" ∷ codes "{'entityTypes':null}" ∷ codes "{'commonTypes':{'T':{}}}" ∷ []) ≡ true }
{}

/// The parts of a scope.
pub fn worked_scopes()
    ensures eq { reads_as scope_read (codes "{'eq':['User','a']}") ≡ Some (exactly (named user_a)) }
    ensures slot { reads_as scope_read (codes "{'eq':'?'}") ≡ Some (exactly own_slot) }
    ensures is_in { reads_as scope_read (codes "{'in':'?'}") ≡ Some (inside own_slot) }
    ensures is_kind { reads_as scope_read (codes "{'is':'A::User'}") ≡ Some (of_kind (name_under (codes "A") (codes "User"))) }
    ensures is_kind_in { reads_as scope_read (codes "{'is':'User','in':['User','a']}") ≡ Some (of_kind_inside (name (codes "User")) (named user_a)) }
    ensures no_scopes { refuses scope_read (codes "{}" ∷ codes "null" ∷ codes "{'eq':['User','a'],'in':'?'}" ∷ codes "{'eq':'?','is':'User'}" ∷ codes "{'eq':['User']}" ∷ codes "{'in':[['User','a']]}" ∷ codes "{'is':'__cedar'}" ∷ codes "{'is':'?'}" ∷ codes "{'is':'User','in':null}" ∷ codes "{'eq':'?principal'}" ∷ codes "'?'" ∷ []) ≡ true }
    ensures target { reads_as target_read (codes "'?'") ≡ Some own_slot }
    ensures named { reads_as target_read (codes "['User','a']") ≡ Some (named user_a) }
    ensures no_targets { refuses target_read (codes "'?resource'" ∷ codes "['__cedar','a']" ∷ codes "{}" ∷ []) ≡ true }
    ensures action { reads_as action_scope_read (codes "{'eq':['Action','view']}") ≡ Some (exactly_action view) }
    ensures actions { reads_as action_scope_read (codes "{'in':[['Action','view']]}") ≡ Some (inside_actions (view ∷ [])) }
    ensures no_action { reads_as action_scope_read (codes "{'in':[]}") ≡ Some (inside_actions []) }
    ensures no_action_scopes { refuses action_scope_read (codes "{}" ∷ codes "{'in':['Action','view']}" ∷ codes "{'eq':'?'}" ∷ codes "{'is':'Action'}" ∷ codes "{'eq':['Action','view'],'in':[]}" ∷ []) ≡ true }
{}

/// Policies. What lacks is any, `true` or unbound.
pub fn worked_policies()
    ensures least { reads_as (policy_read first) (codes "{'id':'p','effect':'permit'}") ≡ Some plain_policy }
    ensures forbids { reads_as (policy_read first) (codes "{'id':'p','effect':'forbid'}") ≡ Some (record plain_policy { effect = forbid }) }
    ensures parts { reads_as (policy_read first) (codes "{'id':'p','effect':'permit','principal':{'in':'?'},'action':{'in':[]},'resource':{'is':'Doc'}}") ≡ Some (record plain_policy { principal = inside own_slot; action = inside_actions []; resource = of_kind (name (codes "Doc")) }) }
    ensures body { reads_as (policy_read first) (codes "{'id':'p','effect':'permit','when':['less',1,2]}") ≡ Some (record plain_policy { body = Some (binary less (lit (long (pos 1))) (lit (long (pos 2)))) }) }
    ensures rem_body { reads_as (policy_read second) (codes "{'id':'p','effect':'permit','when':['rem',1,2]}") ≡ Some (record plain_policy { body = Some (binary remainder (lit (long (pos 1))) (lit (long (pos 2)))) }) }
    ensures no_rem_body { refuses (policy_read first) (codes "{'id':'p','effect':'permit','when':['rem',1,2]}" ∷ []) ≡ true }
    ensures written_body { reads_as (policy_read first) (codes "{'id':'p','effect':'permit','when':true}") ≡ Some (record plain_policy { body = Some (lit (truth true)) }) }
    ensures link { reads_as (policy_read first) (codes "{'id':'p','effect':'permit','link':{'?principal':['User','a']}}") ≡ Some (record plain_policy { bindings = record no_bindings { principal = Some user_a } }) }
    ensures resource_link { reads_as bindings_read (codes "{'?resource':['User','a']}") ≡ Some (record no_bindings { resource = Some user_a }) }
    ensures no_link { reads_as bindings_read (codes "{}") ≡ Some no_bindings }
    ensures no_links { refuses bindings_read (codes "{'?principal':null}" ∷ codes "{'principal':['User','a']}" ∷ codes "{'?action':['Action','view']}" ∷ codes "[]" ∷ codes "{'?principal':'?'}" ∷ []) ≡ true }
    ensures no_policies { refuses (policy_read first) (codes "{'id':'p'}" ∷ codes "{'effect':'permit'}" ∷ codes "{'id':1,'effect':'permit'}" ∷ codes "{'id':'p','effect':'allow'}" ∷ codes "{'id':'p','effect':'permit','more':1}" ∷ codes "{'id':'p','effect':'permit','principal':{}}" ∷ codes "{'id':'p','effect':'permit','principal':null}" ∷ codes "{'id':'p','effect':'permit','action':{'eq':'?'}}" ∷ codes "{'id':'p','effect':'permit','resource':{'eq':['Doc','d'],'in':'?'}}" ∷ codes "{'id':'p','effect':'permit','when':null}" ∷ codes "{'id':'p','effect':'permit','when':['has',['var','context']]}" ∷ codes "{'id':'p','effect':'permit','link':null}" ∷ codes "[]" ∷ []) ≡ true }
{}
