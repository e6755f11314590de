//! The values of a type.

ghost use Rattle.std.specs.Prelude.{◌≡◌, ◌∷◌, [], ◌&&◌, not, is_some, map, option_map, MatchOption};
ghost use Rattle.std.specs.Rc.{rc_str_bytes};
ghost use Rattle.cedar_expr_model.specs.Records.{fields};
ghost use Rattle.cedar_expr_model.specs.Value.{prim, set_of, record_of, extension, field_of};
ghost use Rattle.cedar_expr_leaves.specs.Literals.{literal_of};
ghost use Rattle.cedar_expr_values.specs.Values.{bare, bares, bare_pair};
ghost use Rattle.cedar_schema_model.specs.HasType.{has_type, have_type, literal_has_type, has_required, field_fits, fields_fit};
ghost use Rattle.cedar_schema_model.specs.Types.{bool_type, long_type, string_type, attribute_named};
ghost use Rattle.cedar_schema_types.specs.Kinds.{bool_type_of, openness_of};
ghost use Rattle.cedar_schema_types.specs.Unions.{entities_of};
ghost use Rattle.cedar_schema_types.specs.Types.{type_of, attributes_of, attribute_of};

use cedar_expr_values::{ExtensionValue, Literal, Set, Value, ValueKind};
use cedar_schema_types::{AttributeType, Attributes, BoolType, EntityKind, OpenTag, Type};
use std::collections::{BTreeMap, btree_map};
use std::rc::{Rc, RcStr};

// The fields that are left.
struct Fields<'a, X: ExtensionValue> {
    left: btree_map::Iter<'a, RcStr, Value<X>>,
}

impl<'a, X: ExtensionValue> Drop for Fields<'a, X> {
    fn drop(self) {
        let Fields { left: _ } = self;
    }
}

/// Whether the value is of the type.
pub fn typecheck_value<X: ExtensionValue>(ty: &Type, value: &Value<X>) -> bool
    ensures { result ≡ has_type (bare X.seen value.now) (type_of ty.now) }
{
    has_type(value, ty)
}

/// Whether the literal is of the type.
pub fn typecheck_literal(ty: &Type, literal: &Literal) -> bool
    ensures { result ≡ literal_has_type (literal_of literal.now) (type_of ty.now) }
{
    is_literal_of(literal, ty)
}

// Whether the value is of the type.
#[cycle(values)]
fn has_type<X: ExtensionValue>(value: &Value<X>, ty: &Type) -> bool
    ensures { result ≡ has_type (bare X.seen value.now) (type_of ty.now) }
{
    match value.value_kind() {
        ValueKind::Lit(literal) => is_literal_of(literal, ty),
        ValueKind::Set(members) => is_set_of(members, ty),
        ValueKind::Record(pairs) => is_record_of(pairs.as_map(), ty),
        ValueKind::ExtensionValue(value) => is_extension_of(value, ty),
    }
}

// Whether the set of these members is of the type.
#[cycle(values)]
fn is_set_of<X: ExtensionValue>(members: &Set<X>, ty: &Type) -> bool
    ensures { result ≡ has_type (set_of (bares X.seen members.now)) (type_of ty.now) }
{
    match ty {
        Type::Set { element_type: None } => true,
        Type::Set {
            element_type: Some(element),
        } => have_type(members, element),
        Type::Never
        | Type::Bool(_)
        | Type::Long
        | Type::String
        | Type::Entity(_)
        | Type::Record { .. }
        | Type::ExtensionType { .. } => false,
    }
}

// Whether each member is of the type.
#[cycle(values)]
fn have_type<X: ExtensionValue>(members: &Set<X>, ty: &Type) -> bool
    ensures { result ≡ have_type (bares X.seen members.now) (type_of ty.now) }
{
    for member in members.iter() {
        if !has_type(member, ty) {
            return false;
        }
    }
    true
}

// Whether the record of these fields is of the type.
#[cycle(values)]
fn is_record_of<X: ExtensionValue>(pairs: &BTreeMap<RcStr, Value<X>>, ty: &Type) -> bool
    ensures { result ≡ has_type (record_of (fields (map (bare_pair X.seen) pairs.now.entries))) (type_of ty.now) }
{
    match ty {
        Type::Record {
            attrs,
            open_attributes,
        } => has_required(attrs, pairs) && fields_fit(pairs, attrs, *open_attributes),
        Type::Never
        | Type::Bool(_)
        | Type::Long
        | Type::String
        | Type::Entity(_)
        | Type::Set { .. }
        | Type::ExtensionType { .. } => false,
    }
}

// Whether each field is of the type that is declared of it, or may be there without.
#[cycle(values)]
fn fields_fit<X: ExtensionValue>(
    pairs: &BTreeMap<RcStr, Value<X>>,
    attrs: &Attributes,
    tag: OpenTag,
) -> bool
    ensures { result ≡ fields_fit (attributes_of attrs.now) (openness_of tag) (fields (map (bare_pair X.seen) pairs.now.entries)) }
{
    let mut rest = fields_of(pairs);
    while let Some((name, value)) = next_of(&mut rest) {
        if !field_fits(value, declared_of(attrs, name), tag) {
            return false;
        }
    }
    true
}

// Whether the field is of the type that is declared of it, or may be there without.
#[cycle(values)]
fn field_fits<X: ExtensionValue>(
    value: &Value<X>,
    declared: Option<&AttributeType>,
    tag: OpenTag,
) -> bool
    ensures { result ≡ field_fits (openness_of tag) (has_type (bare X.seen value.now)) (option_map (λ d. attribute_of d.now) declared.entry) }
{
    match declared {
        Some(declared) => has_type(value, &declared.attr_type),
        None => !tag.is_closed(),
    }
}

// All fields are left.
fn fields_of<'a, X: ExtensionValue>(pairs: &'a BTreeMap<RcStr, Value<X>>) -> Fields<'a, X>
    ensures { result.left ≡ pairs.entry.now.entries }
{
    Fields { left: pairs.iter() }
}

// The first of the fields that are left, which then isn't one of these any more.
fn next_of<'a, X: ExtensionValue>(fields: &mut Fields<'a, X>) -> Option<(&'a RcStr, &'a Value<X>)>
    ensures { MatchOption result (fields.old.left ≡ []) (λ f. fields.old.left ≡ (f.0.now, f.1.now) ∷ fields.new.left) }
{
    fields.left.next()
}

// What is declared of the attribute of this name.
fn declared_of<'a>(attrs: &'a Attributes, name: &RcStr) -> Option<&'a AttributeType>
    ensures { option_map (λ d. attribute_of d.now) result ≡ attribute_named (rc_str_bytes name.now) (attributes_of attrs.entry.now) }
{
    attrs.get_attr(name.as_str())
}

// Whether there is a field for each required attribute.
fn has_required<X: ExtensionValue>(attrs: &Attributes, pairs: &BTreeMap<RcStr, Value<X>>) -> bool
    ensures { result ≡ has_required (attributes_of attrs.now) (fields (map (bare_pair X.seen) pairs.now.entries)) }
{
    for (name, declared) in attrs.iter() {
        if lacks(pairs, name.as_str(), declared) {
            return false;
        }
    }
    true
}

// Whether the attribute is required and there is no field for it.
fn lacks<X: ExtensionValue>(
    pairs: &BTreeMap<RcStr, Value<X>>,
    name: &str,
    declared: &AttributeType,
) -> bool
    ensures { result ≡ (declared.now.is_required && not (is_some (field_of name.now (fields (map (bare_pair X.seen) pairs.now.entries))))) }
{
    declared.is_required && !has_field(pairs, name)
}

// Whether there is a field of this name.
fn has_field<X: ExtensionValue>(pairs: &BTreeMap<RcStr, Value<X>>, name: &str) -> bool
    ensures { result ≡ is_some (field_of name.now (fields (map (bare_pair X.seen) pairs.now.entries))) }
{
    pairs.contains_key(name)
}

// Whether the literal is of the type.
fn is_literal_of(literal: &Literal, ty: &Type) -> bool
    ensures { result ≡ has_type (prim (literal_of literal.now)) (type_of ty.now) }
{
    match ty {
        Type::Bool(kind) => is_bool_of(literal, *kind),
        Type::Long => is_long(literal),
        Type::String => is_text(literal),
        Type::Entity(kind) => is_entity_of(literal, kind),
        Type::Never | Type::Set { .. } | Type::Record { .. } | Type::ExtensionType { .. } => false,
    }
}

// Whether the extension value is of the type.
fn is_extension_of<X: ExtensionValue>(value: &Rc<X>, ty: &Type) -> bool
    ensures { result ≡ has_type (extension (X.seen value.now.value).kind (X.seen value.now.value).key) (type_of ty.now) }
{
    match ty {
        Type::ExtensionType { name } => value.typename().same(name),
        Type::Never
        | Type::Bool(_)
        | Type::Long
        | Type::String
        | Type::Entity(_)
        | Type::Set { .. }
        | Type::Record { .. } => false,
    }
}

// Whether the literal is a truth value of this type.
fn is_bool_of(literal: &Literal, kind: BoolType) -> bool
    ensures { result ≡ literal_has_type (literal_of literal.now) (bool_type (bool_type_of kind)) }
{
    match literal {
        Literal::Bool(b) => kind.has(*b),
        Literal::Long(_) | Literal::String(_) | Literal::EntityUID(_) => false,
    }
}

// Whether the literal is a whole number.
fn is_long(literal: &Literal) -> bool
    ensures { result ≡ literal_has_type (literal_of literal.now) long_type }
{
    match literal {
        Literal::Long(_) => true,
        Literal::Bool(_) | Literal::String(_) | Literal::EntityUID(_) => false,
    }
}

// Whether the literal is a text.
fn is_text(literal: &Literal) -> bool
    ensures { result ≡ literal_has_type (literal_of literal.now) string_type }
{
    match literal {
        Literal::String(_) => true,
        Literal::Bool(_) | Literal::Long(_) | Literal::EntityUID(_) => false,
    }
}

// Whether the literal is an entity of this type.
fn is_entity_of(literal: &Literal, kind: &EntityKind) -> bool
    ensures { result ≡ literal_has_type (literal_of literal.now) (entities_of kind.now) }
{
    match literal {
        Literal::EntityUID(uid) => kind.contains(uid),
        Literal::Bool(_) | Literal::Long(_) | Literal::String(_) => false,
    }
}
