//! The values, and what can be seen of them.

ghost use Rattle.std.specs.Prelude.{◌≡◌, is_some, option_map, option_and_then};
ghost use Rattle.serde_json.specs.Find.{as_array, as_bool, as_null, as_number, as_object, as_str, as_u64, get, get_member};
ghost use Rattle.serde_json.specs.View.{number_view};
ghost use Rattle.lalrpop_json_document.specs.DocumentViews.{items_view, members_view, view};

use serde_json::Number;

/// The members of an object, in byte order of their keys, each key once.
pub type Members<'t> = Vec<(&'t str, JsonValue<'t>)>;

/// A JSON value, whose keys and strings are lent by the text that spells it.
#[derive(Drop)]
pub enum JsonValue<'t> {
    /// `null`.
    Null,
    /// `true` or `false`.
    Bool(bool),
    /// An integer of 64 bits, or a finite float.
    Number(Number),
    /// A string.
    String(&'t str),
    /// A list.
    Array(Vec<JsonValue<'t>>),
    /// An object.
    Object(Members<'t>),
}

impl<'t> JsonValue<'t> {
    /// Whether it is `null`.
    pub fn is_null(&self) -> bool
        ensures { result ≡ is_some (as_null (view self.now)) }
    {
        matches!(self, JsonValue::Null)
    }

    /// The `true` or `false` that it is.
    pub fn as_bool(&self) -> Option<bool>
        ensures { result ≡ as_bool (view self.now) }
    {
        match self {
            JsonValue::Bool(flag) => Some(*flag),
            _ => None,
        }
    }

    /// The number that it is.
    pub fn as_number(&self) -> Option<&Number>
        ensures { option_map (λ n. number_view n.now) result ≡ as_number (view self.now) }
    {
        match self {
            JsonValue::Number(number) => Some(number),
            _ => None,
        }
    }

    /// The whole number below 2^64 that it is.
    pub fn as_u64(&self) -> Option<u64>
        ensures { result ≡ option_and_then as_u64 (as_number (view self.now)) }
    {
        match self.as_number() {
            Some(number) => number.as_u64(),
            None => None,
        }
    }

    /// The string that it is.
    pub fn as_str(&self) -> Option<&'t str>
        ensures { option_map (λ s. s.now) result ≡ as_str (view self.now) }
    {
        match self {
            JsonValue::String(text) => Some(*text),
            _ => None,
        }
    }

    /// The list that it is.
    pub fn as_array(&self) -> Option<&Vec<JsonValue<'t>>>
        ensures { option_map (λ v. items_view v.now.items) result ≡ as_array (view self.now) }
    {
        match self {
            JsonValue::Array(items) => Some(items),
            _ => None,
        }
    }

    /// The members of the object that it is.
    pub fn as_object(&self) -> Option<&Members<'t>>
        ensures { option_map (λ m. members_view m.now.items) result ≡ as_object (view self.now) }
    {
        match self {
            JsonValue::Object(members) => Some(members),
            _ => None,
        }
    }

    /// The value at a key of the object that it is.
    pub fn get(&self, key: &str) -> Option<&JsonValue<'t>>
        ensures { option_map (λ v. view v.now) result ≡ get key.now (view self.now) }
    {
        match self {
            JsonValue::Object(members) => member_of(members, key),
            _ => None,
        }
    }
}

/// The value at a key.
fn member_of<'m, 't>(members: &'m Members<'t>, key: &str) -> Option<&'m JsonValue<'t>>
    ensures { option_map (λ v. view v.now) result ≡ get_member key.now (members_view members.now.items) }
{
    for (name, value) in members {
        if key == *name {
            return Some(value);
        }
    }
    None
}
