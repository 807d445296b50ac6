//! JSON objects that are being written, one member after the other.

use crate::key::Key;
use serde_json::{Map, Value, put};
use std::alloc::{AllocError, Global};

/// The members of an object that is being written. `json!` would write all of this out wherever it stands, and all that it owns
/// across each `?`.
#[derive(Drop)]
pub struct JsonObject {
    pub(crate) alloc: Global,
    pub(crate) members: Map<String, Value>,
}

impl JsonObject {
    ghost use Rattle.std.specs.Prelude.{◌≡◌, OnOk, IfOk};
    ghost use Rattle.serde_json.specs.Data.{string, object, no_members, put as with_member};
    ghost use Rattle.serde_json.specs.View.{view, members_view};
    ghost use Rattle.lalrpop_json_values.specs.Key.{key_text};

    /// An object without members.
    pub fn new(alloc: Global) -> JsonObject
        ensures { members_view result.members.entries ≡ no_members }
    {
        JsonObject {
            alloc,
            members: Map::new(alloc),
        }
    }

    /// Puts the value under the key.
    ///
    /// # Errors
    ///
    /// Memory is refused.
    pub fn put(&mut self, key: Key, value: Value) -> Result<(), AllocError>
        ensures { OnOk result (members_view self.new.members.entries
            ≡ with_member (key_text key) (view value) (members_view self.old.members.entries)) }
    {
        put(&mut self.members, self.alloc, key.text(), value)
    }

    /// Puts the text under the key.
    ///
    /// # Errors
    ///
    /// Memory is refused.
    pub fn put_text(&mut self, key: Key, text: &str) -> Result<(), AllocError>
        ensures { OnOk result (members_view self.new.members.entries
            ≡ with_member (key_text key) (string text.now) (members_view self.old.members.entries)) }
    {
        self.put(key, Value::try_from_str(self.alloc, text)?)
    }

    /// The object as a value.
    pub fn into_value(self) -> Value
        ensures { view result ≡ object (members_view self.members.entries) }
    {
        Value::Object(self.members)
    }

    /// An object with this member alone.
    ///
    /// # Errors
    ///
    /// Memory is refused.
    pub fn of_one(alloc: Global, key: Key, value: Value) -> Result<Value, AllocError>
        ensures { IfOk result (λ made. view made ≡ object (with_member (key_text key) (view value) no_members)) }
    {
        let mut object = JsonObject::new(alloc);
        object.put(key, value)?;
        Ok(object.into_value())
    }

    /// An object with this text alone.
    ///
    /// # Errors
    ///
    /// Memory is refused.
    pub fn of_text(alloc: Global, key: Key, text: &str) -> Result<Value, AllocError>
        ensures { IfOk result (λ made. view made ≡ object (with_member (key_text key) (string text.now) no_members)) }
    {
        JsonObject::of_one(alloc, key, Value::try_from_str(alloc, text)?)
    }
}
