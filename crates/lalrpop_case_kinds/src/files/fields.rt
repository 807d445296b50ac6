//! What a case says under its keys, lent by the value that its file is. Whether each key is known, no key that has to be there is missing,
//! and what stands under each has its form, is seen once, so that asking for it needs no second look.

use anyhow::{Result, bail};
use serde_json::{Map, Value};

/// The form of what stands under a key.
#[derive(Clone, Copy)]
pub enum Form {
    /// A text.
    Text,
    /// A number from 0 on.
    Number,
    /// A list.
    List,
    /// Any value.
    Any,
}

impl Form {
    /// Whether the value has the form.
    fn is_of(self, value: &Value) -> bool {
        match self {
            Form::Text => value.as_str().is_some(),
            Form::Number => value.as_u64().is_some(),
            Form::List => value.as_array().is_some(),
            Form::Any => true,
        }
    }
}

/// A key, and the form of what stands under it.
pub type Key = (&'static str, Form);

/// The form of what stands under the key of that name, where it is one of these.
fn form_among(keys: &[Key], name: &str) -> Option<Form> {
    for (key, form) in keys {
        if *key == name {
            return Some(*form);
        }
    }
    None
}

/// Sees that the key is one of these, and that the value has its form.
fn see_member(needed: &[Key], others: &[Key], key: &str, value: &Value) -> Result<()> {
    match form_among(needed, key).or(form_among(others, key)) {
        Some(form) if form.is_of(value) => Ok(()),
        Some(_) => bail!("another form stands under the key {key}"),
        None => bail!("the key {key} is unknown"),
    }
}

/// The members of an object.
#[derive(Clone, Copy)]
pub struct Fields<'v> {
    members: &'v Map<String, Value>,
}

impl<'v> Fields<'v> {
    /// Those of the value, which has all needed keys and may have the others.
    ///
    /// # Errors
    ///
    /// The value is no object, lacks a needed key, has one that is none of these, or under one a value of another form.
    pub fn of(value: &'v Value, needed: &[Key], others: &[Key]) -> Result<Fields<'v>> {
        let fields = Fields {
            members: members_of(value)?,
        };
        for (key, value) in fields.members.iter() {
            see_member(needed, others, key.as_str(), value)?;
        }
        for (key, _) in needed {
            fields.value(key)?;
        }
        Ok(fields)
    }

    /// The value under the key, where there is one.
    pub fn get(&self, key: &str) -> Option<&'v Value> {
        self.members.get(key)
    }

    /// The value under the key.
    ///
    /// # Errors
    ///
    /// There is none.
    pub fn value(&self, key: &str) -> Result<&'v Value> {
        match self.get(key) {
            Some(value) => Ok(value),
            None => bail!("the key {key} is missing"),
        }
    }

    /// The text under the key, where there is one.
    pub fn text_if(&self, key: &str) -> Option<&'v str> {
        match self.get(key) {
            Some(value) => value.as_str(),
            None => None,
        }
    }

    /// The text under the key, empty where there is none.
    pub fn text(&self, key: &str) -> &'v str {
        self.text_if(key).unwrap_or("")
    }

    /// The number under the key, where there is one.
    pub fn number_if(&self, key: &str) -> Option<u64> {
        match self.get(key) {
            Some(value) => value.as_u64(),
            None => None,
        }
    }

    /// The number under the key, or the usual one where there is none.
    pub fn number(&self, key: &str, usual: u64) -> u64 {
        self.number_if(key).unwrap_or(usual)
    }

    /// The list under the key, where there is one.
    pub fn list_if(&self, key: &str) -> Option<&'v [Value]> {
        match self.get(key) {
            Some(value) => elements_of(value),
            None => None,
        }
    }

    /// The list under the key, empty where there is none.
    pub fn list(&self, key: &str) -> &'v [Value] {
        self.list_if(key).unwrap_or(&[])
    }
}

fn members_of(value: &Value) -> Result<&Map<String, Value>> {
    match value.as_object() {
        Some(members) => Ok(members),
        None => bail!("no object"),
    }
}

/// The elements of the list that the value is, where it is one.
fn elements_of(value: &Value) -> Option<&[Value]> {
    match value.as_array() {
        Some(values) => Some(values.as_slice()),
        None => None,
    }
}

/// The one member of the object: what is asked for, and of what.
pub fn only_member(value: &Value) -> Result<(&str, &Value)> {
    let mut members = members_of(value)?.iter();
    match (members.next(), members.next()) {
        (Some((key, value)), None) => Ok((key.as_str(), value)),
        _ => bail!("not one member"),
    }
}

/// The text that the value is.
pub fn text_of(value: &Value) -> Result<&str> {
    match value.as_str() {
        Some(text) => Ok(text),
        None => bail!("no text"),
    }
}

/// The number that the value is.
pub fn number_of(value: &Value) -> Result<u64> {
    match value.as_u64() {
        Some(number) => Ok(number),
        None => bail!("no number"),
    }
}

/// The same as a count.
pub fn count_of(value: &Value) -> Result<usize> {
    Ok(usize::try_from(number_of(value)?)?)
}

/// The list that the value is.
pub fn list_of(value: &Value) -> Result<&[Value]> {
    match elements_of(value) {
        Some(values) => Ok(values),
        None => bail!("no list"),
    }
}
