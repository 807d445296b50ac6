//! A table of keys, each once, in the order in which they were added.

ghost use Rattle.std.specs.Prelude.{◌≡◌, ◌++◌, ◌∷◌, [], ◌↔◌, IfOk, IsTrue, OnOk, Some, map, option_map, slice_get};
ghost use Rattle.std.specs.Prelude.{string_bytes, if◌then◌else◌};
ghost use Rattle.std.specs.Str.{bytes_eq};
ghost use Rattle.lalrpop_grammar_symbols.specs.Symbols.{Text};
ghost use Rattle.lalrpop_grammar_rules.specs.Views.{closed_view};
ghost use Rattle.lalrpop_norm_theory.specs.Keys.{flat_key_text};
ghost use Rattle.lalrpop_norm_keys.specs.Tables.{AddsKey, AddsKeys, IsKeyIndex, IsPlaceAmong, IsPlaceOfKey, kept_places};
ghost use Rattle.lalrpop_norm_keys.specs.Tables.{places_of_text, table_keys};

use crate::key_table::same::same_symbol;
use crate::key_table::texts::key_text;
use lalrpop_grammar_rules::closed::ClosedSymbol;
use lalrpop_grammar_symbols::List;
use std::alloc::{AllocError, Global};
use std::collections::HashMap;

/// Keys, each once, in the order in which they were added.
#[derive(Drop)]
pub struct KeyTable {
    keys: List<ClosedSymbol>,
    /// Where the keys of each text stand.
    places: HashMap<String, Vec<usize>>,
}

impl KeyTable {
    /// A table without keys.
    pub fn new(alloc: Global) -> KeyTable
        ensures empty { table_keys result ≡ [] }
        ensures indexed { IsKeyIndex result }
    {
        KeyTable {
            keys: List::new(alloc),
            places: HashMap::new(alloc),
        }
    }

    /// Its keys, in order.
    pub fn keys(&self) -> &[ClosedSymbol]
        ensures { map closed_view result.now ≡ table_keys self.now }
    {
        self.keys.as_slice()
    }

    /// The place of the key, where it is there.
    pub fn find(&self, alloc: Global, key: &ClosedSymbol) -> Result<Option<usize>, AllocError>
        requires { IsKeyIndex self.now }
        ensures { IfOk result (IsPlaceOfKey (table_keys self.now) (closed_view key.now)) }
    {
        let text = key_text(alloc, key)?;
        Ok(self.find_by_text(text.as_str(), key))
    }

    /// The place of the key of that text, where it is there.
    fn find_by_text(&self, text: &str, key: &ClosedSymbol) -> Option<usize>
        requires indexed { IsKeyIndex self.now }
        requires text { text.now ≡ flat_key_text (closed_view key.now) }
        ensures { IsPlaceOfKey (table_keys self.now) (closed_view key.now) result }
    {
        match self.places.get(text) {
            Some(places) => find_at(self.keys.as_slice(), places.as_slice(), key),
            None => None,
        }
    }

    /// Adds a copy of the key, unless it is there.
    pub fn add(&mut self, alloc: Global, key: &ClosedSymbol) -> Result<(), AllocError>
        requires { IsKeyIndex self.old }
        ensures indexed { OnOk result (IsKeyIndex self.new) }
        ensures added { OnOk result (AddsKey (table_keys self.old) (closed_view key.now) (table_keys self.new)) }
    {
        let text = key_text(alloc, key)?;
        match self.find_by_text(text.as_str(), key) {
            Some(_) => Ok(()),
            None => {
                self.put(text, key)?;
                Ok(())
            }
        }
    }

    /// Puts a copy of the key, which isn't there, behind the others.
    fn put(&mut self, text: String, key: &ClosedSymbol) -> Result<(), AllocError>
        requires places { (n : Text) → kept_places self.old.places n ≡ places_of_text n 0 (table_keys self.old) }
        requires text { string_bytes text ≡ flat_key_text (closed_view key.now) }
        ensures places { OnOk result ((n : Text) → kept_places self.new.places n ≡ places_of_text n 0 (table_keys self.new)) }
        ensures keys { OnOk result (table_keys self.new ≡ table_keys self.old ++ closed_view key.now ∷ []) }
    {
        let place = self.keys.len();
        add_place(&mut self.places, text, place)?;
        let copy = key.try_clone()?;
        self.keys.push(copy)?;
        Ok(())
    }

    /// Adds copies of the keys, one after another, each unless it is there.
    pub fn add_all(&mut self, alloc: Global, keys: &[ClosedSymbol]) -> Result<(), AllocError>
        requires { IsKeyIndex self.old }
        ensures indexed { OnOk result (IsKeyIndex self.new) }
        ensures added { OnOk result (AddsKeys (table_keys self.old) (map closed_view keys.now) (table_keys self.new)) }
    {
        for key in keys {
            self.add(alloc, key)?;
        }
        Ok(())
    }
}

/// Puts the place behind those of the text.
fn add_place(
    places: &mut HashMap<String, Vec<usize>>,
    text: String,
    place: usize,
) -> Result<(), AllocError>
    ensures { OnOk result ((n : Text) → kept_places places.new n
        ≡ (if bytes_eq n (string_bytes text) then kept_places places.old n ++ place ∷ [] else kept_places places.old n)) }
{
    places.entry(text)?.or_default().push(place)?;
    Ok(())
}

/// Whether the key stands at the place.
fn is_at(keys: &[ClosedSymbol], place: usize, key: &ClosedSymbol) -> bool
    ensures { IsTrue result ↔ (option_map closed_view (slice_get keys.now place) ≡ Some (closed_view key.now)) }
{
    match keys.get(place) {
        Some(found) => same_symbol(found, key),
        None => false,
    }
}

/// The first of the places at which the key stands.
fn find_at(keys: &[ClosedSymbol], places: &[usize], key: &ClosedSymbol) -> Option<usize>
    ensures { IsPlaceAmong keys.now places.now (closed_view key.now) result }
{
    for place in places {
        if is_at(keys, *place, key) {
            return Some(*place);
        }
    }
    None
}
