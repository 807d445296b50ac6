//! Laws of where repeats, groups and lookarounds are met: where one is met after the passes over what is disabled, names and levels,
//! it is met in the written grammar.
//!
//! The module has no code but laws. The definitions stand in `specs/`: `MetKeys` (the keys that are met in a symbol, each at the
//! innermost symbol that has it), `KeyPlaces` (where a key is met in a grammar) and `KeyPlaceLaws` (what the laws say).

ghost use Rattle.lalrpop_norm_keys.specs.MetKeys.{KeysAreMet};
ghost use Rattle.lalrpop_norm_keys.specs.KeyPlaceLaws.{PlacedKeysAreMade, MadeKeysArePlaced, LevelsKeepKeyPlaces};
ghost use Rattle.lalrpop_norm_keys.specs.KeyPlaceLaws.{ResolvingKeepsKeyPlaces, DroppingKeepsKeyPlaces, KeyPlacesAreWritten};

/// The law of keys that are met: beside what it closes to, a symbol meets the keys that stand there, all of them in order and no others.
pub fn keys_are_met()
    ensures { KeysAreMet }
{}

/// The law of places: what has a place is a nonterminal of the expansion, and each repeat, group and lookaround of the expansion has
/// a place.
pub fn keys_have_places()
    ensures made { PlacedKeysAreMade }
    ensures placed { MadeKeysArePlaced }
{}

/// The law of levels: a place in the grammar in which each level has a rule of its own goes back to the grammar before.
pub fn levels_keep_key_places()
    ensures { LevelsKeepKeyPlaces }
{}

/// The law of names and features: so does a place in the grammar whose names are resolved, and one in what is left under the
/// features.
pub fn names_keep_key_places()
    ensures resolved { ResolvingKeepsKeyPlaces }
    ensures dropped { DroppingKeepsKeyPlaces }
{}

/// The law of written places: where a repeat, a group or a lookaround is met after these passes, there it is met in the written
/// grammar.
pub fn key_places_are_written()
    ensures { KeyPlacesAreWritten }
{}
