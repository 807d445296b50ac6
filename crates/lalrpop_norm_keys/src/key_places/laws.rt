//! What the spans of keys are in the grammar that is written.

ghost use Rattle.lalrpop_norm_keys.specs.KeySpanLaws.{KeyPlacesStayBetween, KeySpansArePlaces};

/// The law of the spans of keys: where a table has all keys of a grammar, each repeat, group and lookaround is met where its span says.
pub fn key_spans_are_places()
    ensures { KeySpansArePlaces }
{}

/// The law of places between passes: what is met there under features that disable nothing is met there in the grammar between two
/// passes.
pub fn key_places_stay_between()
    ensures { KeyPlacesStayBetween }
{}
