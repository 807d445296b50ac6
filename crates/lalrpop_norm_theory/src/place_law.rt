//! Laws of the places of macro calls: where a call is told after the passes over what is disabled, names and levels, it stands in
//! the written grammar.
//!
//! The module has no code but laws. The definitions stand in `specs/`: `CallPlaces` (the innermost symbol that has a call),
//! `WrittenPlaces` (where a call stands in the written grammar) and `PlaceLaws` (what the laws say).

ghost use Rattle.lalrpop_norm_theory.specs.PlaceLaws.{PlacedCallsAreMade, LevelsKeepPlaces, ResolvingKeepsPlaces};
ghost use Rattle.lalrpop_norm_theory.specs.PlaceLaws.{DroppingKeepsPlaces, DeepCallsAreWritten};

/// The law of places: what has a place in a call, or in a rule that is no macro, is a call that occurs there.
pub fn placed_calls_are_made()
    ensures { PlacedCallsAreMade }
{}

/// The law of levels: a place in the grammar in which each level has a rule of its own goes back to the grammar before. A pass to
/// the next tighter level stands at its rule.
pub fn levels_keep_places()
    ensures { LevelsKeepPlaces }
{}

/// The law of names and features: so does a place in the grammar whose names are resolved, and one in what is left under the
/// features.
pub fn names_keep_places()
    ensures resolved { ResolvingKeepsPlaces }
    ensures dropped { DroppingKeepsPlaces }
{}

/// The law of calls that are too deep: where one is told with its place after these passes, one is too deep in the written
/// grammar, and stands there.
pub fn deep_calls_are_written()
    ensures { DeepCallsAreWritten }
{}
