//! Laws that take what is said of a grammar after the passes over levels and over macros back to the written one: its types, its
//! chains of macro calls, and the names of its nonterminals.
//!
//! The module has no code but laws. The definitions stand in `specs/`: `ChainLaws` (chains of calls under the names of levels),
//! `KeyTypes` (which types the rules of keys declare) and `TypeLaws` (what the laws say of these), and in `specs/LevelLaws` of
//! `level_laws`, whose other laws say what the pass over levels keeps.

ghost use Rattle.lalrpop_norm_theory.specs.ChainLaws.{LevelsKeepChains, LevelsKeepDeepCalls};
ghost use Rattle.lalrpop_norm_theory.specs.TypeLaws.{MacroExpansionsKeepTypes, SameTypesCompose};
ghost use Rattle.lalrpop_norm_theory.specs.LevelLaws.{LevelsKeepTypes, LeveledNamesGoBack};

/// The law of types: what is in the expansion has the same grounded types under the names of the levels.
pub fn levels_keep_types()
    ensures { LevelsKeepTypes }
{}

/// The law of calls: chains of macro calls are the same under the names of the levels, and so are the calls that are too deep.
pub fn levels_keep_chains()
    ensures kept { LevelsKeepChains }
    ensures deep { LevelsKeepDeepCalls }
{}

/// The law of names: the names of the leveled grammar's expansion are names of the written one's, whose keys print with their
/// levels.
pub fn names_go_back()
    ensures { LeveledNamesGoBack }
{}

/// The law of the types of keys: where each rule of a key declares what its macro does, with parameters put in, or the type of a
/// repeat or of a lookaround, what is in the expansion has the same grounded types under the names of the keys.
pub fn macros_keep_types()
    ensures { MacroExpansionsKeepTypes }
{}

/// The law of passes that follow one another: types that each keeps, both keep.
pub fn types_compose()
    ensures { SameTypesCompose }
{}
