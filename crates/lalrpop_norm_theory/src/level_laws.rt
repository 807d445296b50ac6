//! Laws of the pass of the normalizer that gives each level of a rule a rule of its own.
//!
//! The module has no code but laws. The definitions stand in `specs/`: `LeveledGrammar` (the grammar after the pass), `LevelNames`
//! (which names levels have), `LevelFaults` (what may be wrong with levels) and `LevelLaws` (what the laws say).

ghost use Rattle.lalrpop_norm_theory.specs.LevelLaws.{LevelsStayResolved, NoLevelsAreLeft, LoosestAloneIsPublic, WithoutLevelsStays};
ghost use Rattle.lalrpop_norm_theory.specs.LevelLaws.{LevelsKeepExpansion, LevelsInlineAlike, LeveledNamesArePacked, SidesCount, ReadTellsOwnRules};

/// The law of what levels leave: names stay resolved, no levels are left, of a rule's levels the loosest alone is as visible as
/// the rule, and a grammar without levels stays as it is.
pub fn levels_leave_resolved()
    ensures resolved { LevelsStayResolved }
    ensures flat { NoLevelsAreLeft }
    ensures public { LoosestAloneIsPublic }
    ensures stays { WithoutLevelsStays }
{}

/// The law of what levels keep: the expansion is the same under the names of the levels, and so are the nonterminals that are
/// inlined. What is left of a grammar that was read tells of each alternative the rule in which it stands, on which this rests.
pub fn levels_keep_expansion()
    ensures kept { LevelsKeepExpansion }
    ensures inlined { LevelsInlineAlike }
    ensures told { ReadTellsOwnRules }
{}

/// The law of names: the names of the levels' rules leave no number out.
pub fn levels_name_rules()
    ensures { LeveledNamesArePacked }
{}

/// The law of sides: a side that is one of the four counts as it is written.
pub fn sides_count()
    ensures { SidesCount }
{}
