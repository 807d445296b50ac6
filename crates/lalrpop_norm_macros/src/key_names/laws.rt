//! What names of keys rest on, and what they are once macros are expanded.

ghost use Rattle.lalrpop_norm_macros.specs.NameLaws.{KeyNamesNameExpansions, LeveledGrammarsAreNameable, LeveledGrammarsLeavePrefix};
ghost use Rattle.lalrpop_norm_macros.specs.NameLaws.{PlainGrammarsAreNameable};

/// The law of what names of keys rest on: the pass over levels gives it, and a grammar without tildes has it. Names of levels leave
/// the prefix, where those of rules do.
pub fn grammars_are_nameable()
    ensures leveled { LeveledGrammarsAreNameable }
    ensures plain { PlainGrammarsAreNameable }
    ensures prefix { LeveledGrammarsLeavePrefix }
{}

/// The law of names: where macros are expanded under the names of the keys, these and the prefix are names of the expansion.
pub fn key_names_name_expansions()
    ensures { KeyNamesNameExpansions }
{}
