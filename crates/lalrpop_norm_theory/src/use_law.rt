//! Laws of keys in order of first use: rules that are no macros as they are written, and then each key where one of those before it
//! uses it first.
//!
//! The module has no code but laws. The definitions stand in `specs/`: `FirstUse` (things in order of first use), `UsedKeys` (what a
//! key of a grammar uses, and its keys in that order), `NamesByUse` (names that are given in it) and `UseLaws` (what the laws say).

ghost use Rattle.lalrpop_norm_theory.specs.UseLaws.{KeysByUseAreAll, KeysHaveOneOrder, KeysUseOneList, NamesByUseAreOne};
ghost use Rattle.lalrpop_norm_theory.specs.UseLaws.{DroppedNamesByUseGoBack, LeveledNamesByUseGoBack, ResolvedNamesByUseGoBack};

/// The law of order: a key uses one list of keys, so the keys of a grammar have one order of first use, and each nonterminal of the
/// expansion that is no start is among them.
pub fn keys_have_one_order()
    ensures uses { KeysUseOneList }
    ensures order { KeysHaveOneOrder }
    ensures all { KeysByUseAreAll }
{}

/// The law of names: where no two rules share a name, an expansion has one naming in which numbers are given in order of first use.
pub fn names_by_use_are_one()
    ensures { NamesByUseAreOne }
{}

/// The law of names and features: names that are given by use in what is left of a grammar that was read, and in the grammar whose names
/// are resolved, are so in the grammar before.
pub fn names_by_use_go_back()
    ensures dropped { DroppedNamesByUseGoBack }
    ensures resolved { ResolvedNamesByUseGoBack }
{}

/// The law of names and levels: so are those that are given by use in the grammar in which each level has a rule of its own.
pub fn leveled_names_by_use_go_back()
    ensures { LeveledNamesByUseGoBack }
{}
