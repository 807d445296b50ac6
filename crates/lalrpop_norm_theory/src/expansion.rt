//! What the passes of the normalizer keep and give, in terms of the expansion of a grammar.
//!
//! The module has no code but laws. The definitions stand in `specs/`: `Between` (what a grammar stands for between two
//! passes), `Premises` (how a grammar that was read looks, and what the passes before have made of it), `Depth` (how deep
//! macro calls stand), `Rounds` (calls found by least depth), `Same` (what a pass keeps), `Keys` (texts and names of
//! nonterminals), `Productions` (the lowered productions), `Rows` (productions numbered as they stand), `Inlined` (which
//! nonterminals are inlined), `Types` (grounded types), `KeyRules` (a grammar in which each call, repeat, group and lookaround
//! has a rule of its own), `KeyTables` (the finished table of keys), `LevelRules` (symbols under the names of levels), and
//! `Laws` and `PassLaws` (what the laws say). The examples in `proofs/` show each with what it refuses.

ghost use Rattle.lalrpop_norm_theory.specs.Laws.{RulesAreLeft, BaresAreLeft, SameExpansionsCompose, AlikeHaveSameExpansion, ProductionsGoBack, ProductionsAreNumbered, RoundsBegin, RoundsDeepen, LeftAreTooDeep, AllCallsAreFound, NoneIsTooDeep, StepsAreGrounded, TablesAreGrounded, TablesHaveAll, LackingCallsAreUntyped, CallsHaveOneType};
ghost use Rattle.lalrpop_norm_theory.specs.PassLaws.{MacroExpansionsKeep, MacroExpansionsInlineAlike, TablesExpandMacros, ChainsAreReached, LeveledSymbolsClose, LeveledSidesClose};

/// The law of what is disabled: what is left of a grammar that was read stands for its enabled rules and its mapped bare names.
pub fn enabled_rules_are_left()
    ensures rules { RulesAreLeft }
    ensures bares { BaresAreLeft }
{}

/// The law of passes that follow one another: what each keeps, both keep. A pass that changes no production and no root
/// keeps the expansion. The productions of what a pass gave are those of what it got, under the names of both.
pub fn passes_compose()
    ensures composed { SameExpansionsCompose }
    ensures alike { AlikeHaveSameExpansion }
    ensures productions { ProductionsGoBack }
{}

/// The law of lowering: where the labelled productions of an expansion are numbered as they stand, each nonterminal's in the
/// order of its choices, there is one production and one origin for each label, and an action of its own for each.
pub fn productions_are_numbered()
    ensures { ProductionsAreNumbered }
{}

/// The law of calls found by least depth: each round leads one deeper; what is left at the limit is too deep; where nothing
/// is left, every call is found and none is too deep.
pub fn rounds_find_calls()
    ensures begin { RoundsBegin }
    ensures deepen { RoundsDeepen }
    ensures left { LeftAreTooDeep }
    ensures found { AllCallsAreFound }
    ensures none { NoneIsTooDeep }
{}

/// The law of tables of types: what derivations put into a table is grounded, and a table that agrees with the grammar has
/// every grounded type, so that a call has one at most.
pub fn tables_have_types()
    ensures grounded { StepsAreGrounded }
    ensures sound { TablesAreGrounded }
    ensures complete { TablesHaveAll }
    ensures untyped { LackingCallsAreUntyped }
    ensures once { CallsHaveOneType }
{}

/// The law of expanded macros: where each key has its rule, and no other rule is there, the expansion is the same under the
/// names of the keys, and the same nonterminals are inlined. A finished table of keys, with all calls found, has just such
/// rules.
pub fn macros_keep_expansion()
    ensures kept { MacroExpansionsKeep }
    ensures inlined { MacroExpansionsInlineAlike }
    ensures table { TablesExpandMacros }
    ensures reached { ChainsAreReached }
{}

/// The law of levels: a symbol whose occurrences are renamed by their numbers closes, in the grammar where each level has a
/// rule of its own, to its closed symbol under the names of the levels.
pub fn levels_keep_symbols()
    ensures symbol { LeveledSymbolsClose }
    ensures side { LeveledSidesClose }
{}
