//! Laws of the passes of the normalizer one after the other: what each leaves of what the next ones rest on, and what the last one
//! gives, over the written grammar.
//!
//! The crate has no code but laws. The definitions stand in `specs/`: `PremiseLaws` (what passes leave), `UsedLiterals` (the
//! literals and entries of an expansion), `Actions` (what its productions do), `Lowered` (what definitions see of a lowered grammar),
//! `Chains` (the passes one after the other), `Normalized` (what a normalized grammar is) and `OneNormalized` (what a written
//! grammar leaves open of one).
#![tactic(auto)]

pub mod fault_chain;
pub mod lower_law;

ghost use Rattle.lalrpop_norm_chain.specs.PremiseLaws.{ReadNamesArePlain, ResolvedTellsOwnRules, NothingIsDisabled, NoRecoveryComesIn};
ghost use Rattle.lalrpop_norm_chain.specs.PremiseLaws.{PrefixStaysFree, KeysLeavePrefix, RulesStayInOrder, KeysStandInOrder};
ghost use Rattle.lalrpop_norm_chain.specs.PremiseLaws.{NoTokenizerIsMade};
ghost use Rattle.lalrpop_norm_chain.specs.Actions.{ProductionsDoOneThing};
ghost use Rattle.lalrpop_norm_chain.specs.Normalized.{ChainsNormalize};
ghost use Rattle.lalrpop_norm_chain.specs.OneNormalized.{NamesOfNormalizedAreOne, NormalizedAreOne};

/// The law of premises, from the reading to the levels: of a grammar that was read, names are such that levels can be named, and
/// each alternative tells a place of its own rule. When macros are expanded, no attribute asks for features, no symbol of error
/// recovery has come in, no name begins with the prefix where the first pass found none, alternatives stand by their origins, and
/// no tokenizer is there.
pub fn passes_leave_premises()
    ensures plain { ReadNamesArePlain }
    ensures told { ResolvedTellsOwnRules }
    ensures active { NothingIsDisabled }
    ensures recovery { NoRecoveryComesIn }
    ensures prefix { PrefixStaysFree }
    ensures order { RulesStayInOrder }
    ensures tokenizer { NoTokenizerIsMade }
{}

/// The law of premises once macros are expanded: no name begins with the prefix where none did before, and alternatives stand by
/// their origins where they did.
pub fn keys_leave_premises()
    ensures prefix { KeysLeavePrefix }
    ensures order { KeysStandInOrder }
{}

/// The law of actions: what a production of a written grammar's expansion does, its label tells.
pub fn productions_do_one_thing()
    ensures { ProductionsDoOneThing }
{}

/// The law of the chain: where each pass gives what it promises, the lowered grammar is the normalized one of the written
/// grammar, with what the features leave of it.
pub fn chains_normalize()
    ensures { ChainsNormalize }
{}

/// The law of normalized grammars: where no two rules share a name, the normalized grammars of a written one have the same names, and
/// once their repeats, groups and lookarounds stand at the same places, the same parts.
pub fn normalized_are_one()
    ensures names { NamesOfNormalizedAreOne }
    ensures parts { NormalizedAreOne }
{}
