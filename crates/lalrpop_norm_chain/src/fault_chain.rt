//! Laws of the faults that the passes of the normalizer tell: what is told of the grammar that a pass got stands in the written
//! grammar, with the same span, and where no pass tells one, none stands.
//!
//! The module has no code but laws. The definitions stand in `specs/`: `MadeConditions` (conditions of the calls that are made, at
//! each level), `TokenFaults` (what is wrong with literals), `WrittenTypeFaults` (what is wrong with types), `StandingFaults`
//! (which faults stand, each where none of an earlier pass does) and `FaultLaws` (what the laws say). Faults of the first pass
//! and of names are told of the written grammar itself, or of what is left of it, so they need no law.

ghost use Rattle.lalrpop_norm_chain.specs.FaultLaws.{LevelFaultsStand, ArityFaultsStand, DepthFaultsStand, ConditionFaultsStand};
ghost use Rattle.lalrpop_norm_chain.specs.FaultLaws.{ConditionLimitsStand, TokenFaultsStand, TypeFaultsStand};
ghost use Rattle.lalrpop_norm_chain.specs.FaultLaws.{RightLevelsAreRight, RightMacrosAreRight, RightTokensAreRight, NoFaultStands};

/// The law of faults of levels.
pub fn level_faults_stand()
    ensures told { LevelFaultsStand }
    ensures none { RightLevelsAreRight }
{}

/// The law of faults of macros: a wrong number of arguments, a call that is too deep, and a condition that can't be asked. The
/// condition limit comes only where a call that is made has an alternative under a search.
pub fn macro_faults_stand()
    ensures arity { ArityFaultsStand }
    ensures depth { DepthFaultsStand }
    ensures condition { ConditionFaultsStand }
    ensures limit { ConditionLimitsStand }
    ensures none { RightMacrosAreRight }
{}

/// The law of faults of tokens.
pub fn token_faults_stand()
    ensures told { TokenFaultsStand }
    ensures none { RightTokensAreRight }
{}

/// The law of faults of types. Two types that differ are told where two alternatives give them, so of no repeat and no group.
pub fn type_faults_stand()
    ensures { TypeFaultsStand }
{}

/// The law of grammars without faults: where each pass tells none, none stands in the written grammar.
pub fn no_fault_stands()
    ensures { NoFaultStands }
{}
