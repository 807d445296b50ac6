//! Laws of lowering at the end of the chain of passes: what the passes before leave is what lowering rests on, what it promises is
//! what the chain asks of it, and so its answer is the normalized grammar of the written one.
//!
//! The module has no code but laws. The definitions stand in `specs/`: `LoweredViews` (what definitions see of what lowering made)
//! and `LoweredChains` (the laws, and the passes up to types).

ghost use Rattle.lalrpop_norm_chain.specs.LoweredChains.{ChainsAreLowerable, LoweredChainsNormalize, LoweringGoesOn};

/// The law of lowering in the chain: of a grammar that it may lower, what it promises is what the chain of passes asks of a lowered
/// grammar.
pub fn lowering_goes_on()
    ensures { LoweringGoesOn }
{}

/// The law of the passes before lowering: the grammar is expanded, alternatives stand by their origins, no rule's name begins with
/// the prefix, and each rule and each terminal has a type.
pub fn chains_are_lowerable()
    ensures { ChainsAreLowerable }
{}

/// The law of the whole chain: what lowering makes of what the passes before it made of a written grammar is the normalized grammar
/// of that one.
pub fn lowered_chains_normalize()
    ensures { LoweredChainsNormalize }
{}
