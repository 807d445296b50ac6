//! The law on inlining a lowered grammar: its productions are the labelled ones, all and no other, each label once.
//!
//! The module has no code but the law. What is told of `inline` speaks of steps and of records. Here the records give each
//! production after inlining a label, the tree of choices that it was made of.

ghost use Rattle.lalrpop_lr1_inline.specs.InlinedLabels.{ActionsHaveLabels, InlinedHaveLabels};

/// The law that what `inline` makes of a grammar is its productions with the inlined nonterminals inlined, all and no other,
/// each label once. Each production of the grammar has an action of its own; the names of its nonterminals ascend, as they do
/// in each map. The label of a production is told by the records of its action: what stands in them isn't looked into where
/// it was given. Where each production's action is one of the grammar's, as `inline` asks, the actions have such labels.
pub fn inlined_have_labels()
    ensures labels { InlinedHaveLabels }
    ensures exist { ActionsHaveLabels }
{}
