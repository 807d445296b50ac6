//! Which written trees a grammar admits, the expansion of a grammar, and the law that ties the two.
//!
//! The crate has no code but laws. The definitions stand in `specs/`: `Enabled` (which rules and alternatives hold
//! under the features), `Levels` (levels and sides), `Closing` (closed symbols), `Conditions`, `Admitting` (admitted
//! trees), `Sentences`, `Expansion` (labelled productions), `Derivations` (derivations and what they stand for) and
//! `OneToOne` (what the laws say). The examples in `proofs/` show each construct with a tree that is admitted and
//! near misses that aren't.
#![tactic(auto)]

pub mod labels;

ghost use Rattle.lalrpop_grammar.specs.WrittenGrammar.{Grammar};
ghost use Rattle.lalrpop_grammar_symbols.specs.Symbols.{Text};
ghost use Rattle.lalrpop_grammar_language.specs.OneToOne.{DerivationsAreAdmitted, DerivationsFromStartsAreAdmitted, AdmittedHaveDerivations, AdmittedFromStartsHaveDerivations, DerivationsAreUnique, DerivationsFromStartsAreUnique, LabelsHaveOneSide, LeavesFixTrees, TokensAreLeaves};
ghost use Rattle.lalrpop_grammar_language.specs.Enabled.{enabled_grammar};
ghost use Rattle.std.specs.Prelude.{Bool, List, Option};

/// The law that written trees and derivations are one to one, for every grammar, a faulty one too, and whatever a
/// search for patterns finds. Each derivation of a symbol stands for a written tree that is admitted for it. Each
/// admitted written tree has a derivation, over the same tokens up to their texts. No two derivations of a symbol stand
/// for one written tree. The same holds from a start.
pub fn trees_correspond()
    ensures admitted { (finds : Text → Text → Option Bool) (features : List Text) (g : Grammar) → DerivationsAreAdmitted (enabled_grammar finds features g) }
    ensures expanded { (finds : Text → Text → Option Bool) (features : List Text) (g : Grammar) → AdmittedHaveDerivations (enabled_grammar finds features g) }
    ensures once { (finds : Text → Text → Option Bool) (features : List Text) (g : Grammar) → DerivationsAreUnique (enabled_grammar finds features g) }
    ensures admitted_from { (finds : Text → Text → Option Bool) (features : List Text) (g : Grammar) → DerivationsFromStartsAreAdmitted (enabled_grammar finds features g) }
    ensures expanded_from { (finds : Text → Text → Option Bool) (features : List Text) (g : Grammar) → AdmittedFromStartsHaveDerivations (enabled_grammar finds features g) }
    ensures once_from { (finds : Text → Text → Option Bool) (features : List Text) (g : Grammar) → DerivationsFromStartsAreUnique (enabled_grammar finds features g) }
{}

/// The law that an admitted tree fixes its tokens: they are its leaves, in order.
pub fn tokens_are_leaves()
    ensures { (finds : Text → Text → Option Bool) (features : List Text) (g : Grammar) → TokensAreLeaves (enabled_grammar finds features g) }
{}

/// The law that a label, a nonterminal with the choice by which it produces, has one right side.
pub fn labels_have_one_side()
    ensures { (finds : Text → Text → Option Bool) (features : List Text) (g : Grammar) → LabelsHaveOneSide (enabled_grammar finds features g) }
{}

/// The law that what a derivation leaves out of a written tree, the texts of its leaves, is fixed by the leaves: trees
/// that are equal once each leaf has the text that its terminal shows, and have equal leaves, are equal.
pub fn leaves_fix_trees()
    ensures { LeavesFixTrees }
{}
