//! The laws of inlining: labels, productions and trees after it, and how they come from those before it.
//!
//! What `#[inline]` means in LALRPOP's book: each place of an inlined nonterminal is replaced by each of its productions.
//! A production after inlining is told by the choices that it was made of, which no other production has, though its
//! symbols may be those of another.
//!
//! The module has no code but laws. The definitions stand in `specs/`: `Labels` (the label of a production after inlining,
//! a tree of choices), `Inlining` (the productions after inlining), `BaseTrees` and `ExpandedTrees` (trees before and
//! after it, a tree inlined, a tree taken apart), `Steps` (inlining one nonterminal, with its records), `WrittenTrees`
//! (the written tree of an expanded tree) and `Laws` (what the laws say). All but `WrittenTrees` are over any
//! nonterminals and any choices: closed symbols and origins, or names and numbers of actions.

ghost use Rattle.lalrpop_grammar.specs.WrittenGrammar.{Grammar};
ghost use Rattle.lalrpop_grammar_symbols.specs.Symbols.{Text};
ghost use Rattle.lalrpop_grammar_language.specs.Enabled.{enabled_grammar};
ghost use Rattle.lalrpop_grammar_language.specs.Expansion.{Nonterminal};
ghost use Rattle.lalrpop_grammar_language.specs.Labels.{GrammarSymbols};
ghost use Rattle.lalrpop_grammar_language.specs.Inlining.{IsDecidedBy, HaveOneSide};
ghost use Rattle.lalrpop_grammar_language.specs.Steps.{NeverNamesItself, NamesInlinedFirst};
ghost use Rattle.lalrpop_grammar_language.specs.Laws.{InlinedTreesComeApart, InlinedTreesAreExpanded, ExpandedTreesComeApart, ExpandedAreAdmitted, AdmittedHaveExpanded, ExpandedAreUnique, ExpandedFromStartsAreAdmitted, AdmittedFromStartsHaveExpanded, ExpandedFromStartsAreUnique, StepsMakeProductions, ProductionsAreBySteps, StepsMakeLabelsOnce, StepsHaveOneRecord, InlinedLabelsHaveOneSide};
ghost use Rattle.std.specs.Prelude.{◌≡◌, Bool, true, List, Option};

/// What inlining is told, over nonterminals `N` and choices `C`: the productions, and which nonterminals it inlines.
pub trait Inlining<N, C> {
    /// The nonterminal produces the right side by the choice.
    ghost produces: { N → C → GrammarSymbols N → Type 0 };

    /// The nonterminal is inlined.
    ghost is_inlined: { N → Type 0 };

    /// The test of it that inlining a tree makes.
    ghost inlined_test: { N → Bool };
}

/// What inlining is told of a grammar's expansion: which nonterminals it inlines.
pub trait InlinedNonterminals {
    /// The nonterminal is inlined.
    ghost is_inlined: { Nonterminal → Type 0 };

    /// The test of it that inlining a tree makes.
    ghost inlined_test: { Nonterminal → Bool };
}

/// The law that trees before and after inlining are one to one, whatever the productions, also where a nonterminal
/// would have to be inlined into itself. A tree inlined and taken apart is itself. A tree of a symbol, inlined, is an
/// expanded tree of the symbol, over the same tokens. An expanded tree, taken apart, is a tree of the symbol, and that
/// inlined is the expanded tree again.
pub fn inlined_trees_correspond<N, C, P: Inlining<N, C>>()
    ensures itself { InlinedTreesComeApart N C P.inlined_test }
    ensures expanded { IsDecidedBy P.is_inlined P.inlined_test → InlinedTreesAreExpanded P.produces P.is_inlined P.inlined_test }
    ensures apart { IsDecidedBy P.is_inlined P.inlined_test → ExpandedTreesComeApart P.produces P.is_inlined P.inlined_test }
{}

/// The law that written trees and expanded trees are one to one, for every grammar, a faulty one too, whatever a search
/// for patterns finds and whichever nonterminals are inlined. Each expanded tree of a symbol stands for a written tree
/// that is admitted for it. Each admitted written tree has an expanded tree, over the same tokens up to their texts. No
/// two expanded trees of a symbol stand for one written tree. The same holds from a start.
pub fn expanded_trees_correspond<P: InlinedNonterminals>()
    ensures admitted { IsDecidedBy P.is_inlined P.inlined_test → (finds : Text → Text → Option Bool) (features : List Text) (g : Grammar) → ExpandedAreAdmitted (enabled_grammar finds features g) P.is_inlined }
    ensures expanded { IsDecidedBy P.is_inlined P.inlined_test → (finds : Text → Text → Option Bool) (features : List Text) (g : Grammar) → AdmittedHaveExpanded (enabled_grammar finds features g) P.is_inlined }
    ensures once { IsDecidedBy P.is_inlined P.inlined_test → (finds : Text → Text → Option Bool) (features : List Text) (g : Grammar) → ExpandedAreUnique (enabled_grammar finds features g) P.is_inlined }
    ensures admitted_from { IsDecidedBy P.is_inlined P.inlined_test → (finds : Text → Text → Option Bool) (features : List Text) (g : Grammar) → ExpandedFromStartsAreAdmitted (enabled_grammar finds features g) P.is_inlined }
    ensures expanded_from { IsDecidedBy P.is_inlined P.inlined_test → (finds : Text → Text → Option Bool) (features : List Text) (g : Grammar) → AdmittedFromStartsHaveExpanded (enabled_grammar finds features g) P.is_inlined }
    ensures once_from { IsDecidedBy P.is_inlined P.inlined_test → (finds : Text → Text → Option Bool) (features : List Text) (g : Grammar) → ExpandedFromStartsAreUnique (enabled_grammar finds features g) P.is_inlined }
{}

/// The law of one step, which replaces each place of a nonterminal by each of its productions. Where no production of
/// the nonterminal names it, those inlined earlier put in, the step makes the productions with that nonterminal inlined
/// too, all and no other, and no label twice. A label that the step makes is the old one with the record put in. That
/// no production names the nonterminal holds where, of the nonterminals to be inlined, all that it and those inlined
/// earlier name are inlined before it.
pub fn steps_are_exact<N, C, P: Inlining<N, C>>()
    ensures productions { (n : N) → NeverNamesItself P.produces P.is_inlined n → StepsMakeProductions P.produces P.is_inlined n }
    ensures all { (n : N) → (P.is_inlined n → ⊥) → NeverNamesItself P.produces P.is_inlined n → ProductionsAreBySteps P.produces P.is_inlined n }
    ensures once { (n : N) → (P.is_inlined n → ⊥) → StepsMakeLabelsOnce P.produces P.is_inlined n }
    ensures in_order { (marked : N → Bool) (n : N) → marked n ≡ true → NamesInlinedFirst P.produces P.is_inlined (λ x. marked x ≡ true) n → NeverNamesItself P.produces P.is_inlined n }
    ensures one_record { (n : N) → (P.is_inlined n → ⊥) → HaveOneSide P.produces → StepsHaveOneRecord P.produces P.is_inlined n }
{}

/// The law that a label has one right side after inlining, where each choice has one before it.
pub fn inlined_labels_have_one_side<N, C, P: Inlining<N, C>>()
    ensures { HaveOneSide P.produces → InlinedLabelsHaveOneSide P.produces P.is_inlined }
{}
