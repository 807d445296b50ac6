//! The certificates of conflicts.

ghost use Rattle.std.specs.Prelude.{◌≡◌, Contains, IfOk, Some, length, map};
ghost use Rattle.lalrpop_lr1_core.specs.TheoryGrammars.{theory_grammar};
ghost use Rattle.lalrpop_lr1_first.specs.NumberedGrammars.{HasItsTerminals, IsNumberTableOf};
ghost use Rattle.lalrpop_lr1_least_trees.specs.GrammarTrees.{AreLeastTrees};
ghost use Rattle.lalrpop_lr1_paths.specs.CompletionGraphs.{AreCompletionGraphs};
ghost use Rattle.lalrpop_lr1_theory.specs.CanonicalStates.{AreCanonicalStates};
ghost use Rattle.lalrpop_lr1_theory.specs.ValidItems.{NoneBarren};
ghost use Rattle.lalrpop_lr1_counterexamples.specs.ConflictCertificates.{AreCertificatesOf, HaveOwnActions};
ghost use Rattle.lalrpop_lr1_counterexamples.specs.ShownStates.{AreShownConflicts, AreStepsOut, AreToldConflicts, shown_states};
ghost use Rattle.lalrpop_lr1_counterexamples.specs.Slots.{AreCertificateSlots};

use crate::certificates::shown::ShownConflicts;
use crate::certificates::slots::all_certificates;
use crate::shown_laws::{AnyCompletion, CompletionGraphs};
use lalrpop_grammar_repr::Grammar;
use lalrpop_grammar_symbols::NonterminalString;
use lalrpop_judge::certificates::Certificate;
use lalrpop_lr1_core::{Conflict, State};
use lalrpop_lr1_least_trees::LeastTrees;
use lalrpop_lr1_paths::state_paths::StatePaths;
use lalrpop_sets::TokenSet;
use std::alloc::{AllocError, Global};

/// The certificates of the conflicts, by the steps that lead out of the states.
fn certificates_by_ways<'g>(
    alloc: Global,
    shown: &ShownConflicts<'_, 'g>,
    ways: &CompletionGraphs<'_, 'g>,
) -> Result<Vec<Certificate<'g>>, AllocError>
    requires shown { AreShownConflicts shown.now }
    requires ways { AreCompletionGraphs ways.now }
    requires steps { AreStepsOut shown.now ways.now }
    ensures { IfOk result (λ all. AreCertificateSlots shown.now (map Some all.items)) }
{
    let any = AnyCompletion::new(alloc, ways)?;
    all_certificates(alloc, shown, &any)
}

/// The certificates of the conflicts, by the least trees of the grammar.
fn certificates_by_trees<'g>(
    alloc: Global,
    shown: &ShownConflicts<'_, 'g>,
    trees: &LeastTrees<'g>,
) -> Result<Vec<Certificate<'g>>, AllocError>
    requires shown { AreShownConflicts shown.now }
    requires trees { AreLeastTrees trees.now }
    requires table { IsNumberTableOf shown.now.grammar.now trees.now.table }
    ensures { IfOk result (λ all. AreCertificateSlots shown.now (map Some all.items)) }
{
    let paths = StatePaths::new(alloc, trees, shown.states)?;
    let ways = CompletionGraphs::new(alloc, &paths, shown.states, shown.start)?;
    certificates_by_ways(alloc, shown, &ways)
}

/// The certificates of conflicts of a grammar's canonical states, in their order. What all of them need is made once.
///
/// The first move of each is the conflict's reduction, the second its other action. What comes next is the least token of the conflict's
/// lookahead: terminals in the grammar's order, then the end.
///
/// # Errors
///
/// Memory is refused. It is where light trees have as many leaves and nodes as the greatest number or more.
pub fn certificates<'g>(
    alloc: Global,
    grammar: &'g Grammar,
    start: &NonterminalString,
    states: &[State<'g, TokenSet>],
    conflicts: &[Conflict<'g, TokenSet>],
) -> Result<Vec<Certificate<'g>>, AllocError>
    requires terminals { HasItsTerminals grammar.now }
    requires none_barren { NoneBarren (Contains (theory_grammar grammar.now)) start.now.0 }
    requires canonical { AreCanonicalStates (theory_grammar grammar.now) start.now.0 (shown_states grammar.now states.now) }
    requires told { AreToldConflicts grammar.now states.now conflicts.now }
    ensures count { IfOk result (λ all. length all.items ≡ length conflicts.now) }
    ensures certificates { IfOk result (λ all. HaveOwnActions grammar.now →
        AreCertificatesOf grammar.now start.now.0 (shown_states grammar.now states.now) conflicts.now all.items) }
{
    let shown = ShownConflicts {
        grammar,
        start,
        states,
        conflicts,
    };
    let trees = LeastTrees::new(alloc, grammar)?;
    let all = certificates_by_trees(alloc, &shown, &trees)?;
    Ok(all)
}
