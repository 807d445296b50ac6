//! The builders of LR(1) and LALR(1) states.

ghost use Rattle.std.specs.Prelude.{◌⊎◌, IfErr, IfOk, MatchResult, Contains, length};
ghost use Rattle.lalrpop_grammar_repr.specs.declared.methods.Method.TheVariants as methods;
ghost use Rattle.lalrpop_lr1_theory.specs.Answers.{IsLr1};
ghost use Rattle.lalrpop_lr1_theory.specs.CheckedStates.{AreCheckedStates, IsStartAlone};
ghost use Rattle.lalrpop_lr1_theory.specs.ValidItems.{NoneBarren};
ghost use Rattle.lalrpop_lr1_first.specs.NumberedGrammars.{HasItsTerminals};
ghost use Rattle.lalrpop_lr1_build.specs.BuiltStates.{AreCanonicalWithout, IsCanonicalFault, TellsNoLr1};
ghost use Rattle.lalrpop_lr1_core.specs.TheoryGrammars.{theory_grammar};
ghost use Rattle.lalrpop_lr1_build.specs.CollapseAnswers.{states_over};
ghost use Rattle.lalrpop_lr1_build.specs.Renumbering.{HaveTargetsWithin};
ghost use Rattle.lalrpop_lane.specs.BuilderAnswers.{
  AreAskedInOrder,
  AreAskedStates,
  AreLalrBy,
  AreLalrWithout,
  AreFewestBy,
  AreForEachCoreBy,
  AreLr1By,
  CheckedLaneAnswer,
  HaveFewest,
  HaveOneForEachCore,
  IsAskedFault,
  IsLalrFault,
  IsLalrFaultBy,
};

use crate::construct::lane_states;
use crate::ordering::goto_order;
use lalrpop_grammar_repr::Grammar;
use lalrpop_grammar_repr::methods::Method;
use lalrpop_grammar_symbols::NonterminalString;
use lalrpop_lr1_build::build_lr1_states_canonical;
use lalrpop_lr1_build::collapse::collapse_to_lalr_states;
use lalrpop_lr1_check::check_states;
use lalrpop_lr1_core::{Lr1Result, Lr1State};
use std::alloc::{AllocError, Global};

/// The states by lanes, where there are some and they may be parsed with.
fn checked_lane_states<'g>(
    alloc: Global,
    grammar: &'g Grammar,
    start: &NonterminalString,
    copies: usize,
) -> Result<Option<Vec<Lr1State<'g>>>, AllocError>
    requires { HasItsTerminals grammar.now }
    ensures { IfOk result (CheckedLaneAnswer grammar.now start.now.0) }
{
    let found = lane_states(alloc, grammar, start, copies)?;
    match found {
        None => Ok(None),
        Some(states) => {
            let checked = check_states(alloc, &*grammar, start, states.as_slice())?;
            if checked { Ok(Some(states)) } else { Ok(None) }
        }
    }
}

/// The states by lanes, where they may be parsed with; or else the canonical ones, or their conflicts.
fn states_by_lanes<'g>(
    alloc: Global,
    grammar: &'g Grammar,
    start: NonterminalString,
    copies: usize,
) -> Lr1Result<'g>
    requires { HasItsTerminals grammar.now }
    ensures states { IfOk result (λ states. AreLr1By (methods.Lane copies) grammar.now start states.items) }
    ensures fault { IfErr result (λ fault. IsCanonicalFault grammar.now start fault) }
    ensures targets { IfOk result (λ states. HaveTargetsWithin (length states.items) states.items) }
    ensures lr1 { NoneBarren (Contains (theory_grammar grammar.now)) start.0 → MatchResult result
        (λ _. IsLr1 (Contains (theory_grammar grammar.now)) start.0) (λ fault. TellsNoLr1 grammar.now start fault) }
    ensures checked { NoneBarren (Contains (theory_grammar grammar.now)) start.0 → IsStartAlone (theory_grammar grammar.now) start.0
        → IfOk result (λ states. AreCheckedStates (theory_grammar grammar.now) start.0 (states_over grammar.now.terminals states.items)) }
    ensures fewest { HaveFewest grammar.now start result }
    ensures for_each_core { HaveOneForEachCore grammar.now start result }
{
    let found = checked_lane_states(alloc, grammar, &start, copies)?;
    match found {
        Some(states) => Ok(states),
        None => build_lr1_states_canonical(alloc, grammar, start),
    }
}

/// LR(1) states of the grammar for a start, which the end follows, to parse with; or all conflicts of its canonical states. By the
/// canonical way these are the states. By lanes they are those of [`crate::build_lane_table_states`]: the states without lookaheads, with
/// copies of some where these keep conflicts apart (Pager, 1977), and each reduction before what is carried to it over them (DeRemer and
/// Pennello, 1982). Where a conflict stays they are the canonical ones, too. So an LALR(1) grammar, whose start stands on no right side and
/// reaches nothing barren, has one state for each nonempty set of valid items, whatever may follow them, and is never refused. The terminals of the grammar are numbered by their places,
/// and each terminal on a right side is one of them.
///
/// # Errors
///
/// The canonical states with their conflicts, or memory is refused.
pub fn build_lr1_states<'g>(
    alloc: Global,
    grammar: &'g Grammar,
    start: NonterminalString,
    method: Method,
) -> Lr1Result<'g>
    requires { HasItsTerminals grammar.now }
    ensures states { IfOk result (λ states. AreLr1By method grammar.now start states.items) }
    ensures fault { IfErr result (λ fault. IsCanonicalFault grammar.now start fault) }
    ensures targets { IfOk result (λ states. HaveTargetsWithin (length states.items) states.items) }
    ensures lr1 { NoneBarren (Contains (theory_grammar grammar.now)) start.0 → MatchResult result
        (λ _. IsLr1 (Contains (theory_grammar grammar.now)) start.0) (λ fault. TellsNoLr1 grammar.now start fault) }
    ensures checked { NoneBarren (Contains (theory_grammar grammar.now)) start.0 → IsStartAlone (theory_grammar grammar.now) start.0
        → IfOk result (λ states. AreCheckedStates (theory_grammar grammar.now) start.0 (states_over grammar.now.terminals states.items)) }
    ensures fewest { AreFewestBy method grammar.now start result }
    ensures for_each_core { AreForEachCoreBy method grammar.now start result }
{
    match method {
        Method::Lane { copies } => states_by_lanes(alloc, grammar, start, copies),
        Method::Canonical => build_lr1_states_canonical(alloc, grammar, start),
    }
}

/// The canonical states put together, or the conflicts of these, or else of those.
fn collapsed_states<'g>(
    alloc: Global,
    grammar: &'g Grammar,
    start: NonterminalString,
) -> Lr1Result<'g>
    requires { HasItsTerminals grammar.now }
    ensures states { IfOk result (λ states. AreLalrWithout grammar.now start states.items) }
    ensures fault { IfErr result (λ fault. IsCanonicalFault grammar.now start fault ⊎ IsLalrFault grammar.now start fault) }
    ensures checked { NoneBarren (Contains (theory_grammar grammar.now)) start.0 → IsStartAlone (theory_grammar grammar.now) start.0
        → IfOk result (λ states. AreCheckedStates (theory_grammar grammar.now) start.0 (states_over grammar.now.terminals states.items)) }
{
    let states = build_lr1_states_canonical(alloc, grammar, start)?;
    collapse_to_lalr_states(alloc, &grammar.terminals, states.as_slice())
}

/// LALR(1) states of the grammar for a start, to parse with; or all conflicts of its canonical states, or else of these put
/// together. By the canonical way these are the states; by the other one they are those of [`build_lr1_states`].
///
/// # Errors
///
/// States with their conflicts, or memory is refused.
pub fn build_lalr_states<'g>(
    alloc: Global,
    grammar: &'g Grammar,
    start: NonterminalString,
    method: Method,
) -> Lr1Result<'g>
    requires { HasItsTerminals grammar.now }
    ensures states { IfOk result (λ states. AreLalrBy method grammar.now start states.items) }
    ensures fault { IfErr result (λ fault. IsLalrFaultBy method grammar.now start fault) }
    ensures targets { IfOk result (λ states. HaveTargetsWithin (length states.items) states.items) }
    ensures checked { NoneBarren (Contains (theory_grammar grammar.now)) start.0 → IsStartAlone (theory_grammar grammar.now) start.0
        → IfOk result (λ states. AreCheckedStates (theory_grammar grammar.now) start.0 (states_over grammar.now.terminals states.items)) }
    ensures for_each_core { AreForEachCoreBy method grammar.now start result }
{
    match method {
        Method::Lane { copies } => build_lr1_states(alloc, grammar, start, Method::Lane { copies }),
        Method::Canonical => collapsed_states(alloc, grammar, start),
    }
}

/// LALR(1) states, where the grammar asks for these, or else LR(1) states.
fn asked_states<'g>(
    alloc: Global,
    grammar: &'g Grammar,
    start: NonterminalString,
    method: Method,
) -> Lr1Result<'g>
    requires { HasItsTerminals grammar.now }
    ensures states { IfOk result (λ states. AreAskedStates grammar.now.algorithm.lalr method grammar.now start states.items) }
    ensures fault { IfErr result (λ fault. IsAskedFault grammar.now.algorithm.lalr method grammar.now start fault) }
    ensures targets { IfOk result (λ states. HaveTargetsWithin (length states.items) states.items) }
    ensures checked { NoneBarren (Contains (theory_grammar grammar.now)) start.0 → IsStartAlone (theory_grammar grammar.now) start.0
        → IfOk result (λ states. AreCheckedStates (theory_grammar grammar.now) start.0 (states_over grammar.now.terminals states.items)) }
    ensures for_each_core { AreForEachCoreBy method grammar.now start result }
{
    if grammar.algorithm.lalr {
        build_lalr_states(alloc, grammar, start, method)
    } else {
        build_lr1_states(alloc, grammar, start, method)
    }
}

/// The states of the grammar for a start, to parse with: those of [`build_lalr_states`], where the grammar asks for LALR(1) states,
/// or else of [`build_lr1_states`]. State 0 comes first, then the other states with gotos, then the rest, each group in its old
/// order, and all numbers are those of the new places.
///
/// # Errors
///
/// As there: states in their old order with their conflicts, or memory is refused.
pub fn build_states<'g>(
    alloc: Global,
    grammar: &'g Grammar,
    start: NonterminalString,
    method: Method,
) -> Lr1Result<'g>
    requires { HasItsTerminals grammar.now }
    ensures states { IfOk result (λ states. AreAskedInOrder grammar.now.algorithm.lalr method grammar.now start states.items) }
    ensures fault { IfErr result (λ fault. IsAskedFault grammar.now.algorithm.lalr method grammar.now start fault) }
    ensures checked { NoneBarren (Contains (theory_grammar grammar.now)) start.0 → IsStartAlone (theory_grammar grammar.now) start.0
        → IfOk result (λ states. AreCheckedStates (theory_grammar grammar.now) start.0 (states_over grammar.now.terminals states.items)) }
    ensures for_each_core { AreForEachCoreBy method grammar.now start result }
{
    let states = asked_states(alloc, grammar, start, method)?;
    let ordered = goto_order(alloc, states)?;
    Ok(ordered)
}
