//! The construction of states by lanes.

ghost use Rattle.std.specs.Prelude.{IfErr, IfOk, ◌≡◌};
ghost use Rattle.lalrpop_lr1_first.specs.NumberedGrammars.{HasItsTerminals};
ghost use Rattle.lalrpop_lane.specs.Constructions.{IsLaneFault};
ghost use Rattle.lalrpop_lane.specs.LaneStates.{AreLaneStates, LaneAnswer};

use crate::rounds::last_round;
use lalrpop_grammar_repr::Grammar;
use lalrpop_grammar_symbols::NonterminalString;
use lalrpop_lr1_build::conflicts_of;
use lalrpop_lr1_core::{Lr1Result, Lr1State, TableConstructionError, TableFault};
use std::alloc::{AllocError, Global};
use std::marker::Model;

/// The states of the grammar for a start by lanes, at most so many more than those without lookaheads; none where a conflict stays.
pub(crate) fn lane_states<'g>(
    alloc: Global,
    grammar: &'g Grammar,
    start: &NonterminalString,
    copies: usize,
) -> Result<Option<Vec<Lr1State<'g>>>, AllocError>
    requires { HasItsTerminals grammar.now }
    ensures { IfOk result (LaneAnswer grammar.now start.now.0 copies) }
{
    let (states, none) = last_round(alloc, grammar, start, copies)?;
    if none { Ok(Some(states)) } else { Ok(None) }
}

/// The same, and where a conflict stays all conflicts of the states as they stand.
fn lane_table_states<'g>(
    alloc: Global,
    grammar: &'g Grammar,
    start: &NonterminalString,
    copies: usize,
) -> Lr1Result<'g>
    requires { HasItsTerminals grammar.now }
    ensures states { IfOk result (λ states. AreLaneStates grammar.now start.now.0 copies states.items) }
    ensures fault { IfErr result (IsLaneFault grammar.now start.now.0 copies) }
{
    let (states, none) = last_round(alloc, grammar, start, copies)?;
    if none {
        return Ok(states);
    }
    let conflicts = conflicts_of(alloc, &grammar.terminals, states.as_slice())?;
    Err(TableFault::Conflicts(TableConstructionError { states, conflicts }))
}

/// The construction of LR(1) states by lane tables (Pager, 1977), as LALRPOP does it: it begins with the states without lookaheads, and
/// makes copies of some where what is carried over them conflicts, until nothing conflicts.
#[derive(Drop)]
pub struct LaneTableConstruct<'g> {
    alloc: Global,
    grammar: &'g Grammar,
    start: NonterminalString,
}

impl<'g> Model for LaneTableConstruct<'g> {
    ghost use Rattle.std.specs.Coded.{codes};
    ghost use Rattle.lalrpop_grammar_repr.specs.contracts.grammar.Grammar as grammars;
    ghost use Rattle.lalrpop_lane.specs.Constructions.{ConstructionView};

    ghost Value = { ConstructionView };

    ghost coded = { Prim.hlevel (codes, grammars.the_row.coded) };

    ghost view = { λ it. record { grammar = it.grammar.now; start = it.start.0 } };
}

impl<'g> LaneTableConstruct<'g> {
    /// A construction of the states of the grammar for a start.
    pub fn new(
        alloc: Global,
        grammar: &'g Grammar,
        start: NonterminalString,
    ) -> LaneTableConstruct<'g>
        ensures grammar { result.grammar ≡ grammar.now }
        ensures start { result.start ≡ start.0 }
    {
        LaneTableConstruct {
            alloc,
            grammar,
            start,
        }
    }

    /// States by lanes: each has the items of one of the states without lookaheads, from which its edges lead on alike, and reduces before
    /// just what is carried over the states to its item, and none has a conflict. They are at most `copies` more than the states without
    /// lookaheads, and no more than these where what is carried over these leaves no conflict. The terminals of the grammar are numbered
    /// by their places, and each terminal on a right side is one of them.
    ///
    /// # Errors
    ///
    /// The states of the last round with their conflicts, state by state, where columns of a state's lane table meet in one row, where no
    /// copy keeps what conflicts apart, or where more copies were needed; or memory is refused.
    pub fn construct(self, copies: usize) -> Lr1Result<'g>
        requires { HasItsTerminals self.grammar }
        ensures states { IfOk result (λ states. AreLaneStates self.entry.grammar self.entry.start copies states.items) }
        ensures fault { IfErr result (IsLaneFault self.entry.grammar self.entry.start copies) }
    {
        lane_table_states(self.alloc, self.grammar, &self.start, copies)
    }
}

/// States of the grammar for a start by lanes, at most so many more than those without lookaheads: those of
/// [`LaneTableConstruct::construct`].
///
/// # Errors
///
/// As there.
pub fn build_lane_table_states<'g>(
    alloc: Global,
    grammar: &'g Grammar,
    start: NonterminalString,
    copies: usize,
) -> Lr1Result<'g>
    requires { HasItsTerminals grammar.now }
    ensures states { IfOk result (λ states. AreLaneStates grammar.now start.0 copies states.items) }
    ensures fault { IfErr result (IsLaneFault grammar.now start.0 copies) }
{
    LaneTableConstruct::new(alloc, grammar, start).construct(copies)
}
