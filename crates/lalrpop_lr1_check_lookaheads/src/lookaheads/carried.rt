//! What is carried to the ends of productions in states: read off for reductions, and tested.

ghost use Rattle.std.specs.Prelude.{◌≡◌, ◌↔◌, IfOk, IsTrue, map};
ghost use Rattle.lalrpop_lr1_theory.specs.PropagatedNexts.{ReducesBeforeLookaheads};
ghost use Rattle.lalrpop_lr1_theory.specs.States.{HasEdge, HasItem, Reduces};
ghost use Rattle.lalrpop_lr1_core.specs.TheoryGrammars.{productions_of_grammar};
ghost use Rattle.lalrpop_lr1_core.specs.Views.{lr_state_view, token_lookahead};
ghost use Rattle.lalrpop_lr1_first.specs.FirstSetsOf.{IsProductionOf};
ghost use Rattle.lalrpop_lr1_first.specs.Listings.{HoldSame};
ghost use Rattle.lalrpop_lr1_first.specs.NumberedGrammars.{HasItsTerminals, IsNumberTableOf, table_productions};
ghost use Rattle.lalrpop_lr1_barren.specs.NamedLists.{AreListedByName};
ghost use Rattle.lalrpop_lr1_check_lookaheads.specs.CarriedSets.{
  AreCarriedEnds,
  AreCarriedSets,
  AreSetsOfReductions,
  AreSetsOfStates,
  IsSetOfEnd,
};
ghost use Rattle.lalrpop_lr1_check_lookaheads.specs.Ends.{AreEnds};
ghost use Rattle.lalrpop_lr1_check_lookaheads.specs.LookaheadFlows.{HaveKnownItems};

use crate::lookaheads::ending::propagated_ends;
use crate::lookaheads::ends::{End, Ends};
use crate::lookaheads::propagated::{flown_sets, slots_and_edges};
use crate::lookaheads::reducing::{are_within, reduction_ends};
use lalrpop_grammar_repr::{Grammar, Production, TerminalSet};
use lalrpop_grammar_symbols::NonterminalString;
use lalrpop_lr1_barren::reachable::NamedProductions;
use lalrpop_lr1_core::Lr1State;
use lalrpop_lr1_first::Numbered;
use lalrpop_sets::TokenSet;
use std::alloc::{AllocError, Global};

/// The ends of the productions with what is carried to each, where these are the grammar's.
fn ends_of<'g>(
    alloc: Global,
    grammar: &Grammar,
    named: &NamedProductions<'_, 'g>,
    start: &'g NonterminalString,
    states: &[Lr1State<'g>],
) -> Result<Ends<'g>, AllocError>
    requires grammar { HasItsTerminals grammar.now }
    requires named { AreListedByName named.now }
    requires productions { HoldSame (table_productions named.now.table.now) (productions_of_grammar grammar.now) }
    ensures are { IfOk result (λ ends. AreEnds ends) }
    ensures carried { IfOk result (λ ends. HaveKnownItems grammar.now.terminals states.now →
        AreCarriedEnds grammar.now start.now.0 states.now ends) }
{
    let (slots, edges) = slots_and_edges(alloc, grammar, named, start, states)?;
    let sets = flown_sets(alloc, &grammar.terminals, &slots, edges.as_slice())?;
    propagated_ends(
        alloc,
        &grammar.terminals,
        states,
        named,
        &slots,
        sets.as_slice(),
    )
}

/// The ends of the grammar's productions with what is carried to each.
fn carried_ends<'g>(
    alloc: Global,
    grammar: &Grammar,
    table: &Numbered<'g>,
    start: &'g NonterminalString,
    states: &[Lr1State<'g>],
) -> Result<Ends<'g>, AllocError>
    requires grammar { HasItsTerminals grammar.now }
    requires table { IsNumberTableOf grammar.now table.now }
    ensures are { IfOk result (λ ends. AreEnds ends) }
    ensures carried { IfOk result (λ ends. HaveKnownItems grammar.now.terminals states.now →
        AreCarriedEnds grammar.now start.now.0 states.now ends) }
{
    let named = NamedProductions::new(alloc, table)?;
    ends_of(alloc, grammar, &named, start, states)
}

/// The sets of the ends of a state's reductions, in order.
fn sets_of_reductions<'g>(
    alloc: Global,
    terminals: &TerminalSet,
    state: usize,
    reductions: &[(TokenSet, &'g Production)],
    ends: &Ends<'g>,
) -> Result<Vec<TokenSet>, AllocError>
    requires { AreEnds ends.now }
    ensures { IfOk result (λ sets. AreSetsOfReductions (IsSetOfEnd ends.now state) reductions.now sets.items) }
{
    let mut sets = Vec::new(alloc);
    for reduction in reductions {
        let end = End {
            state,
            production: reduction.1,
        };
        sets.push(ends.tokens_of(alloc, terminals, end)?)?;
    }
    Ok(sets)
}

/// The sets of the ends of the reductions of each state, in order.
fn sets_of_states<'g>(
    alloc: Global,
    terminals: &TerminalSet,
    states: &[Lr1State<'g>],
    ends: &Ends<'g>,
) -> Result<Vec<Vec<TokenSet>>, AllocError>
    requires { AreEnds ends.now }
    ensures { IfOk result (λ sets. AreSetsOfStates (IsSetOfEnd ends.now) states.now (map (λ own. own.items) sets.items)) }
{
    let mut sets = Vec::new(alloc);
    for state in 0..states.len() {
        let reductions = states[state].reductions.as_slice();
        sets.push(sets_of_reductions(alloc, terminals, state, reductions, ends)?)?;
    }
    Ok(sets)
}

/// For each reduction of each state, in order, the tokens that are carried over the states to the finished item that it is by.
///
/// The end is carried to the start's productions in state 0. What can come first behind a nonterminal after a dot is carried to the
/// productions of that nonterminal, and so is what is carried to the item itself, where what stands behind the nonterminal may derive
/// nothing; and along each edge it is carried to the item with its dot moved on. For states without lookaheads that is what DeRemer
/// and Pennello (1982) compute, for states that are split as Pager (1977) does it is what each of them has to reduce before. Neither
/// the lookaheads of the items nor those of the reductions are looked at.
///
/// The states are any in whose items stand terminals of the grammar alone, the table is the grammar's, and `start` is the
/// nonterminal to whose productions the end is carried. No set has the token of errors.
///
/// # Errors
///
/// Memory is refused.
pub fn carried_lookaheads<'g>(
    alloc: Global,
    grammar: &Grammar,
    table: &Numbered<'g>,
    start: &'g NonterminalString,
    states: &[Lr1State<'g>],
) -> Result<Vec<Vec<TokenSet>>, AllocError>
    requires grammar { HasItsTerminals grammar.now }
    requires table { IsNumberTableOf grammar.now table.now }
    ensures { IfOk result (λ sets. HaveKnownItems grammar.now.terminals states.now →
        AreCarriedSets grammar.now start.now.0 states.now (map (λ own. own.items) sets.items)) }
{
    let ends = carried_ends(alloc, grammar, table, start, states)?;
    sets_of_states(alloc, &grammar.terminals, states, &ends)
}

/// Whether each state to which a production leads reduces by it before all that is propagated to its name where it begins, for any
/// states, in whose items stand terminals of the grammar alone. The table is the grammar's.
///
/// # Errors
///
/// Memory is refused.
pub fn reduces_before_lookaheads<'g>(
    alloc: Global,
    grammar: &Grammar,
    table: &Numbered<'g>,
    start: &'g NonterminalString,
    states: &[Lr1State<'g>],
) -> Result<bool, AllocError>
    requires grammar { HasItsTerminals grammar.now }
    requires table { IsNumberTableOf grammar.now table.now }
    ensures { IfOk result (λ reduces. let seen = map (lr_state_view (token_lookahead grammar.now.terminals)) states.now in
        HaveKnownItems grammar.now.terminals states.now → IsTrue reduces
        ↔ ReducesBeforeLookaheads (IsProductionOf grammar.now) start.now.0 (HasItem seen) (HasEdge seen) (Reduces seen)) }
{
    let ends = carried_ends(alloc, grammar, table, start, states)?;
    let own = reduction_ends(alloc, &grammar.terminals, states)?;
    are_within(alloc, &grammar.terminals, &ends, &own)
}
