//! All parts of the test, one after another.

ghost use Rattle.std.specs.Prelude.{◌↔◌, IfOk, IsTrue, map};
ghost use Rattle.lalrpop_lr1_theory.specs.CheckedStates.{AreCheckedStates};
ghost use Rattle.lalrpop_lr1_core.specs.Views.{lr_state_view, token_lookahead};
ghost use Rattle.lalrpop_lr1_first.specs.NumberedGrammars.{HasItsTerminals, IsNumberTable, IsSeenIn, table_productions};
ghost use Rattle.lalrpop_lr1_first.specs.Tables.{IsTerminalSet};
ghost use Rattle.lalrpop_lr1_core.specs.TheoryGrammars.{theory_grammar};
ghost use Rattle.lalrpop_lr1_check.specs.StatesOver.{
  AreStatesOver,
  PassAlongEdges,
  PassByTable,
  PassReductions,
};

use crate::closure::has_closure_items;
use lalrpop_grammar_repr::{Grammar, TerminalSet};
use lalrpop_grammar_symbols::NonterminalString;
use lalrpop_lr1_barren::none_is_barren;
use lalrpop_lr1_check_lookaheads::lookaheads::reduces_before_lookaheads;
use lalrpop_lr1_check_lookaheads::parts::{StateListing, end_rightly, have_no_conflict};
use lalrpop_lr1_core::Lr1State;
use lalrpop_lr1_first::Numbered;
use std::alloc::{AllocError, Global};

/// Whether the states reduce by the start before the end alone, and none has a conflict.
fn pass_reductions(
    alloc: Global,
    terminals: &TerminalSet,
    start: &NonterminalString,
    states: &[Lr1State<'_>],
) -> Result<bool, AllocError>
    requires { IsTerminalSet terminals.now }
    ensures { IfOk result (λ pass. AreStatesOver terminals.now states.now →
        IsTrue pass ↔ PassReductions terminals.now start.now.0 states.now) }
{
    let ends = end_rightly(start, terminals, states)?;
    if !ends {
        return Ok(false);
    }
    let none = have_no_conflict(alloc, terminals, states)?;
    Ok(none)
}

/// Whether items follow edges, and reductions are by finished items.
fn pass_along_edges(
    alloc: Global,
    terminals: &TerminalSet,
    states: &[Lr1State<'_>],
) -> Result<bool, AllocError>
    ensures { IfOk result (λ pass. IsTrue pass ↔ PassAlongEdges terminals.now states.now) }
{
    let listing = StateListing::new(alloc, states)?;
    if !listing.reduces_finished() {
        return Ok(false);
    }
    Ok(listing.follows_edges())
}

/// Whether nothing that the start reaches is barren, and items are those that names bring.
fn pass_by_table(
    alloc: Global,
    table: &Numbered<'_>,
    start: &NonterminalString,
    states: &[Lr1State<'_>],
) -> Result<bool, AllocError>
    requires { IsNumberTable table.now }
    ensures { IfOk result (λ pass. IsTrue pass
        ↔ PassByTable (IsSeenIn (table_productions table.now)) table.now.terminals.now start.now.0 states.now) }
{
    let none = none_is_barren(alloc, table, start)?;
    if !none {
        return Ok(false);
    }
    let brings = has_closure_items(alloc, table, start, states)?;
    Ok(brings)
}

/// Whether the states may be parsed with for this start: each symbol behind a dot leads to the items with the dot moved over it,
/// and no others stand; each state reduces by its finished items alone, before all that may follow them; none has a conflict; the
/// start's reductions are before the end alone; and nothing that the start reaches is barren.
///
/// The states may come from anywhere. In their items, and in the sets of their reductions, stand terminals of the grammar alone.
/// The terminals of the grammar are numbered by their places, and each terminal on a right side is one of them.
///
/// # Errors
///
/// Memory is refused.
pub fn check_states<'g>(
    alloc: Global,
    grammar: &'g Grammar,
    start: &'g NonterminalString,
    states: &[Lr1State<'g>],
) -> Result<bool, AllocError>
    requires { HasItsTerminals grammar.now }
    ensures { IfOk result (λ checked. AreStatesOver grammar.now.terminals states.now → IsTrue checked
        ↔ AreCheckedStates (theory_grammar grammar.now) start.now.0
        (map (lr_state_view (token_lookahead grammar.now.terminals)) states.now)) }
{
    let reductions = pass_reductions(alloc, &grammar.terminals, start, states)?;
    if !reductions {
        return Ok(false);
    }
    let along_edges = pass_along_edges(alloc, &grammar.terminals, states)?;
    if !along_edges {
        return Ok(false);
    }
    let table = Numbered::new(alloc, grammar)?;
    let by_table = pass_by_table(alloc, &table, start, states)?;
    if !by_table {
        return Ok(false);
    }
    let propagated = reduces_before_lookaheads(alloc, grammar, &table, start, states)?;
    Ok(propagated)
}
