//! Positions before terminals.

ghost use Rattle.std.specs.Prelude.{◌≡◌, ℕ, List, Some, slice_get};
ghost use Rattle.lalrpop_grammar_symbols.specs.Views.{terminal_view};
ghost use Rattle.lalrpop_lr1_theory.specs.States as theory;
ghost use Rattle.lalrpop_lr1_core.specs.Views.{lr_state_view};
ghost use Rattle.lalrpop_lr1_counterexamples.specs.ShiftPositions.{IsFirstPositionIf, IsPositionAtIf, IsShiftPositionIf};

use lalrpop_grammar_repr::{Production, Symbol};
use lalrpop_grammar_symbols::TerminalString;
use lalrpop_lr1_core::{Item, State};

/// Where a terminal may be shifted: an item's dot stands before it.
#[derive(Clone, Copy)]
pub struct ShiftPosition<'g> {
    /// The item's production.
    pub production: &'g Production,
    /// How many of its symbols stand before the dot.
    pub index: usize,
    /// The terminal.
    pub terminal: &'g TerminalString,
    /// What stands behind it.
    pub rest: &'g [Symbol],
}

/// The place at the item's dot, if the dot stands before the terminal.
fn position_at<'g, L>(item: &Item<'g, L>, terminal: &TerminalString) -> Option<ShiftPosition<'g>>
    ensures { IsPositionAtIf item.now terminal.now result }
{
    let Some((Symbol::Terminal(own), rest)) = item.shift_symbol() else {
        return None;
    };
    if own != terminal {
        return None;
    }
    Some(ShiftPosition {
        production: item.production,
        index: item.index,
        terminal: own,
        rest,
    })
}

/// The place of the first of the items whose dot stands before the terminal; none where no item's does.
fn first_position<'g, L>(
    items: &[Item<'g, L>],
    terminal: &TerminalString,
) -> Option<ShiftPosition<'g>>
    ensures { IsFirstPositionIf items.now terminal.now result }
{
    for item in items {
        if let Some(place) = position_at(item, terminal) {
            return Some(place);
        }
    }
    None
}

/// Where the state may shift the terminal: by the first of its items whose dot stands before it; none where no item's does.
pub fn shift_position<'g, L>(
    state: &State<'g, L>,
    terminal: &TerminalString,
) -> Option<ShiftPosition<'g>>
    ensures { (look : L → theory.LookaheadSet) (states : List theory.State) (n : ℕ) →
        slice_get states n ≡ Some (lr_state_view look state.now) → IsShiftPositionIf states n (terminal_view terminal.now) result }
{
    first_position(state.items.vec.as_slice(), terminal)
}
