//! What slots bring to the ends to which the productions of their names lead.

ghost use Rattle.std.specs.Prelude.{IfOk, List, OnOk, ℕ};
ghost use Rattle.lalrpop_lr1_theory.specs.States.{LookaheadSet};
ghost use Rattle.lalrpop_lr1_first.specs.Listings.{lent};
ghost use Rattle.lalrpop_lr1_first.specs.NumberedGrammars.{table_productions};
ghost use Rattle.lalrpop_lr1_barren.specs.NamedLists.{AreListedByName};
ghost use Rattle.lalrpop_lr1_check_lookaheads.specs.Ends.{
  AreEnds,
  BringsToEnd,
  GainsEndMarks,
  HaveJustMarks,
  SlotBringsToEnd,
  SlotsBringToEnd,
};
ghost use Rattle.lalrpop_lr1_check_lookaheads.specs.KeyedSets.{OfSome};
ghost use Rattle.lalrpop_lr1_check_lookaheads.specs.LookaheadSlots.{slot_key, slot_keys};

use crate::lookaheads::ends::{End, Ends};
use crate::lookaheads::seeds::is_of;
use crate::lookaheads::slots::{Slot, Slots};
use crate::lookaheads::walking::walk;
use lalrpop_grammar_repr::{Production, TerminalSet};
use lalrpop_lr1_barren::reachable::NamedProductions;
use lalrpop_lr1_core::Lr1State;
use lalrpop_sets::TokenSet;
use std::alloc::{AllocError, Global};

/// Adds the tokens to the end to which the production leads, where it is of the slot's name and leads to a state.
fn add_end<'g>(
    alloc: Global,
    terminals: &TerminalSet,
    states: &[Lr1State<'_>],
    slot: Slot<'_>,
    production: &'g Production,
    tokens: &TokenSet,
    ends: &mut Ends<'g>,
) -> Result<(), AllocError>
    requires { AreEnds ends.old }
    ensures { OnOk result ((look : List ℕ → LookaheadSet) → GainsEndMarks ends.old ends.new
        (BringsToEnd look states.now (slot_key slot.entry) tokens.now production.now)) }
{
    if !is_of(production, slot.name) {
        return Ok(());
    }
    match walk(states, slot.state, production.symbols.as_slice()) {
        None => Ok(()),
        Some(state) => {
            ends.add(alloc, terminals, End { state, production }, tokens)?;
            Ok(())
        }
    }
}

/// Adds the tokens to the ends to which the productions of the slot's name lead.
fn add_ends_of<'g>(
    alloc: Global,
    terminals: &TerminalSet,
    states: &[Lr1State<'_>],
    slot: Slot<'_>,
    productions: &[&'g Production],
    tokens: &TokenSet,
    ends: &mut Ends<'g>,
) -> Result<(), AllocError>
    requires { AreEnds ends.old }
    ensures { OnOk result ((look : List ℕ → LookaheadSet) → GainsEndMarks ends.old ends.new
        (OfSome (BringsToEnd look states.now (slot_key slot.entry) tokens.now) (lent productions.now))) }
{
    for production in productions {
        add_end(alloc, terminals, states, slot, *production, tokens, ends)?;
    }
    Ok(())
}

/// Adds the tokens to the ends to which the productions of the name of the slot with this number lead, if there is one.
fn add_ends_from<'g>(
    alloc: Global,
    terminals: &TerminalSet,
    states: &[Lr1State<'_>],
    named: &NamedProductions<'_, 'g>,
    slots: &Slots<'_>,
    number: usize,
    tokens: &Option<TokenSet>,
    ends: &mut Ends<'g>,
) -> Result<(), AllocError>
    requires named { AreListedByName named.now }
    requires ends { AreEnds ends.old }
    ensures { OnOk result ((look : List ℕ → LookaheadSet) → GainsEndMarks ends.old ends.new
        (SlotBringsToEnd look states.now (table_productions named.now.table.now) (slot_keys slots.now) number tokens.now)) }
{
    match tokens {
        None => Ok(()),
        Some(set) => match slots.slot_at(number) {
            None => Ok(()),
            Some(slot) => {
                let productions = named.productions_of(slot.name);
                add_ends_of(alloc, terminals, states, slot, productions, set, ends)?;
                Ok(())
            }
        },
    }
}

/// Adds the tokens of all slots to the ends to which the productions of their names lead.
fn add_all_ends<'g>(
    alloc: Global,
    terminals: &TerminalSet,
    states: &[Lr1State<'_>],
    named: &NamedProductions<'_, 'g>,
    slots: &Slots<'_>,
    sets: &[Option<TokenSet>],
    ends: &mut Ends<'g>,
) -> Result<(), AllocError>
    requires named { AreListedByName named.now }
    requires ends { AreEnds ends.old }
    ensures { OnOk result ((look : List ℕ → LookaheadSet) → GainsEndMarks ends.old ends.new
        (SlotsBringToEnd look states.now (table_productions named.now.table.now) (slot_keys slots.now) sets.now)) }
{
    for number in 0..sets.len() {
        add_ends_from(
            alloc,
            terminals,
            states,
            named,
            slots,
            number,
            &sets[number],
            ends,
        )?;
    }
    Ok(())
}

/// The ends to which the productions of the names of slots lead, each with the tokens of these slots.
pub(crate) fn propagated_ends<'g>(
    alloc: Global,
    terminals: &TerminalSet,
    states: &[Lr1State<'_>],
    named: &NamedProductions<'_, 'g>,
    slots: &Slots<'_>,
    sets: &[Option<TokenSet>],
) -> Result<Ends<'g>, AllocError>
    requires { AreListedByName named.now }
    ensures { IfOk result (λ ends. (look : List ℕ → LookaheadSet) → HaveJustMarks ends
        (SlotsBringToEnd look states.now (table_productions named.now.table.now) (slot_keys slots.now) sets.now)) }
{
    let mut ends = Ends::new(alloc);
    add_all_ends(alloc, terminals, states, named, slots, sets, &mut ends)?;
    Ok(ends)
}
