//! By what states reduce, and whether they do before all tokens that are carried to ends.

ghost use Rattle.std.specs.Prelude.{◌≡◌, ◌↔◌, ℕ, IfOk, IsTrue, OnOk, Some, true};
ghost use Rattle.lalrpop_sets.specs.AscendingLists.{has};
ghost use Rattle.lalrpop_lr1_check_lookaheads.specs.Ends.{
  AreEnds,
  EndKey,
  GainsEndMarks,
  HasEndMark,
  HaveJustMarks,
  ReductionBrings,
  ReductionsBring,
  end_key,
};
ghost use Rattle.lalrpop_lr1_check_lookaheads.specs.KeyedSets.{OfSome};

use crate::lookaheads::ends::{End, Ends};
use lalrpop_grammar_repr::{Production, TerminalSet};
use lalrpop_lr1_core::Lr1State;
use lalrpop_sets::TokenSet;
use std::alloc::{AllocError, Global};

/// Adds the ends of the reductions of the state with this number, each with the tokens before which it is.
fn add_reductions<'g>(
    alloc: Global,
    terminals: &TerminalSet,
    state: usize,
    reductions: &[(TokenSet, &'g Production)],
    ends: &mut Ends<'g>,
) -> Result<(), AllocError>
    requires { AreEnds ends.old }
    ensures { OnOk result (GainsEndMarks ends.old ends.new (OfSome (ReductionBrings state) reductions.now)) }
{
    for reduction in reductions {
        let end = End {
            state,
            production: reduction.1,
        };
        ends.add(alloc, terminals, end, &reduction.0)?;
    }
    Ok(())
}

/// The ends of the reductions of all states, each with the tokens before which they are.
pub(crate) fn reduction_ends<'g>(
    alloc: Global,
    terminals: &TerminalSet,
    states: &[Lr1State<'g>],
) -> Result<Ends<'g>, AllocError>
    ensures { IfOk result (λ ends. HaveJustMarks ends (ReductionsBring states.now)) }
{
    let mut ends = Ends::new(alloc);
    for state in 0..states.len() {
        let reductions = states[state].reductions.as_slice();
        add_reductions(alloc, terminals, state, reductions, &mut ends)?;
    }
    Ok(ends)
}

/// Whether the end has all of the tokens.
fn has_all<'g>(
    alloc: Global,
    terminals: &TerminalSet,
    ends: &Ends<'g>,
    end: End<'g>,
    tokens: &TokenSet,
) -> Result<bool, AllocError>
    requires { AreEnds ends.now }
    ensures { IfOk result (λ has_all. IsTrue has_all
        ↔ ((k : ℕ) → has tokens.now k ≡ true → HasEndMark ends.now (end_key end.entry) (Some k))) }
{
    let mut all = ends.tokens_of(alloc, terminals, end)?;
    let came = all.union_with(tokens)?;
    Ok(!came)
}

/// Whether the second ends have all tokens that the first have.
pub(crate) fn are_within<'g>(
    alloc: Global,
    terminals: &TerminalSet,
    some: &Ends<'g>,
    all: &Ends<'g>,
) -> Result<bool, AllocError>
    requires some { AreEnds some.now }
    requires all { AreEnds all.now }
    ensures { IfOk result (λ are. IsTrue are
        ↔ ((end : EndKey) (k : ℕ) → HasEndMark some.now end (Some k) → HasEndMark all.now end (Some k))) }
{
    let keys = some.keys.as_slice();
    for number in 0..keys.len() {
        let has_all = has_all(alloc, terminals, all, keys[number], &some.sets[number])?;
        if !has_all {
            return Ok(false);
        }
    }
    Ok(true)
}
