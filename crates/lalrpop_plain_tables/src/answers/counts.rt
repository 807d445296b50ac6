//! How many states and conflicts there are.

ghost use Rattle.std.specs.Prelude.{IfOk, Some};
ghost use Rattle.lalrpop_lr1_first.specs.NumberedGrammars.{HasItsTerminals};
ghost use Rattle.lalrpop_lr1_build.specs.CollapseAnswers.{AreCanonicalOf, AreCanonicalOfSome};
ghost use Rattle.lalrpop_plain_tables.specs.CountTexts.{conflict_count_text, counts_text};
ghost use Rattle.lalrpop_plain_tables.specs.Counts.{AreCollapsedSoMany, AreSoMany, AreWithoutSoMany};

use crate::answers::canonical::Canonical;
use lalrpop_grammar_repr::{Grammar, TerminalSet};
use lalrpop_grammar_symbols::NonterminalString;
use lalrpop_lr1_build::build_lr0_states;
use lalrpop_lr1_build::collapse::collapse_to_lalr_states;
use lalrpop_lr1_core::{Lr1State, TableFault};
use std::alloc::{AllocError, Global};
use std::fmt::{self, Display, Formatter, Write};

/// How many states a grammar has for a start, and how many conflicts.
#[derive(Clone, Copy)]
pub struct Counts {
    /// Canonical states.
    pub canonical: usize,
    /// States into which these collapse.
    pub collapsed: usize,
    /// States without lookaheads.
    pub without: usize,
    /// Conflicts of the canonical states.
    pub conflicts: usize,
}

/// A number of conflicts, as it is told.
#[derive(Clone, Copy)]
struct ConflictCount(usize);

impl Display for ConflictCount {
    ghost output = { λ count. Some (conflict_count_text count.0) };

    fn fmt<W: Write>(&self, f: &mut Formatter<W>) -> fmt::Result {
        if self.0 == 0 {
            f.write_str("no conflict")
        } else {
            write!(f, "{} conflicts", self.0)
        }
    }
}

impl Display for Counts {
    ghost output = { λ counts. Some (counts_text counts) };

    fn fmt<W: Write>(&self, f: &mut Formatter<W>) -> fmt::Result {
        write!(
            f,
            "{} canonical states, {} collapsed, {} without lookaheads; {}",
            self.canonical,
            self.collapsed,
            self.without,
            ConflictCount(self.conflicts)
        )
    }
}

/// Into how many states the canonical states collapse.
fn collapsed_count(
    alloc: Global,
    terminals: &TerminalSet,
    states: &[Lr1State<'_>],
) -> Result<usize, AllocError>
    requires { AreCanonicalOfSome terminals.now states.now }
    ensures { IfOk result (AreCollapsedSoMany terminals.now states.now) }
{
    match collapse_to_lalr_states(alloc, terminals, states) {
        Ok(collapsed) => Ok(collapsed.len()),
        Err(TableFault::Conflicts(error)) => Ok(error.states.len()),
        Err(TableFault::Memory) => Err(AllocError),
    }
}

/// How many states without lookaheads the grammar has for a start.
fn count_without(
    alloc: Global,
    grammar: &Grammar,
    start: &NonterminalString,
) -> Result<usize, AllocError>
    requires { HasItsTerminals grammar.now }
    ensures { IfOk result (AreWithoutSoMany grammar.now start.now) }
{
    match build_lr0_states(alloc, grammar, start.try_clone()?) {
        Ok(states) => Ok(states.len()),
        Err(TableFault::Conflicts(error)) => Ok(error.states.len()),
        Err(TableFault::Memory) => Err(AllocError),
    }
}

/// How many states and conflicts the grammar has for a start, of which these are the canonical states.
pub fn counts_of(
    alloc: Global,
    grammar: &Grammar,
    start: &NonterminalString,
    canonical: &Canonical<'_>,
) -> Result<Counts, AllocError>
    requires { AreCanonicalOf grammar.now start.now grammar.now.terminals canonical.now.states.items }
    ensures { IfOk result (AreSoMany grammar.now start.now canonical.now) }
{
    let states = canonical.states.as_slice();
    Ok(Counts {
        canonical: states.len(),
        collapsed: collapsed_count(alloc, &grammar.terminals, states)?,
        without: count_without(alloc, grammar, start)?,
        conflicts: canonical.conflicts,
    })
}
