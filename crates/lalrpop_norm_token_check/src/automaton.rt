//! The automaton of a tokenizer's entries, or why there is none.

ghost use Rattle.std.specs.Prelude.{◌≡◌, ◌<◌, IfErr, IfOk, None, length, map};
ghost use Rattle.lalrpop_grammar.specs.Views.{intern_entry_view};
ghost use Rattle.lalrpop_lexer.specs.Simulation.{Decides};
ghost use Rattle.lalrpop_lexer_pattern.specs.Wins.{HasNoTie};
ghost use Rattle.lalrpop_norm_token_check.specs.EntryFaults.{IsEntryFault, TellsEntryTie};
ghost use Rattle.lalrpop_norm_token_check.specs.Patterns.{entry_patterns, entry_precedences, first_refused};

use crate::reading::{precedences_of, read_patterns};
use lalrpop_grammar::MatchEntry;
use lalrpop_grammar_symbols::TerminalLiteral;
use lalrpop_lexer::dfa::{Dfa, DfaConstructionError, build_dfa};
use std::alloc::{AllocError, AllocFailed, Global};

/// Why there is no automaton for some entries.
#[derive(Debug, Drop)]
pub(crate) enum EntryFault {
    /// An entry is refused: the first one's literal.
    Refused(TerminalLiteral),
    /// Two entries match the same word, and none that matches it has a greater precedence: their literals.
    Tied(TerminalLiteral, TerminalLiteral),
    /// Memory ran out.
    Memory,
}

impl From<AllocError> for EntryFault {
    ghost use Rattle.lalrpop_norm_token_check.specs.declared.automaton.EntryFault.TheVariants.{Memory};

    ghost from_gives = { λ _ fault. fault ≡ Memory };

    fn from(_: AllocError) -> EntryFault {
        EntryFault::Memory
    }
}

impl<T: Drop> From<AllocFailed<T>> for EntryFault {
    ghost use Rattle.lalrpop_norm_token_check.specs.declared.automaton.EntryFault.TheVariants.{Memory};

    ghost from_gives = { λ _ fault. fault ≡ Memory };

    fn from(_: AllocFailed<T>) -> EntryFault {
        EntryFault::Memory
    }
}

/// The automaton that decides the entries' patterns by their precedences.
pub(crate) fn entries_dfa(alloc: Global, entries: &[MatchEntry]) -> Result<Dfa, EntryFault>
    ensures decides { IfOk result (λ dfa. Decides dfa (entry_patterns (map intern_entry_view entries.now))
        (entry_precedences (map intern_entry_view entries.now))) }
    ensures accepted { IfOk result (λ _. first_refused (map intern_entry_view entries.now) ≡ None) }
    ensures unambiguous { IfOk result (λ _. HasNoTie (entry_patterns (map intern_entry_view entries.now))
        (entry_precedences (map intern_entry_view entries.now))) }
    ensures fault { IfErr result (IsEntryFault (map intern_entry_view entries.now)) }
{
    let patterns = read_patterns(alloc, entries)?;
    let precedences = precedences_of(alloc, entries)?;
    match build_dfa(alloc, &patterns, &precedences) {
        Ok(dfa) => Ok(dfa),
        Err(DfaConstructionError::Ambiguity { match0, match1 }) => {
            let fault = tie(entries, match0.index(), match1.index())?;
            Err(fault)
        }
        Err(DfaConstructionError::NfaConstructionError { .. }) => unreachable!(),
        Err(DfaConstructionError::Memory) => Err(EntryFault::Memory),
    }
}

/// The fault of two entries that tie.
fn tie(entries: &[MatchEntry], one: usize, two: usize) -> Result<EntryFault, AllocError>
    requires one_within { one < length entries.now }
    requires two_within { two < length entries.now }
    ensures { IfOk result (TellsEntryTie (map intern_entry_view entries.now) one two) }
{
    let first = &entries[one];
    let second = &entries[two];
    Ok(EntryFault::Tied(
        first.match_literal.try_clone()?,
        second.match_literal.try_clone()?,
    ))
}
