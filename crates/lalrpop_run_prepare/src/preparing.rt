//! The refusals of a grammar in their order, and what is prepared where none stands.

ghost use Rattle.std.specs.Prelude.{◌≡◌, IfErr, IfOk, map};
ghost use Rattle.lalrpop_grammar.specs.Views.{grammar_view, intern_entry_view};
ghost use Rattle.lalrpop_grammar_rules.specs.Search.{finds, is_too_deep};
ghost use Rattle.lalrpop_lexer.specs.Simulation.{Decides};
ghost use Rattle.lalrpop_lexer_scan.specs.Scanning.{IsScannerOf};
ghost use Rattle.lalrpop_norm_token_check.specs.Patterns.{entry_patterns, entry_precedences};
ghost use Rattle.lalrpop_norm_theory.specs.Premises.{IsReadGrammar};
ghost use Rattle.lalrpop_run_prepare.specs.PrepareRefusals.{IsPrepareRefusal};
ghost use Rattle.lalrpop_run_prepare.specs.PreparedGrammars.{IsPreparedWhereRead};
ghost use Rattle.lalrpop_run_prepare.specs.Tokenizers.{scan_entries};

use crate::expanding::expand;
use crate::prepared::Prepared;
use crate::refusals::GenerateError;
use crate::tokens::{Normalized, normalize_for_start, terminals_of};
use lalrpop_grammar::{Atom, Grammar, MatchEntry, Origin};
use lalrpop_grammar_repr::{Grammar as LoweredGrammar, Session};
use lalrpop_grammar_symbols::{List, NonterminalString};
use lalrpop_lexer::dfa::Dfa;
use lalrpop_lexer_scan::Scanner;
use std::alloc::{AllocError, Global};

/// The scanner of the tokenizer's entries, which the automaton decides.
fn scanner_of(alloc: Global, dfa: Dfa, entries: List<MatchEntry>) -> Result<Scanner, AllocError>
    ensures { IfOk result (λ scanner. Decides dfa (entry_patterns (map intern_entry_view entries))
        (entry_precedences (map intern_entry_view entries))
        → IsScannerOf scanner (scan_entries (map intern_entry_view entries))) }
{
    let terminals = terminals_of(alloc, entries)?;
    Ok(Scanner::new(dfa, terminals))
}

/// What a parser is made of beside the written grammar and the session.
#[derive(Drop)]
struct Parts {
    start: Atom,
    start_name: NonterminalString,
    lowered: LoweredGrammar,
    origins: List<Origin>,
    scanner: Scanner,
    expansion: LoweredGrammar,
}

/// The parts of what is prepared, made one after the other, so that few of them are at hand wherever the grammar is refused.
fn parts_of(
    alloc: Global,
    grammar: &Grammar,
    start: &Atom,
    session: &Session,
) -> Result<Parts, GenerateError<'static>>
    ensures start { IfOk result (λ parts. parts.start ≡ start.now) }
    ensures prepared { IfOk result (λ parts. IsPreparedWhereRead finds is_too_deep (record {
      written = grammar.now;
      session = session.now;
      start = parts.start;
      start_name = parts.start_name;
      lowered = parts.lowered;
      origins = parts.origins;
      scanner = parts.scanner;
      expansion = parts.expansion;
    })) }
    ensures refused { IfErr result (λ error. IsReadGrammar (grammar_view grammar.now)
        → IsPrepareRefusal finds is_too_deep session.now.features.items session.now.macro_recursion_limit start.now
        (grammar_view grammar.now) error) }
{
    let copy = grammar.try_clone(alloc)?;
    let own_start = start.try_clone()?;
    let (made, dfa) = normalize_for_start(alloc, session, start, copy)?;
    made.grammar.nonterminals.known();
    let Normalized {
        grammar: lowered,
        origins,
        entries,
    } = made;
    let scanner = scanner_of(alloc, dfa, entries)?;
    let expanded = expand(alloc, &lowered, &grammar.prefix, start, grammar.span)?;
    let (expansion, start_name) = expanded;
    Ok(Parts {
        start: own_start,
        start_name,
        lowered,
        origins,
        scanner,
        expansion,
    })
}

/// What a parser of the grammar is made of, or why there is none. `start` names the rule to start from; the session's features say
/// what is enabled.
///
/// It is promised for a grammar as one is read, with any prefix of two or more underscores.
///
/// # Errors
///
/// The refusals in their order: an extern block; error recovery in an enabled alternative; a fault of the grammar with its place; a
/// start that no enabled rule without parameters can be, or no public one; rules that would be inlined into themselves, or too many
/// actions; a nonterminal that the start reaches and of which no finite sentence comes, the least by name. `ConditionLimit` only where
/// an alternative of a macro call that is made is under `~~` or `!~`. Or `Memory`. Never a conflict.
pub fn prepare(
    alloc: Global,
    grammar: Grammar,
    start: &Atom,
    session: Session,
) -> Result<Prepared, GenerateError<'static>>
    ensures written { IfOk result (λ prepared. prepared.written ≡ grammar) }
    ensures session { IfOk result (λ prepared. prepared.session ≡ session) }
    ensures start { IfOk result (λ prepared. prepared.start ≡ start.now) }
    ensures refused { IfErr result (λ error. IsReadGrammar (grammar_view grammar)
        → IsPrepareRefusal finds is_too_deep session.features.items session.macro_recursion_limit start.now
        (grammar_view grammar) error) }
{
    let parts = parts_of(alloc, &grammar, start, &session)?;
    let Parts {
        start,
        start_name,
        lowered,
        origins,
        scanner,
        expansion,
    } = parts;
    Ok(Prepared {
        written: grammar,
        session,
        start,
        start_name,
        lowered,
        origins,
        scanner,
        expansion,
    })
}
