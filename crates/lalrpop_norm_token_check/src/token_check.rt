//! The token check: the entries of the tokenizer, and what is wrong with them.

ghost use Rattle.std.specs.Prelude.{IfErr, IfOk, map};
ghost use Rattle.lalrpop_grammar.specs.Views.{grammar_view, intern_entry_view};
ghost use Rattle.lalrpop_lexer.specs.Simulation.{Decides};
ghost use Rattle.lalrpop_norm_token_check.specs.Checked.{AreCheckedEntries, DecidesEntries, IsTokenChecked};
ghost use Rattle.lalrpop_norm_token_check.specs.Entries.{AreFullEntries};
ghost use Rattle.lalrpop_norm_token_check.specs.Faults.{IsTokenFault};
ghost use Rattle.lalrpop_norm_token_check.specs.KeptPlaces.{first_places};
ghost use Rattle.lalrpop_norm_token_check.specs.Patterns.{entry_patterns, entry_precedences};

use crate::automaton::entries_dfa;
use crate::entries::{literals_in, make_entries, with_entries};
use crate::places::LiteralPlaces;
use crate::telling::{check_block, fault_told};
use lalrpop_grammar::{Grammar, MatchEntry};
use lalrpop_grammar_repr::NormResult;
use lalrpop_grammar_symbols::List;
use lalrpop_lexer::dfa::Dfa;
use lalrpop_lexer_scan::entries_of;
use std::alloc::Global;

/// The expanded grammar with the entries of its tokenizer behind its items: those of its match block in written order, `_`
/// standing for the literals in use that no entry lists; without a block all literals in use, quoted ones before regexes.
///
/// # Errors
///
/// The first literal in use that the match block lacks (N18); where none is lacking, the first entry that is no pattern, or
/// one that no automaton is made for (N19); where none is refused, two entries that match the same text (N20). A literal is
/// told at its entry of the match block, else where it stands first in the written grammar. Or `Memory`; never
/// `ConditionLimit`.
pub fn validate(alloc: Global, grammar: Grammar, places: &LiteralPlaces) -> NormResult<Grammar>
    ensures ok { IfOk result (λ checked.
        IsTokenChecked (first_places places.now) (grammar_view grammar) (grammar_view checked)) }
    ensures err { IfErr result (IsTokenFault (first_places places.now) (grammar_view grammar)) }
{
    let (checked, _) = validate_with_dfa(alloc, grammar, places)?;
    Ok(checked)
}

/// The same with the automaton, which decides the patterns of these entries by their precedences.
///
/// # Errors
///
/// Those of [`validate`].
pub fn validate_with_dfa(
    alloc: Global,
    grammar: Grammar,
    places: &LiteralPlaces,
) -> NormResult<(Grammar, Dfa)>
    ensures ok { IfOk result (λ checked.
        IsTokenChecked (first_places places.now) (grammar_view grammar) (grammar_view checked.0)) }
    ensures decides { IfOk result (λ checked. DecidesEntries (grammar_view grammar) checked.1) }
    ensures err { IfErr result (IsTokenFault (first_places places.now) (grammar_view grammar)) }
{
    let entries = entries_in_use(alloc, &grammar, places)?;
    let dfa = checked_dfa(alloc, &grammar, places, &entries)?;
    let checked = with_entries(grammar, entries)?;
    Ok((checked, dfa))
}

/// The tokenizer's entries, where no literal in use is lacking.
fn entries_in_use(
    alloc: Global,
    grammar: &Grammar,
    places: &LiteralPlaces,
) -> NormResult<List<MatchEntry>>
    ensures ok { IfOk result (λ entries. AreFullEntries (grammar_view grammar.now) (map intern_entry_view entries)) }
    ensures err { IfErr result (IsTokenFault (first_places places.now) (grammar_view grammar.now)) }
{
    let uses = entries_of(alloc, grammar)?;
    let literals = literals_in(alloc, uses.as_slice())?;
    let used = literals.as_slice();
    check_block(alloc, grammar, places, used)?;
    let entries = make_entries(alloc, grammar, used)?;
    Ok(entries)
}

/// The automaton of the entries, where none of them is refused and no two tie.
fn checked_dfa(
    alloc: Global,
    grammar: &Grammar,
    places: &LiteralPlaces,
    entries: &List<MatchEntry>,
) -> NormResult<Dfa>
    ensures ok { IfOk result (λ dfa. AreFullEntries (grammar_view grammar.now) (map intern_entry_view entries.now)
        → AreCheckedEntries (first_places places.now) (grammar_view grammar.now) (map intern_entry_view entries.now)) }
    ensures decides { IfOk result (λ dfa. Decides dfa (entry_patterns (map intern_entry_view entries.now))
        (entry_precedences (map intern_entry_view entries.now))) }
    ensures err { IfErr result (λ fault. AreFullEntries (grammar_view grammar.now) (map intern_entry_view entries.now)
        → IsTokenFault (first_places places.now) (grammar_view grammar.now) fault) }
{
    match entries_dfa(alloc, entries.as_slice()) {
        Ok(dfa) => Ok(dfa),
        Err(fault) => Err(fault_told(grammar, places, fault)),
    }
}
