//! The terminals of a tokenizer's entries.

ghost use Rattle.std.specs.Prelude.{◌≡◌, IfOk, map, option_map};
ghost use Rattle.lalrpop_grammar_symbols.specs.Views.{terminal_view};
ghost use Rattle.lalrpop_grammar.specs.Views.{intern_entry_view};
ghost use Rattle.lalrpop_lexer_scan.specs.Tokens.{terminal_unless_skip};
ghost use Rattle.lalrpop_norm_token_check.specs.Patterns.{scan_entry};
ghost use Rattle.lalrpop_run_prepare.specs.Tokenizers.{scan_entries};

use lalrpop_grammar::{MatchEntry, MatchMapping};
use lalrpop_grammar_symbols::{List, TerminalString};
use std::alloc::{AllocError, Global};

/// For each entry the terminal of its pieces, none where they are skipped.
///
/// # Errors
///
/// Memory is refused.
#[tactic(auto, using(crate::proofs::TokenEntryLemmas::one_more))]
pub fn terminals_of(
    alloc: Global,
    entries: List<MatchEntry>,
) -> Result<Vec<Option<TerminalString>>, AllocError>
    ensures { IfOk result (λ found. map (option_map terminal_view) found.items
        ≡ map terminal_unless_skip (scan_entries (map intern_entry_view entries))) }
{
    let mut found = Vec::new(alloc);
    for entry in entries.into_vec() {
        found.push(terminal_of(entry))?;
    }
    Ok(found)
}

fn terminal_of(entry: MatchEntry) -> Option<TerminalString>
    ensures { option_map terminal_view result ≡ terminal_unless_skip (scan_entry (intern_entry_view entry)) }
{
    match entry.into_user_name() {
        MatchMapping::Terminal(terminal) => Some(terminal),
        MatchMapping::Skip => None,
    }
}
