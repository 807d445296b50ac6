//! How a report shows lookaheads.

ghost use Rattle.std.specs.Prelude.{◌≡◌, ◌++◌, ◌∷◌, [], OnOk, map, string_bytes};
ghost use Rattle.lalrpop_sets.specs.IterLeft.{tokens_to_come};
ghost use Rattle.lalrpop_sets.specs.TokenTexts.{next_text};
ghost use Rattle.lalrpop_sets.specs.TokensLeft.{token_seen};
ghost use Rattle.lalrpop_lane_report.specs.Reports.{behind_blanks};

use lalrpop_grammar_repr::TerminalSet;
use lalrpop_lr1_core::Lookahead;
use lalrpop_sets::{Nil, TokenRef, TokenSet, TokenSetIter};
use std::alloc::{AllocError, Global};

/// A lookahead that a report shows by its tokens.
pub trait LookaheadPrinter: Lookahead {
    ghost use Rattle.std.specs.Prelude.{◌≡◌, ◌++◌, ◌↔◌, [], IsFalse, List, OnOk, string_bytes};
    ghost use Rattle.lalrpop_grammar_symbols.specs.Symbols.{Text};
    ghost use Rattle.lalrpop_grammar_repr.specs.declared.terminal_set.TerminalSet.{TerminalSet};
    ghost use Rattle.lalrpop_lane_report.specs.Reports.{behind_blanks};

    // The texts of its tokens over these terminals, in order.
    ghost token_texts: { TerminalSet → Self → List Text };

    /// Appends a blank and a token for each of its tokens, in order.
    fn push_tokens(
        &self,
        alloc: Global,
        terminals: &TerminalSet,
        out: &mut String,
    ) -> Result<(), AllocError>
        ensures { OnOk result (string_bytes out.new
            ≡ string_bytes out.old ++ behind_blanks (token_texts terminals.now self.now)) };

    /// Whether it has tokens over these terminals.
    fn has_anything_to_print(&self, terminals: &TerminalSet) -> bool
        ensures { IsFalse result ↔ (token_texts terminals.now self.now ≡ []) };
}

impl LookaheadPrinter for Nil {
    ghost token_texts = { λ _ _. [] };

    fn push_tokens(&self, _: Global, _: &TerminalSet, _: &mut String) -> Result<(), AllocError> {
        Ok(())
    }

    fn has_anything_to_print(&self, _: &TerminalSet) -> bool {
        false
    }
}

impl LookaheadPrinter for TokenSet {
    ghost use Rattle.lalrpop_lane_report.specs.TableReports.{token_set_texts};

    ghost token_texts = { token_set_texts };

    fn push_tokens(
        &self,
        alloc: Global,
        terminals: &TerminalSet,
        out: &mut String,
    ) -> Result<(), AllocError> {
        push_all(alloc, self.iter(terminals), out)
    }

    fn has_anything_to_print(&self, terminals: &TerminalSet) -> bool {
        self.iter(terminals).next().is_some()
    }
}

/// Appends the token, behind a blank.
fn push_token(alloc: Global, token: TokenRef<'_>, out: &mut String) -> Result<(), AllocError>
    ensures { OnOk result (string_bytes out.new ≡ string_bytes out.old ++ behind_blanks (next_text (token_seen token.entry) ∷ [])) }
{
    let shown = token.to_string(alloc)?;
    out.push_str(" ")?;
    out.push_str(shown.as_str())
}

/// Appends the tokens that are left, each behind a blank.
fn push_all(alloc: Global, mut tokens: TokenSetIter<'_>, out: &mut String) -> Result<(), AllocError>
    ensures { OnOk result (string_bytes out.new
        ≡ string_bytes out.old ++ behind_blanks (map next_text (tokens_to_come tokens.entry))) }
{
    while let Some(token) = tokens.next() {
        push_token(alloc, token, out)?;
    }
    Ok(())
}
