//! Where the literals of a written grammar stand first.

ghost use Rattle.std.specs.Prelude.{◌≡◌, IfOk, map, option_map};
ghost use Rattle.lalrpop_grammar_symbols.specs.Symbols.{Terminal};
ghost use Rattle.lalrpop_grammar_symbols.specs.Views.{literal_view, span_view};
ghost use Rattle.lalrpop_grammar.specs.Views.{grammar_view};
ghost use Rattle.lalrpop_lexer_scan.specs.Literals.{first_span, uses_in_grammar};
ghost use Rattle.lalrpop_lexer_scan.specs.Noting.{use_view};
ghost use Rattle.lalrpop_norm_token_check.specs.KeptPlaces.{first_places};

use crate::noting::is_same;
use lalrpop_grammar::Grammar;
use lalrpop_grammar_symbols::{Span, TerminalLiteral};
use lalrpop_lexer_scan::{UsedLiteral, entries_of};
use std::alloc::{AllocError, Global};

/// Where each literal stands first in a written grammar whose disabled parts are gone. Expansion loses that order.
#[derive(Drop)]
pub struct LiteralPlaces {
    // Each literal once.
    uses: Vec<UsedLiteral>,
}

impl LiteralPlaces {
    /// The first places of the literals in the alternatives of the grammar, those of macros and in arguments too.
    pub fn new(alloc: Global, grammar: &Grammar) -> Result<LiteralPlaces, AllocError>
        ensures { IfOk result (λ places. (l : Terminal)
            → first_places places l ≡ first_span (uses_in_grammar (grammar_view grammar.now)) l) }
    {
        let uses = entries_of(alloc, grammar)?;
        Ok(LiteralPlaces { uses })
    }

    /// Where the literal stands first.
    pub fn get(&self, literal: &TerminalLiteral) -> Option<Span>
        ensures { option_map span_view result ≡ first_places self.now (literal_view literal.now) }
    {
        place_among(self.uses.as_slice(), literal)
    }
}

/// Where the first of the uses stands that is of this literal.
fn place_among(uses: &[UsedLiteral], literal: &TerminalLiteral) -> Option<Span>
    ensures { option_map span_view result ≡ first_span (map use_view uses.now) (literal_view literal.now) }
{
    let mut rest = uses;
    while let Some((one, others)) = rest.split_first() {
        if is_same(literal, &one.literal) {
            return Some(one.span);
        }
        rest = others;
    }
    None
}
