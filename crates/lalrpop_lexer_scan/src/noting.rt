//! The literals inside the symbols of a grammar, with the spans where they stand first.

ghost use Rattle.std.specs.Prelude.{◌≡◌, ℕ, List, OnOk, flat_map, if◌then◌else◌};
ghost use Rattle.std.specs.Option.{option_or};
ghost use Rattle.std.specs.Str.{bytes_eq};
ghost use Rattle.lalrpop_grammar_symbols.specs.Views.{symbol_view, span_view, terminal_view};
ghost use Rattle.lalrpop_grammar_symbols.specs.Symbols.{Terminal};
ghost use Rattle.lalrpop_grammar_symbols.specs.Subsymbols.{subsymbols_of};
ghost use Rattle.lalrpop_grammar_symbols.specs.SymbolWalks.{symbols_view};
ghost use Rattle.lalrpop_lexer_scan.specs.Literals.{uses_at, uses_of_terminal};
ghost use Rattle.lalrpop_lexer_scan.specs.Noting.{Notes, noted_span_of, noted_span};

use lalrpop_grammar_symbols::{
    Atom, Span, Symbol, SymbolKind, TerminalLiteral, TerminalString, subsymbols_of,
};
use std::alloc::{AllocError, Global};
use std::collections::BTreeMap;

/// Where each literal stands first, by its text.
#[derive(Drop)]
pub(crate) struct Uses {
    pub(crate) quoted: BTreeMap<Atom, Span>,
    pub(crate) regexes: BTreeMap<Atom, Span>,
}

impl Uses {
    /// No literal at all.
    pub(crate) fn new(alloc: Global) -> Uses
        ensures { (t : Terminal) → noted_span_of result t ≡ None }
    {
        Uses {
            quoted: BTreeMap::new(alloc),
            regexes: BTreeMap::new(alloc),
        }
    }
}

/// Notes the place of a text, unless it has one.
fn note(text: &Atom, span: Span, places: &mut BTreeMap<Atom, Span>) -> Result<(), AllocError>
    ensures { OnOk result ((q : List ℕ) → noted_span places.new q
        ≡ option_or (noted_span places.old q) (if bytes_eq q text.now then Some (span_view span) else None)) }
{
    if !places.contains_key(text) {
        places.insert(text.try_clone()?, span)?;
    }
    Ok(())
}

fn note_terminal(terminal: &TerminalString, span: Span, uses: &mut Uses) -> Result<(), AllocError>
    ensures { OnOk result (Notes uses.old uses.new (uses_of_terminal (span_view span) (terminal_view terminal.now))) }
{
    match terminal {
        TerminalString::Literal(TerminalLiteral::Quoted(text)) => {
            note(text, span, &mut uses.quoted)
        }
        TerminalString::Literal(TerminalLiteral::Regex(text)) => {
            note(text, span, &mut uses.regexes)
        }
        TerminalString::Bare(_) | TerminalString::Error => Ok(()),
    }
}

/// Notes the symbol itself, where it is a literal.
fn note_at(symbol: &Symbol, uses: &mut Uses) -> Result<(), AllocError>
    ensures { OnOk result (Notes uses.old uses.new (uses_at (symbol_view symbol.now))) }
{
    match &symbol.kind {
        SymbolKind::Terminal(terminal) => note_terminal(terminal, symbol.span, uses),
        SymbolKind::Expr(_)
        | SymbolKind::AmbiguousId(_)
        | SymbolKind::Nonterminal(_)
        | SymbolKind::Macro(_)
        | SymbolKind::Repeat(_)
        | SymbolKind::Choose(_)
        | SymbolKind::Name(_, _)
        | SymbolKind::Lookahead
        | SymbolKind::Lookbehind
        | SymbolKind::Error => Ok(()),
    }
}

/// Notes the literals in the symbols, at any depth.
pub(crate) fn note_symbols(
    alloc: Global,
    symbols: &[Symbol],
    uses: &mut Uses,
) -> Result<(), AllocError>
    ensures { OnOk result (Notes uses.old uses.new (flat_map uses_at (subsymbols_of (symbols_view symbols.now)))) }
{
    for symbol in subsymbols_of(alloc, symbols)? {
        note_at(symbol, uses)?;
    }
    Ok(())
}
