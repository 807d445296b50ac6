//! The lines of a report: items, reductions, edges, and what they are made of.

ghost use Rattle.std.specs.Prelude.{◌≡◌, ◌≤◌, ◌++◌, OnOk, codes, cond, decimal, map, replicate, string_bytes};
ghost use Rattle.std.specs.Fmt.{char_count, is_char_start};
ghost use Rattle.lalrpop_grammar_symbols.specs.Texts.{terminal_text};
ghost use Rattle.lalrpop_grammar_symbols.specs.Views.{terminal_view};
ghost use Rattle.lalrpop_lr1_core.specs.Dots.{before_dot, behind_dot};
ghost use Rattle.lalrpop_lr1_core.specs.ItemTexts.{production_symbol_text};
ghost use Rattle.lalrpop_lane_report.specs.Reports.{
  behind_blanks,
  filled_to,
  goto_line,
  item_lines,
  lookahead_line,
  production_line,
  reduction_lines,
  shift_line,
};
ghost use Rattle.lalrpop_lane_report.specs.ShownStates.{shown_goto, shown_item, shown_production, shown_reduction, shown_shift};

use crate::lookahead_printer::LookaheadPrinter;
use lalrpop_grammar_repr::{Production, Symbol, TerminalSet};
use lalrpop_grammar_symbols::{NonterminalString, TerminalString};
use lalrpop_lr1_core::{Item, StateIndex};
use std::alloc::{AllocError, Global};

/// How many characters begin with the byte: one, or none where the byte goes on with one.
fn chars_begun(byte: u8) -> usize
    ensures value { result ≡ cond (is_char_start byte) 1 0 }
    ensures bound { result ≤ 1 }
{
    if byte < 0x80 || byte >= 0xC0 { 1 } else { 0 }
}

/// How many characters the text has.
fn count_chars(text: &str) -> usize
    ensures { result ≡ char_count text.now }
{
    let mut count = 0;
    for byte in text.as_bytes() {
        count += chars_begun(*byte);
    }
    count
}

/// Appends so many blanks.
fn push_blanks(count: usize, out: &mut String) -> Result<(), AllocError>
    ensures { OnOk result (string_bytes out.new ≡ string_bytes out.old ++ replicate count 32) }
{
    for _ in 0..count {
        out.push_str(" ")?;
    }
    Ok(())
}

/// Appends the text, filled up with blanks to so many characters.
fn push_filled(text: &str, width: usize, out: &mut String) -> Result<(), AllocError>
    ensures { OnOk result (string_bytes out.new ≡ string_bytes out.old ++ filled_to width text.now) }
{
    out.push_str(text)?;
    push_blanks(width.saturating_sub(count_chars(text)), out)
}

/// Appends the name, filled up with blanks to so many characters.
fn push_filled_name(
    name: &NonterminalString,
    width: usize,
    out: &mut String,
) -> Result<(), AllocError>
    ensures { OnOk result (string_bytes out.new ≡ string_bytes out.old ++ filled_to width name.now.0) }
{
    push_filled(name.0.as_str(), width, out)
}

/// Appends the terminal as it is printed, filled up with blanks to so many characters.
pub(crate) fn push_filled_terminal(
    alloc: Global,
    terminal: &TerminalString,
    width: usize,
    out: &mut String,
) -> Result<(), AllocError>
    ensures { OnOk result (string_bytes out.new
        ≡ string_bytes out.old ++ filled_to width (terminal_text (terminal_view terminal.now))) }
{
    let text = terminal.canonical_form(alloc)?;
    push_filled(text.as_str(), width, out)
}

/// Appends a name as it is, or a terminal as it is printed.
fn push_symbol(alloc: Global, symbol: &Symbol, out: &mut String) -> Result<(), AllocError>
    ensures { OnOk result (string_bytes out.new ≡ string_bytes out.old ++ production_symbol_text symbol.now) }
{
    match symbol {
        Symbol::Nonterminal(name) => out.push_str(name.0.as_str()),
        Symbol::Terminal(terminal) => terminal.write_text(alloc, out),
    }
}

/// Appends the symbols, each behind a blank.
fn push_symbols(alloc: Global, symbols: &[Symbol], out: &mut String) -> Result<(), AllocError>
    ensures { OnOk result (string_bytes out.new
        ≡ string_bytes out.old ++ behind_blanks (map production_symbol_text symbols.now)) }
{
    for symbol in symbols {
        out.push_str(" ")?;
        push_symbol(alloc, symbol, out)?;
    }
    Ok(())
}

/// Appends the number.
pub(crate) fn push_number(alloc: Global, number: usize, out: &mut String) -> Result<(), AllocError>
    ensures { OnOk result (string_bytes out.new ≡ string_bytes out.old ++ decimal number) }
{
    let shown = number.to_string(alloc)?;
    out.push_str(shown.as_str())
}

/// Appends the production, without its line's end.
pub(crate) fn push_production(
    alloc: Global,
    production: &Production,
    out: &mut String,
) -> Result<(), AllocError>
    ensures { OnOk result (string_bytes out.new
        ≡ string_bytes out.old ++ production_line (shown_production production.now)) }
{
    out.push_str(production.nonterminal.0.as_str())?;
    out.push_str(" ->")?;
    push_symbols(alloc, production.symbols.as_slice(), out)
}

/// Appends the line of the lookahead, where it has tokens.
pub(crate) fn push_lookahead<L: LookaheadPrinter>(
    alloc: Global,
    lookahead: &L,
    terminals: &TerminalSet,
    out: &mut String,
) -> Result<(), AllocError>
    ensures { OnOk result (string_bytes out.new
        ≡ string_bytes out.old ++ lookahead_line (L.token_texts terminals.now lookahead.now)) }
{
    if lookahead.has_anything_to_print(terminals) {
        out.push_str("        lookahead")?;
        lookahead.push_tokens(alloc, terminals, out)?;
        out.push_str("\n")?;
    }
    Ok(())
}

/// Appends the dotted symbols of the item.
fn push_dotted<L>(alloc: Global, item: &Item<'_, L>, out: &mut String) -> Result<(), AllocError>
    ensures { OnOk result (string_bytes out.new ≡ string_bytes out.old
        ++ behind_blanks (map production_symbol_text (before_dot item.now))
        ++ codes " ." ++ behind_blanks (map production_symbol_text (behind_dot item.now))) }
{
    push_symbols(alloc, item.prefix(), out)?;
    out.push_str(" .")?;
    push_symbols(alloc, item.rest(), out)
}

/// Appends the lines of the item, its nonterminal filled up to the width.
pub(crate) fn push_item<L: LookaheadPrinter>(
    alloc: Global,
    item: &Item<'_, L>,
    width: usize,
    terminals: &TerminalSet,
    out: &mut String,
) -> Result<(), AllocError>
    ensures { OnOk result (string_bytes out.new ≡ string_bytes out.old
        ++ item_lines width (shown_item (L.token_texts terminals.now) item.now)) }
{
    out.push_str("\n    ")?;
    push_filled_name(&item.production.nonterminal, width, out)?;
    out.push_str(" ->")?;
    push_dotted(alloc, item, out)?;
    out.push_str("\n")?;
    push_lookahead(alloc, &item.lookahead, terminals, out)
}

/// Appends the lines of the reduction.
pub(crate) fn push_reduction<L: LookaheadPrinter>(
    alloc: Global,
    reduction: &(L, &Production),
    terminals: &TerminalSet,
    out: &mut String,
) -> Result<(), AllocError>
    ensures { OnOk result (string_bytes out.new ≡ string_bytes out.old
        ++ reduction_lines (shown_reduction (L.token_texts terminals.now) reduction.now)) }
{
    out.push_str("\n    reduction ")?;
    push_production(alloc, reduction.1, out)?;
    out.push_str("\n")?;
    push_lookahead(alloc, &reduction.0, terminals, out)
}

/// Appends the line of the shift, its terminal filled up to the width.
pub(crate) fn push_shift(
    alloc: Global,
    terminal: &TerminalString,
    target: StateIndex,
    width: usize,
    out: &mut String,
) -> Result<(), AllocError>
    ensures { OnOk result (string_bytes out.new
        ≡ string_bytes out.old ++ shift_line width (shown_shift (terminal.now, target))) }
{
    out.push_str("    ")?;
    push_filled_terminal(alloc, terminal, width, out)?;
    out.push_str(" shift and goto ")?;
    push_number(alloc, target.0, out)?;
    out.push_str("\n")
}

/// Appends the line of the goto, its name filled up to the width.
pub(crate) fn push_goto(
    alloc: Global,
    name: &NonterminalString,
    target: StateIndex,
    width: usize,
    out: &mut String,
) -> Result<(), AllocError>
    ensures { OnOk result (string_bytes out.new
        ≡ string_bytes out.old ++ goto_line width (shown_goto (name.now, target))) }
{
    out.push_str("    ")?;
    push_filled_name(name, width, out)?;
    out.push_str(" goto ")?;
    push_number(alloc, target.0, out)?;
    out.push_str("\n")
}
