//! Items as text: all symbols, with the dot among them.

ghost use Rattle.std.specs.Prelude.{Some};
ghost use Rattle.std.specs.Fmt.{WritesOnOk};
ghost use Rattle.lalrpop_lr1_core.specs.ItemTexts.{dotted_text, side_text, production_symbol_text};

use crate::item::{Item, symbols_before, symbols_behind};
use crate::lookahead::Lookahead;
use lalrpop_grammar_repr::{Production, Symbol};
use std::fmt::{self, Debug, Display, Formatter, Write};

/// Writes a nonterminal's name or a terminal's text.
fn write_symbol<W: Write>(symbol: &Symbol, f: &mut Formatter<W>) -> fmt::Result
    ensures { WritesOnOk W.write_str_gives f.old result (production_symbol_text symbol.now) f.new }
{
    match symbol {
        Symbol::Nonterminal(name) => Display::fmt(name, f),
        Symbol::Terminal(terminal) => Display::fmt(terminal, f),
    }
}

/// Writes the symbols, each behind a blank.
fn write_symbols<W: Write>(symbols: &[Symbol], f: &mut Formatter<W>) -> fmt::Result
    ensures { WritesOnOk W.write_str_gives f.old result (side_text symbols.now) f.new }
{
    for symbol in symbols {
        f.write_str(" ")?;
        write_symbol(symbol, f)?;
    }
    Ok(())
}

/// Writes the production with a dot.
fn write_dotted<W: Write>(production: &Production, dot: usize, f: &mut Formatter<W>) -> fmt::Result
    ensures { WritesOnOk W.write_str_gives f.old result (dotted_text production.now dot) f.new }
{
    Display::fmt(&production.nonterminal, f)?;
    f.write_str(" =")?;
    write_symbols(symbols_before(production.symbols.as_slice(), dot), f)?;
    f.write_str(" (*)")?;
    write_symbols(symbols_behind(production.symbols.as_slice(), dot), f)
}

/// The nonterminal, ` =`, a blank and each symbol before the dot, ` (*)`, a blank and each symbol behind it, and then what the
/// lookahead adds.
impl<'g, L: Lookahead> Debug for Item<'g, L> {
    ghost use Rattle.std.specs.Fmt.{◌++?◌};

    ghost debug_output = { λ item. Some (dotted_text item.production.now item.index) ++? L.suffix item.lookahead };

    fn fmt<W: Write>(&self, f: &mut Formatter<W>) -> fmt::Result {
        write_dotted(self.production, self.index, f)?;
        self.lookahead.fmt_as_item_suffix(f)
    }
}
