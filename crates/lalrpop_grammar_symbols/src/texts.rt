//! The printed texts of symbols.

ghost use Rattle.std.specs.Prelude.{◌≡◌, ◌++◌, IfOk, OnOk, OnErr, Some, string_bytes};
ghost use Rattle.std.specs.Fmt.{WritesOnOk};
ghost use Rattle.lalrpop_grammar_symbols.specs.Views.{symbol_view, repeat_op_view};
ghost use Rattle.lalrpop_grammar_symbols.specs.Parts.{group_view, macro_view, repeat_view, texts_of_symbols};
ghost use Rattle.lalrpop_grammar_symbols.specs.Texts.{symbol_text, symbol_texts, sign_text, join_texts, group_text, macro_text, choose_text, named_text, repeat_text};

use crate::names::Name;
use crate::symbol::{ExprSymbol, MacroSymbol, RepeatOp, RepeatSymbol, Symbol, SymbolKind};
use std::alloc::{AllocError, Global};
use std::fmt::{self, Display, Formatter, Write};

impl Symbol {
    /// The printed text: `A`, `"a"`, `(A B)`, `M<A, B>`, `A*`, `<A>`, `<x:A>`, `<mut x:A>`, `@L`, `@R` or `!`.
    pub fn canonical_form(&self, alloc: Global) -> Result<String, AllocError>
        ensures { IfOk result (λ text. string_bytes text ≡ symbol_text (symbol_view self.now)) }
    {
        self.to_string(alloc)
    }

    /// Appends the printed text. Where memory is refused, `out` is as before.
    pub fn write_text(&self, alloc: Global, out: &mut String) -> Result<(), AllocError>
        ensures ok { OnOk result (string_bytes out.new
            ≡ string_bytes out.old ++ symbol_text (symbol_view self.now)) }
        ensures err { OnErr result (string_bytes out.new ≡ string_bytes out.old) }
    {
        let text = self.canonical_form(alloc)?;
        out.push_str(text.as_str())
    }
}

impl ExprSymbol {
    /// The printed text, `(A B)`.
    pub fn canonical_form(&self, alloc: Global) -> Result<String, AllocError>
        ensures { IfOk result (λ text.
            string_bytes text ≡ group_text (symbol_texts (group_view self.now))) }
    {
        self.to_string(alloc)
    }
}

impl MacroSymbol {
    /// The printed text, `M<A, B>`.
    pub fn canonical_form(&self, alloc: Global) -> Result<String, AllocError>
        ensures { let call = macro_view self.now in IfOk result (λ text.
            string_bytes text ≡ macro_text call.0 (symbol_texts call.1)) }
    {
        self.to_string(alloc)
    }
}

impl RepeatSymbol {
    /// The printed text, `A*`, `A+` or `A?`.
    pub fn canonical_form(&self, alloc: Global) -> Result<String, AllocError>
        ensures { let repeat = repeat_view self.now in IfOk result (λ text.
            string_bytes text ≡ repeat_text repeat.0 (symbol_text repeat.1)) }
    {
        self.to_string(alloc)
    }
}

impl Display for Symbol {
    ghost output = { λ s. Some (symbol_text (symbol_view s)) };

    fn fmt<W: Write>(&self, f: &mut Formatter<W>) -> fmt::Result {
        write_symbol(self, f)
    }
}

impl Display for ExprSymbol {
    ghost output = { λ group. Some (group_text (symbol_texts (group_view group))) };

    fn fmt<W: Write>(&self, f: &mut Formatter<W>) -> fmt::Result {
        write_group(self, f)
    }
}

impl Display for MacroSymbol {
    ghost output = { λ call. Some (macro_text (macro_view call).0 (symbol_texts (macro_view call).1)) };

    fn fmt<W: Write>(&self, f: &mut Formatter<W>) -> fmt::Result {
        write_call(self, f)
    }
}

impl Display for RepeatSymbol {
    ghost output = { λ repeat. Some (repeat_text (repeat_view repeat).0 (symbol_text (repeat_view repeat).1)) };

    fn fmt<W: Write>(&self, f: &mut Formatter<W>) -> fmt::Result {
        write_repeat(self, f)
    }
}

impl Display for RepeatOp {
    ghost output = { λ op. Some (sign_text (repeat_op_view op)) };

    fn fmt<W: Write>(&self, f: &mut Formatter<W>) -> fmt::Result {
        f.write_str(match self {
            RepeatOp::Star => "*",
            RepeatOp::Plus => "+",
            RepeatOp::Question => "?",
        })
    }
}

#[cycle(texts)]
fn write_symbol<W: Write>(symbol: &Symbol, f: &mut Formatter<W>) -> fmt::Result
    ensures { WritesOnOk W.write_str_gives f.old result
        (symbol_text (symbol_view symbol.now)) f.new }
{
    match &symbol.kind {
        SymbolKind::Expr(group) => write_group(group, f),
        SymbolKind::AmbiguousId(name) => f.write_str(name.as_str()),
        SymbolKind::Terminal(terminal) => terminal.fmt(f),
        SymbolKind::Nonterminal(name) => name.fmt(f),
        SymbolKind::Macro(call) => write_call(call, f),
        SymbolKind::Repeat(repeat) => write_repeat(repeat.get(), f),
        SymbolKind::Choose(chosen) => write_chosen(chosen.get(), f),
        SymbolKind::Name(name, named) => write_named(name, named.get(), f),
        SymbolKind::Lookahead => f.write_str("@L"),
        SymbolKind::Lookbehind => f.write_str("@R"),
        SymbolKind::Error => f.write_str("!"),
    }
}

#[cycle(texts)]
fn write_group<W: Write>(group: &ExprSymbol, f: &mut Formatter<W>) -> fmt::Result
    ensures { WritesOnOk W.write_str_gives f.old result
        (group_text (symbol_texts (group_view group.now))) f.new }
{
    f.write_str("(")?;
    write_symbols(group.symbols.as_slice(), " ", f)?;
    f.write_str(")")
}

#[cycle(texts)]
fn write_call<W: Write>(call: &MacroSymbol, f: &mut Formatter<W>) -> fmt::Result
    ensures { let view = macro_view call.now in WritesOnOk W.write_str_gives f.old result
        (macro_text view.0 (symbol_texts view.1)) f.new }
{
    call.name.fmt(f)?;
    f.write_str("<")?;
    write_symbols(call.args.as_slice(), ", ", f)?;
    f.write_str(">")
}

#[cycle(texts)]
fn write_repeat<W: Write>(repeat: &RepeatSymbol, f: &mut Formatter<W>) -> fmt::Result
    ensures { let view = repeat_view repeat.now in WritesOnOk W.write_str_gives f.old result
        (repeat_text view.0 (symbol_text view.1)) f.new }
{
    write_symbol(&repeat.symbol, f)?;
    repeat.op.fmt(f)
}

#[cycle(texts)]
fn write_chosen<W: Write>(chosen: &Symbol, f: &mut Formatter<W>) -> fmt::Result
    ensures { WritesOnOk W.write_str_gives f.old result
        (choose_text (symbol_text (symbol_view chosen.now))) f.new }
{
    f.write_str("<")?;
    write_symbol(chosen, f)?;
    f.write_str(">")
}

#[cycle(texts)]
fn write_named<W: Write>(name: &Name, named: &Symbol, f: &mut Formatter<W>) -> fmt::Result
    ensures { WritesOnOk W.write_str_gives f.old result
        (named_text name.now.mutable name.now.name (symbol_text (symbol_view named.now))) f.new }
{
    f.write_str("<")?;
    name.fmt(f)?;
    f.write_str(":")?;
    write_symbol(named, f)?;
    f.write_str(">")
}

#[cycle(texts)]
fn write_symbols<W: Write>(symbols: &[Symbol], separator: &str, f: &mut Formatter<W>) -> fmt::Result
    ensures { WritesOnOk W.write_str_gives f.old result
        (join_texts separator.now (texts_of_symbols symbols.now)) f.new }
{
    for (i, symbol) in symbols.iter().enumerate() {
        if i > 0 {
            f.write_str(separator)?;
        }
        write_symbol(symbol, f)?;
    }
    Ok(())
}
