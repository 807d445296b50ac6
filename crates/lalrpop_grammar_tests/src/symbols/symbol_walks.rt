//! Symbols that stand in others, and their names replaced. Texts and copies of each kind are cases.

ghost use Rattle.std.specs.Prelude.{◌≡◌};
ghost use Rattle.lalrpop_grammar_symbols.specs.Symbols.{Sym};
ghost use Rattle.lalrpop_grammar_symbols.specs.Views.{span_view, symbol_view};

use crate::check::{boxed, check, is_shown};
use crate::symbols::symbols::{is_copied, symbols_of_names};
use lalrpop_grammar_symbols::{
    Atom, List, MacroSymbol, NonterminalString, Span, Subsymbols, Symbol, SymbolKind, SymbolMap,
    subsymbols_of,
};
use lalrpop_json_document::lend_value;
use lalrpop_json_symbols::symbol_of;
use serde_json::Value;
use std::alloc::{AllocError, Global};
use std::process::Abort;

/// `M<(a b)*, <mut x:c>>`
const NESTED: &str =
    r#"{"args":[{"kind":"repeat","op":"*","span":[2,8],"symbol":{"expr":[{"kind":"id","name":"a","span":[3,4]},{"kind":"id","name":"b","span":[5,6]}],"kind":"group","span":[2,7]}},{"kind":"named","mutable":true,"name":"x","span":[10,19],"symbol":{"kind":"id","name":"c","span":[17,18]}}],"kind":"macro","name":"M","span":[0,20]}"#;

/// The symbol that the value spells.
fn symbol_at(rt: &impl Abort, alloc: Global, value: &Value) -> Symbol {
    let lent = lend_value(alloc, value).expect(rt, "memory");
    symbol_of(alloc, &lent).expect(rt, "a symbol")
}

fn symbol(rt: &impl Abort, alloc: Global, json: &str) -> Box<Symbol> {
    let value = Value::from_str(alloc, json).expect(rt, "JSON");
    boxed(rt, alloc, symbol_at(rt, alloc, &value))
}

/// Whether a copy of the symbol equals it, and it has this text.
fn is_copied_with_text(rt: &impl Abort, alloc: Global, symbol: &Symbol, text: &str) -> bool {
    is_copied(rt, alloc, symbol) & is_shown(rt, alloc, symbol, text)
}

#[test]
fn a_copy_of_a_nonterminal_equals_it(rt: HostRuntime) {
    let name = Atom::new(rt.alloc(), "B").expect(&rt, "memory");
    let nonterminal = boxed(&rt, rt.alloc(), nonterminal_at(Span(3, 7), name));
    check(&rt, is_copied_with_text(&rt, rt.alloc(), &nonterminal, "B"));
}

/// Writes the texts of the symbols, each behind a bar.
fn write_texts(rt: &impl Abort, symbols: Subsymbols<'_>, texts: &mut String) {
    for symbol in symbols {
        write!(texts, "|{symbol}").expect(rt, "memory");
    }
}

/// The texts of the symbols, each behind a bar.
fn texts_of(rt: &impl Abort, alloc: Global, symbols: Subsymbols<'_>) -> String {
    let mut texts = String::new(alloc);
    write_texts(rt, symbols, &mut texts);
    texts
}

/// Whether these are the texts of the symbols in the symbol, itself among them.
fn has_subsymbols(rt: &impl Abort, alloc: Global, symbol: &Symbol, texts: &str) -> bool {
    let symbols = symbol.subsymbols(alloc).expect(rt, "memory");
    let found = texts_of(rt, alloc, symbols);
    found.as_str() == texts
}

#[test]
fn subsymbols_in_reading_order(rt: HostRuntime) {
    let symbol = symbol(&rt, rt.alloc(), NESTED);
    let texts = "|M<(a b)*, <mut x:c>>|(a b)*|(a b)|a|b|<mut x:c>|c";
    check(&rt, has_subsymbols(&rt, rt.alloc(), &symbol, texts));
}

/// Whether these are the texts of all symbols in these.
fn have_subsymbols(rt: &impl Abort, alloc: Global, symbols: &[Symbol], texts: &str) -> bool {
    let all = subsymbols_of(alloc, symbols).expect(rt, "memory");
    let found = texts_of(rt, alloc, all);
    found.as_str() == texts
}

#[test]
fn subsymbols_of_several(rt: HostRuntime) {
    let symbols = symbols_of_names(&rt, rt.alloc(), &["a", "b"]);
    check(
        &rt,
        have_subsymbols(&rt, rt.alloc(), symbols.as_slice(), "|a|b"),
    );
    check(&rt, have_subsymbols(&rt, rt.alloc(), &[], ""));
}

/// Resolves each name to the nonterminal of that name, and counts the calls.
#[derive(Drop)]
struct Resolving {
    calls: u64,
}

fn nonterminal_at(span: Span, name: Atom) -> Symbol
    ensures { symbol_view result ≡ Sym.nonterminal (span_view span) name }
{
    Symbol::new(span, SymbolKind::Nonterminal(NonterminalString(name)))
}

impl SymbolMap for Resolving {
    ghost use Rattle.lalrpop_grammar_symbols.specs.Symbols.{Sym};

    type Error = AllocError;

    ghost mapping = { λ _. record {
      of_name = Sym.nonterminal;
      of_nonterminal = Sym.nonterminal;
      of_call = Sym.macro;
    } };

    fn map_name(&mut self, span: Span, name: &Atom) -> Result<Symbol, AllocError> {
        Ok(nonterminal_at(span, name.try_clone()?))
    }

    fn map_nonterminal(
        &mut self,
        span: Span,
        name: &NonterminalString,
    ) -> Result<Symbol, AllocError> {
        Ok(nonterminal_at(span, name.0.try_clone()?))
    }

    fn map_call(
        &mut self,
        span: Span,
        name: &NonterminalString,
        args: List<Symbol>,
    ) -> Result<Symbol, AllocError> {
        self.calls = self.calls.saturating_add(1);
        let name = name.try_clone()?;
        Ok(Symbol::new(span, SymbolKind::Macro(MacroSymbol { name, args })))
    }
}

fn has_no_ambiguous_id(rt: &impl Abort, alloc: Global, symbol: &Symbol) -> bool {
    for inner in symbol.subsymbols(alloc).expect(rt, "memory") {
        if matches!(&inner.kind, SymbolKind::AmbiguousId(_)) {
            return false;
        }
    }
    true
}

/// The nested symbol with its names resolved.
fn resolve_nested(rt: &impl Abort, alloc: Global, map: &mut Resolving) -> Box<Symbol> {
    let nested = symbol(rt, alloc, NESTED);
    let resolved = nested.map(alloc, map).expect(rt, "memory");
    boxed(rt, alloc, resolved)
}

/// Whether the symbol is the nested one with its names resolved.
fn is_resolved(rt: &impl Abort, alloc: Global, symbol: &Symbol) -> bool {
    has_no_ambiguous_id(rt, alloc, symbol) & is_shown(rt, alloc, symbol, "M<(a b)*, <mut x:c>>")
}

/// Whether the nested symbol comes out with its names resolved.
fn resolves_nested(rt: &impl Abort, alloc: Global, map: &mut Resolving) -> bool {
    let mapped = resolve_nested(rt, alloc, map);
    is_resolved(rt, alloc, &mapped)
}

#[test]
fn names_inside_a_symbol_replaced(rt: HostRuntime) {
    let mut map = Resolving { calls: 0 };
    check(&rt, resolves_nested(&rt, rt.alloc(), &mut map));
    check(&rt, map.calls == 1);
}
