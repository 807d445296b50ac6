//! Which symbols have a spelling, and the JSON value of each.

ghost use Rattle.std.specs.Prelude.{◌≡◌, ◌↔◌, IfOk, IsTrue};
ghost use Rattle.serde_json.specs.Data.{string};
ghost use Rattle.serde_json.specs.View.{view};
ghost use Rattle.lalrpop_json_values.specs.Spelled.{list_json};
ghost use Rattle.lalrpop_json_symbols.specs.Readable.{AreReadableSymbols, IsReadableSymbol};
ghost use Rattle.lalrpop_json_symbols.specs.Spelling.{choose_json, group_json, id_json, look_json, macro_json, named_json, op_json, repeat_json, symbol_json, terminal_symbol_json};
ghost use Rattle.lalrpop_json_symbols.specs.Kinds.{IsReadableKind};

use crate::writer::literal::literal_value;
use crate::writer::scalar::{is_readable_span, span_value};
use lalrpop_grammar_symbols::{Name, RepeatOp, Span, Symbol, SymbolKind, TerminalString};
use lalrpop_json_values::{JsonObject, Key, Word, is_name};
use serde_json::Value;
use std::alloc::{AllocError, Global};

/// Whether the symbol has a spelling.
#[cycle(readable)]
#[tactic(auto, using(crate::proofs::SymbolSpellingLemmas::symbols_told))]
pub(crate) fn is_readable_symbol(symbol: &Symbol) -> bool
    ensures { IsTrue result ↔ IsReadableSymbol symbol.now }
{
    is_readable_span(symbol.span) && is_readable_kind(&symbol.kind)
}

#[cycle(readable)]
#[tactic(auto)]
fn is_readable_kind(kind: &SymbolKind) -> bool
    ensures { IsTrue result ↔ IsReadableKind kind.now }
{
    match kind {
        SymbolKind::Expr(group) => are_readable_symbols(group.symbols.as_slice()),
        SymbolKind::AmbiguousId(name) => is_name(name.as_str()),
        SymbolKind::Terminal(terminal) => matches!(terminal, TerminalString::Literal(_)),
        SymbolKind::Nonterminal(_) => false,
        SymbolKind::Macro(call) => {
            is_name(call.name.0.as_str()) && are_readable_symbols(call.args.as_slice())
        }
        SymbolKind::Repeat(repeat) => is_readable_symbol(&repeat.get().symbol),
        SymbolKind::Choose(chosen) => is_readable_symbol(chosen.get()),
        SymbolKind::Name(name, named) => {
            is_name(name.name.as_str()) && is_readable_symbol(named.get())
        }
        SymbolKind::Lookahead | SymbolKind::Lookbehind | SymbolKind::Error => true,
    }
}

/// Whether each of the symbols has a spelling.
#[cycle(readable)]
#[tactic(auto, using(crate::proofs::EachLemmas::each, crate::proofs::SymbolSpellingLemmas::symbol_lists))]
pub fn are_readable_symbols(symbols: &[Symbol]) -> bool
    ensures { IsTrue result ↔ AreReadableSymbols symbols.now }
{
    for symbol in symbols {
        if !is_readable_symbol(symbol) {
            return false;
        }
    }
    true
}

#[tactic(auto, unfolding(lalrpop_json_values::specs::Word::word_text))]
fn sign(op: RepeatOp) -> &'static str
    ensures { string result.now ≡ op_json op }
{
    match op {
        RepeatOp::Star => "*",
        RepeatOp::Plus => "+",
        RepeatOp::Question => "?",
    }
}

#[tactic(auto, unfolding(lalrpop_json_values::specs::Key::key_text, lalrpop_json_values::specs::Word::word_text))]
fn id_value(alloc: Global, span: Span, name: &str) -> Result<Value, AllocError>
    ensures { IfOk result (λ value. view value ≡ id_json span name.now) }
{
    let mut object = JsonObject::new(alloc);
    object.put_text(Key::Kind, "id")?;
    object.put_text(Key::Name, name)?;
    object.put(Key::Span, span_value(alloc, span)?)?;
    Ok(object.into_value())
}

/// A terminal as a symbol. One that is no literal gives `null`.
#[tactic(auto, unfolding(lalrpop_json_values::specs::Key::key_text, lalrpop_json_values::specs::Word::word_text))]
fn terminal_symbol_value(
    alloc: Global,
    span: Span,
    terminal: &TerminalString,
) -> Result<Value, AllocError>
    ensures { IfOk result (λ value. view value ≡ terminal_symbol_json terminal.now span) }
{
    let TerminalString::Literal(literal) = terminal else {
        return Ok(Value::Null);
    };
    let mut object = JsonObject::new(alloc);
    object.put_text(Key::Kind, "terminal")?;
    object.put(Key::Span, span_value(alloc, span)?)?;
    object.put(Key::Terminal, literal_value(alloc, literal)?)?;
    Ok(object.into_value())
}

/// A symbol without parts: `@L`, `@R` or `!`.
#[tactic(auto, unfolding(lalrpop_json_values::specs::Key::key_text))]
fn look_value(alloc: Global, span: Span, word: Word) -> Result<Value, AllocError>
    ensures { IfOk result (λ value. view value ≡ look_json word span) }
{
    let mut object = JsonObject::new(alloc);
    object.put_text(Key::Kind, word.text())?;
    object.put(Key::Span, span_value(alloc, span)?)?;
    Ok(object.into_value())
}

#[cycle(symbols)]
#[tactic(auto, unfolding(lalrpop_json_values::specs::Key::key_text, lalrpop_json_values::specs::Word::word_text))]
fn group_value(alloc: Global, span: Span, symbols: &[Symbol]) -> Result<Value, AllocError>
    ensures { IfOk result (λ value.
        view value ≡ group_json span (list_json symbol_json symbols.now)) }
{
    let mut object = JsonObject::new(alloc);
    object.put(Key::Expr, symbols_value(alloc, symbols)?)?;
    object.put_text(Key::Kind, "group")?;
    object.put(Key::Span, span_value(alloc, span)?)?;
    Ok(object.into_value())
}

#[cycle(symbols)]
#[tactic(auto, unfolding(lalrpop_json_values::specs::Key::key_text, lalrpop_json_values::specs::Word::word_text))]
fn macro_value(alloc: Global, span: Span, name: &str, args: &[Symbol]) -> Result<Value, AllocError>
    ensures { IfOk result (λ value.
        view value ≡ macro_json span name.now (list_json symbol_json args.now)) }
{
    let mut object = JsonObject::new(alloc);
    object.put(Key::Args, symbols_value(alloc, args)?)?;
    object.put_text(Key::Kind, "macro")?;
    object.put_text(Key::Name, name)?;
    object.put(Key::Span, span_value(alloc, span)?)?;
    Ok(object.into_value())
}

#[cycle(symbols)]
#[tactic(auto, unfolding(lalrpop_json_values::specs::Key::key_text, lalrpop_json_values::specs::Word::word_text))]
fn repeat_value(
    alloc: Global,
    span: Span,
    op: RepeatOp,
    repeated: &Symbol,
) -> Result<Value, AllocError>
    ensures { IfOk result (λ value.
        view value ≡ repeat_json span op (symbol_json repeated.now)) }
{
    let mut object = JsonObject::new(alloc);
    object.put_text(Key::Kind, "repeat")?;
    object.put_text(Key::Op, sign(op))?;
    object.put(Key::Span, span_value(alloc, span)?)?;
    object.put(Key::Symbol, symbol_value(alloc, repeated)?)?;
    Ok(object.into_value())
}

#[cycle(symbols)]
#[tactic(auto, unfolding(lalrpop_json_values::specs::Key::key_text, lalrpop_json_values::specs::Word::word_text))]
fn choose_value(alloc: Global, span: Span, chosen: &Symbol) -> Result<Value, AllocError>
    ensures { IfOk result (λ value. view value ≡ choose_json span (symbol_json chosen.now)) }
{
    let mut object = JsonObject::new(alloc);
    object.put_text(Key::Kind, "choose")?;
    object.put(Key::Span, span_value(alloc, span)?)?;
    object.put(Key::Symbol, symbol_value(alloc, chosen)?)?;
    Ok(object.into_value())
}

#[cycle(symbols)]
#[tactic(auto, unfolding(lalrpop_json_values::specs::Key::key_text, lalrpop_json_values::specs::Word::word_text))]
fn named_value(alloc: Global, span: Span, name: &Name, named: &Symbol) -> Result<Value, AllocError>
    ensures { IfOk result (λ value. view value
        ≡ named_json span name.now.mutable name.now.name (symbol_json named.now)) }
{
    let mut object = JsonObject::new(alloc);
    object.put_text(Key::Kind, "named")?;
    object.put(Key::Mutable, Value::from(name.mutable))?;
    object.put_text(Key::Name, name.name.as_str())?;
    object.put(Key::Span, span_value(alloc, span)?)?;
    object.put(Key::Symbol, symbol_value(alloc, named)?)?;
    Ok(object.into_value())
}

/// The symbol as an object, or `null` where its kind has none. The value of a symbol without a spelling isn't read.
#[cycle(symbols)]
pub(crate) fn symbol_value(alloc: Global, symbol: &Symbol) -> Result<Value, AllocError>
    ensures { IfOk result (λ value. view value ≡ symbol_json symbol.now) }
{
    let span = symbol.span;
    match &symbol.kind {
        SymbolKind::Expr(group) => group_value(alloc, span, group.symbols.as_slice()),
        SymbolKind::AmbiguousId(name) => id_value(alloc, span, name.as_str()),
        SymbolKind::Terminal(terminal) => terminal_symbol_value(alloc, span, terminal),
        SymbolKind::Nonterminal(_) => Ok(Value::Null),
        SymbolKind::Macro(call) => {
            macro_value(alloc, span, call.name.0.as_str(), call.args.as_slice())
        }
        SymbolKind::Repeat(repeat) => {
            repeat_value(alloc, span, repeat.get().op, &repeat.get().symbol)
        }
        SymbolKind::Choose(chosen) => choose_value(alloc, span, chosen.get()),
        SymbolKind::Name(name, named) => named_value(alloc, span, name, named.get()),
        SymbolKind::Lookahead => look_value(alloc, span, Word::Lookahead),
        SymbolKind::Lookbehind => look_value(alloc, span, Word::Lookbehind),
        SymbolKind::Error => look_value(alloc, span, Word::Error),
    }
}

/// The symbols as a list.
#[cycle(symbols)]
#[tactic(auto, using(crate::proofs::ListLemmas::listed))]
pub fn symbols_value(alloc: Global, symbols: &[Symbol]) -> Result<Value, AllocError>
    ensures { IfOk result (λ value. view value ≡ list_json symbol_json symbols.now) }
{
    let mut values = Vec::new(alloc);
    for symbol in symbols {
        values.push(symbol_value(alloc, symbol)?)?;
    }
    Ok(Value::Array(values))
}
